//! Words spelled by letters.

ghost use Rattle.std.specs.Prelude.{◌≡◌, ◌↔◌, [], false, IsSome, MatchOption};
ghost use Rattle.nwa_base.specs.Words.{are_matched, HasMatches};

use crate::letters::{Kind, Letter};
use crate::words::Word;

/// The word of these letters, or `None` exactly where a return is pending.
pub fn word(letters: Vec<Letter>) -> Option<Word>
    ensures value { MatchOption result (are_matched 0 letters.items ≡ false) (λ w. w ≡ letters.items) }
    ensures matched { IsSome result ↔ HasMatches [] letters.items }
{
    if are_matched(letters.as_slice()) {
        Some(Word::new(letters))
    } else {
        None
    }
}

/// Whether each return has a match.
fn are_matched(letters: &[Letter]) -> bool
    ensures { result ≡ are_matched 0 letters.now }
{
    let mut calls: usize = 0;
    for letter in letters {
        match letter.kind {
            Kind::Inside => {}
            Kind::Call => calls += 1,
            Kind::Back => {
                if calls == 0 {
                    return false;
                }
                calls -= 1;
            }
        }
    }
    true
}
