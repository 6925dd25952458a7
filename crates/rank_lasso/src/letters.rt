//! Letters by their numbers.

ghost use Rattle.std.specs.Prelude.{◌≡◌, ◌≢◌, ℕ, ◌^◌, ◌<◌, ◌∷◌, IfOk, MatchOption};
ghost use Rattle.std.specs.Fmt.{decimal};
ghost use Rattle.rank_lasso.specs.LassoText.{letters_text, AreShort};
ghost use Rattle.rank_lasso.specs.Lines.{ReadsItem, ReadsAll};

use crate::cutting::word_at;
use boogie_tree::names::all_digits;
use std::alloc::{AllocError, Global};
use trace_replay::number_of;

/// The letters that the bytes are, a space before each.
pub fn letters_of(alloc: Global, bytes: &[u8]) -> Result<Option<Vec<u32>>, AllocError>
    ensures { IfOk result (ReadsAll (λ v. v.items) AreShort letters_text bytes.now) }
{
    let mut letters = Vec::new(alloc);
    let mut rest = bytes;
    while !rest.is_empty() {
        let Some((letter, behind)) = letter_at(rest) else {
            return Ok(None);
        };
        letters.push(letter)?;
        rest = behind;
    }
    Ok(Some(letters))
}

/// A space and a letter.
fn letter_at(bytes: &[u8]) -> Option<(u32, &[u8])>
    ensures { ReadsItem (λ n. n < 2 ^ 32) (λ n. 32 ∷ decimal n) bytes.now result }
{
    let (word, rest) = word_at(bytes)?;
    Some((letter(word)?, rest))
}

/// The number of a letter.
fn letter(word: &[u8]) -> Option<u32>
    ensures { MatchOption result ((n : ℕ) → n < 2 ^ 32 → word.now ≢ decimal n) (λ n. (n < 2 ^ 32) × (word.now ≡ decimal n)) }
{
    if !all_digits(word) {
        return None;
    }
    u32::try_from(number_of(word)?).ok()
}
