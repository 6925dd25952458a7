//! A word of both languages.

ghost use Rattle.std.specs.Prelude.{◌≡◌, ◌↔◌, Ok, None, List, IfOk, IfSome, MatchOption};
ghost use Rattle.nwa_base.specs.declared.letters.Letter.{Letter};
ghost use Rattle.nwa_base.specs.Acceptance.{Accepts};
ghost use Rattle.letter_acts.specs.Invariant.{alphabet_of};
ghost use Rattle.itp_automaton.specs.Certified.{IsCertified};

use itp_automaton::Certified;
use letter_acts::Icfg;
use nwa_base::{Nwa, Word, accepts};
use nwa_difference::difference;
use nwa_emptiness::{Found, find};
use race_core::Entry;
use std::alloc::{AllocError, Global};

/// An automaton that accepts what both do: what the first does, without what it does and the second does not.
fn common(alloc: Global, first: &Nwa, second: &Nwa) -> Result<Nwa, AllocError>
    ensures { IfOk result (λ c. (w : List Letter) → Accepts c w ↔ (Accepts first.now w × ((Accepts second.now w → ⊥) → ⊥))) }
{
    let others = difference(alloc, first, second)?;
    let both = difference(alloc, first, &others);
    drop(others);
    both
}

/// A word of what both accept; `None` exactly where there is none.
fn word_of(alloc: Global, both: &Nwa, second: &Nwa) -> Result<Option<Word>, AllocError>
    requires { (w : List Letter) → Accepts both.now w → (Accepts second.now w → ⊥) → ⊥ }
    ensures { IfOk result (λ o. MatchOption o
        ((w : List Letter) → Accepts both.now w → ⊥)
        (λ w. Accepts both.now w × Accepts second.now w)) }
{
    match find(alloc, both, 0)? {
        Found::Word(word) => {
            // The differences leave open whether it is accepted, so it is read.
            if !accepts(alloc, second, &word)? {
                unreachable!()
            }
            Ok(Some(word))
        }
        Found::Empty => Ok(None),
    }
}

/// A word that both accept; `None` exactly where there is none.
fn common_word(alloc: Global, first: &Nwa, second: &Nwa) -> Result<Option<Word>, AllocError>
    ensures { IfOk result (λ o. MatchOption o
        ((w : List Letter) → Accepts first.now w → Accepts second.now w → ⊥)
        (λ w. Accepts first.now w × Accepts second.now w)) }
{
    let both = common(alloc, first, second)?;
    let word = word_of(alloc, &both, second);
    drop(both);
    word
}

/// An entry of the automaton, with a word that it and the program accept; `None` exactly where there is none.
pub fn first(
    alloc: Global,
    icfg: &Icfg,
    reused: Certified,
) -> Result<Option<Entry<Certified>>, AllocError>
    requires { IsCertified (alphabet_of icfg.now) reused }
    ensures entry { IfOk result (λ r. IfSome r (λ e. (e.evidence ≡ reused) × Accepts icfg.now.automaton e.word × Accepts reused.automaton e.word)) }
    ensures none { result ≡ Ok None → (w : List Letter) → Accepts icfg.now.automaton w → Accepts reused.automaton w → ⊥ }
{
    let Ok(found) = common_word(alloc, icfg.nwa(), reused.nwa()) else {
        drop(reused);
        return Err(AllocError);
    };
    let Some(word) = found else {
        drop(reused);
        return Ok(None);
    };
    Ok(Some(Entry {
        word,
        evidence: reused,
    }))
}
