//! Words read letter by letter, with the set of pairs of states that the word can lead to.

ghost use Rattle.std.specs.Prelude.{◌≡◌, ◌↔◌, ℕ, List, [], ◌∷◌, IsTrue, IfOk, MatchOption};
ghost use Rattle.nwa_base.specs.declared.letters.Letter.{Letter};
ghost use Rattle.nwa_base.specs.Members.{Member};
ghost use Rattle.nwa_base.specs.Acceptance.{Accepts};
ghost use Rattle.nwa_base.specs.Runs.{IsAcceptingRun};
ghost use Rattle.nwa_base.specs.Pairs.{SomeAccepts, HasFinal};
ghost use Rattle.nwa_base.specs.Ties.Reading.{sets_of, IsStep};

use crate::automata::Nwa;
use crate::letters::{Kind, Letter};
use crate::pairs::{Pair, on_back, on_call, on_inside};
use crate::words::Word;
use std::alloc::{AllocError, Global};

/// How a letter was read. A step keeps the sets of pairs that later letters do not need.
#[derive(Drop)]
pub enum Step {
    /// An inside letter: the set before it.
    Inside(Vec<Pair>),
    /// A call letter. The set before it is saved for the matching return.
    Call,
    /// A return: the set before the matching call, and the set before the return.
    Back(Vec<Pair>, Vec<Pair>),
}

/// Whether the automaton accepts the word: some run over it ends in a final state, whatever calls are then open.
/// For one automaton the time is linear in the length of the word.
pub fn accepts(alloc: Global, nwa: &Nwa, word: &Word) -> Result<bool, AllocError>
    ensures accepts { IfOk result (λ yes. IsTrue yes ↔ Accepts nwa.now word.now) }
    ensures runs { IfOk result (λ yes. IsTrue yes ↔ ((run : List ℕ) × IsAcceptingRun nwa.now word.now run)) }
{
    let mut here = vec![in alloc; (nwa.start(), nwa.start())]?;
    let mut saved = Vec::new(alloc);
    for &letter in word.letters() {
        match read_letter(alloc, nwa, here, &mut saved, letter)? {
            Some((next, _)) => here = next,
            None => return Ok(false),
        }
    }
    Ok(has_final(nwa, here.as_slice()))
}

/// Reads one letter: the next set and the step, or `None` where no run goes on. `saved` are the sets before the open calls.
pub fn read_letter(
    alloc: Global,
    nwa: &Nwa,
    here: Vec<Pair>,
    saved: &mut Vec<Vec<Pair>>,
    letter: Letter,
) -> Result<Option<(Vec<Pair>, Step)>, AllocError>
    ensures { IfOk result (λ o. MatchOption o
        ((w : List Letter) → SomeAccepts nwa.now (here.items ∷ sets_of saved.old.items) (letter ∷ w) → ⊥)
        (λ r. IsStep nwa.now letter r.1 (here.items ∷ sets_of saved.old.items) (r.0.items ∷ sets_of saved.new.items))) }
{
    match letter.kind {
        Kind::Inside => {
            let next = on_inside(alloc, nwa, here.as_slice(), letter)?;
            Ok(Some((next, Step::Inside(here))))
        }
        Kind::Call => {
            let next = on_call(alloc, nwa, here.as_slice(), letter)?;
            saved.push(here)?;
            Ok(Some((next, Step::Call)))
        }
        Kind::Back => {
            let Some(outer) = saved.pop() else {
                return Ok(None);
            };
            let next = on_back(alloc, nwa, outer.as_slice(), here.as_slice(), letter)?;
            Ok(Some((next, Step::Back(outer, here))))
        }
    }
}

/// Whether a pair ends in a final state.
pub fn has_final(nwa: &Nwa, set: &[Pair]) -> bool
    ensures { IsTrue result ↔ HasFinal nwa.now set.now }
{
    final_pair(nwa, set).is_some()
}

/// A pair that ends in a final state, if there is one.
pub fn final_pair(nwa: &Nwa, set: &[Pair]) -> Option<Pair>
    ensures { MatchOption result (HasFinal nwa.now set.now → ⊥) (λ x. Member set.now x × Member nwa.now.finals x.1) }
{
    for &pair in set {
        if nwa.is_final(pair.1) {
            return Some(pair);
        }
    }
    None
}
