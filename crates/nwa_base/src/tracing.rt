//! Accepting runs, traced back from their last state.

ghost use Rattle.std.specs.Prelude.{ℕ, List, ◌∷◌, reverse, IfOk, MatchOption};
ghost use Rattle.nwa_base.specs.Members.{Member};
ghost use Rattle.nwa_base.specs.Runs.{IsAcceptingRun};
ghost use Rattle.nwa_base.specs.Ties.Reading.{sets_of};
ghost use Rattle.nwa_base.specs.Acceptance.{Accepts};
ghost use Rattle.nwa_base.specs.Ties.Tracing.{first_sets, IsPast, IsRead, CanStepBack, StepsBack, CallsBack, GoesOut};

use crate::automata::Nwa;
use crate::letters::Letter;
use crate::pairs::{Pair, holds};
use crate::reading::{Step, final_pair, read_letter};
use crate::words::Word;
use std::alloc::{AllocError, Global};

/// A word that was read.
#[derive(Drop)]
pub struct Past {
    /// The set after the last letter.
    here: Vec<Pair>,
    /// The sets before the calls that are open at the end.
    saved: Vec<Vec<Pair>>,
    /// A step for each letter.
    steps: Vec<Step>,
}

/// The states of a run over the word that ends in a final state, one more than the word has letters, or `None` exactly where
/// there is no such run. For one automaton the time is linear in the length of the word.
pub fn run_of(alloc: Global, nwa: &Nwa, word: &Word) -> Result<Option<Vec<u32>>, AllocError>
    ensures { IfOk result (λ o. MatchOption o
        (((run : List ℕ) × IsAcceptingRun nwa.now word.now run) → ⊥)
        (λ run. IsAcceptingRun nwa.now word.now run.items)) }
{
    let Some(past) = past_of(alloc, nwa, word.letters())? else {
        return Ok(None);
    };
    let Some(last) = final_pair(nwa, past.here.as_slice()) else {
        return Ok(None);
    };
    let run = traced(alloc, nwa, word.letters(), past.steps, past.saved, last)?;
    Ok(Some(run))
}

/// Reads a word and keeps its steps, or answers `None` where no run goes through it.
fn past_of(alloc: Global, nwa: &Nwa, letters: &[Letter]) -> Result<Option<Past>, AllocError>
    ensures { IfOk result (λ o. MatchOption o
        (Accepts nwa.now letters.now → ⊥)
        (λ p. IsRead nwa.now letters.now p.steps.items p.here.items (sets_of p.saved.items))) }
{
    let mut here = vec![in alloc; (nwa.start(), nwa.start())]?;
    let mut saved = Vec::new(alloc);
    let mut steps = Vec::new(alloc);
    for &letter in letters {
        let Some((next, step)) = read_letter(alloc, nwa, here, &mut saved, letter)? else {
            return Ok(None);
        };
        here = next;
        steps.push(step)?;
    }
    Ok(Some(Past { here, saved, steps }))
}

/// The run that ends in the state of `last`, a pair of the last set with a final state.
fn traced(
    alloc: Global,
    nwa: &Nwa,
    letters: &[Letter],
    mut steps: Vec<Step>,
    mut saved: Vec<Vec<Pair>>,
    last: Pair,
) -> Result<Vec<u32>, AllocError>
    requires read { (s : List (ℕ × ℕ)) × IsPast nwa.now (first_sets nwa.now) letters.now steps.items (s ∷ sets_of saved.items) × Member s last }
    requires ends { Member nwa.now.finals last.1 }
    ensures { IfOk result (λ run. IsAcceptingRun nwa.now letters.now run.items) }
{
    let mut here = last;
    let mut keys = Vec::new(alloc);
    let mut run = vec![in alloc; last.1]?;
    while let Some(step) = steps.pop() {
        let letter = letters[steps.len()];
        here = step_back(nwa, letter, step, here, &mut keys, &mut saved)?;
        run.push(here.1)?;
    }
    run.reverse();
    Ok(run)
}

/// The pair before a letter, from which an edge leads to the pair `here`. `keys` are the states that the runs have before the
/// calls around the next one, for the calls whose return was stepped over; `saved` are the sets before the other open calls.
fn step_back(
    nwa: &Nwa,
    letter: Letter,
    step: Step,
    here: Pair,
    keys: &mut Vec<u32>,
    saved: &mut Vec<Vec<Pair>>,
) -> Result<Pair, AllocError>
    requires { CanStepBack nwa.now letter step (reverse keys.old.items) here (sets_of saved.old.items) }
    ensures { IfOk result (λ before. StepsBack nwa.now letter step (reverse keys.old.items) here (sets_of saved.old.items) (reverse keys.new.items) before (sets_of saved.new.items)) }
{
    match step {
        Step::Inside(before) => Ok((
            here.0,
            state_before_inside(nwa, before.as_slice(), here, letter),
        )),
        Step::Call => Ok((key_before_call(keys, saved, here.0), here.0)),
        Step::Back(outer, before) => {
            keys.push(here.0)?;
            Ok(pair_before_back(nwa, outer.as_slice(), before.as_slice(), here, letter))
        }
    }
}

/// The state of the set from which an edge by the inside letter leads to the pair `here`.
fn state_before_inside(nwa: &Nwa, before: &[Pair], here: Pair, letter: Letter) -> u32
    requires { (q : ℕ) × Member before.now (here.0, q) × Member nwa.now.insides (q, letter, here.1) }
    ensures { Member before.now (here.0, result) × Member nwa.now.insides (result, letter, here.1) }
{
    for &(key, q) in before {
        if key == here.0 && nwa.has_inside(q, letter, here.1) {
            return q;
        }
    }
    unreachable!()
}

/// The pair of the set from which an edge by the return leads to the pair `here`; the set before the call is `outer`.
fn pair_before_back(nwa: &Nwa, outer: &[Pair], before: &[Pair], here: Pair, letter: Letter) -> Pair
    requires { (p : ℕ) × (q : ℕ) × Member outer.now (here.0, p) × Member before.now (p, q) × Member nwa.now.backs (q, p, letter, here.1) }
    ensures { Member outer.now (here.0, result.0) × Member before.now result × Member nwa.now.backs (result.1, result.0, letter, here.1) }
{
    for &(p, q) in before {
        if nwa.has_back(q, p, letter, here.1) && holds(outer, (here.0, p)) {
            return (p, q);
        }
    }
    unreachable!()
}

/// The key of the pair before a call letter, where `p` is its state.
fn key_before_call(keys: &mut Vec<u32>, saved: &mut Vec<Vec<Pair>>, p: u32) -> u32
    requires { CallsBack (reverse keys.old.items) (sets_of saved.old.items) p }
    ensures { GoesOut (reverse keys.old.items) (sets_of saved.old.items) p (reverse keys.new.items) (sets_of saved.new.items) result }
{
    if let Some(key) = keys.pop() {
        return key;
    }
    match saved.pop() {
        Some(set) => key_of(set.as_slice(), p),
        None => unreachable!(),
    }
}

/// The key of a pair of the set with this state.
fn key_of(set: &[Pair], p: u32) -> u32
    requires { (k : ℕ) × Member set.now (k, p) }
    ensures { Member set.now (result, p) }
{
    for &(key, state) in set {
        if state == p {
            return key;
        }
    }
    unreachable!()
}
