//! The states: predicates, each once.

ghost use Rattle.std.specs.Prelude.{◌≡◌, ◌<◌, ◌^◌, Some, [], IfOk, OnOk, OnErr, MatchOption, length, slice_get};
ghost use Rattle.nwa_base.specs.Members.{Member};
ghost use Rattle.triple_rows.specs.Predicates.{SpellsPredicate};
ghost use Rattle.itp_automaton.specs.Making.{AreStates};
ghost use Rattle.triple_rows.specs.Triples.{truth_of};
ghost use Rattle.itp_automaton.specs.Ties.States.{AddsState, truths_below};

use crate::finding::Predicates;
use std::alloc::{AllocError, Global};
use triple_rows::{PredNode, Scoped, pred};

/// The number of the state that is the predicate. No memory is left for it only where there are more states than 32 bits count.
pub(crate) fn state_number(states: &Predicates, pred: &Scoped) -> Result<Option<u32>, AllocError>
    ensures number { IfOk result (λ o. MatchOption o (Member states.now pred.now → ⊥) (λ q. (slice_get states.now q ≡ Some pred.now) × SpellsPredicate pred.now.pred)) }
    ensures many { OnErr result (2 ^ 32 < length states.now) }
{
    match states.place_of(pred) {
        None => Ok(None),
        Some(q) => match u32::try_from(q) {
            Ok(number) => Ok(Some(number)),
            Err(_) => Err(AllocError),
        },
    }
}

/// Adds a predicate, unless it is there.
fn add_state(states: &mut Predicates, state: Scoped) -> Result<(), AllocError>
    ensures { OnOk result (AddsState states.old state states.new) }
{
    match states.place_of(&state) {
        Some(_) => Ok(()),
        None => {
            states.push(state)?;
            Ok(())
        }
    }
}

/// True, or false, of a procedure.
pub(crate) fn truth(alloc: Global, proc: u32, value: bool) -> Result<Scoped, AllocError>
    ensures { IfOk result (λ s. s ≡ truth_of proc value) }
{
    let nodes = vec![in alloc; PredNode::Truth(value)]?;
    let Some(pred) = pred(nodes) else {
        unreachable!()
    };
    Ok(Scoped { proc, pred })
}

/// The same, whose copies share what it is made of.
fn shared_truth(alloc: Global, proc: u32, value: bool) -> Result<Scoped, AllocError>
    ensures { IfOk result (λ s. s ≡ truth_of proc value) }
{
    truth(alloc, proc, value)?.copy()
}

/// True and false of so many procedures. No two of them are equal, so none is searched for.
fn truths(alloc: Global, procedures: usize) -> Result<Predicates, AllocError>
    ensures { IfOk result (λ states. states ≡ truths_below procedures) }
{
    let Ok(count) = u32::try_from(procedures) else {
        return Err(AllocError);
    };
    let mut states = Predicates::new(alloc);
    for proc in 0..count {
        states.push(shared_truth(alloc, proc, true)?)?;
        states.push(shared_truth(alloc, proc, false)?)?;
    }
    Ok(states)
}

/// True and false of so many procedures and the predicates of the list, each once.
pub(crate) fn states_with(
    alloc: Global,
    procedures: usize,
    preds: Vec<Scoped>,
) -> Result<Predicates, AllocError>
    ensures { IfOk result (AreStates procedures preds.items) }
{
    let mut states = truths(alloc, procedures)?;
    for pred in preds {
        add_state(&mut states, pred)?;
    }
    Ok(states)
}
