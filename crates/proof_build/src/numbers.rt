//! The numbers of predicates.

ghost use Rattle.std.specs.Prelude.{◌≡◌, ◌+◌, ◌<◌, ◌^◌, ℕ, Bool, Some, [], ◌∷◌, IfOk, OnErr, MatchOption, length};
ghost use Rattle.triple_rows.specs.declared.predicates.PredNode.TheVariants.{Truth};
ghost use Rattle.triple_rows.specs.Predicates.{truth, formula_of};
ghost use Rattle.proof_build.specs.Numbering.{IsNumber, truth_number, AreNumbers, number_at};

use itp_automaton::Predicates;
use std::alloc::{AllocError, Global};
use triple_rows::{Pred, PredNode, Scoped};

/// The number of true and of false, none of other predicates.
fn number_of_truth(pred: &Pred) -> Option<u32>
    ensures { MatchOption result ((b : Bool) → formula_of pred.now ≡ truth b → ⊥) (λ k. (b : Bool) × (pred.now ≡ Truth b ∷ []) × (k ≡ truth_number b)) }
{
    match pred.nodes() {
        [PredNode::Truth(true)] => Some(0),
        [PredNode::Truth(false)] => Some(1),
        _ => None,
    }
}

/// The number of a predicate, if it has one. No memory is left for it only where 32 bits do not count the predicates.
pub(crate) fn number_of(preds: &Predicates, scoped: &Scoped) -> Result<Option<u32>, AllocError>
    ensures number { IfOk result (IsNumber preds.now scoped.now) }
    ensures truths { IfOk result (λ o. (b : Bool) → formula_of scoped.now.pred ≡ truth b → o ≡ Some (truth_number b)) }
    ensures many { OnErr result (2 ^ 32 < 2 + length preds.now) }
{
    if let Some(number) = number_of_truth(&scoped.pred) {
        return Ok(Some(number));
    }
    let Some(index) = preds.place_of(scoped) else {
        return Ok(None);
    };
    match u32::try_from(index) {
        Ok(index) if index < u32::MAX - 1 => Ok(Some(index + 2)),
        _ => Err(AllocError),
    }
}

/// The number of each state, if it has one.
pub(crate) fn numbers_of(
    alloc: Global,
    preds: &Predicates,
    states: &[Scoped],
) -> Result<Vec<Option<u32>>, AllocError>
    ensures numbers { IfOk result (λ v. AreNumbers preds.now states.now (number_at v.items)) }
    ensures within { IfOk result (λ v. (q k : ℕ) → number_at v.items q ≡ Some k → k < 2 + length preds.now) }
{
    let mut numbers = Vec::with_capacity(alloc, states.len())?;
    for state in states {
        numbers.push(number_of(preds, state)?)?;
    }
    Ok(numbers)
}

/// The number of a state, if it has one.
pub(crate) fn at(numbers: &[Option<u32>], state: u32) -> Option<u32>
    ensures { result ≡ number_at numbers.now state }
{
    match numbers.get(state as usize) {
        Some(number) => *number,
        None => None,
    }
}
