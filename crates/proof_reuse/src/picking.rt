//! The candidates by a letter.

ghost use Rattle.std.specs.Prelude.{◌≡◌, ◌<◌, map, length, IfOk, MatchOption, slice_get};
ghost use Rattle.std.specs.List.{AllByRecursion};
ghost use Rattle.nwa_base.specs.Members.{SameMembers};
ghost use Rattle.letter_acts.specs.Invariant.{alphabet_of};
ghost use Rattle.triple_rows.specs.declared.triples.Triple.{Triple};
ghost use Rattle.triple_rows.specs.Triples.{Agrees};
ghost use Rattle.proof_form.specs.Annotations.{Content};
ghost use Rattle.proof_names.specs.Scopes.{call_scopes};
ghost use Rattle.proof_reuse.specs.Ties.Choices as spec;
ghost use Rattle.proof_reuse.specs.Ties.Choices.{IsPicked, ArePicked, AreCandidatesBy, IsTakenFrom};
ghost use Rattle.proof_reuse.specs.Ties.Views.{taken};

use crate::choosing::{call_pair_choices, pair_choices, three_choices};
use crate::taking::Earlier;
use letter_acts::{Act, Icfg};
use proof_names::{Listed, triple_at};
use std::alloc::{AllocError, Global};
use triple_rows::{Scoped, Triple, agrees};

/// Inside triples by a letter.
fn insides(alloc: Global, pairs: &[(usize, usize)], letter: u32) -> Result<Vec<Listed>, AllocError>
    ensures { IfOk result (λ v. v.items ≡ map (spec.inside_listed letter) pairs.now) }
{
    pairs
        .iter()
        .map(|pair| Listed::Inside {
            from: pair.0,
            letter,
            to: pair.1,
        })
        .collect(alloc)
}

/// Call triples by a letter.
fn calls(alloc: Global, pairs: &[(usize, usize)], letter: u32) -> Result<Vec<Listed>, AllocError>
    ensures { IfOk result (λ v. v.items ≡ map (spec.call_listed letter) pairs.now) }
{
    pairs
        .iter()
        .map(|pair| Listed::Call {
            from: pair.0,
            letter,
            to: pair.1,
        })
        .collect(alloc)
}

/// Return triples by a letter.
fn backs(
    alloc: Global,
    threes: &[(usize, usize, usize)],
    letter: u32,
) -> Result<Vec<Listed>, AllocError>
    ensures { IfOk result (λ v. v.items ≡ map (spec.back_listed letter) threes.now) }
{
    threes
        .iter()
        .map(|three| Listed::Back {
            exit: three.0,
            before: three.1,
            letter,
            to: three.2,
        })
        .collect(alloc)
}

/// The choices by an inside letter of a procedure.
fn inside_choices(
    alloc: Global,
    earlier: &Earlier,
    letter: u32,
    proc: u32,
) -> Result<Vec<Listed>, AllocError>
    ensures { IfOk result (λ v. SameMembers v.items (map (spec.inside_listed letter) (spec.pair_choices earlier.now.preds.items earlier.now.insides.keys proc proc))) }
{
    let pairs = earlier.insides.as_slice();
    let choices = pair_choices(alloc, &earlier.preds, pairs, proc, proc)?;
    insides(alloc, choices.as_slice(), letter)
}

/// The choices by a call letter of a caller and a callee.
fn call_choices(
    alloc: Global,
    earlier: &Earlier,
    letter: u32,
    caller: u32,
    callee: u32,
) -> Result<Vec<Listed>, AllocError>
    ensures { IfOk result (λ v. SameMembers v.items (map (spec.call_listed letter) (spec.call_pair_choices earlier.now.preds.items earlier.now.calls.keys caller callee))) }
{
    let pairs = earlier.calls.as_slice();
    let choices = call_pair_choices(alloc, &earlier.preds, pairs, caller, callee)?;
    calls(alloc, choices.as_slice(), letter)
}

/// The caller and the callee of a call letter.
fn call_scopes(icfg: &Icfg, letter: u32) -> Option<(u32, u32)>
    ensures { result ≡ call_scopes (slice_get icfg.now.acts letter) }
{
    match icfg.act(letter) {
        Some(Act::Call { caller, callee, .. }) => Some((*caller, *callee)),
        _ => None,
    }
}

/// The choices by a return from this call letter.
fn return_choices(
    alloc: Global,
    icfg: &Icfg,
    earlier: &Earlier,
    letter: u32,
    call: u32,
) -> Result<Vec<Listed>, AllocError>
    ensures { IfOk result (λ v. SameMembers v.items (spec.return_choices (taken earlier.now) letter (slice_get icfg.now.acts call))) }
{
    let Some(scopes) = call_scopes(icfg, call) else {
        return Ok(Vec::new(alloc));
    };
    let threes = earlier.backs.as_slice();
    let choices = three_choices(alloc, &earlier.preds, threes, scopes.1, scopes.0)?;
    backs(alloc, choices.as_slice(), letter)
}

/// The choices by a letter.
fn choices_by(
    alloc: Global,
    icfg: &Icfg,
    earlier: &Earlier,
    letter: u32,
) -> Result<Vec<Listed>, AllocError>
    requires { letter < length icfg.now.acts }
    ensures { IfOk result (λ v. SameMembers v.items (spec.choices_by icfg.now (taken earlier.now) letter)) }
{
    match icfg.act_at(letter) {
        Act::Inside { proc, .. } => inside_choices(alloc, earlier, letter, *proc),
        Act::Call { caller, callee, .. } => call_choices(alloc, earlier, letter, *caller, *callee),
        Act::Back { call, .. } => return_choices(alloc, icfg, earlier, letter, *call),
    }
}

/// The triple with these numbers, where it agrees with its letter.
fn picked(
    alloc: Global,
    icfg: &Icfg,
    preds: &[Scoped],
    listed: &Listed,
) -> Result<Option<Triple>, AllocError>
    ensures { IfOk result (λ o. MatchOption o ((t : Triple) → IsPicked icfg.now preds.now listed.now t → ⊥) (IsPicked icfg.now preds.now listed.now)) }
{
    let Some(triple) = triple_at(alloc, icfg, preds, *listed)? else {
        return Ok(None);
    };
    if !agrees(icfg, &triple) {
        drop(triple);
        return Ok(None);
    }
    Ok(Some(triple))
}

/// The triples with these numbers that agree with their letters.
fn all_picked(
    alloc: Global,
    icfg: &Icfg,
    preds: &[Scoped],
    listed: &[Listed],
) -> Result<Vec<Triple>, AllocError>
    ensures { IfOk result (λ v. ArePicked icfg.now preds.now listed.now v.items) }
{
    let mut triples = Vec::new(alloc);
    for numbers in listed {
        if let Some(triple) = picked(alloc, icfg, preds, numbers)? {
            triples.push(triple)?;
        }
    }
    Ok(triples)
}

/// The candidates by a letter.
pub(crate) fn candidates_by(
    alloc: Global,
    icfg: &Icfg,
    earlier: &Earlier,
    letter: u32,
) -> Result<Vec<Triple>, AllocError>
    requires { letter < length icfg.now.acts }
    ensures agree { IfOk result (λ v. AllByRecursion (Agrees (alphabet_of icfg.now)) v.items) }
    ensures candidates { IfOk result (λ v. (old : Content) → IsTakenFrom icfg.now old (taken earlier.now) → AreCandidatesBy icfg.now old letter v.items) }
{
    let listed = choices_by(alloc, icfg, earlier, letter)?;
    all_picked(alloc, icfg, &earlier.preds, &listed)
}
