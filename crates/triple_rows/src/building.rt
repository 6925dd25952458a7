//! The systems of inside, call and return triples, put together in the order of their rows.

ghost use Rattle.std.specs.Prelude.{◌≡◌, ◌+◌, ◌<◌, ◌≤◌, ◌^◌, Err, IfOk, OnOk, length};
ghost use Rattle.std.specs.List.{AllByRecursion};
ghost use Rattle.math_facts.specs.Terms.{IsBelow};
ghost use Rattle.letter_acts.specs.Frames.{globals_of, olds_of};
ghost use Rattle.letter_acts.specs.Invariant.{AreDistinct, written_by};
ghost use Rattle.triple_rows.specs.Predicates.{IsOver, SpellsPredicate, formula_of};
ghost use Rattle.triple_rows.specs.Systems.{PlainFits, IsSystem, inside_system, call_system, back_system};
ghost use Rattle.triple_rows.specs.Ties.Known.{TiesAreWithin, BackIsRead, AreReturnTables};
ghost use Rattle.triple_rows.specs.Ties.Drafts.{Adds, AddsAll, return_ties};
ghost use Rattle.triple_rows.specs.Ties.Tables.{IsTable};

use crate::adding::add_pred;
use crate::drafts::Draft;
use crate::frames::local_targets;
use crate::predicates::Pred;
use crate::tables::{after_columns, call_columns, shifted_columns};
use crate::ties::{
    add_class, add_copies, add_frame_bounds, add_kept, add_olds, add_renamed, add_results,
    add_written_bounds,
};
use boogie_tree::{Column, VarInfo};
use letter_acts::frame_rows::{Class, numbers_of};
use lin_rows::{Row, RowFault, System};
use std::alloc::{AllocError, Global};

/// The system of an inside triple.
pub(crate) fn inside_triple(
    alloc: Global,
    frame: &[(Column, VarInfo)],
    written: &[u32],
    rows: &[Row],
    from: &Pred,
    to: &Pred,
) -> Result<System, RowFault>
    requires distinct { AreDistinct written.now }
    requires exist { AllByRecursion (λ c. c < length frame.now) written.now }
    requires numbers { length frame.now + length written.now ≤ 2 ^ 32 }
    requires from_over { IsOver (length frame.now) (formula_of from.now) }
    requires to_over { IsOver (length frame.now) (formula_of to.now) }
    ensures spelled { OnOk result (SpellsPredicate to.now) }
    ensures value { IfOk result (IsSystem (inside_system frame.now written.now rows.now (formula_of from.now) (formula_of to.now))) }
    ensures fits { OnOk result (PlainFits (inside_system frame.now written.now rows.now (formula_of from.now) (formula_of to.now))) }
    ensures past { result ≡ Err RowFault.Past → PlainFits (inside_system frame.now written.now rows.now (formula_of from.now) (formula_of to.now)) → ⊥ }
{
    let count = frame.len();
    let before = shifted_columns(alloc, 0, count)?;
    let after = after_columns(alloc, 0, count, written, count)?;
    let mut draft = Draft::new(alloc);
    add_pred(alloc, from, &before, false, &mut draft)?;
    add_copies(alloc, rows, &mut draft)?;
    add_pred(alloc, to, &after, true, &mut draft)?;
    add_frame_bounds(alloc, 0, frame, &mut draft)?;
    add_written_bounds(alloc, count, frame, written, &mut draft)?;
    Ok(draft.finish())
}

/// The system of a call triple.
pub(crate) fn call_triple(
    alloc: Global,
    caller: &[(Column, VarInfo)],
    callee: &[(Column, VarInfo)],
    rows: &[Row],
    from: &Pred,
    to: &Pred,
) -> Result<System, RowFault>
    requires globals_within { AllByRecursion (λ c. (c < length callee.now) × (c < length caller.now)) (globals_of callee.now) }
    requires olds_within { AllByRecursion (λ o. (o.0 < length callee.now) × (o.1 < length caller.now)) (olds_of callee.now) }
    requires numbers { length caller.now + length callee.now ≤ 2 ^ 32 }
    requires from_over { IsOver (length caller.now) (formula_of from.now) }
    requires to_over { IsOver (length callee.now) (formula_of to.now) }
    ensures spelled { OnOk result (SpellsPredicate to.now) }
    ensures value { IfOk result (IsSystem (call_system caller.now callee.now rows.now (formula_of from.now) (formula_of to.now))) }
    ensures fits { OnOk result (PlainFits (call_system caller.now callee.now rows.now (formula_of from.now) (formula_of to.now))) }
    ensures past { result ≡ Err RowFault.Past → PlainFits (call_system caller.now callee.now rows.now (formula_of from.now) (formula_of to.now)) → ⊥ }
{
    let before = shifted_columns(alloc, 0, caller.len())?;
    let after = shifted_columns(alloc, caller.len(), callee.len())?;
    let mut draft = Draft::new(alloc);
    add_call(
        alloc, caller, callee, rows, from, to, &before, &after, &mut draft,
    )?;
    Ok(draft.finish())
}

/// Adds the system of a call triple, where tables name the columns of both states.
fn add_call(
    alloc: Global,
    caller: &[(Column, VarInfo)],
    callee: &[(Column, VarInfo)],
    rows: &[Row],
    from: &Pred,
    to: &Pred,
    before: &[u32],
    after: &[u32],
    draft: &mut Draft,
) -> Result<(), RowFault>
    requires globals_within { AllByRecursion (λ c. (c < length callee.now) × (c < length caller.now)) (globals_of callee.now) }
    requires olds_within { AllByRecursion (λ o. (o.0 < length callee.now) × (o.1 < length caller.now)) (olds_of callee.now) }
    requires numbers { length caller.now + length callee.now ≤ 2 ^ 32 }
    requires from_over { IsOver (length caller.now) (formula_of from.now) }
    requires to_over { IsOver (length callee.now) (formula_of to.now) }
    requires before { IsTable (length caller.now) (λ c. c) before.now }
    requires after { IsTable (length callee.now) (λ c. length caller.now + c) after.now }
    ensures spelled { OnOk result (SpellsPredicate to.now) }
    ensures adds { OnOk result (Adds (call_system caller.now callee.now rows.now (formula_of from.now) (formula_of to.now)) draft.old draft.new) }
    ensures fits { OnOk result (PlainFits (call_system caller.now callee.now rows.now (formula_of from.now) (formula_of to.now))) }
    ensures past { result ≡ Err RowFault.Past → PlainFits (call_system caller.now callee.now rows.now (formula_of from.now) (formula_of to.now)) → ⊥ }
{
    add_pred(alloc, from, before, false, draft)?;
    add_class(alloc, callee, Class::Global, after, before, draft)?;
    add_olds(alloc, callee, after, before, draft)?;
    add_copies(alloc, rows, draft)?;
    add_pred(alloc, to, after, true, draft)?;
    add_frame_bounds(alloc, 0, caller, draft)?;
    add_frame_bounds(alloc, caller.len(), callee, draft)?;
    Ok(())
}

/// The columns that a return writes in the caller's frame.
fn written_columns(
    alloc: Global,
    caller: &[(Column, VarInfo)],
    targets: &[u32],
) -> Result<Vec<u32>, AllocError>
    requires { length caller.now ≤ 2 ^ 32 }
    ensures { IfOk result (λ v. v.items ≡ written_by caller.now targets.now) }
{
    let mut written = numbers_of(alloc, caller, Class::Variable)?;
    let mut locals = local_targets(alloc, caller, targets)?;
    written.append(&mut locals)?;
    Ok(written)
}

/// The system of a return triple.
pub(crate) fn return_triple(
    alloc: Global,
    caller: &[(Column, VarInfo)],
    callee: &[(Column, VarInfo)],
    helpers: u32,
    rows: &[Row],
    targets: &[u32],
    exit: &Pred,
    before: &Pred,
    to: &Pred,
) -> Result<System, RowFault>
    requires known { BackIsRead caller.now callee.now helpers rows.now targets.now (formula_of exit.now) (formula_of before.now) (formula_of to.now) }
    requires numbers { length callee.now + length caller.now + length (written_by caller.now targets.now) + helpers ≤ 2 ^ 32 }
    ensures spelled { OnOk result (SpellsPredicate to.now) }
    ensures value { IfOk result (IsSystem (back_system caller.now callee.now rows.now targets.now (formula_of exit.now) (formula_of before.now) (formula_of to.now))) }
    ensures fits { OnOk result (PlainFits (back_system caller.now callee.now rows.now targets.now (formula_of exit.now) (formula_of before.now) (formula_of to.now))) }
    ensures past { result ≡ Err RowFault.Past → PlainFits (back_system caller.now callee.now rows.now targets.now (formula_of exit.now) (formula_of before.now) (formula_of to.now)) → ⊥ }
{
    let written = written_columns(alloc, caller, targets)?;
    let at_exit = shifted_columns(alloc, 0, callee.len())?;
    let at_call = shifted_columns(alloc, callee.len(), caller.len())?;
    let both = callee.len() + caller.len();
    let at_end = after_columns(alloc, callee.len(), both, &written, caller.len())?;
    let in_rows = call_columns(
        alloc,
        callee.len(),
        caller.len(),
        written.len(),
        helpers as usize,
    )?;
    let mut draft = Draft::new(alloc);
    add_return(
        alloc, caller, callee, rows, targets, &written, exit, before, to, &at_exit, &at_call,
        &at_end, &in_rows, &mut draft,
    )?;
    Ok(draft.finish())
}

/// Adds the system of a return triple, where tables name the columns of its states and of its call's rows.
fn add_return(
    alloc: Global,
    caller: &[(Column, VarInfo)],
    callee: &[(Column, VarInfo)],
    rows: &[Row],
    targets: &[u32],
    written: &[u32],
    exit: &Pred,
    before: &Pred,
    to: &Pred,
    at_exit: &[u32],
    at_call: &[u32],
    at_end: &[u32],
    in_rows: &[u32],
    draft: &mut Draft,
) -> Result<(), RowFault>
    requires within { TiesAreWithin caller.now callee.now targets.now }
    requires rows_within { AllByRecursion (λ r. IsBelow (length in_rows.now) r.terms) rows.now }
    requires written { written.now ≡ written_by caller.now targets.now }
    requires numbers { length callee.now + length caller.now + length written.now ≤ 2 ^ 32 }
    requires exit_over { IsOver (length callee.now) (formula_of exit.now) }
    requires before_over { IsOver (length caller.now) (formula_of before.now) }
    requires to_over { IsOver (length caller.now) (formula_of to.now) }
    requires tables { AreReturnTables caller.now callee.now (written_by caller.now targets.now) at_exit.now at_call.now at_end.now in_rows.now }
    ensures spelled { OnOk result (SpellsPredicate to.now) }
    ensures adds { OnOk result (Adds (back_system caller.now callee.now rows.now targets.now (formula_of exit.now) (formula_of before.now) (formula_of to.now)) draft.old draft.new) }
    ensures fits { OnOk result (PlainFits (back_system caller.now callee.now rows.now targets.now (formula_of exit.now) (formula_of before.now) (formula_of to.now))) }
    ensures past { result ≡ Err RowFault.Past → PlainFits (back_system caller.now callee.now rows.now targets.now (formula_of exit.now) (formula_of before.now) (formula_of to.now)) → ⊥ }
{
    let both = callee.len() + caller.len();
    add_pred(alloc, exit, at_exit, false, draft)?;
    add_pred(alloc, before, at_call, false, draft)?;
    add_return_ties(
        alloc, caller, callee, rows, targets, at_exit, at_call, at_end, in_rows, draft,
    )?;
    add_pred(alloc, to, at_end, true, draft)?;
    add_frame_bounds(alloc, 0, callee, draft)?;
    add_frame_bounds(alloc, callee.len(), caller, draft)?;
    add_written_bounds(alloc, both, caller, written, draft)?;
    Ok(())
}

/// Adds the rows of a return that come from no predicate and bound nothing.
fn add_return_ties(
    alloc: Global,
    caller: &[(Column, VarInfo)],
    callee: &[(Column, VarInfo)],
    rows: &[Row],
    targets: &[u32],
    at_exit: &[u32],
    at_call: &[u32],
    at_end: &[u32],
    in_rows: &[u32],
    draft: &mut Draft,
) -> Result<(), AllocError>
    requires within { TiesAreWithin caller.now callee.now targets.now }
    requires rows_within { AllByRecursion (λ r. IsBelow (length in_rows.now) r.terms) rows.now }
    requires numbers { length callee.now + length caller.now ≤ 2 ^ 32 }
    requires tables { AreReturnTables caller.now callee.now (written_by caller.now targets.now) at_exit.now at_call.now at_end.now in_rows.now }
    ensures adds { OnOk result (AddsAll (return_ties caller.now callee.now rows.now targets.now) draft.old draft.new) }
    ensures fits { OnOk result (AllByRecursion PlainFits (return_ties caller.now callee.now rows.now targets.now)) }
{
    add_class(alloc, callee, Class::Constant, at_exit, at_call, draft)?;
    add_olds(alloc, callee, at_exit, at_call, draft)?;
    add_renamed(alloc, rows, in_rows, draft)?;
    add_kept(alloc, caller, targets, at_end, at_exit, draft)?;
    add_results(alloc, callee, targets, at_end, at_exit, draft)?;
    Ok(())
}
