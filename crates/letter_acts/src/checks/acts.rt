//! Acts: whether they fit the frames of their procedures.

ghost use Rattle.std.specs.Prelude.{◌≡◌, ◌↔◌, ◌+◌, ◌<◌, ◌≤◌, ◌^◌, [], Some, IsTrue, MatchOption, length, slice_get};
ghost use Rattle.std.specs.List.{AllByRecursion};
ghost use Rattle.math_facts.specs.Terms.{IsBelow};
ghost use Rattle.lin_rows.specs.Rows.{LinearRow};
ghost use Rattle.letter_acts.specs.Frames.{result_columns};
ghost use Rattle.letter_acts.specs.Acts.{plain_act, plain_acts, frame_of};
ghost use Rattle.letter_acts.specs.Invariant.{MayWrite, MayTarget, MayName, Take, InsideIsActed, CallIsActed, BackIsActed, BackIsActedFrom, IsActed, type_at, written_by};
ghost use Rattle.letter_acts.specs.Parts.{alphabet};

use crate::acts::Act;
use crate::checks::columns::{
    count_local_targets, count_variables, is_result, may_name, may_target, may_write, sum_within,
};
use crate::checks::distinct::numbers_differ;
use crate::finding::{columns_of, type_at};
use crate::frames::Frame;
use boogie_tree::{Column, VarInfo};
use lin_rows::Row;

/// Whether the row's columns are below the number.
pub fn is_within(row: &Row, width: usize) -> bool
    ensures { IsTrue result ↔ IsBelow width row.now.terms }
{
    row.terms().iter().all(|term| (term.0 as usize) < width)
}

fn rows_are_within(rows: &[Row], width: usize) -> bool
    ensures { IsTrue result ↔ AllByRecursion (λ r. IsBelow width r.terms) rows.now }
{
    rows.iter().all(|row| is_within(row, width))
}

fn all_may_be_written(frame: &[(Column, VarInfo)], written: &[u32]) -> bool
    ensures { IsTrue result ↔ AllByRecursion (MayWrite frame.now) written.now }
{
    written.iter().all(|column| may_write(frame, *column))
}

/// The frame's columns, then so many more: how many there are, `None` where numbers do not reach so far.
fn width(first: usize, second: usize, helpers: u32) -> Option<usize>
    ensures { MatchOption result (2 ^ 32 < first + second + helpers) (λ n. (n ≡ first + second + helpers) × (n ≤ 2 ^ 32)) }
{
    let both = sum_within(first, second)?;
    sum_within(both, helpers as usize)
}

fn inside_is_acted(frames: &[Frame], proc: u32, written: &[u32], helpers: u32, rows: &[Row]) -> bool
    ensures { IsTrue result ↔ InsideIsActed (alphabet [] frames.now) proc written.now helpers rows.now }
{
    let frame = columns_of(frames, proc);
    let Some(width) = width(frame.len(), written.len(), helpers) else {
        return false;
    };
    (proc as usize) < frames.len()
        && all_may_be_written(frame, written)
        && numbers_differ(written)
        && rows_are_within(rows, width)
}

fn row_may_be_named(
    caller: &[(Column, VarInfo)],
    callee: &[(Column, VarInfo)],
    helpers: u32,
    row: &Row,
) -> bool
    ensures { IsTrue result ↔ AllByRecursion (λ t. MayName caller.now callee.now helpers t.0) row.now.terms }
{
    row.terms()
        .iter()
        .all(|term| may_name(caller, callee, helpers, term.0))
}

fn rows_may_be_named(
    caller: &[(Column, VarInfo)],
    callee: &[(Column, VarInfo)],
    helpers: u32,
    rows: &[Row],
) -> bool
    ensures { IsTrue result ↔ AllByRecursion (λ r. AllByRecursion (λ t. MayName caller.now callee.now helpers t.0) r.terms) rows.now }
{
    rows.iter()
        .all(|row| row_may_be_named(caller, callee, helpers, row))
}

fn call_is_acted(frames: &[Frame], caller: u32, callee: u32, helpers: u32, rows: &[Row]) -> bool
    ensures { IsTrue result ↔ CallIsActed (alphabet [] frames.now) caller callee helpers rows.now }
{
    let before = columns_of(frames, caller);
    let after = columns_of(frames, callee);
    (caller as usize) < frames.len()
        && (callee as usize) < frames.len()
        && width(before.len(), after.len(), helpers).is_some()
        && rows_may_be_named(before, after, helpers, rows)
}

fn all_may_be_targets(frame: &[(Column, VarInfo)], targets: &[u32]) -> bool
    ensures { IsTrue result ↔ AllByRecursion (MayTarget frame.now) targets.now }
{
    targets.iter().all(|column| may_target(frame, *column))
}

/// Whether the target exists and has the type of the result.
fn has_type_of(caller: &[(Column, VarInfo)], target: u32, result_column: &(Column, VarInfo)) -> bool
    ensures { IsTrue result ↔ (type_at caller.now target ≡ Some result_column.now.1.ty) }
{
    type_at(caller, target) == Some(result_column.1.ty)
}

/// Whether each target takes a result of its type.
fn take(caller: &[(Column, VarInfo)], callee: &[(Column, VarInfo)], targets: &[u32]) -> bool
    ensures { IsTrue result ↔ Take caller.now callee.now targets.now (result_columns callee.now) }
{
    let mut taken = 0;
    for i in 0..callee.len() {
        if is_result(&callee[i]) {
            if taken >= targets.len() {
                return true;
            }
            if !has_type_of(caller, targets[taken], &callee[i]) {
                return false;
            }
            taken += 1;
        }
    }
    if taken < targets.len() {
        return false;
    }
    true
}

/// Whether the numbers of the columns of a return fit.
fn back_fits(
    caller: &[(Column, VarInfo)],
    callee: &[(Column, VarInfo)],
    helpers: u32,
    targets: &[u32],
) -> bool
    ensures { IsTrue result ↔ (length callee.now + length caller.now + length (written_by caller.now targets.now) + helpers ≤ 2 ^ 32) }
{
    let Some(frames) = sum_within(callee.len(), caller.len()) else {
        return false;
    };
    let Some(variables) = sum_within(frames, count_variables(caller)) else {
        return false;
    };
    width(variables, count_local_targets(caller, targets), helpers).is_some()
}

fn back_is_acted(
    caller: &[(Column, VarInfo)],
    callee: &[(Column, VarInfo)],
    helpers: u32,
    targets: &[u32],
) -> bool
    ensures { IsTrue result ↔ BackIsActed caller.now callee.now helpers targets.now }
{
    all_may_be_targets(caller, targets)
        && numbers_differ(targets)
        && take(caller, callee, targets)
        && back_fits(caller, callee, helpers, targets)
}

/// Whether the call of a return is a call act that its targets fit.
fn back_is_acted_from(acts: &[Act], frames: &[Frame], call: u32, targets: &[u32]) -> bool
    ensures { IsTrue result ↔ BackIsActedFrom (alphabet [] frames.now) targets.now (slice_get (plain_acts acts.now) call) }
{
    match acts.get(call as usize) {
        Some(
            Act::Call {
                caller,
                callee,
                helpers,
                ..
            },
        ) => back_is_acted(
            columns_of(frames, *caller),
            columns_of(frames, *callee),
            *helpers,
            targets,
        ),
        _ => false,
    }
}

/// Whether the act fits the frames, and a return its call.
fn is_acted(acts: &[Act], frames: &[Frame], act: &Act) -> bool
    ensures { IsTrue result ↔ IsActed (alphabet acts.now frames.now) (plain_act act.now) }
{
    match act {
        Act::Inside {
            proc,
            written,
            helpers,
            rows,
            ..
        } => inside_is_acted(frames, *proc, written, *helpers, rows),
        Act::Call {
            caller,
            callee,
            helpers,
            rows,
            ..
        } => call_is_acted(frames, *caller, *callee, *helpers, rows),
        Act::Back { call, targets } => back_is_acted_from(acts, frames, *call, targets),
    }
}

pub(super) fn are_acted(acts: &[Act], frames: &[Frame]) -> bool
    ensures { IsTrue result ↔ AllByRecursion (IsActed (alphabet acts.now frames.now)) (plain_acts acts.now) }
{
    acts.iter().all(|act| is_acted(acts, frames, act))
}
