//! Columns of a frame: what they are, and whether letters may write or name them.

ghost use Rattle.std.specs.Prelude.{◌≡◌, ◌↔◌, ◌+◌, ◌<◌, ◌≤◌, ◌^◌, IsTrue, MatchOption, length};
ghost use Rattle.letter_acts.specs.Frames.{is_global_column, is_old_column, is_local_column, is_variable, is_parameter, is_result, variables_of};
ghost use Rattle.letter_acts.specs.Invariant.{MayWrite, MayTarget, MayName, IsOld, is_global_at};
ghost use Rattle.letter_acts.specs.Checks.{local_targets};

use boogie_tree::{Column, VarInfo};

pub(super) fn is_global_column(column: Column) -> bool
    ensures { result ≡ is_global_column column }
{
    matches!(column, Column::Global(_))
}

pub(super) fn is_old_column(column: Column) -> bool
    ensures { result ≡ is_old_column column }
{
    matches!(column, Column::Old(_))
}

pub(super) fn is_local_column(column: Column) -> bool
    ensures { result ≡ is_local_column column }
{
    matches!(column, Column::Local(_))
}

/// Whether it is a global that may change.
fn is_variable(column: &(Column, VarInfo)) -> bool
    ensures { result ≡ is_variable column.now }
{
    is_global_column(column.0) && !column.1.constant
}

/// Whether it is a parameter.
fn is_parameter(column: &(Column, VarInfo)) -> bool
    ensures { result ≡ is_parameter column.now }
{
    is_local_column(column.0) && column.1.constant
}

/// Whether it is a result, or a local after the results.
pub(super) fn is_result(column: &(Column, VarInfo)) -> bool
    ensures { result ≡ is_result column.now }
{
    is_local_column(column.0) && !column.1.constant
}

/// Whether the column exists and is not constant.
pub(super) fn may_write(frame: &[(Column, VarInfo)], column: u32) -> bool
    ensures { IsTrue result ↔ MayWrite frame.now column }
{
    match frame.get(column as usize) {
        Some(found) => !found.1.constant,
        None => false,
    }
}

/// Whether the column exists, is not constant and is no old column.
pub(super) fn may_target(frame: &[(Column, VarInfo)], column: u32) -> bool
    ensures { IsTrue result ↔ MayTarget frame.now column }
{
    match frame.get(column as usize) {
        Some(found) => !found.1.constant && !is_old_column(found.0),
        None => false,
    }
}

/// Whether the column is no old column.
pub(super) fn is_not_old(frame: &[(Column, VarInfo)], column: u32) -> bool
    ensures { IsTrue result ↔ (IsOld frame.now column → ⊥) }
{
    match frame.get(column as usize) {
        Some(found) => !is_old_column(found.0),
        None => true,
    }
}

/// Whether the column is a constant or global.
fn is_global_at(frame: &[(Column, VarInfo)], column: u32) -> bool
    ensures { result ≡ is_global_at frame.now column }
{
    match frame.get(column as usize) {
        Some(found) => is_global_column(found.0),
        None => false,
    }
}

/// Whether the rows of a call may name the column.
pub(super) fn may_name(
    caller: &[(Column, VarInfo)],
    callee: &[(Column, VarInfo)],
    helpers: u32,
    column: u32,
) -> bool
    ensures { IsTrue result ↔ MayName caller.now callee.now helpers column }
{
    let column = column as usize;
    if column < caller.len() {
        return true;
    }
    let column = column - caller.len();
    if column < callee.len() {
        is_parameter(&callee[column])
    } else {
        column - callee.len() < helpers as usize
    }
}

/// How many globals may change.
pub fn count_variables(frame: &[(Column, VarInfo)]) -> usize
    ensures value { result ≡ length (variables_of frame.now) }
    ensures fits { result ≤ length frame.now }
{
    let mut count = 0;
    for i in 0..frame.len() {
        if is_variable(&frame[i]) {
            count += 1;
        }
    }
    count
}

/// How many targets are no globals.
pub fn count_local_targets(frame: &[(Column, VarInfo)], targets: &[u32]) -> usize
    ensures value { result ≡ length (local_targets frame.now targets.now) }
    ensures fits { result ≤ length targets.now }
{
    let mut count = 0;
    for i in 0..targets.len() {
        if !is_global_at(frame, targets[i]) {
            count += 1;
        }
    }
    count
}

/// How many column numbers there are.
const NUMBERS: usize = 1 << 32;

/// The sum, `None` where numbers of columns do not reach so far.
pub(super) fn sum_within(left: usize, right: usize) -> Option<usize>
    ensures { MatchOption result (2 ^ 32 < left + right) (λ n. (n ≡ left + right) × (n ≤ 2 ^ 32)) }
{
    if left <= NUMBERS && right <= NUMBERS - left {
        Some(left + right)
    } else {
        None
    }
}
