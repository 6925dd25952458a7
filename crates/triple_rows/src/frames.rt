//! Numbers of columns that the rows of calls and returns name.

ghost use Rattle.std.specs.Prelude.{◌≡◌, ℕ, ◌≤◌, ◌^◌, IfOk, map, filter, length, not};
ghost use Rattle.letter_acts.specs.Frames.{olds_of};
ghost use Rattle.letter_acts.specs.Reading.{taken, is_listed};
ghost use Rattle.letter_acts.specs.Invariant.{is_global_at};
ghost use Rattle.triple_rows.specs.Ties.Tables.{old_global};

use boogie_tree::{Column, VarInfo};
use std::alloc::{AllocError, Global};

/// The global whose value at the entry an old column has.
fn old_global(column: &(Column, VarInfo)) -> Option<u32>
    ensures { result ≡ old_global column.now.0 }
{
    match column.0 {
        Column::Old(global) => Some(global),
        Column::Global(_) | Column::Local(_) => None,
    }
}

/// Each old column with the column of its global.
pub(crate) fn olds(
    alloc: Global,
    frame: &[(Column, VarInfo)],
) -> Result<Vec<(u32, u32)>, AllocError>
    requires { length frame.now ≤ 2 ^ 32 }
    ensures { IfOk result (λ v. v.items ≡ olds_of frame.now) }
{
    let mut numbers = Vec::new(alloc);
    for i in 0..frame.len() {
        if let Some(global) = old_global(&frame[i]) {
            numbers.push((i as u32, global))?;
        }
    }
    Ok(numbers)
}

/// Whether the column is a constant or global.
fn is_global_at(frame: &[(Column, VarInfo)], column: u32) -> bool
    ensures { result ≡ is_global_at frame.now column }
{
    match frame.get(column as usize) {
        Some(found) => matches!(found.0, Column::Global(_)),
        None => false,
    }
}

/// The targets that are no constants or globals.
pub(crate) fn local_targets(
    alloc: Global,
    frame: &[(Column, VarInfo)],
    targets: &[u32],
) -> Result<Vec<u32>, AllocError>
    ensures { IfOk result (λ v. v.items ≡ filter (λ t. not (is_global_at frame.now t)) targets.now) }
{
    let mut locals = Vec::new(alloc);
    for target in targets {
        if !is_global_at(frame, *target) {
            locals.push(*target)?;
        }
    }
    Ok(locals)
}

/// Whether the number stands in the list.
fn is_listed(numbers: &[u32], number: u32) -> bool
    ensures { result ≡ is_listed numbers.now number }
{
    for i in 0..numbers.len() {
        if numbers[i] == number {
            return true;
        }
    }
    false
}

/// The numbers that do not stand in the list.
pub(crate) fn unlisted(
    alloc: Global,
    numbers: &[u32],
    listed: &[u32],
) -> Result<Vec<u32>, AllocError>
    ensures { IfOk result (λ v. v.items ≡ filter (λ g. not (is_listed listed.now g)) numbers.now) }
{
    let mut others = Vec::new(alloc);
    for number in numbers {
        if !is_listed(listed, *number) {
            others.push(*number)?;
        }
    }
    Ok(others)
}

/// Each number twice.
pub(crate) fn doubled(alloc: Global, numbers: &[u32]) -> Result<Vec<(u32, u32)>, AllocError>
    ensures { IfOk result (λ v. v.items ≡ map (λ c. (c, c)) numbers.now) }
{
    numbers
        .iter()
        .map(|number| (*number, *number))
        .collect(alloc)
}

/// Each target with the result that it takes.
pub(crate) fn taken(
    alloc: Global,
    targets: &[u32],
    results: &[u32],
) -> Result<Vec<(u32, u32)>, AllocError>
    ensures { IfOk result (λ v. v.items ≡ taken targets.now results.now) }
{
    let mut pairs = Vec::new(alloc);
    for i in 0..targets.len() {
        if i >= results.len() {
            return Ok(pairs);
        }
        pairs.push((targets[i], results[i]))?;
    }
    Ok(pairs)
}
