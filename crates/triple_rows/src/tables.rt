//! Tables that rename columns: the column c gets the number at its place c.

ghost use Rattle.std.specs.Prelude.{◌≡◌, ℕ, ◌+◌, ◌<◌, ◌≤◌, ◌^◌, ◌++◌, IfOk, OnOk, length};
ghost use Rattle.std.specs.List.{AllByRecursion};
ghost use Rattle.letter_acts.specs.Invariant.{AreDistinct};
ghost use Rattle.triple_rows.specs.Systems.{after_column, call_column};
ghost use Rattle.triple_rows.specs.Ties.Tables.{IsTable};

use letter_acts::frame_rows::add_columns;
use std::alloc::{AllocError, Global};

/// The table of so many columns that stand from a number on.
pub(crate) fn shifted_columns(
    alloc: Global,
    from: usize,
    count: usize,
) -> Result<Vec<u32>, AllocError>
    requires { from + count ≤ 2 ^ 32 }
    ensures table { IfOk result (λ v. IsTable count (λ c. from + c) v.items) }
{
    let mut columns = Vec::with_capacity(alloc, count)?;
    add_columns(&mut columns, from, count)?;
    Ok(columns)
}

/// The table of the state after: of so many columns the written ones stand in order from `first` on, the others from `base` on.
pub(crate) fn after_columns(
    alloc: Global,
    base: usize,
    first: usize,
    written: &[u32],
    count: usize,
) -> Result<Vec<u32>, AllocError>
    requires within { AllByRecursion (λ c. c < count) written.now }
    requires differ { AreDistinct written.now }
    requires before { base + count ≤ first }
    requires fits { first + length written.now ≤ 2 ^ 32 }
    ensures { IfOk result (λ v. IsTable count (after_column base first written.now) v.items) }
{
    let mut columns = shifted_columns(alloc, base, count)?;
    for i in 0..written.len() {
        columns[written[i] as usize] = (first + i) as u32;
    }
    Ok(columns)
}

/// The table of the columns of a call letter's rows in the system of a return.
pub(crate) fn call_columns(
    alloc: Global,
    callee: usize,
    caller: usize,
    written: usize,
    helpers: usize,
) -> Result<Vec<u32>, AllocError>
    requires { callee + caller + written + helpers ≤ 2 ^ 32 }
    ensures { IfOk result (λ v. IsTable (caller + callee + helpers) (call_column callee caller written) v.items) }
{
    let mut columns = Vec::new(alloc);
    add_columns(&mut columns, callee, caller)?;
    add_columns(&mut columns, 0, callee)?;
    add_columns(&mut columns, callee + caller + written, helpers)?;
    Ok(columns)
}
