//! Columns that stand one after the other.

ghost use Rattle.std.specs.Prelude.{◌≡◌, ◌+◌, ◌≤◌, ◌^◌, ◌++◌, OnOk};
ghost use Rattle.letter_acts.specs.FrameRows.Rows.{columns_from};

use lin_rows::Col;
use std::alloc::AllocError;

/// Adds so many columns from a number on.
pub fn add_columns(columns: &mut Vec<Col>, from: usize, count: usize) -> Result<(), AllocError>
    requires { from + count ≤ 2 ^ 32 }
    ensures { OnOk result (columns.new.items ≡ columns.old.items ++ columns_from from count) }
{
    for i in 0..count {
        columns.push((from + i) as u32)?;
    }
    Ok(())
}
