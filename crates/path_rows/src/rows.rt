//! The rows that say what new columns have at an entry.

ghost use Rattle.std.specs.Prelude.{◌≡◌, ◌+◌, ◌≤◌, ◌^◌, IfOk, length};
ghost use Rattle.std.specs.List.{AllByRecursion};
ghost use Rattle.lin_rows.specs.Rows.{IsRow};
ghost use Rattle.path_rows.specs.Versions.{entry_rows};

use letter_acts::frame_rows::equal_row;
use lin_rows::{Col, Row};
use std::alloc::{AllocError, Global};

/// Rows that say that each column from a number on equals one of these.
pub(crate) fn entry_rows(
    alloc: Global,
    first: usize,
    globals: &[Col],
) -> Result<Vec<Row>, AllocError>
    requires { first + length globals.now ≤ 2 ^ 32 }
    ensures value { IfOk result (λ v. v.items ≡ entry_rows first globals.now) }
    ensures valid { IfOk result (λ v. AllByRecursion IsRow v.items) }
{
    let mut made = Vec::with_capacity(alloc, globals.len())?;
    for i in 0..globals.len() {
        made.push(equal_row(alloc, (first + i) as u32, globals[i])?)?;
    }
    Ok(made)
}
