//! The rows of a system that come from no predicate.

ghost use Rattle.std.specs.Prelude.{◌≡◌, ◌<◌, IfOk, map, length, slice_index};
ghost use Rattle.std.specs.List.{AllByRecursion};
ghost use Rattle.lin_rows.specs.Rows.{IsRow};
ghost use Rattle.letter_acts.specs.FrameRows.Rows.{equal_row};

use letter_acts::frame_rows::equal_row;
use lin_rows::Row;
use std::alloc::{AllocError, Global};

/// A row for each pair, which says that the number of the first column by one table equals that of the second by another.
pub(crate) fn equal_rows(
    alloc: Global,
    pairs: &[(u32, u32)],
    left: &[u32],
    right: &[u32],
) -> Result<Vec<Row>, AllocError>
    requires { AllByRecursion (λ p. (p.0 < length left.now) × (p.1 < length right.now)) pairs.now }
    ensures value { IfOk result (λ v. v.items ≡ map (λ p. equal_row (slice_index left.now p.0) (slice_index right.now p.1)) pairs.now) }
    ensures valid { IfOk result (λ v. AllByRecursion IsRow v.items) }
{
    let mut made = Vec::with_capacity(alloc, pairs.len())?;
    for (a, b) in pairs {
        made.push(equal_row(alloc, left[*a as usize], right[*b as usize])?)?;
    }
    Ok(made)
}
