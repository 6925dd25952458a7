//! Values of points and of positions.

ghost use Rattle.std.specs.Prelude.{◌≡◌, ◌+◌, ◌≤◌, ◌^◌, IfOk};
ghost use Rattle.std.specs.List.{AllByRecursion};
ghost use Rattle.math_facts.specs.Fits.{Fits};
ghost use Rattle.lin_rows.specs.Points.{point_of};
ghost use Rattle.path_rows.specs.Solutions.{read};
ghost use Rattle.letter_acts.specs.FrameRows.Rows.{columns_from};

use lin_rows::Col;
use std::alloc::{AllocError, Global};

/// The value of the column of that number; 0 behind the last.
pub(crate) fn value_at(values: &[i128], number: usize) -> i128
    ensures value { result ≡ point_of values.now number }
    ensures fits { AllByRecursion Fits values.now → Fits result }
{
    if number < values.len() {
        values[number]
    } else {
        0
    }
}

/// The values of these columns.
pub(crate) fn values_of(
    alloc: Global,
    point: &[i128],
    columns: &[Col],
) -> Result<Vec<i128>, AllocError>
    ensures value { IfOk result (λ v. v.items ≡ read (point_of point.now) columns.now) }
    ensures fits { AllByRecursion Fits point.now → IfOk result (λ v. AllByRecursion Fits v.items) }
{
    let mut values = Vec::with_capacity(alloc, columns.len())?;
    for column in columns {
        values.push(value_at(point, *column as usize))?;
    }
    Ok(values)
}

/// The values of so many columns from this one on.
pub(crate) fn values_from(
    alloc: Global,
    point: &[i128],
    first: usize,
    count: usize,
) -> Result<Vec<i128>, AllocError>
    requires { first + count ≤ 2 ^ 32 }
    ensures value { IfOk result (λ v. v.items ≡ read (point_of point.now) (columns_from first count)) }
    ensures fits { AllByRecursion Fits point.now → IfOk result (λ v. AllByRecursion Fits v.items) }
{
    let mut values = Vec::with_capacity(alloc, count)?;
    for i in 0..count {
        values.push(value_at(point, first + i))?;
    }
    Ok(values)
}
