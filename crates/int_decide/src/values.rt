//! Whether the values of a point are whole.

ghost use Rattle.std.specs.Prelude.{◌≡◌, ◌<◌, ◌^◌, IfOk, OnOk, IfSome, length, map};
ghost use Rattle.std.specs.List.{AllByRecursion};
ghost use Rattle.math_facts.specs.Fits.{Fits};
ghost use Rattle.frac.specs.Fractions.{IsFraction};
ghost use Rattle.lin_rows.specs.Negating.{below_opposite};
ghost use Rattle.int_decide.specs.Decide.{first_broken};
ghost use Rattle.int_decide.specs.Ties.Searching.{cut_at};

use frac::{Frac, den, floor, num};
use std::alloc::{AllocError, Global};

/// The first value that is not whole: its column, and the greatest whole number k that is not above it.
pub fn first_broken(values: &[Frac]) -> Option<(u32, i128)>
    requires { length values.now < 2 ^ 32 }
    ensures value { result ≡ cut_at (first_broken 0 values.now) }
    ensures fits { IfSome result (λ x. Fits x.1 × Fits (below_opposite x.1)) }
{
    let mut column: u32 = 0;
    for value in values {
        if den(value) != 1 {
            return Some((column, floor(value)));
        }
        column += 1;
    }
    None
}

/// The numerator of each value.
pub fn numerators(alloc: Global, values: &[Frac]) -> Result<Vec<i128>, AllocError>
    ensures value { IfOk result (λ xs. xs.items ≡ map (λ f. f.num) values.now) }
    ensures fits { IfOk result (λ xs. AllByRecursion Fits xs.items) }
    ensures valid { OnOk result (AllByRecursion IsFraction values.now) }
{
    let mut numbers = Vec::with_capacity(alloc, values.len())?;
    for value in values {
        numbers.push(num(value))?;
    }
    Ok(numbers)
}
