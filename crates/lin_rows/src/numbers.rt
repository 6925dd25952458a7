//! Sums and products that fit.

ghost use Rattle.std.specs.Prelude.{ℤ, ◌+ℤ◌, ◌*ℤ◌, SomeIff};
ghost use Rattle.math_facts.specs.Fits.{Fits};
ghost use Rattle.lin_rows.specs.Negating.{below_opposite};

use math_facts::checked_product;

/// `a + b`, where it fits.
pub fn plus(a: i128, b: i128) -> Option<i128>
    ensures { SomeIff result (Fits (a +ℤ b)) (a +ℤ b) }
{
    let sum = a.checked_add(b)?;
    if sum != i128::MIN { Some(sum) } else { None }
}

/// `a*b`, where it fits.
pub fn times(a: i128, b: i128) -> Option<i128>
    ensures { SomeIff result (Fits (a *ℤ b)) (a *ℤ b) }
{
    let product = checked_product(a, b)?;
    if product != i128::MIN {
        Some(product)
    } else {
        None
    }
}

/// `a + m*b`, where the product and the sum fit.
pub fn plus_times(a: i128, m: i128, b: i128) -> Option<i128>
    ensures { SomeIff result (Fits (m *ℤ b) × Fits (a +ℤ (m *ℤ b))) (a +ℤ (m *ℤ b)) }
{
    plus(a, times(m, b)?)
}

/// `-b-1`, where it fits.
pub fn below_opposite(b: i128) -> Option<i128>
    ensures { SomeIff result (Fits (below_opposite b)) (below_opposite b) }
{
    let below = -1 - b;
    if below != i128::MIN {
        Some(below)
    } else {
        None
    }
}
