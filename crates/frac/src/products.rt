ghost use Rattle.std.specs.Prelude.{◌≡◌, ◌≢◌, pos, ◌*ℤ◌, IfOk, OnErr};
ghost use Rattle.frac.specs.Fractions.{IsFraction, IsRatio, IsTooLarge};

use crate::numbers::{reduce, times};
use crate::types::{Frac, Past};

/// The product. Past comes exactly where a part of it does not fit in lowest terms: what the factors share is taken
/// away before they are multiplied (Knuth, 1969).
pub fn mul(a: &Frac, b: &Frac) -> Result<Frac, Past>
    ensures valid { IfOk result IsFraction }
    ensures value { IfOk result (λ f. IsRatio f (a.now.num *ℤ b.now.num) (a.now.den *ℤ b.now.den)) }
    ensures past { OnErr result (IsTooLarge (a.now.num *ℤ b.now.num) (a.now.den *ℤ b.now.den)) }
{
    let (first, under_first) = a.parts();
    let (second, under_second) = b.parts();
    let left = reduce(first, under_second);
    let right = reduce(second, under_first);
    let numerator = times(left.first, right.first)?;
    let denominator = times(right.second, left.second)?;
    Ok(Frac::new(numerator, denominator))
}

/// The quotient by a fraction that is not 0. Past comes exactly where a part of it does not fit in lowest terms.
pub fn div(a: &Frac, b: &Frac) -> Result<Frac, Past>
    requires { b.now.num ≢ pos 0 }
    ensures valid { IfOk result IsFraction }
    ensures value { IfOk result (λ f. IsRatio f (a.now.num *ℤ b.now.den) (a.now.den *ℤ b.now.num)) }
    ensures past { OnErr result (IsTooLarge (a.now.num *ℤ b.now.den) (a.now.den *ℤ b.now.num)) }
{
    mul(a, &reciprocal(b))
}

/// 1 divided by a fraction that is not 0.
fn reciprocal(a: &Frac) -> Frac
    requires { a.now.num ≢ pos 0 }
    ensures valid { IsFraction result }
    ensures value { IsRatio result a.now.den a.now.num }
{
    let (numerator, denominator) = a.parts();
    if numerator < 0 {
        Frac::new(-denominator, -numerator)
    } else {
        Frac::new(denominator, numerator)
    }
}
