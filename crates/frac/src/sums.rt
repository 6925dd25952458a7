ghost use Rattle.std.specs.Prelude.{◌≡◌, pos, ◌+ℤ◌, ◌-ℤ◌, ◌*ℤ◌, IfOk, OnOk, OnErr};
ghost use Rattle.frac.specs.Fractions.{IsFraction, IsRatio, Compares, fraction_opposite};
ghost use Rattle.frac.specs.Sums.{ComparisonFits, SumFits};

use crate::numbers::{plus, quotient, reduce, times};
use crate::types::{Frac, Past};
use std::cmp::Ordering;

/// The sum. Past comes exactly where a number that it forms does not fit: for `a/b + c/d`, with g the greatest common
/// divisor of b and d, these are `a*(d/g)`, `c*(b/g)`, their sum t, and `(b/g)*(d/h)` with h that of t and g (Knuth, 1969).
pub fn add(a: &Frac, b: &Frac) -> Result<Frac, Past>
    ensures valid { IfOk result IsFraction }
    ensures value { IfOk result (λ f.
        IsRatio f ((a.now.num *ℤ b.now.den) +ℤ (b.now.num *ℤ a.now.den)) (a.now.den *ℤ b.now.den)) }
    ensures fits { OnOk result (SumFits a.now b.now) }
    ensures past { OnErr result (¬ SumFits a.now b.now) }
{
    let (first, under_first) = a.parts();
    let (second, under_second) = b.parts();
    let under = reduce(under_first, under_second);
    let left = times(first, under.second)?;
    let right = times(second, under.first)?;
    let sum = plus(left, right)?;
    let shared = reduce(sum, under.divisor);
    let rest = quotient(under_second, shared.divisor);
    let denominator = times(under.first, rest)?;
    Ok(Frac::new(shared.first, denominator))
}

/// The difference, which is the sum of a and the opposite of b. Past comes exactly where a number of that sum does not fit.
pub fn sub(a: &Frac, b: &Frac) -> Result<Frac, Past>
    ensures valid { IfOk result IsFraction }
    ensures value { IfOk result (λ f.
        IsRatio f ((a.now.num *ℤ b.now.den) -ℤ (b.now.num *ℤ a.now.den)) (a.now.den *ℤ b.now.den)) }
    ensures fits { OnOk result (SumFits a.now (fraction_opposite b.now)) }
    ensures past { OnErr result (¬ SumFits a.now (fraction_opposite b.now)) }
{
    add(a, &negated(b))
}

/// The fraction with the other sign.
fn negated(a: &Frac) -> Frac
    ensures { result ≡ fraction_opposite a.now }
{
    let (numerator, denominator) = a.parts();
    Frac::new(-numerator, denominator)
}

/// The order of the values. Past comes exactly where a number that it forms does not fit: for `a/b` and `c/d`, with g the
/// greatest common divisor of b and d, these are `a*(d/g)` and `c*(b/g)`.
pub fn cmp(a: &Frac, b: &Frac) -> Result<Ordering, Past>
    ensures value { IfOk result (Compares a.now b.now) }
    ensures fits { OnOk result (ComparisonFits a.now b.now) }
    ensures past { OnErr result (¬ ComparisonFits a.now b.now) }
{
    let (first, under_first) = a.parts();
    let (second, under_second) = b.parts();
    let under = reduce(under_first, under_second);
    let left = times(first, under.second)?;
    let right = times(second, under.first)?;
    Ok(left.cmp(&right))
}
