ghost use Rattle.std.specs.Prelude.{◌≢◌, pos, IfOk, OnErr};
ghost use Rattle.frac.specs.Fractions.{IsFraction, IsRatio, IsTooLarge};

use crate::numbers::{differ_in_sign, fits, signed};
use crate::types::{Frac, Past};
use math_facts::greatest_divisor;

/// The fraction `n/d`. Past comes exactly where a part does not fit in lowest terms.
pub fn of(n: i128, d: i128) -> Result<Frac, Past>
    requires { d ≢ pos 0 }
    ensures valid { IfOk result IsFraction }
    ensures value { IfOk result (λ f. IsRatio f n d) }
    ensures past { OnErr result (IsTooLarge n d) }
{
    if d == 1 && fits(n) {
        return Ok(Frac::new(n, 1));
    }
    lowest(n, d)
}

/// The same, by the greatest common divisor of the two numbers.
fn lowest(n: i128, d: i128) -> Result<Frac, Past>
    requires { d ≢ pos 0 }
    ensures valid { IfOk result IsFraction }
    ensures value { IfOk result (λ f. IsRatio f n d) }
    ensures past { OnErr result (IsTooLarge n d) }
{
    let numerator_size = n.unsigned_abs();
    let denominator_size = d.unsigned_abs();
    let divisor = greatest_divisor(numerator_size, denominator_size);
    let numerator = signed(differ_in_sign(n, d), numerator_size / divisor)?;
    let denominator = signed(false, denominator_size / divisor)?;
    Ok(Frac::new(numerator, denominator))
}
