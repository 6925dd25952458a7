//! Operations of fractions, whose faults are those of the elimination.

ghost use Rattle.std.specs.Prelude.{◌≡◌, ◌≢◌, pos, Some, IfSome};
ghost use Rattle.std.specs.List.{AllByRecursion};
ghost use Rattle.math_facts.specs.Fits.{Fits};
ghost use Rattle.frac.specs.Fractions.{IsFraction};
ghost use Rattle.frac.specs.Sums.{SumFits, ComparisonFits};
ghost use Rattle.fm_elim.specs.Answers.{Exactly, Gives};
ghost use Rattle.fm_elim.specs.Quotients.{whole, fraction_plus, fraction_minus, fraction_times, fraction_over, FractionFits, MinusFits, is_less, floor, ceiling, nearest};
ghost use Rattle.fm_elim.specs.Values.{greater_end, less_end, GreaterFits, LessFits};

use crate::types::ElimFault;
use frac::{Frac, add, cmp, den, div, mul, num, of, sub};
use std::cmp::Ordering;

/// A whole number.
pub fn whole(z: i128) -> Result<Frac, ElimFault>
    requires { Fits z }
    ensures { Exactly result (Gives (whole z)) (Unit {0}) }
{
    let value = of(z, 1)?;
    Ok(value)
}

/// `a + b`.
pub fn plus(a: &Frac, b: &Frac) -> Result<Frac, ElimFault>
    requires left { IsFraction a.now }
    requires right { IsFraction b.now }
    ensures { Exactly result (Gives (fraction_plus a.now b.now)) (SumFits a.now b.now) }
{
    let value = add(a, b)?;
    Ok(value)
}

/// `a - b`.
pub fn minus(a: &Frac, b: &Frac) -> Result<Frac, ElimFault>
    requires left { IsFraction a.now }
    requires right { IsFraction b.now }
    ensures { Exactly result (Gives (fraction_minus a.now b.now)) (MinusFits a.now b.now) }
{
    let value = sub(a, b)?;
    Ok(value)
}

/// `a * b`.
pub fn times(a: &Frac, b: &Frac) -> Result<Frac, ElimFault>
    requires left { IsFraction a.now }
    requires right { IsFraction b.now }
    ensures { Exactly result (Gives (fraction_times a.now b.now)) (FractionFits (fraction_times a.now b.now)) }
{
    let value = mul(a, b)?;
    Ok(value)
}

/// `a / b`.
pub fn over(a: &Frac, b: &Frac) -> Result<Frac, ElimFault>
    requires left { IsFraction a.now }
    requires right { IsFraction b.now }
    requires nonzero { b.now.num ≢ pos 0 }
    ensures { Exactly result (Gives (fraction_over a.now b.now)) (FractionFits (fraction_over a.now b.now)) }
{
    let value = div(a, b)?;
    Ok(value)
}

/// Whether `a < b`.
fn less(a: &Frac, b: &Frac) -> Result<bool, ElimFault>
    ensures { Exactly result (λ t. t ≡ is_less a.now b.now) (ComparisonFits a.now b.now) }
{
    match cmp(a, b)? {
        Ordering::Less => Ok(true),
        Ordering::Equal => Ok(false),
        Ordering::Greater => Ok(false),
    }
}

/// The greater of the best end so far and the next.
pub fn greater_end(best: Option<Frac>, end: Frac) -> Result<Frac, ElimFault>
    requires best { IfSome best IsFraction }
    requires end { IsFraction end }
    ensures { Exactly result (Gives (greater_end best end)) (GreaterFits best end) }
{
    match best {
        None => Ok(end),
        Some(other) => {
            if less(&other, &end)? {
                Ok(end)
            } else {
                Ok(other)
            }
        }
    }
}

/// The less of the best end so far and the next.
pub fn less_end(best: Option<Frac>, end: Frac) -> Result<Frac, ElimFault>
    requires best { IfSome best IsFraction }
    requires end { IsFraction end }
    ensures { Exactly result (Gives (less_end best end)) (LessFits best end) }
{
    match best {
        None => Ok(end),
        Some(other) => {
            if less(&end, &other)? {
                Ok(end)
            } else {
                Ok(other)
            }
        }
    }
}

/// The greatest whole number that is at most the fraction.
fn floor(f: &Frac) -> i128
    ensures value { result ≡ floor f.now }
    ensures fits { Fits result }
{
    num(f).div_euclid(den(f))
}

/// The least whole number that is at least the fraction.
fn ceiling(f: &Frac) -> i128
    ensures value { result ≡ ceiling f.now }
    ensures fits { Fits result }
{
    -(-num(f)).div_euclid(den(f))
}

/// Between two ends, the whole number nearest 0, or the lower end where there is none.
fn nearest_between(lower: Frac, upper: Frac) -> Result<Frac, ElimFault>
    requires { IsFraction lower }
    ensures { Exactly result (Gives (nearest (Some lower) (Some upper))) (Unit {0}) }
{
    let least = ceiling(&lower);
    let greatest = floor(&upper);
    if least <= greatest {
        whole(least.max(greatest.min(0)))
    } else {
        Ok(lower)
    }
}

/// Between two ends, of which either may be missing: the whole number nearest 0, or the lower end where there is none.
pub fn nearest(lower: Option<Frac>, upper: Option<Frac>) -> Result<Frac, ElimFault>
    requires { IfSome lower IsFraction }
    ensures { Exactly result (Gives (nearest lower upper)) (Unit {0}) }
{
    match (lower, upper) {
        (None, None) => whole(0),
        (Some(least), None) => whole(ceiling(&least).max(0)),
        (None, Some(greatest)) => whole(floor(&greatest).min(0)),
        (Some(least), Some(greatest)) => nearest_between(least, greatest),
    }
}
