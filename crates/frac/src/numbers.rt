//! Whole numbers: greatest common divisors, quotients without rest, and sums and products that fit.

ghost use Rattle.std.specs.Prelude.{◌≡◌, ◌^◌, ◌<◌, ℤ, pos, ◌+ℤ◌, ◌*ℤ◌, ◌<ℤ◌, unsigned_abs, IsTrue};
ghost use Rattle.std.specs.Int.{IsGcd, int_div_euclid, ◌∣◌};
ghost use Rattle.std.specs.Result.{OkIff};
ghost use Rattle.math_facts.specs.Fits.{Fits};
ghost use Rattle.frac.specs.Ties.Reduced.{Reduces};
ghost use Rattle.frac.specs.Signs.{differ_in_sign, with_sign};

use crate::types::Past;
use math_facts::{checked_product, greatest_divisor};

/// The greatest common divisor of a number and a positive one.
pub fn common_divisor(a: i128, b: i128) -> i128
    requires { pos 0 <ℤ b }
    ensures divisor { IsGcd (unsigned_abs a) (unsigned_abs b) (unsigned_abs result) }
    ensures positive { pos 0 <ℤ result }
{
    greatest_divisor(a.unsigned_abs(), b.unsigned_abs()) as i128
}

/// The number divided by one of its divisors.
pub fn quotient(a: i128, divisor: i128) -> i128
    requires positive { pos 0 <ℤ divisor }
    requires divides { unsigned_abs divisor ∣ unsigned_abs a }
    ensures value { result ≡ int_div_euclid a divisor }
    ensures exact { divisor *ℤ result ≡ a }
{
    if divisor == 1 { a } else { a / divisor }
}

/// Two numbers divided by their greatest common divisor.
#[derive(Clone, Copy)]
pub struct Reduced {
    pub divisor: i128,
    pub first: i128,
    pub second: i128,
}

/// A number and a positive one, divided by their greatest common divisor.
pub fn reduce(a: i128, b: i128) -> Reduced
    requires { pos 0 <ℤ b }
    ensures { Reduces a b result.divisor result.first result.second }
{
    if b == 1 {
        return Reduced {
            divisor: 1,
            first: a,
            second: 1,
        };
    }
    let divisor = common_divisor(a, b);
    Reduced {
        divisor,
        first: quotient(a, divisor),
        second: quotient(b, divisor),
    }
}

/// Whether a number fits.
pub fn fits(a: i128) -> bool
    ensures { IsTrue result → Fits a }
{
    a != i128::MIN
}

/// `a + b`, where it fits.
pub fn plus(a: i128, b: i128) -> Result<i128, Past>
    ensures { OkIff result (Fits (a +ℤ b)) (a +ℤ b) }
{
    match a.checked_add(b) {
        Some(sum) if sum != i128::MIN => Ok(sum),
        _ => Err(Past),
    }
}

/// `a*b`, where it fits.
pub fn times(a: i128, b: i128) -> Result<i128, Past>
    ensures { OkIff result (Fits (a *ℤ b)) (a *ℤ b) }
{
    match checked_product(a, b) {
        Some(product) if product != i128::MIN => Ok(product),
        _ => Err(Past),
    }
}

/// Whether one of two numbers is negative, and the other is not.
pub fn differ_in_sign(a: i128, b: i128) -> bool
    ensures { result ≡ differ_in_sign a b }
{
    (a < 0) != (b < 0)
}

/// The number of that sign and magnitude, where it fits.
pub fn signed(is_negative: bool, magnitude: u128) -> Result<i128, Past>
    ensures { OkIff result (magnitude < 2 ^ 127) (with_sign is_negative magnitude) }
{
    if magnitude > i128::MAX as u128 {
        return Err(Past);
    }
    let size = magnitude as i128;
    Ok(if is_negative { -size } else { size })
}
