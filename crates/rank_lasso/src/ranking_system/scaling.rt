//! Points of the ranking system as whole numbers.

ghost use Rattle.std.specs.Prelude.{◌≡◌, ◌/◌, ℤ, pos, ◌*ℤ◌, ◌<ℤ◌, None, Ok, IfOk, IfSome, SomeIff, unsigned_abs};
ghost use Rattle.std.specs.List.{AllByRecursion};
ghost use Rattle.math_facts.specs.Fits.{Fits};
ghost use Rattle.frac.specs.Fractions.{IsFraction};
ghost use Rattle.rank_lasso.specs.RankingSystem.Scaled.{common_multiple, least_denominator, numerator_over, ScaleFits, IsScaled};

use frac::{Frac, den, num};
use lin_rows::plus_times;
use math_facts::greatest_divisor;
use std::alloc::{AllocError, Global};

/// The values times their least common denominator, where they fit.
pub fn scaled(alloc: Global, values: &[Frac]) -> Result<Option<Vec<i128>>, AllocError>
    ensures value { IfOk result (λ o. IfSome o (λ v. IsScaled values.now v.items)) }
    ensures past { result ≡ Ok None → ScaleFits values.now → ⊥ }
    ensures valid { AllByRecursion IsFraction values.now }
{
    know_values(values);
    let Some(denominator) = least_denominator(values) else {
        return Ok(None);
    };
    let mut numerators = Vec::with_capacity(alloc, values.len())?;
    for value in values {
        match numerator_over(denominator, value) {
            Some(numerator) => numerators.push(numerator)?,
            None => return Ok(None),
        }
    }
    Ok(Some(numerators))
}

/// Reads the values, whose contracts then say what every fraction keeps.
fn know_values(values: &[Frac])
    ensures { AllByRecursion IsFraction values.now }
{
    for value in values {
        let _denominator = den(value);
    }
}

/// The least common multiple of the denominators, where it fits.
fn least_denominator(values: &[Frac]) -> Option<i128>
    requires { AllByRecursion IsFraction values.now }
    ensures { SomeIff result (Fits (pos (least_denominator values.now))) (pos (least_denominator values.now)) }
{
    let mut least = 1;
    for value in values {
        least = common_multiple(den(value), least)?;
    }
    Some(least)
}

/// The least common multiple of two positive numbers, where it fits.
fn common_multiple(a: i128, b: i128) -> Option<i128>
    requires first { pos 0 <ℤ a }
    requires second { pos 0 <ℤ b }
    ensures { SomeIff result (Fits (pos (common_multiple (unsigned_abs a) (unsigned_abs b)))) (pos (common_multiple (unsigned_abs a) (unsigned_abs b))) }
{
    let shared = greatest_divisor(a.unsigned_abs(), b.unsigned_abs()) as i128;
    product(quotient(a, shared), b)
}

/// The numerator of a value over a positive denominator, where it fits.
fn numerator_over(denominator: i128, value: &Frac) -> Option<i128>
    requires { pos 0 <ℤ denominator }
    ensures { SomeIff result (Fits (numerator_over (unsigned_abs denominator) value.now)) (numerator_over (unsigned_abs denominator) value.now) }
{
    product(num(value), quotient(denominator, den(value)))
}

/// How often a positive number goes into another.
fn quotient(a: i128, b: i128) -> i128
    requires first { pos 0 <ℤ a }
    requires second { pos 0 <ℤ b }
    ensures { result ≡ pos (unsigned_abs a / unsigned_abs b) }
{
    a / b
}

/// `a*b`, where it fits.
fn product(a: i128, b: i128) -> Option<i128>
    ensures { SomeIff result (Fits (a *ℤ b)) (a *ℤ b) }
{
    plus_times(0, a, b)
}
