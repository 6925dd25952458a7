//! Whole numbers that fit.

use crate::types::Stop;
use frac::{Frac, add, is_whole, mul, num, of, sub};
use math_facts::{checked_product, greatest_divisor};

/// A whole number as a fraction.
pub fn whole(n: i128) -> Result<Frac, Stop> {
    Ok(of(n, 1)?)
}

/// The fraction `n/d`.
pub fn ratio(n: i128, d: i128) -> Result<Frac, Stop> {
    match d {
        0 => Err(Stop::Past),
        // a whole number is quicker made
        -1 => whole(opposite(n)?),
        _ => Ok(of(n, d)?),
    }
}

/// The sum. Most fractions are whole numbers.
pub fn added(a: &Frac, b: &Frac) -> Result<Frac, Stop> {
    if is_whole(a) && is_whole(b) {
        match num(a).checked_add(num(b)) {
            Some(sum) => whole(sum),
            None => Err(Stop::Past),
        }
    } else {
        Ok(add(a, b)?)
    }
}

/// A whole number less a fraction.
pub fn less(n: i128, a: &Frac) -> Result<Frac, Stop> {
    if is_whole(a) {
        match n.checked_sub(num(a)) {
            Some(difference) => whole(difference),
            None => Err(Stop::Past),
        }
    } else {
        Ok(sub(&whole(n)?, a)?)
    }
}

/// The product.
pub fn multiplied(a: &Frac, b: &Frac) -> Result<Frac, Stop> {
    if is_whole(a) && is_whole(b) {
        whole(product(num(a), num(b))?)
    } else {
        Ok(mul(a, b)?)
    }
}

/// `n*a + m*b`.
pub fn combination(n: i128, a: i128, m: i128, b: i128) -> Result<i128, Stop> {
    let left = if n == 1 { a } else { product(n, a)? };
    let right = if m == 1 { b } else { product(m, b)? };
    left.checked_add(right).ok_or(Stop::Past)
}

/// `n*a`. Most forms are taken once, or once with the other sign.
pub fn product(n: i128, a: i128) -> Result<i128, Stop> {
    if n == -1 {
        opposite(a)
    } else {
        checked_product(n, a).ok_or(Stop::Past)
    }
}

/// `-n`.
pub fn opposite(n: i128) -> Result<i128, Stop> {
    n.checked_neg().ok_or(Stop::Past)
}

/// The greatest common divisor of two numbers, which is 0 where both are; 1 where it does not fit.
pub fn common_divisor(a: i128, b: i128) -> i128 {
    let divisor = greatest_divisor(a.unsigned_abs(), b.unsigned_abs());
    i128::try_from(divisor).unwrap_or(1)
}
