//! Facts about lists and whole numbers that several crates need, and the calculations that several make.
#![tactic(auto)]

pub mod random_numbers;

ghost use Rattle.std.specs.Prelude.{◌≡◌, ◌%◌, ◌^◌, ◌<◌, ◌≤◌, ◌*ℤ◌, unsigned_abs, FitsSigned, IsTrue, SomeIff};
ghost use Rattle.std.specs.Int.{w128, IsGcd};

/// The product of two numbers of at most this magnitude fits 128 bits.
const SMALL: i128 = 0x4000_0000_0000_0000;

/// The greatest number of 64 bits.
const MOST_OF_64_BITS: u128 = 0xFFFF_FFFF_FFFF_FFFF;

/// Whether a number is small, as most are.
fn is_small(a: i128) -> bool
    ensures { IsTrue result → unsigned_abs a ≤ 2 ^ 62 }
{
    -SMALL <= a && a <= SMALL
}

/// `a*b`, where it fits.
pub fn checked_product(a: i128, b: i128) -> Option<i128>
    ensures { SomeIff result (FitsSigned w128 (a *ℤ b)) (a *ℤ b) }
{
    if a == 1 { Some(b) } else { multiplied(a, b) }
}

/// The same. The test whether it fits takes far longer than the product, and small numbers need none.
fn multiplied(a: i128, b: i128) -> Option<i128>
    ensures { SomeIff result (FitsSigned w128 (a *ℤ b)) (a *ℤ b) }
{
    if is_small(a) && is_small(b) {
        let (x, y) = (a as i64, b as i64);
        Some(x as i128 * y as i128)
    } else {
        a.checked_mul(b)
    }
}

/// What a division leaves. One of 128 bits takes far longer than one of 64.
fn remainder(x: u128, y: u128) -> u128
    requires { 0 < y }
    ensures { result ≡ x % y }
{
    if x <= MOST_OF_64_BITS && y <= MOST_OF_64_BITS {
        ((x as u64) % (y as u64)) as u128
    } else {
        x % y
    }
}

/// The greatest common divisor, which is 0 where both numbers are (Euclid).
pub fn greatest_divisor(a: u128, b: u128) -> u128
    ensures { IsGcd a b result }
{
    if a == 1 || b == 1 {
        return 1;
    }
    let mut x = a;
    let mut y = b;
    while y != 0 {
        let rest = remainder(x, y);
        x = y;
        y = rest;
    }
    x
}
