//! The numbers that numerals stand for.

ghost use Rattle.std.specs.Prelude.{◌≡◌, ◌≤◌, ◌^◌};
ghost use Rattle.proof_form.specs.NumberValues.{number};
ghost use Rattle.proof_names.specs.Numbers as spec;
ghost use Rattle.proof_names.specs.Numbers.{with_digit};

use proof_form::Numeral;

/// A number that fits is below this one.
const FITS: u128 = 1 << 127;

/// No list has so many members.
const MEMBERS: u128 = 1 << 64;

/// Letters, places and rows have numbers below this one.
const SHORT: u128 = 1 << 32;

/// The number of the digits, if it is below the limit.
fn number_below(digits: &[u8], limit: u128) -> Option<u128>
    requires { limit ≤ 2 ^ 127 }
    ensures { result ≡ spec.if_below limit (number digits.now) }
{
    let mut value: u128 = 0;
    for digit in digits {
        value = with_digit(value, *digit)?;
        if value >= limit {
            return None;
        }
    }
    if value < limit { Some(value) } else { None }
}

/// The number with one digit more behind it, if it fits the type.
fn with_digit(value: u128, digit: u8) -> Option<u128>
    ensures { result ≡ spec.if_below (2 ^ 128) (with_digit value digit) }
{
    value
        .checked_mul(10)?
        .checked_add(u128::from(digit.saturating_sub(b'0')))
}

/// The number by which a member of a list is named.
pub fn index_in(numeral: &Numeral) -> Option<usize>
    ensures { result ≡ spec.index_in numeral.now }
{
    if numeral.negative {
        return None;
    }
    let number = number_below(numeral.digits.bytes(), MEMBERS)?;
    Some(number as usize)
}

/// The number of a letter, a place or a row.
pub fn short_in(numeral: &Numeral) -> Option<u32>
    ensures { result ≡ spec.short_in numeral.now }
{
    if numeral.negative {
        return None;
    }
    let number = number_below(numeral.digits.bytes(), SHORT)?;
    Some(number as u32)
}

/// The number of a numeral, if it fits.
pub fn number_in(numeral: &Numeral) -> Option<i128>
    ensures { result ≡ spec.number_in numeral.now }
{
    let number = number_below(numeral.digits.bytes(), FITS)? as i128;
    Some(if numeral.negative { -number } else { number })
}
