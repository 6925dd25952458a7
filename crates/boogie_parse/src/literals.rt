ghost use Rattle.std.specs.Prelude.{◌≡◌, ◌^◌, ◌<◌};
ghost use Rattle.boogie_parse.specs.Ties.Literals.{literal_of, digit_after};

/// The largest literal.
const LARGEST: u128 = u128::MAX >> 1;

/// The value of a literal; none where it does not fit.
pub(crate) fn literal(digits: &[u8]) -> Option<u128>
    ensures { result ≡ literal_of digits.now }
{
    let mut value = 0;
    for digit in digits {
        value = with_digit(value, *digit)?;
    }
    Some(value)
}

// One more digit at the end of a number.
fn with_digit(value: u128, digit: u8) -> Option<u128>
    requires { value < 2 ^ 127 }
    ensures { result ≡ digit_after value digit }
{
    // The parser gives decimal digits alone. What any other byte counts for follows `digits_value`.
    let digit = char::from(digit).to_digit(36).unwrap_or(36);
    let value = value.checked_mul(10)?.checked_add(u128::from(digit))?;
    if value <= LARGEST { Some(value) } else { None }
}
