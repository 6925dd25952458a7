ghost use Rattle.std.specs.Prelude.{◌≡◌, ◌++◌, OnOk, length};
ghost use Rattle.proof_form.specs.Numerals as spec;

use boogie_tree::Text;
use boogie_tree::names::all_digits;
use std::alloc::AllocError;

/// A numeral of any length: `-` where it is negative, and its decimal digits.
#[derive(Drop)]
pub struct Numeral {
    pub negative: bool,
    pub digits: Text,
}

/// Whether there are digits without a zero in front, and no minus before 0.
fn has_one_spelling(negative: bool, digits: &[u8]) -> bool
    ensures { result ≡ spec.has_one_spelling negative digits.now }
{
    match digits {
        [] => false,
        [b'0'] => !negative,
        [first, ..] => *first != b'0',
    }
}

/// Whether the numeral is one of the grammar.
pub(crate) fn is_numeral(numeral: &Numeral) -> bool
    ensures { result ≡ spec.is_numeral numeral.now }
{
    let digits = numeral.digits.bytes();
    all_digits(digits) && has_one_spelling(numeral.negative, digits)
}

/// Whether it is the numeral of 0.
pub(crate) fn is_zero(numeral: &Numeral) -> bool
    ensures { result ≡ spec.is_zero_text numeral.now.digits }
{
    matches!(numeral.digits.bytes(), [b'0'])
}

/// Whether the first digits that differ are less in the first.
fn comes_before(first: &[u8], second: &[u8]) -> bool
    requires { length first.now ≡ length second.now }
    ensures { result ≡ spec.comes_before first.now second.now }
{
    for (i, digit) in first.iter().enumerate() {
        if *digit != second[i] {
            return *digit < second[i];
        }
    }
    false
}

/// Whether the number of the first digits is less, where no zero stands in front.
fn is_less(first: &[u8], second: &[u8]) -> bool
    ensures { result ≡ spec.digits_are_less first.now second.now }
{
    first.len() < second.len() || first.len() == second.len() && comes_before(first, second)
}

/// Whether the number of the first numeral is below that of the second.
pub(crate) fn is_below(first: &Numeral, second: &Numeral) -> bool
    ensures { result ≡ spec.numeral_is_below first.now second.now }
{
    match (first.negative, second.negative) {
        (true, true) => is_less(second.digits.bytes(), first.digits.bytes()),
        (true, false) => true,
        (false, true) => false,
        (false, false) => is_less(first.digits.bytes(), second.digits.bytes()),
    }
}

/// Writes the numeral at the end.
pub(crate) fn push_numeral(out: &mut Vec<u8>, numeral: &Numeral) -> Result<(), AllocError>
    ensures { OnOk result (out.new.items ≡ out.old.items ++ spec.numeral_text numeral.now) }
{
    if numeral.negative {
        out.push(b'-')?;
    }
    out.extend_from_slice(numeral.digits.bytes())
}
