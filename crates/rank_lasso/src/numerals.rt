//! Numerals.

ghost use Rattle.std.specs.Prelude.{◌≡◌, IfOk};
ghost use Rattle.proof_form.specs.Numerals as form;
ghost use Rattle.proof_form.specs.Numerals.{numeral_text};
ghost use Rattle.proof_form.specs.Reading as reading;
ghost use Rattle.rank_lasso.specs.Lines.{IsNumeral, ReadsAll};

use boogie_tree::Text;
use boogie_tree::names::all_digits;
use proof_form::Numeral;
use std::alloc::{AllocError, Global};

/// The numeral that the bytes are: a minus or none, and digits without a zero in front; 0 has no minus.
pub(crate) fn numeral_of(alloc: Global, bytes: &[u8]) -> Result<Option<Numeral>, AllocError>
    ensures { IfOk result (ReadsAll (λ n. n) IsNumeral numeral_text bytes.now) }
{
    let (negative, digits) = signed(bytes);
    if !is_spelled(negative, digits) {
        return Ok(None);
    }
    let digits = Text::new(Vec::from_slice(alloc, digits)?);
    Ok(Some(Numeral { negative, digits }))
}

/// Whether a minus is in front, and what stands behind it.
fn signed(bytes: &[u8]) -> (bool, &[u8])
    ensures { reading.numeral_of bytes.now ≡ record { negative = result.0; digits = result.1.now } }
{
    match bytes {
        [b'-', rest @ ..] => (true, rest),
        _ => (false, bytes),
    }
}

/// Whether these digits behind a minus, or behind none, are a numeral.
fn is_spelled(negative: bool, digits: &[u8]) -> bool
    ensures { result ≡ form.is_numeral (record { negative = negative; digits = digits.now }) }
{
    let one_spelling = match digits {
        [] => false,
        [b'0'] => !negative,
        [first, ..] => *first != b'0',
    };
    one_spelling && all_digits(digits)
}
