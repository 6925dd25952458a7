//! Reading from the front of bytes: a value and the bytes after it.

ghost use Rattle.std.specs.Prelude.{◌≡◌, IfOk};
ghost use Rattle.std.specs.Option.{option_copied};
ghost use Rattle.proof_form.specs.Outcomes.{Gives};
ghost use Rattle.proof_form.specs.Reading as spec;

use crate::numerals::Numeral;
use crate::refusal::Refusal;
use crate::spelling::{number_run, word_run};
use boogie_tree::Text;
use std::alloc::{AllocError, Global};

/// What stands after the text, if the bytes begin with it.
pub(crate) fn text_at<'a>(bytes: &'a [u8], text: &[u8]) -> Option<&'a [u8]>
    ensures { option_copied result ≡ spec.after text.now bytes.now }
{
    bytes.strip_prefix(text)
}

/// What stands after the text, which the bytes must begin with.
pub(crate) fn after<'a>(bytes: &'a [u8], text: &[u8]) -> Result<&'a [u8], Refusal>
    ensures { Gives (λ x. x.now) result (spec.after text.now bytes.now) }
{
    text_at(bytes, text).ok_or(Refusal::Form)
}

/// Whether there are more bytes.
pub(crate) fn more_follow(bytes: &[u8]) -> bool
    ensures { result ≡ spec.more_follow bytes.now }
{
    !bytes.is_empty()
}

/// The name at the front, with what stands before its colons.
#[tactic(auto, unfolding(crate::specs::Reading::word_at))]
pub(crate) fn word_at(alloc: Global, bytes: &[u8]) -> Result<(Text, &[u8]), AllocError>
    ensures { IfOk result (λ x. spec.word_at bytes.now ≡ (x.0, x.1.now)) }
{
    let (word, rest) = bytes.split_at(word_run(bytes));
    Ok((Text::new(Vec::from_slice(alloc, word)?), rest))
}

/// The numeral at the front: all digits and minuses there.
#[tactic(auto, unfolding(crate::specs::Reading::number_at))]
pub(crate) fn number_at(alloc: Global, bytes: &[u8]) -> Result<(Numeral, &[u8]), AllocError>
    ensures { IfOk result (λ x. spec.number_at bytes.now ≡ (x.0, x.1.now)) }
{
    let (number, rest) = bytes.split_at(number_run(bytes));
    Ok((numeral_of(alloc, number)?, rest))
}

/// The numeral at the front, behind which that text must stand.
pub(crate) fn number_before<'a>(
    alloc: Global,
    bytes: &'a [u8],
    text: &[u8],
) -> Result<(Numeral, &'a [u8]), Refusal>
    ensures behind { Gives (λ x. x.1.now) result (spec.after text.now (spec.number_at bytes.now).1) }
    ensures number { IfOk result (λ x. x.0 ≡ (spec.number_at bytes.now).0) }
{
    let (number, rest) = number_at(alloc, bytes)?;
    let rest = after(rest, text)?;
    Ok((number, rest))
}

/// The numeral that the bytes are.
fn numeral_of(alloc: Global, bytes: &[u8]) -> Result<Numeral, AllocError>
    ensures { IfOk result (λ n. spec.numeral_of bytes.now ≡ n) }
{
    let (negative, digits) = match bytes {
        [b'-', digits @ ..] => (true, digits),
        _ => (false, bytes),
    };
    let digits = Text::new(Vec::from_slice(alloc, digits)?);
    Ok(Numeral { negative, digits })
}

/// Whether a space follows, and no tree behind it.
pub(crate) fn item_follows(bytes: &[u8]) -> bool
    ensures { result ≡ spec.item_follows bytes.now }
{
    match bytes {
        [b' ', b'(', ..] => false,
        [b' ', ..] => true,
        _ => false,
    }
}
