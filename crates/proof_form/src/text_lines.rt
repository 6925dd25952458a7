//! The lines of a text, and numbers that stand alone.

ghost use Rattle.std.specs.Prelude.{◌≡◌, ◌<◌, ◌^◌, ℕ};
ghost use Rattle.std.specs.Fmt.{decimal};
ghost use Rattle.proof_form.specs.TextReading as spec;
ghost use Rattle.proof_form.specs.Ties.TextViews.{seen_line};

use crate::lines::push_decimal;
use crate::refusal::Refusal;
use std::alloc::Global;

/// The first line without its end, and what follows, if the line has an end.
pub(crate) fn first_line(text: &[u8]) -> Option<(&[u8], &[u8])>
    ensures { seen_line result ≡ spec.first_line text.now }
{
    for (i, byte) in text.iter().enumerate() {
        if *byte == b'\n' {
            return Some((&text[..i], &text[i + 1..]));
        }
    }
    None
}

/// The number that digits write.
fn parsed(bytes: &[u8]) -> Option<u64>
    ensures { (n : ℕ) → n < 2 ^ 64 → bytes.now ≡ decimal n → result ≡ Some n }
{
    match str::from_utf8(bytes) {
        Ok(text) => text.parse().ok(),
        Err(_) => None,
    }
}

/// The number that the bytes write in its one way.
pub(crate) fn number_of(alloc: Global, bytes: &[u8]) -> Result<u64, Refusal>
    ensures { spec.ReadsNumber bytes.now result }
{
    let number = match parsed(bytes) {
        Some(number) => number,
        None => return Err(Refusal::Form),
    };
    let mut spelled = Vec::new(alloc);
    push_decimal(&mut spelled, number)?;
    if spelled.as_slice() != bytes {
        return Err(Refusal::Form);
    }
    Ok(number)
}
