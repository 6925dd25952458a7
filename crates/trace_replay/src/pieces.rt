//! The lines of a failure's text, each at the front of what is left of the text.
ghost use Rattle.std.specs.Prelude.{◌++◌, ◌∷◌, [], ◌^◌, ◌<◌, unsigned_abs};
ghost use Rattle.std.specs.Fmt.{decimal};
ghost use Rattle.math_facts.specs.Fits.{Fits};
ghost use Rattle.trace_replay.specs.FailureText.{numbered_line, assertion_line, value_line};
ghost use Rattle.trace_replay.specs.Ties.Pieces.{Reads, IsBelowZero};

use crate::numerals::{long_number_to, number_to, short_number_to};
use boogie_run::{AssertId, Choice};

/// A line of the word and a number of 64 bits.
pub(crate) fn numbered<'a>(bytes: &'a [u8], word: &[u8]) -> Option<(u64, &'a [u8])>
    ensures { Reads (λ n. n < 2 ^ 64) (numbered_line word.now) bytes.now result }
{
    let rest = bytes.strip_prefix(word)?;
    long_number_to(rest, b'\n')
}

/// The line of an assertion.
pub(crate) fn assertion(bytes: &[u8]) -> Option<(AssertId, &[u8])>
    ensures { Reads (λ id. (id.number < 2 ^ 32) × (id.line < 2 ^ 32)) (λ id. assertion_line id.number id.line) bytes.now result }
{
    let rest = bytes.strip_prefix(b"assertion ")?;
    let (number, rest) = short_number_to(rest, b' ')?;
    let rest = rest.strip_prefix(b"line ")?;
    let (line, rest) = short_number_to(rest, b'\n')?;
    Some((AssertId { number, line }, rest))
}

/// The line of a value.
pub(crate) fn value(bytes: &[u8]) -> Option<(Choice, &[u8])>
    ensures { Reads (λ c. Fits c.0) (λ c. value_line c.0) bytes.now result }
{
    match bytes.strip_prefix(b"-") {
        Some(rest) => value_below_zero(rest),
        None => natural_value(bytes),
    }
}

/// The line of a value below 0, without its minus.
fn value_below_zero(bytes: &[u8]) -> Option<(Choice, &[u8])>
    ensures { Reads (λ c. Fits c.0 × IsBelowZero c.0) (λ c. decimal (unsigned_abs c.0) ++ 10 ∷ []) bytes.now result }
{
    let (n, rest) = number_to(bytes, b'\n')?;
    if n == 0 {
        return None;
    }
    Some((Choice(-i128::try_from(n).ok()?), rest))
}

/// The line of a value that is not below 0.
fn natural_value(bytes: &[u8]) -> Option<(Choice, &[u8])>
    ensures { Reads (λ c. Fits c.0 × (IsBelowZero c.0 → ⊥)) (λ c. decimal (unsigned_abs c.0) ++ 10 ∷ []) bytes.now result }
{
    let (n, rest) = number_to(bytes, b'\n')?;
    Some((Choice(i128::try_from(n).ok()?), rest))
}
