//! The numerals of numbers.

ghost use Rattle.std.specs.Prelude.{◌≡◌, Some, pos, IfOk};
ghost use Rattle.std.specs.Fmt.{decimal};
ghost use Rattle.math_facts.specs.Fits.{Fits};
ghost use Rattle.proof_names.specs.Numbers.{number_in};
ghost use Rattle.proof_names.specs.ProofSpell.Spelled.{Writes, WritesIndex, WritesShort};

use boogie_tree::Text;
use proof_form::Numeral;
use std::alloc::{AllocError, Global};

/// The decimal digits of a number.
fn digits(alloc: Global, number: u128) -> Result<Text, AllocError>
    ensures { IfOk result (λ t. t ≡ decimal number) }
{
    let text = format!(in alloc; "{number}")?;
    Ok(Text::new(text.into_bytes()))
}

/// The numeral of a number that is not negative.
pub(crate) fn natural(alloc: Global, number: u64) -> Result<Numeral, AllocError>
    ensures { IfOk result (λ n. Writes n (pos number)) }
{
    Ok(Numeral {
        negative: false,
        digits: digits(alloc, u128::from(number))?,
    })
}

/// The numeral of a member of a list.
pub(crate) fn index(alloc: Global, number: usize) -> Result<Numeral, AllocError>
    ensures { IfOk result (λ n. WritesIndex n number) }
{
    natural(alloc, number as u64)
}

/// The numeral of a letter or a place.
pub(crate) fn short(alloc: Global, number: u32) -> Result<Numeral, AllocError>
    ensures { IfOk result (λ n. WritesShort n number) }
{
    natural(alloc, u64::from(number))
}

/// The numerals of a letter and of the members of lists between which it moves.
pub(crate) fn move_numerals(
    alloc: Global,
    from: usize,
    letter: u32,
    to: usize,
) -> Result<(Numeral, Numeral, Numeral), AllocError>
    ensures { IfOk result (λ n. WritesIndex n.0 from × WritesShort n.1 letter × WritesIndex n.2 to) }
{
    let from = index(alloc, from)?;
    let letter = short(alloc, letter)?;
    let to = index(alloc, to)?;
    Ok((from, letter, to))
}

/// The numeral of a number, which is read as the number again. An error comes only where memory ran out.
pub fn integer(alloc: Global, number: i128) -> Result<Numeral, AllocError>
    requires { Fits number }
    ensures writes { IfOk result (λ n. Writes n number) }
    ensures read { IfOk result (λ n. number_in n ≡ Some number) }
{
    Ok(Numeral {
        negative: number < 0,
        digits: digits(alloc, number.unsigned_abs())?,
    })
}
