//! Numbers of texts.

ghost use Rattle.std.specs.Prelude.{◌≡◌, ℕ, List, IfOk};
ghost use Rattle.table_reading.specs.Numbers.{IsNumberOf, IsValueOf};
ghost use Rattle.table_reading.specs.Words.{first_of, behind_first, AreWords, ArePaired};

use crate::texts::first_word;
use std::alloc::{AllocError, Global};

/// The number that a text is, in decimal digits, or 0 where it is none of 32 bits.
pub fn number(text: &str) -> u32
    ensures { IsNumberOf text.now result }
{
    text.parse::<u32>().unwrap_or(0)
}

/// The number that a text is, in decimal digits behind a sign or none, or 0 where it is none of 128 bits.
pub fn value(text: &str) -> i128
    ensures { IsValueOf text.now result }
{
    text.parse::<i128>().unwrap_or(0)
}

/// The number of the first word, and what stands behind the blank.
pub fn numbered(text: &str) -> (u32, &str)
    ensures number { IsNumberOf (first_of text.now) result.0 }
    ensures rest { result.1.now ≡ behind_first text.now }
{
    let (first, others) = first_word(text);
    (number(first), others)
}

/// The numbers of a text of two, with a blank between them.
pub fn two(text: &str) -> (u32, u32)
    ensures first { IsNumberOf (first_of text.now) result.0 }
    ensures second { IsNumberOf (behind_first text.now) result.1 }
{
    let (first, others) = numbered(text);
    (first, number(others))
}

/// The numbers of a text of three, with a blank between two.
pub fn three(text: &str) -> (u32, u32, u32)
    ensures first { IsNumberOf (first_of text.now) result.0 }
    ensures second { IsNumberOf (first_of (behind_first text.now)) result.1 }
    ensures third { IsNumberOf (behind_first (behind_first text.now)) result.2 }
{
    let (first, others) = numbered(text);
    let (second, third) = two(others);
    (first, second, third)
}

/// The numbers of a text with white space between them.
pub fn numbers(alloc: Global, text: &str) -> Result<Vec<u32>, AllocError>
    ensures { IfOk result (λ v. (ws : List (List ℕ)) × AreWords text.now ws × ArePaired IsNumberOf ws v.items) }
{
    text.split_whitespace().map(number).collect(alloc)
}

/// The values of a text with white space between them.
pub fn values(alloc: Global, text: &str) -> Result<Vec<i128>, AllocError>
    ensures { IfOk result (λ v. (ws : List (List ℕ)) × AreWords text.now ws × ArePaired IsValueOf ws v.items) }
{
    text.split_whitespace().map(value).collect(alloc)
}
