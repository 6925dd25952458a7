//! Words of lines, and lines of texts.

ghost use Rattle.std.specs.Prelude.{◌≡◌, ◌++◌, ◌∷◌, [], OnOk, string_bytes};
ghost use Rattle.table_reading.specs.Parted.{IsParted};
ghost use Rattle.table_reading.specs.Words.{first_of, behind_first};

use std::alloc::AllocError;

/// The text before the first blank, and behind it; without a blank all of it, and nothing.
pub fn first_word(text: &str) -> (&str, &str)
    ensures word { result.0.now ≡ first_of text.now }
    ensures rest { result.1.now ≡ behind_first text.now }
{
    text.split_once(' ').unwrap_or((text, ""))
}

/// The text before the first place where the mark stands, and behind the mark; without one all of it, and nothing.
pub fn parted<'a>(text: &'a str, mark: &str) -> (&'a str, &'a str)
    ensures { IsParted mark.now text.now result.0.now result.1.now }
{
    text.split_once(mark).unwrap_or((text, ""))
}

/// Puts a line and its end behind a text; where there is no memory, none of it or the line alone.
pub fn push_line(text: &mut String, line: &str) -> Result<(), AllocError>
    ensures { OnOk result (string_bytes text.new ≡ string_bytes text.old ++ line.now ++ 10 ∷ []) }
{
    text.push_str(line)?;
    text.push('\n')
}
