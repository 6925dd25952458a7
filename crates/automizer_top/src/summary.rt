//! What is written of the generated program.

ghost use Rattle.std.specs.Prelude.{◌≡◌, ◌++◌, ◌≤◌, IfOk, OnOk, codes};
ghost use Rattle.std.specs.String.{string_bytes};
ghost use Rattle.race_verdicts.specs.Texts.{cause_name};
ghost use Rattle.automizer_top.specs.Summary.{head_lines, count_line, summary_lines, summary_text, verdict_word};

use race_core::Cause;
use race_verdicts::Verdict;
use std::alloc::{AllocError, Global};

/// What is said where nothing is known.
fn unknown_word(cause: Cause) -> &'static str
    ensures { result.now ≡ codes "unknown " ++ cause_name cause }
{
    match cause {
        Cause::Rounds => "unknown rounds",
        Cause::Whole => "unknown whole",
        Cause::Number => "unknown number",
        Cause::Product => "unknown product",
    }
}

/// The word of a verdict, with the cause where nothing is known.
fn verdict_word(verdict: &Verdict) -> &'static str
    ensures { result.now ≡ verdict_word verdict.now }
{
    match verdict {
        Verdict::Safe { .. } => "safe",
        Verdict::Unsafe(_) => "unsafe",
        Verdict::Unknown { cause, word: _ } => unknown_word(*cause),
    }
}

/// Adds how many procedures the chain has, and the word of the verdict.
fn add_head(text: &mut String, count: u32, word: &str) -> Result<(), AllocError>
    ensures { OnOk result (string_bytes text.new ≡ string_bytes text.old ++ head_lines count word.now) }
{
    write!(text, "big {count}\n{word}\n")
}

/// Adds how many there are of something.
fn add_count(text: &mut String, what: &str, count: u32) -> Result<(), AllocError>
    ensures { OnOk result (string_bytes text.new ≡ string_bytes text.old ++ count_line what.now count) }
{
    write!(text, "{what}{count}\n")
}

/// The lines of a summary with these numbers.
fn lines(
    alloc: Global,
    count: u32,
    word: &str,
    procedures: u32,
    places: u32,
    letters: u32,
) -> Result<Vec<u8>, AllocError>
    ensures { IfOk result (λ text. text.items ≡ summary_lines count word.now procedures places letters) }
{
    let mut text = String::new(alloc);
    add_head(&mut text, count, word)?;
    add_count(&mut text, "procedures ", procedures)?;
    add_count(&mut text, "places ", places)?;
    add_count(&mut text, "letters ", letters)?;
    add_count(&mut text, "assertions ", count)?;
    Ok(text.into_bytes())
}

/// What is written of the generated program of so many procedures in its chain, with this verdict.
pub(crate) fn summary(alloc: Global, count: u32, verdict: &Verdict) -> Result<Vec<u8>, AllocError>
    requires { count ≤ 200 }
    ensures { IfOk result (λ text. text.items ≡ summary_text count verdict.now) }
{
    let word = verdict_word(verdict);
    lines(alloc, count, word, count + 1, 5 * count + 3, 5 * count + 2)
}
