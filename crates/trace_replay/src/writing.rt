//! Writes the texts of failures.
ghost use Rattle.std.specs.Prelude.{◌≡◌, ◌++◌, IfOk, OnOk, codes, length};
ghost use Rattle.std.specs.List.{AllByRecursion, concat};
ghost use Rattle.std.specs.String.{string_bytes};
ghost use Rattle.math_facts.specs.Fits.{Fits};
ghost use Rattle.trace_replay.specs.FailureText.{IsInBounds, numbered_line, assertion_line, value_line, failure_text, numbers, plain};

use crate::failure::Failure;
use boogie_run::{AssertId, Choice};
use std::alloc::{AllocError, Global};

/// The text of a failure.
pub fn write_failure(alloc: Global, failure: &Failure) -> Result<Vec<u8>, AllocError>
    requires { AllByRecursion Fits (numbers failure.now.trail.choices.items) }
    ensures { IfOk result (λ text. IsInBounds (plain failure.now) × (text.items ≡ failure_text (plain failure.now))) }
{
    let rounds = failure.rounds;
    let AssertId { number, line } = failure.id;
    let steps = failure.trail.steps;
    let choices = failure.trail.choices.as_slice();
    let values = choices.len() as u64;
    let mut text = String::from_str(alloc, "unsafe\n")?;
    numbered(&mut text, "rounds ", rounds)?;
    assertion(&mut text, number, line)?;
    numbered(&mut text, "steps ", steps)?;
    numbered(&mut text, "values ", values)?;
    for choice in choices {
        value(&mut text, *choice)?;
    }
    Ok(text.into_bytes())
}

fn numbered(text: &mut String, word: &str, n: u64) -> Result<(), AllocError>
    ensures { OnOk result (string_bytes text.new ≡ string_bytes text.old ++ numbered_line word.now n) }
{
    write!(text, "{word}{n}\n")
}

fn assertion(text: &mut String, number: u32, line: u32) -> Result<(), AllocError>
    ensures { OnOk result (string_bytes text.new ≡ string_bytes text.old ++ assertion_line number line) }
{
    write!(text, "assertion {number} line {line}\n")
}

fn value(text: &mut String, choice: Choice) -> Result<(), AllocError>
    ensures { OnOk result (string_bytes text.new ≡ string_bytes text.old ++ value_line choice.0) }
{
    let Choice(z) = choice;
    write!(text, "{z}\n")
}
