//! Verdicts as texts.

ghost use Rattle.std.specs.Prelude.{◌≡◌, ◌++◌, IfOk, OnOk};
ghost use Rattle.std.specs.List.{flat_map};
ghost use Rattle.std.specs.String.{string_bytes};
ghost use Rattle.race_verdicts.specs.Texts.{cause_name, letter_piece, unknown_text, verdict_text, ChoicesFit};

use crate::verdicts::Verdict;
use nwa_base::{Letter, Word};
use proof_form::write_safe;
use race_core::Cause;
use std::alloc::{AllocError, Global};
use trace_replay::write_failure;

/// The word for a cause.
fn cause_name(cause: Cause) -> &'static str
    ensures { result.now ≡ cause_name cause }
{
    match cause {
        Cause::Rounds => "rounds",
        Cause::Whole => "whole",
        Cause::Number => "number",
        Cause::Product => "product",
    }
}

/// Adds the number of a letter, behind a space.
fn push_letter(text: &mut String, letter: &Letter) -> Result<(), AllocError>
    ensures { OnOk result (string_bytes text.new ≡ string_bytes text.old ++ letter_piece letter.now) }
{
    let id = letter.id;
    write!(text, " {id}")
}

/// Adds the numbers of the letters of a word, each behind a space.
fn push_letters(text: &mut String, word: &Word) -> Result<(), AllocError>
    ensures { OnOk result (string_bytes text.new ≡ string_bytes text.old ++ flat_map letter_piece word.now) }
{
    for letter in word.letters() {
        push_letter(text, letter)?;
    }
    Ok(())
}

/// That nothing is known of a word, after so many rounds.
fn unknown_text(
    alloc: Global,
    cause: Cause,
    rounds: u64,
    word: &Word,
) -> Result<Vec<u8>, AllocError>
    ensures { IfOk result (λ v. v.items ≡ unknown_text cause rounds word.now) }
{
    let mut text = String::new(alloc);
    let name = cause_name(cause);
    write!(text, "unknown {name}\nrounds {rounds}\ntrace")?;
    push_letters(&mut text, word)?;
    write!(text, "\n")?;
    Ok(text.into_bytes())
}

/// The text of a verdict, after so many rounds.
pub fn verdict_text(alloc: Global, rounds: u64, verdict: &Verdict) -> Result<Vec<u8>, AllocError>
    requires { ChoicesFit verdict.now }
    ensures { IfOk result (λ v. v.items ≡ verdict_text rounds verdict.now) }
{
    match verdict {
        Verdict::Safe { coarse, annotation } => write_safe(alloc, rounds, coarse, annotation),
        Verdict::Unsafe(failure) => write_failure(alloc, failure),
        Verdict::Unknown { cause, word } => unknown_text(alloc, *cause, rounds, word),
    }
}
