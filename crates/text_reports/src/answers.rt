//! What is answered to texts, before it is written.

ghost use Rattle.std.specs.Prelude.{◌≡◌, IfOk};
ghost use Rattle.std.specs.String.{string_bytes};
ghost use Rattle.text_reports.specs.Answers.{answer_of};
ghost use Rattle.text_reports.specs.ReportTexts.{stop_name, reject_name, failed_answer, replayed_answer};

use crate::refusals::{refusal_text, rule_line, type_refusal_text};
use boogie_parse::Fault;
use boogie_types::{Span, TypeFault};
use proof_check::RejectCause;
use std::alloc::{AllocError, Global};
use trace_replay::{AssertId, ReplayCause};

/// What is answered to a program text, an annotation or a failure. No words and no race are needed to say it.
#[derive(Drop)]
pub enum TextAnswer {
    /// A text is past its limit.
    TooLong,
    /// The program text is no program: its first fault, which is not want of memory.
    Refused(Fault),
    /// The program breaks this typing rule.
    IllTyped(TypeFault),
    /// The item there is too wide to be lowered.
    TooWide(Span),
    /// A number of the item there is too big to be lowered.
    TooBig(Span),
    /// The text of the program.
    Printed(Vec<u8>),
    /// The second text is not in its grammar: its first wrong line, counted from 1, whose number may have more than 64 bits.
    Syntax { line: u128 },
    /// The annotation proves the program.
    Accepted,
    /// A check of the annotation fails at this line, counted from 1, whose number may have more than 64 bits.
    Rejected { line: u128, cause: RejectCause },
    /// This assertion fails as the values say.
    Replayed(AssertId),
    /// The values do not lead to a failure.
    Stopped { step: u64, cause: ReplayCause },
}

impl TextAnswer {
    /// The bytes that are written. Nothing but memory can run out.
    pub fn text(self, alloc: Global) -> Result<Vec<u8>, AllocError>
        ensures { IfOk result (λ text. text.items ≡ (answer_of self).bytes) }
    {
        let line = match self {
            TextAnswer::TooLong => String::from_str(alloc, "refused TooLong\n")?,
            TextAnswer::Refused(fault) => refusal_text(alloc, &fault)?,
            TextAnswer::IllTyped(fault) => type_refusal_text(alloc, &fault)?,
            TextAnswer::TooWide(at) => rule_line(alloc, "TooWide", at)?,
            TextAnswer::TooBig(at) => rule_line(alloc, "TooBig", at)?,
            TextAnswer::Printed(text) => return Ok(text),
            TextAnswer::Syntax { line } => format!(in alloc; "rejected {line} Syntax\n")?,
            TextAnswer::Accepted => String::from_str(alloc, "accepted\n")?,
            TextAnswer::Rejected { line, cause } => rejected_text(alloc, line, cause)?,
            TextAnswer::Replayed(id) => replayed_text(alloc, id)?,
            TextAnswer::Stopped { step, cause } => {
                let name = stop_name(cause);
                format!(in alloc; "rejected {step} {name}\n")?
            }
        };
        Ok(line.into_bytes())
    }

    /// The status of a program that answers so: 0, 1 or 3.
    pub fn status(&self) -> u8
        ensures { result ≡ (answer_of self.now).status }
    {
        match self {
            TextAnswer::TooLong
            | TextAnswer::Refused(_)
            | TextAnswer::IllTyped(_)
            | TextAnswer::TooWide(_)
            | TextAnswer::TooBig(_) => 3,
            TextAnswer::Printed(_) | TextAnswer::Accepted | TextAnswer::Replayed(_) => 0,
            TextAnswer::Syntax { line: _ }
            | TextAnswer::Rejected { line: _, cause: _ }
            | TextAnswer::Stopped { step: _, cause: _ } => 1,
        }
    }
}

/// The name of a check of an annotation.
fn reject_name(cause: RejectCause) -> &'static str
    ensures { result.now ≡ reject_name cause }
{
    match cause {
        RejectCause::BadTriple => "BadTriple",
        RejectCause::NoStart => "NoStart",
        RejectCause::OpenError => "OpenError",
        RejectCause::MissingStep => "MissingStep",
        RejectCause::BadStep => "BadStep",
        RejectCause::BadName => "BadName",
    }
}

/// What is said of an annotation that a check refuses at this line.
fn rejected_text(alloc: Global, line: u128, cause: RejectCause) -> Result<String, AllocError>
    ensures { IfOk result (λ text. string_bytes text ≡ (failed_answer line cause).bytes) }
{
    let name = reject_name(cause);
    format!(in alloc; "rejected {line} {name}\n")
}

/// The name of why a replay stops.
fn stop_name(cause: ReplayCause) -> &'static str
    ensures { result.now ≡ stop_name cause }
{
    match cause {
        ReplayCause::Blocked => "Blocked",
        ReplayCause::Ended => "Ended",
        ReplayCause::Short => "Short",
        ReplayCause::Number => "Number",
        ReplayCause::BadChoice => "BadChoice",
        ReplayCause::Product => "Product",
    }
}

/// The line of an assertion that fails as the values say.
fn replayed_text(alloc: Global, id: AssertId) -> Result<String, AllocError>
    ensures { IfOk result (λ text. string_bytes text ≡ (replayed_answer id).bytes) }
{
    let AssertId { number, line } = id;
    format!(in alloc; "replayed assertion {number} line {line}\n")
}
