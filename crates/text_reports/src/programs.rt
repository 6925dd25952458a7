//! What is answered to program texts.

ghost use Rattle.std.specs.Prelude.{true, ◌≡◌, ◌≢◌, ◌≤◌, length, IfOk, MatchResult};
ghost use Rattle.std.specs.List.{list_all};
ghost use Rattle.boogie_tree.specs.Names.{is_name};
ghost use Rattle.letter_acts.specs.Kept.{Keeps};
ghost use Rattle.typed_tree.specs.declared.fault.TypeFault.TheVariants as TypeFault;
ghost use Rattle.typed_tree.specs.TypingRules.TypedParts.{typed_program};
ghost use Rattle.text_reports.specs.Answers.{answer_of, IsGraphOf, IsGraphOfText, IsRefusedText};
ghost use Rattle.text_reports.specs.Refusals.{refusal};
ghost use Rattle.text_reports.specs.TypeRefusals.{type_refusal};
ghost use Rattle.text_reports.specs.ReportTexts.{answer};
ghost use Rattle.text_reports.specs.ReportCases.{IsTypedText, RefusesTyped, RefusesLowering, ReportsPrint};

use crate::answers::TextAnswer;
use crate::reading::PROGRAM_LIMIT;
use boogie_parse::{Fault, parse};
use boogie_tree::print;
use boogie_types::{TypeFault, Typed, resolve};
use icfg_lower::{LowerFault, lower};
use letter_acts::Icfg;
use std::alloc::{AllocError, Global};

/// What is answered to a program text with this fault.
fn refused(fault: Fault) -> Result<TextAnswer, AllocError>
    ensures answer { IfOk result (λ a. answer_of a ≡ answer (refusal fault) 3) }
    ensures no_memory { IfOk result (λ a. fault ≢ Fault.Memory) }
{
    match fault {
        Fault::Memory => Err(AllocError),
        fault => Ok(TextAnswer::Refused(fault)),
    }
}

/// What is answered to a program text, of at most `PROGRAM_LIMIT` bytes, that is to be printed. The one error is want of memory.
pub fn printed(alloc: Global, text: &[u8]) -> Result<TextAnswer, AllocError>
    requires { length text.now ≤ PROGRAM_LIMIT }
    ensures { IfOk result (λ a. ReportsPrint text.now (answer_of a)) }
{
    match parse(alloc, text) {
        Ok(program) => Ok(TextAnswer::Printed(print(alloc, &program)?)),
        Err(fault) => refused(fault),
    }
}

/// What is answered to a program that breaks a typing rule.
fn ill_typed(fault: TypeFault) -> Result<TextAnswer, AllocError>
    ensures answer { IfOk result (λ a. answer_of a ≡ answer (type_refusal fault) 3) }
    ensures no_memory { IfOk result (λ a. fault ≢ TypeFault.Memory) }
{
    match fault {
        TypeFault::Memory => Err(AllocError),
        fault => Ok(TextAnswer::IllTyped(fault)),
    }
}

/// The typed program of a text, of at most `PROGRAM_LIMIT` bytes, whose runs begin at the procedure `entry`, or what is answered where it is the text
/// of none. The one error is want of memory.
pub fn typed(
    alloc: Global,
    text: &[u8],
    entry: &str,
) -> Result<Result<Typed, TextAnswer>, AllocError>
    requires { length text.now ≤ PROGRAM_LIMIT }
    ensures typed { IfOk result (λ r. MatchResult r
        (λ t. IsTypedText entry.now text.now (typed_program t))
        (λ a. RefusesTyped entry.now text.now (answer_of a))) }
    ensures names { IfOk result (λ r. IfOk r (λ t. list_all (λ p. is_name p.name) (typed_program t).procs ≡ true)) }
{
    let program = match parse(alloc, text) {
        Ok(program) => program,
        Err(fault) => return Ok(Err(refused(fault)?)),
    };
    match resolve(alloc, program, entry) {
        Ok(typed) => Ok(Ok(typed)),
        Err(fault) => Ok(Err(ill_typed(fault)?)),
    }
}

/// The graph of a program, or what is answered where it cannot be lowered. The one error is want of memory.
pub fn graph(alloc: Global, program: &Typed) -> Result<Result<Icfg, TextAnswer>, AllocError>
    ensures graph { IfOk result (λ r. MatchResult r
        (IsGraphOf (typed_program program.now))
        (λ a. RefusesLowering (typed_program program.now) (answer_of a))) }
    ensures kept { IfOk result (λ r. IfOk r Keeps) }
{
    match lower(alloc, program) {
        Ok(icfg) => {
            // Contracts alone speak of what a graph keeps.
            let _edges = icfg.nwa();
            Ok(Ok(icfg))
        }
        Err(LowerFault::TooWide(at)) => Ok(Err(TextAnswer::TooWide(at))),
        Err(LowerFault::TooBig(at)) => Ok(Err(TextAnswer::TooBig(at))),
        Err(LowerFault::Memory) => Err(AllocError),
    }
}

/// The graph of the program of a text, of at most `PROGRAM_LIMIT` bytes, or what is answered to the text, whatever the second text, where there is none.
/// The one error is want of memory.
pub fn lowered_text(
    alloc: Global,
    text: &[u8],
    entry: &str,
) -> Result<Result<Icfg, TextAnswer>, AllocError>
    requires { length text.now ≤ PROGRAM_LIMIT }
    ensures { IfOk result (λ r. MatchResult r
        (IsGraphOfText entry.now text.now)
        (λ a. IsRefusedText entry.now text.now (answer_of a))) }
{
    match typed(alloc, text, entry)? {
        Ok(program) => graph(alloc, &program),
        Err(answer) => Ok(Err(answer)),
    }
}
