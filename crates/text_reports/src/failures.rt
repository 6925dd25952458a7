//! What is answered to failures.

ghost use Rattle.std.specs.Prelude.{◌≡◌, ◌≢◌, ◌≤◌, List, ℕ, length, Err, IfOk, IfSome};
ghost use Rattle.outer_io.specs.Faults.{Rose};
ghost use Rattle.outer_io.specs.Texts.{text_named};
ghost use Rattle.typed_tree.specs.TypingRules.TypedParts.{typed_program};
ghost use Rattle.trace_replay.specs.FailureText.{plain};
ghost use Rattle.text_reports.specs.Answers.{answer_of};
ghost use Rattle.text_reports.specs.ReportCases.{IsFailureText, ReportsFailure, ReportsReplay};

use crate::answers::TextAnswer;
use crate::programs::typed;
use crate::reading::{Halt, PROGRAM_LIMIT, SECOND_LIMIT, text_within};
use boogie_types::Typed;
use outer_io::Shelf;
use std::alloc::{AllocError, Global};
use trace_replay::{Failure, FailureFault, ReplayFault, read_failure, replay};

/// What is answered to a program and to a failure. The one error is want of memory.
pub fn replayed_failure(
    alloc: Global,
    program: &Typed,
    failure: &Failure,
) -> Result<TextAnswer, AllocError>
    ensures { (text : List ℕ) → IsFailureText text (plain failure.now) → IfOk result (λ a. ReportsFailure (typed_program program.now) text (answer_of a)) }
{
    match replay(alloc, program, &failure.trail) {
        Ok(id) => Ok(TextAnswer::Replayed(id)),
        Err(ReplayFault::At { step, cause }) => Ok(TextAnswer::Stopped { step, cause }),
        Err(ReplayFault::Memory) => Err(AllocError),
    }
}

/// What is answered to a program and to the text of a failure.
fn outcome(alloc: Global, program: &Typed, text: &[u8]) -> Result<TextAnswer, AllocError>
    requires { length text.now ≤ SECOND_LIMIT }
    ensures { IfOk result (λ a. ReportsFailure (typed_program program.now) text.now (answer_of a)) }
{
    let failure = match read_failure(alloc, text) {
        Ok(failure) => failure,
        Err(FailureFault::Syntax { line }) => {
            return Ok(TextAnswer::Syntax {
                line: u128::from(line),
            });
        }
        Err(FailureFault::Memory) => return Err(AllocError),
    };
    replayed_failure(alloc, program, &failure)
}

/// What is answered to a program text, of at most `PROGRAM_LIMIT` bytes, and to the failure in the text of that name, which is read once the program is
/// typed. `Fault` says that a call on the shelf failed, `Memory` that memory ran out.
pub fn replayed<H: Shelf>(
    alloc: Global,
    shelf: &mut H,
    text: &[u8],
    second: &str,
    entry: &str,
) -> Result<TextAnswer, Halt>
    requires { length text.now ≤ PROGRAM_LIMIT }
    ensures texts { H.texts shelf.new ≡ H.texts shelf.old }
    ensures reported { IfOk result (λ a. IfSome (H.texts shelf.old) (λ shown.
        ReportsReplay entry.now text.now (text_named second.now shown) (answer_of a))) }
    ensures fault { result ≡ Err Halt.Fault → Rose (H.faults shelf.old) (H.faults shelf.new) }
    ensures no_fault { result ≢ Err Halt.Fault → H.faults shelf.new ≡ H.faults shelf.old }
    ensures never_falls { H.faults shelf.old ≤ H.faults shelf.new }
{
    let program = match typed(alloc, text, entry)? {
        Ok(program) => program,
        Err(answer) => return Ok(answer),
    };
    let Some(failure) = text_within(alloc, shelf, second, SECOND_LIMIT)? else {
        return Ok(TextAnswer::TooLong);
    };
    Ok(outcome(alloc, &program, &failure)?)
}
