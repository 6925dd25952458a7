//! What is answered to annotations.

ghost use Rattle.std.specs.Prelude.{◌≡◌, ◌≢◌, ◌≤◌, ◌+◌, length, Err, IfOk, IfSome};
ghost use Rattle.outer_io.specs.Faults.{Rose};
ghost use Rattle.outer_io.specs.Texts.{text_named};
ghost use Rattle.proof_names.specs.CoarseLines.CoarseLetters.{coarse_letters};
ghost use Rattle.proof_names.specs.Items.{first_triple};
ghost use Rattle.proof_check.specs.declared.rejects.RejectCause.TheVariants as RejectCause;
ghost use Rattle.text_reports.specs.Answers.{answer_of, HasNoErrorWord, TextIsSafe, IsJudged, IsRejected};
ghost use Rattle.text_reports.specs.ReportTexts.{accepted_answer, failed_answer, rejected_answer};
ghost use Rattle.text_reports.specs.ReportCases.{ReportsSecond, ReportsAnnotation, ReportsProof, ReportsCheck};

use crate::answers::TextAnswer;
use crate::programs::lowered_text;
use crate::reading::{Halt, PROGRAM_LIMIT, SECOND_LIMIT, text_within};
use letter_acts::Icfg;
use outer_io::Shelf;
use proof_check::{Reject, RejectCause, check};
use proof_form::{Annotation, ProofFault, read_safe};
use proof_names::coarse_lines::{CoarseFault, compared};
use std::alloc::{AllocError, Global};

/// The line of an annotation on which the first of its coarse lines and of its items stands.
const FIRST_LINE: u128 = 4;

/// What is answered where the coarse line at this place of an annotation is wrong.
fn wrong(place: usize) -> TextAnswer
    ensures answer { answer_of result ≡ failed_answer (place + 4) RejectCause.BadName }
    ensures line { IsRejected (place + 4) RejectCause.BadName result }
{
    TextAnswer::Rejected {
        line: place as u128 + FIRST_LINE,
        cause: RejectCause::BadName,
    }
}

/// What is answered where the triple at this place of an annotation with so many coarse lines lacks its own.
fn missing(count: usize, proof: &Annotation, place: usize) -> TextAnswer
    ensures answer { answer_of result ≡ rejected_answer count (first_triple proof.now + place) RejectCause.BadName }
    ensures line { IsRejected (first_triple proof.now + place + (count + 4)) RejectCause.BadName result }
{
    let item = proof.preds().len() as u128 + place as u128;
    TextAnswer::Rejected {
        line: item + (count as u128 + FIRST_LINE),
        cause: RejectCause::BadName,
    }
}

/// What is answered where a check fails at this item of an annotation with so many coarse lines.
fn rejected(count: usize, item: u64, cause: RejectCause) -> TextAnswer
    ensures answer { answer_of result ≡ rejected_answer count item cause }
    ensures line { IsRejected (item + (count + 4)) cause result }
{
    TextAnswer::Rejected {
        line: u128::from(item) + (count as u128 + FIRST_LINE),
        cause,
    }
}

/// What is answered to a graph and to an annotation with lines of the coarse letters that its triples name.
fn proved(
    alloc: Global,
    icfg: &Icfg,
    coarse: &[u32],
    proof: &Annotation,
) -> Result<TextAnswer, AllocError>
    requires { coarse.now ≡ coarse_letters icfg.now proof.now }
    ensures reported { IfOk result (λ a. ReportsAnnotation icfg.now coarse.now proof.now (answer_of a)) }
    ensures judged { IfOk result (IsJudged icfg.now coarse.now proof.now) }
    ensures accepted { IfOk result (λ a. answer_of a ≡ accepted_answer → HasNoErrorWord icfg.now) }
{
    match check(alloc, icfg, proof) {
        Ok(()) => Ok(TextAnswer::Accepted),
        Err(Reject::At { item, cause }) => Ok(rejected(coarse.len(), item, cause)),
        Err(Reject::Memory) => Err(AllocError),
    }
}

/// What is answered to a graph and to an annotation with lines of these coarse letters, which are told by their numbers. The one error is want of memory.
pub fn confirmed(
    alloc: Global,
    icfg: &Icfg,
    coarse: &[u32],
    proof: &Annotation,
) -> Result<TextAnswer, AllocError>
    ensures reported { IfOk result (λ a. ReportsAnnotation icfg.now coarse.now proof.now (answer_of a)) }
    ensures judged { IfOk result (IsJudged icfg.now coarse.now proof.now) }
    ensures accepted { IfOk result (λ a. answer_of a ≡ accepted_answer → HasNoErrorWord icfg.now) }
{
    match compared(alloc, icfg, coarse, proof) {
        Ok(()) => proved(alloc, icfg, coarse, proof),
        Err(CoarseFault::Line(place)) => Ok(wrong(place)),
        Err(CoarseFault::Triple(place)) => Ok(missing(coarse.len(), proof, place)),
        Err(CoarseFault::Memory) => Err(AllocError),
    }
}

/// What is answered to a graph and to the text of an annotation.
fn judged(alloc: Global, icfg: &Icfg, text: &[u8]) -> Result<TextAnswer, AllocError>
    requires { length text.now ≤ SECOND_LIMIT }
    ensures reported { IfOk result (λ a. ReportsProof icfg.now text.now (answer_of a)) }
    ensures accepted { IfOk result (λ a. answer_of a ≡ accepted_answer → HasNoErrorWord icfg.now) }
{
    match read_safe(alloc, text) {
        Ok((_rounds, coarse, proof)) => confirmed(alloc, icfg, &coarse, &proof),
        Err(ProofFault::Syntax { line }) => Ok(TextAnswer::Syntax {
            line: u128::from(line),
        }),
        Err(ProofFault::Memory) => Err(AllocError),
    }
}

/// What is answered to a graph and to the annotation in the text of that name.
fn judged_within<H: Shelf>(
    alloc: Global,
    shelf: &mut H,
    icfg: &Icfg,
    second: &str,
) -> Result<TextAnswer, Halt>
    ensures texts { H.texts shelf.new ≡ H.texts shelf.old }
    ensures reported { IfOk result (λ a. IfSome (H.texts shelf.old) (λ shown.
        ReportsSecond (text_named second.now shown) (ReportsProof icfg.now) (answer_of a))) }
    ensures accepted { IfOk result (λ a. answer_of a ≡ accepted_answer → HasNoErrorWord icfg.now) }
    ensures fault { result ≡ Err Halt.Fault → Rose (H.faults shelf.old) (H.faults shelf.new) }
    ensures no_fault { result ≢ Err Halt.Fault → H.faults shelf.new ≡ H.faults shelf.old }
    ensures never_falls { H.faults shelf.old ≤ H.faults shelf.new }
{
    let Some(proof) = text_within(alloc, shelf, second, SECOND_LIMIT)? else {
        return Ok(TextAnswer::TooLong);
    };
    Ok(judged(alloc, icfg, &proof)?)
}

/// What is answered to a program text, of at most `PROGRAM_LIMIT` bytes, and to the annotation in the text of that name, which is read once the program
/// has a graph. `Fault` says that a call on the shelf failed, `Memory` that memory ran out.
pub fn checked<H: Shelf>(
    alloc: Global,
    shelf: &mut H,
    text: &[u8],
    second: &str,
    entry: &str,
) -> Result<TextAnswer, Halt>
    requires { length text.now ≤ PROGRAM_LIMIT }
    ensures texts { H.texts shelf.new ≡ H.texts shelf.old }
    ensures reported { IfOk result (λ a. IfSome (H.texts shelf.old) (λ shown.
        ReportsCheck entry.now text.now (text_named second.now shown) (answer_of a))) }
    ensures accepted { IfOk result (λ a. answer_of a ≡ accepted_answer → TextIsSafe entry.now text.now) }
    ensures fault { result ≡ Err Halt.Fault → Rose (H.faults shelf.old) (H.faults shelf.new) }
    ensures no_fault { result ≢ Err Halt.Fault → H.faults shelf.new ≡ H.faults shelf.old }
    ensures never_falls { H.faults shelf.old ≤ H.faults shelf.new }
{
    match lowered_text(alloc, text, entry)? {
        Ok(icfg) => judged_within(alloc, shelf, &icfg, second),
        Err(answer) => Ok(answer),
    }
}
