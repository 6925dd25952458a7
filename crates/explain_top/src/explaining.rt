//! What is answered to a program, and to an annotation, a failure or a trace of it.

ghost use Rattle.std.specs.Prelude.{◌≡◌, ◌≢◌, ◌≤◌, ℕ, List, length, Some, Err, IfOk, IfSome, IsSome, MatchOption};
ghost use Rattle.outer_io.specs.Faults.{Rose};
ghost use Rattle.outer_io.specs.Texts.{text_named};
ghost use Rattle.boogie_tree.specs.Tree.{Declaration};
ghost use Rattle.boogie_tree.specs.Printing.{program_text};
ghost use Rattle.boogie_tree.specs.View as tree;
ghost use Rattle.boogie_parse.specs.Rules.GrammarLimits.{IsProgram};
ghost use Rattle.typed_tree.specs.TypingRules.TypedParts.{typed_program};
ghost use Rattle.proof_names.specs.CoarseLines.CoarseLetters.{coarse_letters};
ghost use Rattle.proof_names.specs.Outlines.{sketch};
ghost use Rattle.proof_names.specs.Items.{Names};
ghost use Rattle.proof_check.specs.Proves.{Proves};
ghost use Rattle.text_reports.specs.Answers.{answer_of, HasNoErrorWord, TextIsSafe};
ghost use Rattle.text_reports.specs.ReportTexts.{answer, syntax_answer};
ghost use Rattle.text_reports.specs.ReportCases.{ReportsSecond};
ghost use Rattle.explain_top.specs.Report.{explained_program, ExplainsAnnotation, ExplainsProof, ExplainsFailure, ExplainsTrace, OfProof, kind_of, Explains, ReportsExplain};

use crate::run_story::story;
use crate::trace_story::{ToldFault, TraceFault, read_trace, trace_story};
use crate::words::Request;
use boogie_parse::parse;
use boogie_tree::{Program, print};
use boogie_types::Typed;
use explained_proof::explained;
use letter_acts::Icfg;
use outer_io::Shelf;
use proof_check::{Reject, RejectCause, named_proof};
use proof_form::{Annotation, ProofFault, read_safe};
use proof_names::Outline;
use proof_names::coarse_lines::{CoarseFault, compared};
use std::alloc::{AllocError, Global};
use text_reports::{
    Halt, PROGRAM_LIMIT, SECOND_LIMIT, TextAnswer, confirmed, graph, text_within, typed,
};
use trace_replay::{FailureFault, ReplayFault, read_failure};

/// What the lines of an annotation name, where it proves the graph and lines of these coarse letters are those that its triples ask for; else none.
fn accepted(
    alloc: Global,
    icfg: &Icfg,
    coarse: &[u32],
    proof: &Annotation,
) -> Result<Option<Outline>, AllocError>
    ensures named { IfOk result (λ r. MatchOption r
        (coarse.now ≡ coarse_letters icfg.now proof.now → Proves icfg.now proof.now → ⊥)
        (λ o. (coarse.now ≡ coarse_letters icfg.now proof.now) × Proves icfg.now proof.now × Names icfg.now proof.now (sketch o))) }
    ensures safe { IfOk result (λ r. IsSome r → HasNoErrorWord icfg.now) }
{
    match compared(alloc, icfg, coarse, proof) {
        Ok(()) => {}
        Err(CoarseFault::Line(_place)) => return Ok(None),
        Err(CoarseFault::Triple(_place)) => return Ok(None),
        Err(CoarseFault::Memory) => return Err(AllocError),
    }
    match named_proof(alloc, icfg, proof) {
        Ok(outline) => Ok(Some(outline)),
        Err(Reject::At { item: _, cause: _ }) => Ok(None),
        Err(Reject::Memory) => Err(AllocError),
    }
}

/// What is answered to a text of which this is the first wrong line.
fn misspelt(line: u64) -> TextAnswer
    ensures { answer_of result ≡ syntax_answer line }
{
    TextAnswer::Syntax {
        line: u128::from(line),
    }
}

/// The tree of a program text. It was read before, so that memory alone can lack.
fn tree_of(alloc: Global, text: &[u8]) -> Result<Program, AllocError>
    requires short { length text.now ≤ PROGRAM_LIMIT }
    requires spelled { (ds : List Declaration) × IsProgram text.now ds }
    ensures { IfOk result (λ p. IsProgram text.now (tree.program p)) }
{
    match parse(alloc, text) {
        Ok(program) => Ok(program),
        Err(_) => Err(AllocError),
    }
}

/// The program of a text with what an annotation knows of it, the lines of which name this.
fn told(
    alloc: Global,
    text: &[u8],
    program: &Typed,
    icfg: &Icfg,
    proof: &Annotation,
    outline: &Outline,
) -> Result<TextAnswer, AllocError>
    requires short { length text.now ≤ PROGRAM_LIMIT }
    requires spelled { (ds : List Declaration) × IsProgram text.now ds }
    ensures { IfOk result (λ a. (ds : List Declaration) × IsProgram text.now ds
        × (answer_of a ≡ answer (program_text (explained_program (typed_program program.now) icfg.now proof.now (sketch outline.now) ds)) 0)) }
{
    let tree = tree_of(alloc, text)?;
    let tree = explained(alloc, tree, program, icfg, proof, &outline.nodes)?;
    Ok(TextAnswer::Printed(print(alloc, &tree)?))
}

/// What is answered to a program, to its graph and to an annotation with lines of these coarse letters.
fn explained_annotation(
    alloc: Global,
    text: &[u8],
    program: &Typed,
    icfg: &Icfg,
    coarse: &[u32],
    proof: &Annotation,
) -> Result<TextAnswer, AllocError>
    requires short { length text.now ≤ PROGRAM_LIMIT }
    requires spelled { (ds : List Declaration) × IsProgram text.now ds }
    ensures reported { IfOk result (λ a. ExplainsAnnotation text.now (typed_program program.now) icfg.now coarse.now proof.now (answer_of a)) }
    ensures safe { IfOk result (λ a. (answer_of a).status ≡ 0 → HasNoErrorWord icfg.now) }
{
    match accepted(alloc, icfg, coarse, proof)? {
        Some(outline) => told(alloc, text, program, icfg, proof, &outline),
        // What is wrong with it is told as `check` tells it.
        None => confirmed(alloc, icfg, coarse, proof),
    }
}

/// What is answered to a program, to its graph and to the text of an annotation.
fn explained_proof(
    alloc: Global,
    text: &[u8],
    program: &Typed,
    icfg: &Icfg,
    second: &[u8],
) -> Result<TextAnswer, AllocError>
    requires short { length text.now ≤ PROGRAM_LIMIT }
    requires spelled { (ds : List Declaration) × IsProgram text.now ds }
    requires second { length second.now ≤ SECOND_LIMIT }
    ensures reported { IfOk result (λ a. ExplainsProof text.now (typed_program program.now) second.now icfg.now (answer_of a)) }
    ensures safe { IfOk result (λ a. (answer_of a).status ≡ 0 → HasNoErrorWord icfg.now) }
{
    match read_safe(alloc, second) {
        Ok((_rounds, coarse, proof)) => {
            explained_annotation(alloc, text, program, icfg, &coarse, &proof)
        }
        Err(ProofFault::Syntax { line }) => Ok(misspelt(line)),
        Err(ProofFault::Memory) => Err(AllocError),
    }
}

/// What is answered to a program and to the text of a failure.
fn explained_failure(
    alloc: Global,
    text: &[u8],
    program: &Typed,
    second: &[u8],
    all: bool,
) -> Result<TextAnswer, AllocError>
    requires short { length text.now ≤ PROGRAM_LIMIT }
    requires spelled { (ds : List Declaration) × IsProgram text.now ds }
    requires second { length second.now ≤ SECOND_LIMIT }
    ensures { IfOk result (λ a. ExplainsFailure text.now all (typed_program program.now) second.now (answer_of a)) }
{
    let failure = match read_failure(alloc, second) {
        Ok(failure) => failure,
        Err(FailureFault::Syntax { line }) => return Ok(misspelt(line)),
        Err(FailureFault::Memory) => return Err(AllocError),
    };
    let tree = tree_of(alloc, text)?;
    match story(alloc, &tree, program, &failure.trail, all) {
        Ok(lines) => Ok(TextAnswer::Printed(lines)),
        Err(ReplayFault::At { step, cause }) => Ok(TextAnswer::Stopped { step, cause }),
        Err(ReplayFault::Memory) => Err(AllocError),
    }
}

/// What is answered to a program, to its graph and to the text of a trace of which nothing is known.
fn explained_trace(
    alloc: Global,
    text: &[u8],
    program: &Typed,
    icfg: &Icfg,
    second: &[u8],
    all: bool,
) -> Result<TextAnswer, AllocError>
    requires short { length text.now ≤ PROGRAM_LIMIT }
    requires spelled { (ds : List Declaration) × IsProgram text.now ds }
    ensures { IfOk result (λ a. ExplainsTrace text.now all (typed_program program.now) icfg.now second.now (answer_of a)) }
{
    let trace = match read_trace(alloc, second) {
        Ok(trace) => trace,
        Err(TraceFault::Syntax { line }) => return Ok(misspelt(line)),
        Err(TraceFault::Memory) => return Err(AllocError),
    };
    let tree = tree_of(alloc, text)?;
    match trace_story(alloc, &tree, program, icfg, &trace, all) {
        Ok(bytes) => Ok(TextAnswer::Printed(bytes)),
        // The letters stand in the third line.
        Err(ToldFault::BadName) => Ok(TextAnswer::Rejected {
            line: 3,
            cause: RejectCause::BadName,
        }),
        Err(ToldFault::BadStep) => Ok(TextAnswer::Rejected {
            line: 3,
            cause: RejectCause::BadStep,
        }),
        Err(ToldFault::Memory) => Err(AllocError),
    }
}

/// What is answered to a program, to its graph and to the text of an answer, which is read by how it begins.
fn explained_text(
    alloc: Global,
    text: &[u8],
    program: &Typed,
    icfg: &Icfg,
    second: &[u8],
    all: bool,
) -> Result<TextAnswer, AllocError>
    requires short { length text.now ≤ PROGRAM_LIMIT }
    requires spelled { (ds : List Declaration) × IsProgram text.now ds }
    requires second { length second.now ≤ SECOND_LIMIT }
    ensures reported { IfOk result (λ a. Explains (kind_of second.now) text.now all (typed_program program.now) icfg.now second.now (answer_of a)) }
    ensures safe { IfOk result (λ a. kind_of second.now ≡ OfProof → (answer_of a).status ≡ 0 → HasNoErrorWord icfg.now) }
{
    if second.starts_with(b"unsafe\n") {
        explained_failure(alloc, text, program, second, all)
    } else if second.starts_with(b"unknown ") {
        explained_trace(alloc, text, program, icfg, second, all)
    } else {
        explained_proof(alloc, text, program, icfg, second)
    }
}

/// What is answered to a program, to its graph and to the answer in the text of that name.
fn explained_within<H: Shelf>(
    alloc: Global,
    shelf: &mut H,
    text: &[u8],
    program: &Typed,
    icfg: &Icfg,
    request: &Request<'_>,
) -> Result<TextAnswer, Halt>
    requires short { length text.now ≤ PROGRAM_LIMIT }
    requires spelled { (ds : List Declaration) × IsProgram text.now ds }
    ensures texts { H.texts shelf.new ≡ H.texts shelf.old }
    ensures reported { IfOk result (λ a. IfSome (H.texts shelf.old) (λ shown. ReportsSecond (text_named request.now.answer.now shown)
        (λ told. Explains (kind_of told) text.now request.now.all (typed_program program.now) icfg.now told) (answer_of a))) }
    ensures safe { IfOk result (λ a. (told : List ℕ) → IfSome (H.texts shelf.old) (λ shown. text_named request.now.answer.now shown ≡ Some told →
        kind_of told ≡ OfProof → (answer_of a).status ≡ 0 → HasNoErrorWord icfg.now)) }
    ensures fault { result ≡ Err Halt.Fault → Rose (H.faults shelf.old) (H.faults shelf.new) }
    ensures no_fault { result ≢ Err Halt.Fault → H.faults shelf.new ≡ H.faults shelf.old }
    ensures never_falls { H.faults shelf.old ≤ H.faults shelf.new }
{
    let Some(read) = text_within(alloc, shelf, request.answer, SECOND_LIMIT)? else {
        return Ok(TextAnswer::TooLong);
    };
    Ok(explained_text(alloc, text, program, icfg, &read, request.all)?)
}

/// What is answered to a program text, where the words ask for this.
pub(crate) fn explaining<H: Shelf>(
    alloc: Global,
    shelf: &mut H,
    text: &[u8],
    request: &Request<'_>,
) -> Result<TextAnswer, Halt>
    requires { length text.now ≤ PROGRAM_LIMIT }
    ensures texts { H.texts shelf.new ≡ H.texts shelf.old }
    ensures reported { IfOk result (λ a. IfSome (H.texts shelf.old) (λ shown.
        ReportsExplain request.now.entry.now request.now.all text.now (text_named request.now.answer.now shown) (answer_of a))) }
    ensures safe { IfOk result (λ a. (told : List ℕ) → IfSome (H.texts shelf.old) (λ shown. text_named request.now.answer.now shown ≡ Some told →
        kind_of told ≡ OfProof → (answer_of a).status ≡ 0 → TextIsSafe request.now.entry.now text.now)) }
    ensures fault { result ≡ Err Halt.Fault → Rose (H.faults shelf.old) (H.faults shelf.new) }
    ensures no_fault { result ≢ Err Halt.Fault → H.faults shelf.new ≡ H.faults shelf.old }
    ensures never_falls { H.faults shelf.old ≤ H.faults shelf.new }
{
    let program = match typed(alloc, text, request.entry)? {
        Ok(program) => program,
        Err(answer) => return Ok(answer),
    };
    let icfg = match graph(alloc, &program)? {
        Ok(icfg) => icfg,
        Err(answer) => return Ok(answer),
    };
    explained_within(alloc, shelf, text, &program, &icfg, request)
}
