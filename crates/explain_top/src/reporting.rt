//! The report: what the program answers to its words.

ghost use Rattle.std.specs.Prelude.{◌≡◌, ◌≢◌, ◌≤◌, ◌⊎◌, ℕ, List, map, None, Some, Err, IfOk, IfSome};
ghost use Rattle.std.specs.String.{string_bytes};
ghost use Rattle.outer_io.specs.Faults.{Rose};
ghost use Rattle.outer_io.specs.Texts.{text_named};
ghost use Rattle.text_reports.specs.Answers.{answer_of};
ghost use Rattle.explain_top.specs.CommandLine.{requested};
ghost use Rattle.explain_top.specs.CommandLine as line;
ghost use Rattle.explain_top.specs.Report.{OfFailure, OfTrace, OfProof, kind_of, Reports};
ghost use Rattle.explain_top.specs.Claims.{ProgramIsSafe, ProgramFails, TraceIsTold};
ghost use Rattle.explain_top.specs.Ties.Views.{answered, Asks};

use crate::answers::Answer;
use crate::explaining::explaining;
use crate::words::{Request, read_words};
use outer_io::Shelf;
use std::alloc::Global;
use text_reports::{Halt, PROGRAM_LIMIT, TextAnswer, text_within};

/// What is answered to the texts that words ask about.
fn reported_on_texts<H: Shelf>(
    alloc: Global,
    request: &Request<'_>,
    shelf: &mut H,
) -> Result<TextAnswer, Halt>
    ensures texts { H.texts shelf.new ≡ H.texts shelf.old }
    ensures reported { (words : List (List ℕ)) → Asks words request.now →
        IfOk result (λ a. IfSome (H.texts shelf.old) (λ shown. Reports words shown (answer_of a))) }
    ensures told { (words : List (List ℕ)) → Asks words request.now →
        IfOk result (λ a. (answer_of a).status ≡ 0 → IfSome (H.texts shelf.old) (λ shown. ProgramIsSafe words shown ⊎ (ProgramFails words shown ⊎ TraceIsTold words shown))) }
    ensures safe { (words : List (List ℕ)) → Asks words request.now →
        IfOk result (λ a. (answer_of a).status ≡ 0 → (r : line.Request) (second : List ℕ) → requested words ≡ Some r → IfSome (H.texts shelf.old) (λ shown.
        text_named r.answer shown ≡ Some second → kind_of second ≡ OfProof → ProgramIsSafe words shown)) }
    ensures fails { (words : List (List ℕ)) → Asks words request.now →
        IfOk result (λ a. (answer_of a).status ≡ 0 → (r : line.Request) (second : List ℕ) → requested words ≡ Some r → IfSome (H.texts shelf.old) (λ shown.
        text_named r.answer shown ≡ Some second → kind_of second ≡ OfFailure → ProgramFails words shown)) }
    ensures traced { (words : List (List ℕ)) → Asks words request.now →
        IfOk result (λ a. (answer_of a).status ≡ 0 → (r : line.Request) (second : List ℕ) → requested words ≡ Some r → IfSome (H.texts shelf.old) (λ shown.
        text_named r.answer shown ≡ Some second → kind_of second ≡ OfTrace → TraceIsTold words shown)) }
    ensures fault { result ≡ Err Halt.Fault → Rose (H.faults shelf.old) (H.faults shelf.new) }
    ensures no_fault { result ≢ Err Halt.Fault → H.faults shelf.new ≡ H.faults shelf.old }
    ensures never_falls { H.faults shelf.old ≤ H.faults shelf.new }
{
    let Some(text) = text_within(alloc, shelf, request.program, PROGRAM_LIMIT)? else {
        return Ok(TextAnswer::TooLong);
    };
    explaining(alloc, shelf, &text, request)
}

/// What the program answers to its words: its report.
pub(crate) fn reported<H: Shelf>(
    alloc: Global,
    words: &[String],
    shelf: &mut H,
) -> Result<Answer, Halt>
    ensures texts { H.texts shelf.new ≡ H.texts shelf.old }
    ensures reported { IfOk result (λ a. IfSome (H.texts shelf.old) (λ shown.
        Reports (map string_bytes words.now) shown (answered a))) }
    ensures told { IfOk result (λ a. (answered a).status ≡ 0 → IfSome (H.texts shelf.old) (λ shown.
        ProgramIsSafe (map string_bytes words.now) shown ⊎ (ProgramFails (map string_bytes words.now) shown ⊎ TraceIsTold (map string_bytes words.now) shown))) }
    ensures safe { IfOk result (λ a. (answered a).status ≡ 0 → (r : line.Request) (second : List ℕ) → requested (map string_bytes words.now) ≡ Some r →
        IfSome (H.texts shelf.old) (λ shown. text_named r.answer shown ≡ Some second → kind_of second ≡ OfProof → ProgramIsSafe (map string_bytes words.now) shown)) }
    ensures fails { IfOk result (λ a. (answered a).status ≡ 0 → (r : line.Request) (second : List ℕ) → requested (map string_bytes words.now) ≡ Some r →
        IfSome (H.texts shelf.old) (λ shown. text_named r.answer shown ≡ Some second → kind_of second ≡ OfFailure → ProgramFails (map string_bytes words.now) shown)) }
    ensures traced { IfOk result (λ a. (answered a).status ≡ 0 → (r : line.Request) (second : List ℕ) → requested (map string_bytes words.now) ≡ Some r →
        IfSome (H.texts shelf.old) (λ shown. text_named r.answer shown ≡ Some second → kind_of second ≡ OfTrace → TraceIsTold (map string_bytes words.now) shown)) }
    ensures usage { IfOk result (λ a. ((answered a).status ≡ 4 → requested (map string_bytes words.now) ≡ None)
        × (requested (map string_bytes words.now) ≡ None → (answered a).status ≡ 4)) }
    ensures fault { result ≡ Err Halt.Fault → Rose (H.faults shelf.old) (H.faults shelf.new) }
    ensures no_fault { result ≢ Err Halt.Fault → H.faults shelf.new ≡ H.faults shelf.old }
    ensures never_falls { H.faults shelf.old ≤ H.faults shelf.new }
{
    let Some(request) = read_words(alloc, words)? else {
        return Ok(Answer::Usage);
    };
    Ok(Answer::OfTexts(reported_on_texts(alloc, &request, shelf)?))
}
