//! The program as one call, and what its report says, as laws.

ghost use Rattle.std.specs.Prelude.{◌≡◌, ◌≢◌, ◌<◌, ℕ, Bool, List, ◌⊎◌, Option, Some, None, map, IfSome};
ghost use Rattle.std.specs.String.{string_bytes};
ghost use Rattle.outer_io.specs.Faults.{Rose};
ghost use Rattle.outer_io.specs.Texts.{text_named};
ghost use Rattle.text_reports.specs.ReportTexts.{Answer, accepted_answer};
ghost use Rattle.text_reports.specs.ReportCases.{IsTypingRefusal, ReportsCheck, ReportsReplay};
ghost use Rattle.explain_top.specs.CommandLine.{Request, requested};
ghost use Rattle.explain_top.specs.Report.{OfFailure, OfTrace, OfProof, kind_of, Reports, ReportsExplain};
ghost use Rattle.explain_top.specs.Claims.{Answers, TookFront, ProgramIsSafe, ProgramFails, TraceIsTold, AreOfOneTrace, SaysMoreThan, TellsReplay, IsUnlowered};

use crate::reporting::reported;
use explained_proof::laws::explained_programs_say_more;
use outer_io::{Shelf, Sink, write_all};
use proof_names::laws::nodes_are_named_once;
use std::alloc::Global;
use text_reports::Halt;

/// The status where a call on the shelf or on the sink failed.
const DEVICE: u8 = 5;

/// The status where memory ran out.
const NO_MEMORY: u8 = 6;

/// Does all that the program does, and answers its status. The words are those after the program's name; texts are read
/// from the shelf by their names, and the output goes to the sink.
pub fn run<H: Shelf, K: Sink>(alloc: Global, words: &[String], shelf: &mut H, sink: &mut K) -> u8
    // Where no call on the outside failed and memory did not run out, the status is that of the report, and so are the bytes.
    ensures report { (Rose (H.faults shelf.old) (H.faults shelf.new) → ⊥) → (Rose (K.faults sink.old) (K.faults sink.new) → ⊥) → result ≢ 6 →
        IfSome (H.texts shelf.old) (λ shown. Answers (map string_bytes words.now) shown (K.taken sink.old) (K.taken sink.new) result) }

    // Status 4 comes exactly where the words ask for nothing, if no call on the outside failed and memory did not run out.
    ensures usage { (result ≡ 4 → requested (map string_bytes words.now) ≡ None)
        × (requested (map string_bytes words.now) ≡ None → result ≢ 5 → result ≢ 6 → result ≡ 4) }

    // Status 0 says that no run of the program, of any length and any call stack, fails an assertion, or that some run fails one, or that a word of
    // its automaton leads to a failure.
    ensures explained_is_so { result ≡ 0 → IfSome (H.texts shelf.old) (λ shown.
        ProgramIsSafe (map string_bytes words.now) shown ⊎ (ProgramFails (map string_bytes words.now) shown ⊎ TraceIsTold (map string_bytes words.now) shown)) }

    // Which of the three it says the text of the answer tells by how it begins: as that of a failure, as that of a trace, or else.
    ensures explained_is_safe { result ≡ 0 → (r : Request) (second : List ℕ) → requested (map string_bytes words.now) ≡ Some r → IfSome (H.texts shelf.old) (λ shown.
        text_named r.answer shown ≡ Some second → kind_of second ≡ OfProof → ProgramIsSafe (map string_bytes words.now) shown) }
    ensures told_fails { result ≡ 0 → (r : Request) (second : List ℕ) → requested (map string_bytes words.now) ≡ Some r → IfSome (H.texts shelf.old) (λ shown.
        text_named r.answer shown ≡ Some second → kind_of second ≡ OfFailure → ProgramFails (map string_bytes words.now) shown) }
    ensures told_trace { result ≡ 0 → (r : Request) (second : List ℕ) → requested (map string_bytes words.now) ≡ Some r → IfSome (H.texts shelf.old) (λ shown.
        text_named r.answer shown ≡ Some second → kind_of second ≡ OfTrace → TraceIsTold (map string_bytes words.now) shown) }

    // Status 5 comes only from the outside, and a count that rises gives it.
    ensures device { result ≡ 5 → Rose (H.faults shelf.old) (H.faults shelf.new) ⊎ Rose (K.faults sink.old) (K.faults sink.new) }
    ensures shelf_fault { H.faults shelf.old < H.faults shelf.new → (result ≡ 5) × (K.taken sink.new ≡ K.taken sink.old) }
    ensures sink_fault { K.faults sink.old < K.faults sink.new → result ≡ 5 }
    ensures front { result ≡ 5 → IfSome (H.texts shelf.old) (λ shown. IfSome (K.taken sink.old)
        (λ before. TookFront (map string_bytes words.now) shown before (K.taken sink.new))) }

    // Status 6 takes nothing.
    ensures out_of_memory { result ≡ 6 → K.taken sink.new ≡ K.taken sink.old }
    ensures texts { H.texts shelf.new ≡ H.texts shelf.old }
{
    let answer = match reported(alloc, words, shelf) {
        Ok(answer) => answer,
        Err(Halt::Fault) => return DEVICE,
        Err(Halt::Memory) => return NO_MEMORY,
    };
    let status = answer.status();
    let Ok(text) = answer.text(alloc) else {
        return NO_MEMORY;
    };
    match write_all(sink, &text) {
        Ok(()) => status,
        Err(_) => DEVICE,
    }
}

/// The report allows one answer at most, so each output comes exactly where its case holds; but of several typing rules that a
/// program breaks any may be named, and of several runs over the letters of a trace any may be told.
pub fn one_report()
    ensures { (words : List (List ℕ)) (texts : List (List ℕ × List ℕ)) (a b : Answer) → Reports words texts a → Reports words texts b →
        (a ≡ b) ⊎ ((IsTypingRefusal a × IsTypingRefusal b) ⊎ AreOfOneTrace words texts a b) }
{
    nodes_are_named_once();
}

/// A program and an annotation of it are explained exactly where `check` accepts them, by a program that says more; else both answer the same, with
/// another status than 0.
pub fn explanations_follow_checks()
    ensures { (entry program : List ℕ) (all : Bool) (second : Option (List ℕ)) (a b : Answer) → IfSome second (λ text. kind_of text ≡ OfProof) →
        ReportsCheck entry program second a → ReportsExplain entry all program second b →
        ((a ≡ accepted_answer) × SaysMoreThan program b) ⊎ (((a ≡ b) × (b.status ≢ 0)) ⊎ (IsTypingRefusal a × IsTypingRefusal b)) }
{
    explained_programs_say_more();
}

/// A program and a failure of it are explained exactly where `replay` finds that it fails, by the story of that run; else both answer the same, with
/// another status than 0, but for a program that cannot be lowered, which is refused.
pub fn explanations_follow_replays()
    ensures { (entry program second : List ℕ) (all : Bool) (a b : Answer) → kind_of second ≡ OfFailure →
        ReportsReplay entry program (Some second) a → ReportsExplain entry all program (Some second) b →
        TellsReplay entry program second all a b ⊎ (((a ≡ b) × (b.status ≢ 0)) ⊎ ((IsTypingRefusal a × IsTypingRefusal b) ⊎ IsUnlowered entry program b)) }
{}

/// What is answered with status 0 to a text that does not begin as that of a failure or of a trace is a program that says more than the one that the words name.
pub fn explanations_say_more()
    ensures { (words : List (List ℕ)) (texts : List (List ℕ × List ℕ)) (r : Request) (second : List ℕ) (a : Answer) → requested words ≡ Some r →
        text_named r.answer texts ≡ Some second → kind_of second ≡ OfProof → Reports words texts a → a.status ≡ 0 →
        (text : List ℕ) × (text_named r.program texts ≡ Some text) × SaysMoreThan text a }
{
    explained_programs_say_more();
}
