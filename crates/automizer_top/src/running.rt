ghost use Rattle.std.specs.Prelude.{false, true, ◌≡◌, ◌≢◌, ◌<◌, ◌≤◌, ◌++◌, ℕ, List, ◌⊎◌, Option, Some, None, length, map, codes, IsTrue, IfSome, OnOk, OnErr};
ghost use Rattle.std.specs.String.{string_bytes};
ghost use Rattle.std.specs.List.{AllByRecursion};
ghost use Rattle.outer_io.specs.Faults.{Rose};
ghost use Rattle.outer_io.specs.Texts.{text_named};
ghost use Rattle.boogie_run.specs.declared.types.AssertId.{AssertId};
ghost use Rattle.boogie_types.specs.Resolved.{resolved_program};
ghost use Rattle.automizer_top.specs.GeneratedProgram.Generated.{generated};
ghost use Rattle.typed_tree.specs.TypedTree.{TypedProgram};
ghost use Rattle.nwa_base.specs.declared.letters.Letter.{Letter};
ghost use Rattle.nwa_base.specs.Acceptance.{Accepts};
ghost use Rattle.lowered_graph.specs.Lowered.{lowered};
ghost use Rattle.proof_form.specs.Annotations.{Content, safe_text};
ghost use Rattle.proof_names.specs.CoarseLines.CoarseLetters.{coarse_letters};
ghost use Rattle.race_core.specs.declared.ends.Cause.{Cause};
ghost use Rattle.race_core.specs.declared.events.Entry.{Entry};
ghost use Rattle.race_core.specs.Races.{Race};
ghost use Rattle.itp_automaton.specs.Certified.{Certificate};
ghost use Rattle.race_verdicts.specs.declared.verdicts.Verdict.{Verdict};
ghost use Rattle.typed_tree.specs.TypingRules.ValidProgram.{is_valid};
ghost use Rattle.boogie_run.specs.RunRules.Runs.{IsSafe};
ghost use Rattle.race_rounds.specs.declared.limits.Limits.{Limits};
ghost use Rattle.race_verdicts.specs.RaceCompleteness.Words.{HasWordsAmong};
ghost use Rattle.rank_lasso.specs.LassoRanks.Lassos.{PlainLasso};
ghost use Rattle.modular_cut.specs.Parts.{parts_of};
ghost use Rattle.modular_cut.specs.View.{IsValidPart};
ghost use Rattle.automizer_top.specs.Parts.{ReportsParts};
ghost use Rattle.automizer_top.specs.PartClaims.{AreVerdictsOn, PrintsPartFailure, PartFails};
ghost use Rattle.automizer_top.specs.RankingClaims.{AskedLassoEnds, RankedLassoEnds, IsFoundOn};
ghost use Rattle.automizer_top.specs.Completeness.{HasDifferenceRows, SaysUnknown};
ghost use Rattle.automizer_top.specs.CommandLine as line;
ghost use Rattle.automizer_top.specs.CommandLine.{Settings, requested};
ghost use Rattle.text_reports.specs.ReportTexts.{Answer, accepted_answer, replayed_answer};
ghost use Rattle.automizer_top.specs.ReportTexts.{verdict_answer, summary_answer};
ghost use Rattle.automizer_top.specs.Report.{Ask, IsTypingRefusal, Reports, ReportsVerdict, ReportsBig};
ghost use Rattle.automizer_top.specs.ReportClaims.{Answers, IsHandedOver, WhereTold, TookFront, Closes, ClosesAtFront, PrintsProgram, ProgramIsSafe, ProgramFails, IsVerdictOn, RefusesEarlier, PrintsFailure, GeneratedIsSafe};

use crate::reporting::reported;
use itp_automaton::Certified;
use itp_automaton::laws::certified_words_are_infeasible;
use lowered_graph::laws::lowering_is_faithful;
use outer_io::{Shelf, Sink, write_all};
use race_core::Shared;
use race_verdicts::race_completeness::laws::rounds_are_enough;
use race_workers::Gate;
use std::alloc::{AllocError, Global};
use std::sync::Wait;
use std::thread::Threads;
use text_reports::Halt;
use trace_replay::laws::what_replays_fails;

/// The status where a call on the shelf or on the sink failed.
const DEVICE: u8 = 5;

/// The status where memory ran out.
const NO_MEMORY: u8 = 6;

/// Adds races to those that are closed: all of them, or none where memory runs out.
fn close(
    closed: &mut Vec<Shared<Certified>>,
    races: Vec<Shared<Certified>>,
) -> Result<(), AllocError>
    ensures gained { OnOk result (closed.new.items ≡ closed.old.items ++ races.items) }
    ensures kept { OnErr result (closed.new.items ≡ closed.old.items) }
{
    let mut races = races;
    closed.append(&mut races)
}

/// Does all that the program does, and answers its status. The words are those after the program's name; texts are read
/// from the shelf by their names, and the output goes to the sink. The race of a verdict is added to `closed`, and with `--modular` that of each part
/// that was verified, in order. The gate is called at each moment of each worker of a race, and decides nothing.
pub fn run<R: Threads + Wait + Sync, H: Shelf, K: Sink, G: Gate + Sync>(
    rt: &R,
    alloc: Global,
    words: &[String],
    shelf: &mut H,
    sink: &mut K,
    gate: &G,
    closed: &mut Vec<Shared<Certified>>,
) -> u8
    // Where no call on the outside failed and memory did not run out, the status is that of the report, and so are the bytes; and `closed` gains the
    // races of verdicts, in order, and nothing else.
    ensures report { (Rose (H.faults shelf.old) (H.faults shelf.new) → ⊥) → (Rose (K.faults sink.old) (K.faults sink.new) → ⊥) → result ≢ 6 →
        IfSome (H.texts shelf.old) (λ shown. Closes (map string_bytes words.now) shown (K.taken sink.old) (K.taken sink.new) result closed.old.items closed.new.items) }

    // Status 4 comes exactly where the words ask for nothing, if no call on the outside failed and memory did not run out.
    ensures usage { (result ≡ 4 → requested (map string_bytes words.now) ≡ None)
        × (requested (map string_bytes words.now) ≡ None → result ≢ 5 → result ≢ 6 → result ≡ 4) }

    // Status 0 says that a program was printed, that no run of a checked, verified or generated one fails an assertion, also where that was shown part by
    // part, or that one was replayed that does, or with `--modular` that one of a part was; or that no states obey a lasso for ever, of which a ranking
    // was found or checked. `accepted` says the second, or the last of a ranking that was checked; and the second where a check was asked for.
    ensures accepted_is_safe { result ≡ 0 → IfSome (H.texts shelf.old) (λ shown.
        PrintsProgram (map string_bytes words.now) shown ⊎ (ProgramIsSafe (map string_bytes words.now) shown ⊎ (ProgramFails (map string_bytes words.now) shown
        ⊎ (GeneratedIsSafe (map string_bytes words.now) ⊎ (PartFails (map string_bytes words.now) shown
        ⊎ (AskedLassoEnds (map string_bytes words.now) shown ⊎ RankedLassoEnds (map string_bytes words.now) shown)))))) }
    ensures accepted_text_is_safe { WhereTold (H.texts shelf.old) (K.taken sink.old) (λ shown before.
        K.taken sink.new ≡ Some (before ++ codes "accepted\n") →
        ProgramIsSafe (map string_bytes words.now) shown ⊎ RankedLassoEnds (map string_bytes words.now) shown) }
    ensures checked_is_safe { (s : Settings) (program second : List ℕ) → Ask (map string_bytes words.now) s (line.Check program second) →
        WhereTold (H.texts shelf.old) (K.taken sink.old) (λ shown before.
        K.taken sink.new ≡ Some (before ++ codes "accepted\n") → ProgramIsSafe (map string_bytes words.now) shown) }

    // Status 5 comes only from the outside, and a count that rises gives it.
    ensures device { result ≡ 5 → Rose (H.faults shelf.old) (H.faults shelf.new) ⊎ Rose (K.faults sink.old) (K.faults sink.new) }
    ensures shelf_fault { H.faults shelf.old < H.faults shelf.new → (result ≡ 5) × (K.taken sink.new ≡ K.taken sink.old) }
    ensures sink_fault { K.faults sink.old < K.faults sink.new → result ≡ 5 }
    ensures front { result ≡ 5 → WhereTold (H.texts shelf.old) (K.taken sink.old)
        (λ shown before. TookFront (map string_bytes words.now) shown before (K.taken sink.new)) }

    // Where the sink failed, `closed` has gained the races of the verdicts that were written, and nothing where the shelf failed.
    ensures closed_at_fault { result ≡ 5 → ((closed.new.items ≡ closed.old.items) × Rose (H.faults shelf.old) (H.faults shelf.new)) ⊎
        IfSome (H.texts shelf.old) (λ shown. ClosesAtFront (map string_bytes words.now) shown (K.taken sink.old) (K.taken sink.new) closed.old.items closed.new.items) }

    // Status 6 takes nothing, and closes nothing.
    ensures out_of_memory { result ≡ 6 → K.taken sink.new ≡ K.taken sink.old }
    ensures closes_nothing { result ≡ 6 → closed.new.items ≡ closed.old.items }
    ensures texts { H.texts shelf.new ≡ H.texts shelf.old }
{
    let answer = match reported(rt, alloc, words, shelf, gate) {
        Ok(answer) => answer,
        Err(Halt::Fault) => return DEVICE,
        Err(Halt::Memory) => return NO_MEMORY,
    };
    let status = answer.status();
    let Ok((text, races)) = answer.output(alloc) else {
        return NO_MEMORY;
    };
    if close(closed, races).is_err() {
        return NO_MEMORY;
    }
    match write_all(sink, &text) {
        Ok(()) => status,
        Err(_) => DEVICE,
    }
}

/// What `run` reports is an answer, without the races that are closed: the report allows it, the status is its own, and all its bytes were taken.
pub fn reports_are_answers()
    ensures { (words : List (List ℕ)) (texts : List (List ℕ × List ℕ)) (before after : Option (List ℕ)) (status : ℕ) (old new : List (Race Certificate)) →
        Closes words texts before after status old new → (a : Answer) × Answers words texts before after status a }
{}

/// The report allows one answer at most, so each output comes exactly where its case holds; but of several typing rules that a
/// program breaks any may be named, and of several verdicts on one program, on its parts, or on the generated one, any may be told; and of what the
/// search for a ranking of one lasso finds.
pub fn one_report()
    ensures { (words : List (List ℕ)) (texts : List (List ℕ × List ℕ)) (a b : Answer) → Reports words texts a → Reports words texts b →
        (a ≡ b) ⊎ ((IsTypingRefusal a × IsTypingRefusal b) ⊎ (((t : TypedProgram) × IsVerdictOn words texts t a × IsVerdictOn words texts t b)
        ⊎ (((s : Settings) × (count : ℕ) × Ask words s (line.Big count) × ReportsBig s.limits count a × ReportsBig s.limits count b)
        ⊎ (((t : TypedProgram) × AreVerdictsOn words texts t a × AreVerdictsOn words texts t b)
        ⊎ ((t : TypedProgram) × (l : PlainLasso) × IsFoundOn words texts t l a × IsFoundOn words texts t l b))))) }
{}

/// What `verify` writes is confirmed where its bytes are handed over with the same program and the same entry, and with `--modular` in both words or in
/// none: `check` accepts each `safe`, and `replay` replays each `unsafe`, whatever the other options. Status 1 says `unsafe`, or that the text of an
/// earlier annotation is none.
pub fn verdicts_are_confirmed()
    ensures accepted { (words again : List (List ℕ)) (r s : Settings) (program second : List ℕ) (before after : List (List ℕ × List ℕ)) (a b : Answer) →
        Ask words r (line.Verify program) → Ask again s (line.Check program second) → Reports words before a → a.status ≡ 0 →
        IsHandedOver program second r s before after a → Reports again after b → b ≡ accepted_answer }
    ensures replayed { (words again : List (List ℕ)) (r s : Settings) (program second : List ℕ) (before after : List (List ℕ × List ℕ)) (a b : Answer) →
        Ask words r (line.Verify program) → Ask again s (line.Replay program second) → Reports words before a → a.status ≡ 1 →
        IsHandedOver program second r s before after a → Reports again after b → RefusesEarlier r before a ⊎ ((id : AssertId) × (b ≡ replayed_answer id)) }
{}

/// What `lasso` writes with status 0 `ranked` accepts, where its bytes are handed over with the same program and the same entry, whatever the other
/// options.
pub fn rankings_are_accepted()
    ensures { (words again : List (List ℕ)) (r s : Settings) (program lasso second : List ℕ) (before after : List (List ℕ × List ℕ)) (a b : Answer) →
        Ask words r (line.Lasso program lasso) → Ask again s (line.Ranked program second) → Reports words before a → a.status ≡ 0 →
        s.entry ≡ r.entry → text_named program after ≡ text_named program before → text_named second after ≡ Some a.bytes →
        Reports again after b → b ≡ accepted_answer }
{}

/// What `verify` says is so, whatever the limits, and whatever entry the race began with. Its statuses 0, 1 and 2 are those of a verdict on the typed
/// program of the text, but for status 1 where the text of an earlier annotation is none. A verdict has status 0 only where no run of that program, of
/// any length and any call stack, fails an assertion; and status 1 only where a run fails one, with values that replay it.
pub fn verdicts_are_true()
    ensures told { (words : List (List ℕ)) (texts : List (List ℕ × List ℕ)) (s : Settings) (program : List ℕ) (a : Answer) →
        Ask words s (line.Verify program) → s.modular ≡ false → Reports words texts a → a.status < 3 →
        RefusesEarlier s texts a ⊎ ((t : TypedProgram) × IsVerdictOn words texts t a) }
    ensures safe { (given : Option (Entry Certificate)) (l : Limits) (t : TypedProgram) (a : Answer) → IsTrue (is_valid t) → ReportsVerdict given l t a →
        a.status ≡ 0 → IsSafe t }
    ensures fails { (given : Option (Entry Certificate)) (l : Limits) (t : TypedProgram) (a : Answer) → ReportsVerdict given l t a → a.status ≡ 1 →
        PrintsFailure t a }
{
    certified_words_are_infeasible();
    lowering_is_faithful();
    what_replays_fails();
}

/// The same part by part: with `--modular` the statuses 0, 1 and 2 of `verify` are those of verdicts on the parts of the typed program of the text.
/// Status 0 is answered only where the whole program is safe, and status 1 only where a run of a part fails, with values that replay it there.
pub fn part_verdicts_are_true()
    ensures told { (words : List (List ℕ)) (texts : List (List ℕ × List ℕ)) (s : Settings) (program : List ℕ) (a : Answer) →
        Ask words s (line.Verify program) → s.modular ≡ true → Reports words texts a → a.status < 3 → (t : TypedProgram) × AreVerdictsOn words texts t a }
    ensures safe { (l : Limits) (t : TypedProgram) (a : Answer) → IsTrue (is_valid t) → AllByRecursion IsValidPart (parts_of t) → ReportsParts l (parts_of t) a →
        a.status ≡ 0 → IsSafe t }
    ensures fails { (l : Limits) (t : TypedProgram) (a : Answer) → ReportsParts l (parts_of t) a → a.status ≡ 1 → PrintsPartFailure t a }
{
    certified_words_are_infeasible();
    lowering_is_faithful();
    what_replays_fails();
}

/// Of two verdicts on one program, whatever the limits, not one is `safe` and the other `unsafe`; and where the program has no error
/// word, the verdict is `safe` after no round.
pub fn verdicts_agree()
    ensures one { (given other : Option (Entry Certificate)) (l m : Limits) (t : TypedProgram) (a b : Answer) → ReportsVerdict given l t a →
        ReportsVerdict other m t b → a.status ≡ 0 → b.status ≡ 1 → ⊥ }
    ensures at_once { (given : Option (Entry Certificate)) (l : Limits) (t : TypedProgram) (a : Answer) → ReportsVerdict given l t a → ((w : List Letter) → Accepts (lowered t).automaton w → ⊥) →
        (w : Content) × (a.bytes ≡ safe_text 0 (coarse_letters (lowered t) w) w) × (a.status ≡ 0) }
{
    certified_words_are_infeasible();
}

/// What no verdict says: that the rounds are over, where the program has no more error words than rounds; and that Decide has neither
/// a refutation nor a whole point, where the rows of each error word bound a column or the difference of two.
pub fn verdicts_are_complete()
    ensures rounds { (given : Option (Entry Certificate)) (l : Limits) (t : TypedProgram) (a : Answer) (ws : List (List Letter)) → ReportsVerdict given l t a →
        HasWordsAmong (lowered t).automaton ws → length ws ≤ l.rounds → SaysUnknown Cause.Rounds a → ⊥ }
    ensures whole { (given : Option (Entry Certificate)) (l : Limits) (t : TypedProgram) (a : Answer) → ReportsVerdict given l t a → HasDifferenceRows t → SaysUnknown Cause.Whole a → ⊥ }
{
    rounds_are_enough();
}

/// A summary is of a verdict on the generated program that `verify` could tell, with the same limits: it says that verdict's word, and the status
/// and the race are those of the verdict.
pub fn summaries_are_verdicts()
    ensures { (l : Limits) (count : ℕ) (a : Answer) → ReportsBig l count a →
        (t : TypedProgram) × (r : Race Certificate) × (v : Verdict) × (resolved_program (generated count) (codes "main") ≡ Some t) × ReportsVerdict None l t (verdict_answer r v)
        × (a ≡ summary_answer count r v) }
{}
