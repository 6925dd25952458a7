ghost use Rattle.std.specs.Prelude.{◌≡◌, ◌≢◌, ◌≤◌, ℕ, List, length, map, None, Err, IfOk, IfSome, option_map};
ghost use Rattle.std.specs.String.{string_bytes};
ghost use Rattle.outer_io.specs.Faults.{Rose};
ghost use Rattle.outer_io.specs.Texts.{text_named};
ghost use Rattle.typed_tree.specs.TypingRules.TypedParts.{typed_program};
ghost use Rattle.race_rounds.specs.Limits.{AreInRange};
ghost use Rattle.text_reports.specs.Answers.{IsGraphOf, HasNoErrorWord, TextIsSafe};
ghost use Rattle.text_reports.specs.ReportTexts.{accepted_answer};
ghost use Rattle.automizer_top.specs.Ties.Answers.{answered, Asks, CheckedIsSafe, VerifiedIsSafe, BuiltIsSafe, RankedIsGraph, decided_answer};
ghost use Rattle.automizer_top.specs.CommandLine.{requested};
ghost use Rattle.automizer_top.specs.Ties.EarlierViews.{IsGivenOver};
ghost use Rattle.automizer_top.specs.Report.{Reports, ReportsVerdict, ReportsVerify, ReportsCheckBy, ReportsReplayBy, ReportsVerifyBy};
ghost use Rattle.automizer_top.specs.Verdicts.{verdict_status};

use crate::answer::Answer;
use crate::generated::summed;
use crate::words::{Mode, Options, Task, read_words};
use crate::{earlier, parts, rankings};
use boogie_types::Typed;
use itp_automaton::Certified;
use letter_acts::Icfg;
use outer_io::Shelf;
use race_core::{Entry, Shared};
use race_rounds::Limits;
use race_verdicts::{Verdict, verdict_of, verdict_text};
use race_workers::{Gate, race_from};
use std::alloc::{AllocError, Global};
use std::sync::Wait;
use std::thread::Threads;
use text_reports::{
    Halt, PROGRAM_LIMIT, SECOND_LIMIT, TextAnswer, checked, graph, printed, replayed, text_within,
    typed,
};

/// A verdict with its text, and the race that it is of.
#[derive(Drop)]
pub(crate) struct Decision {
    pub text: Vec<u8>,
    pub verdict: Verdict,
    pub race: Shared<Certified>,
}

/// The verdict on a program with its text, by a race over its graph, which begins with the entry that is given, where one is.
pub(crate) fn raced<R: Threads + Wait + Sync, G: Gate + Sync>(
    rt: &R,
    alloc: Global,
    program: &Typed,
    icfg: &Icfg,
    limits: Limits,
    first: Option<Entry<Certified>>,
    gate: &G,
) -> Result<Decision, AllocError>
    requires graph { IsGraphOf (typed_program program.now) icfg.now }
    requires limits { AreInRange limits }
    requires given { IfSome first (IsGivenOver (typed_program program.now)) }
    ensures reported { IfOk result (λ d. ReportsVerdict first limits (typed_program program.now) (decided_answer d)) }
    ensures short { IfOk result (λ d. length d.text.items ≤ SECOND_LIMIT) }
    ensures safe { IfOk result (λ d. verdict_status d.verdict ≡ 0 → HasNoErrorWord icfg.now) }
{
    let race = race_from(rt, alloc, program, icfg, limits, first, gate)?;
    let Ok(verdict) = verdict_of(alloc, program, icfg, &race) else {
        drop(race);
        return Err(AllocError);
    };
    let Ok(text) = verdict_text(alloc, race.version(), &verdict) else {
        drop(verdict);
        drop(race);
        return Err(AllocError);
    };
    // Contracts alone speak of these.
    let (_graph, _history, _kept) = (icfg.nwa(), race.history(), race.kept());
    let _room = race.sized();
    Ok(Decision {
        text,
        verdict,
        race,
    })
}

/// What is answered to a program and its graph, where the verdict is asked for, of a race that begins with the entry that is given, where one is.
pub(crate) fn decided<R: Threads + Wait + Sync, G: Gate + Sync>(
    rt: &R,
    alloc: Global,
    program: &Typed,
    icfg: &Icfg,
    limits: Limits,
    first: Option<Entry<Certified>>,
    gate: &G,
) -> Result<Answer, AllocError>
    requires graph { IsGraphOf (typed_program program.now) icfg.now }
    requires limits { AreInRange limits }
    requires given { IfSome first (IsGivenOver (typed_program program.now)) }
    ensures reported { IfOk result (λ a. ReportsVerdict first limits (typed_program program.now) (answered a)) }
    ensures short { IfOk result (λ a. length (answered a).bytes ≤ SECOND_LIMIT) }
    ensures safe { IfOk result (λ a. (answered a).status ≡ 0 → HasNoErrorWord icfg.now) }
{
    let Decision {
        text,
        verdict,
        race,
    } = raced(rt, alloc, program, icfg, limits, first, gate)?;
    Ok(Answer::Decided {
        text,
        verdict,
        race,
    })
}

/// What is answered to a program text whose verdict is asked for.
fn verified<R: Threads + Wait + Sync, G: Gate + Sync>(
    rt: &R,
    alloc: Global,
    text: &[u8],
    options: &Options<'_>,
    gate: &G,
) -> Result<Answer, AllocError>
    requires text { length text.now ≤ PROGRAM_LIMIT }
    requires limits { AreInRange options.now.limits }
    ensures reported { IfOk result (λ a. ReportsVerify options.now.entry.now options.now.limits text.now (answered a)) }
    ensures safe { IfOk result (λ a. (answered a).status ≡ 0 → TextIsSafe options.now.entry.now text.now) }
{
    let program = match typed(alloc, text, options.entry)? {
        Ok(program) => program,
        Err(answer) => return Ok(Answer::OnText(answer)),
    };
    let Ok(made) = graph(alloc, &program) else {
        drop(program);
        return Err(AllocError);
    };
    let icfg = match made {
        Ok(icfg) => icfg,
        Err(answer) => {
            drop(program);
            return Ok(Answer::OnText(answer));
        }
    };
    let answer = decided(rt, alloc, &program, &icfg, options.limits, None, gate);
    drop(icfg);
    drop(program);
    answer
}

/// What is answered to a program text whose verdict, or with the flag that of each of its parts, is asked for, and to an earlier annotation, where one
/// is named.
fn verified_by<R: Threads + Wait + Sync, H: Shelf, G: Gate + Sync>(
    rt: &R,
    alloc: Global,
    shelf: &mut H,
    text: &[u8],
    options: &Options<'_>,
    gate: &G,
) -> Result<Answer, Halt>
    requires text { length text.now ≤ PROGRAM_LIMIT }
    requires limits { AreInRange options.now.limits }
    ensures texts { H.texts shelf.new ≡ H.texts shelf.old }
    ensures reported { IfOk result (λ a. IfSome (H.texts shelf.old) (λ shown. ReportsVerifyBy options.now.modular (option_map (λ name. name.now) options.now.reuse) shown
        options.now.entry.now options.now.limits text.now (answered a))) }
    ensures safe { IfOk result (λ a. (answered a).status ≡ 0 → TextIsSafe options.now.entry.now text.now) }
    ensures no_usage { IfOk result (λ a. (answered a).status ≢ 4) }
    ensures fault { result ≡ Err Halt.Fault → Rose (H.faults shelf.old) (H.faults shelf.new) }
    ensures no_fault { result ≢ Err Halt.Fault → H.faults shelf.new ≡ H.faults shelf.old }
    ensures never_falls { H.faults shelf.old ≤ H.faults shelf.new }
{
    if options.modular {
        return Ok(parts::verified(rt, alloc, text, options, gate)?);
    }
    match options.reuse {
        None => Ok(verified(rt, alloc, text, options, gate)?),
        Some(old) => earlier::verified(rt, alloc, shelf, text, old, options, gate),
    }
}

/// What is answered to a program text and to the annotation, or with the flag to the annotations of its parts, in the text of that name.
fn checked_by<H: Shelf>(
    alloc: Global,
    shelf: &mut H,
    text: &[u8],
    second: &str,
    options: &Options<'_>,
) -> Result<Answer, Halt>
    requires { length text.now ≤ PROGRAM_LIMIT }
    ensures texts { H.texts shelf.new ≡ H.texts shelf.old }
    ensures reported { IfOk result (λ a. IfSome (H.texts shelf.old) (λ shown.
        ReportsCheckBy options.now.modular options.now.entry.now text.now (text_named second.now shown) (answered a))) }
    ensures accepted { IfOk result (λ a. answered a ≡ accepted_answer → TextIsSafe options.now.entry.now text.now) }
    ensures no_usage { IfOk result (λ a. (answered a).status ≢ 4) }
    ensures fault { result ≡ Err Halt.Fault → Rose (H.faults shelf.old) (H.faults shelf.new) }
    ensures no_fault { result ≢ Err Halt.Fault → H.faults shelf.new ≡ H.faults shelf.old }
    ensures never_falls { H.faults shelf.old ≤ H.faults shelf.new }
{
    if options.modular {
        parts::checked(alloc, shelf, text, second, options.entry)
    } else {
        let answer = checked(alloc, shelf, text, second, options.entry)?;
        Ok(Answer::OnText(answer))
    }
}

/// What is answered to a program text and to the failure, or with the flag to that of one of its parts, in the text of that name.
fn replayed_by<H: Shelf>(
    alloc: Global,
    shelf: &mut H,
    text: &[u8],
    second: &str,
    options: &Options<'_>,
) -> Result<Answer, Halt>
    requires { length text.now ≤ PROGRAM_LIMIT }
    ensures texts { H.texts shelf.new ≡ H.texts shelf.old }
    ensures reported { IfOk result (λ a. IfSome (H.texts shelf.old) (λ shown.
        ReportsReplayBy options.now.modular options.now.entry.now text.now (text_named second.now shown) (answered a))) }
    ensures no_usage { IfOk result (λ a. (answered a).status ≢ 4) }
    ensures fault { result ≡ Err Halt.Fault → Rose (H.faults shelf.old) (H.faults shelf.new) }
    ensures no_fault { result ≢ Err Halt.Fault → H.faults shelf.new ≡ H.faults shelf.old }
    ensures never_falls { H.faults shelf.old ≤ H.faults shelf.new }
{
    if options.modular {
        parts::replayed(alloc, shelf, text, second, options.entry)
    } else {
        let answer = replayed(alloc, shelf, text, second, options.entry)?;
        Ok(Answer::OnText(answer))
    }
}

/// What is answered where something with texts of the shelf is asked for.
fn reported_on_texts<R: Threads + Wait + Sync, H: Shelf, G: Gate + Sync>(
    rt: &R,
    alloc: Global,
    mode: &Mode<'_>,
    options: &Options<'_>,
    shelf: &mut H,
    gate: &G,
) -> Result<Answer, Halt>
    requires limits { AreInRange options.now.limits }
    ensures texts { H.texts shelf.new ≡ H.texts shelf.old }
    ensures reported { (words : List (List ℕ)) → Asks words mode.now options.now →
        IfOk result (λ a. IfSome (H.texts shelf.old) (λ shown. Reports words shown (answered a))) }
    ensures accepted { (words : List (List ℕ)) → Asks words mode.now options.now →
        IfOk result (λ a. answered a ≡ accepted_answer → IfSome (H.texts shelf.old) (λ shown. CheckedIsSafe words shown)) }
    ensures verified { (words : List (List ℕ)) → Asks words mode.now options.now →
        IfOk result (λ a. (answered a).status ≡ 0 → IfSome (H.texts shelf.old) (λ shown. VerifiedIsSafe words shown)) }
    ensures ranked { (words : List (List ℕ)) → Asks words mode.now options.now →
        IfOk result (λ a. (answered a).status ≡ 0 → IfSome (H.texts shelf.old) (λ shown. RankedIsGraph words shown)) }
    ensures no_usage { IfOk result (λ a. (answered a).status ≢ 4) }
    ensures fault { result ≡ Err Halt.Fault → Rose (H.faults shelf.old) (H.faults shelf.new) }
    ensures no_fault { result ≢ Err Halt.Fault → H.faults shelf.new ≡ H.faults shelf.old }
    ensures never_falls { H.faults shelf.old ≤ H.faults shelf.new }
{
    let Some(text) = text_within(alloc, shelf, mode.program(), PROGRAM_LIMIT)? else {
        return Ok(Answer::OnText(TextAnswer::TooLong));
    };
    match *mode {
        Mode::Print { program: _ } => Ok(Answer::OnText(printed(alloc, &text)?)),
        Mode::Verify { program: _ } => verified_by(rt, alloc, shelf, &text, options, gate),
        Mode::Check { program: _, second } => checked_by(alloc, shelf, &text, second, options),
        Mode::Replay { program: _, second } => replayed_by(alloc, shelf, &text, second, options),
        Mode::Lasso { program: _, second } => rankings::found(alloc, shelf, &text, second, options),
        Mode::Ranked { program: _, second } => {
            let answer = rankings::checked(alloc, shelf, &text, second, options.entry)?;
            Ok(Answer::OnText(answer))
        }
    }
}

/// What the program answers to its words: its report.
pub(crate) fn reported<R: Threads + Wait + Sync, H: Shelf, G: Gate + Sync>(
    rt: &R,
    alloc: Global,
    words: &[String],
    shelf: &mut H,
    gate: &G,
) -> Result<Answer, Halt>
    ensures texts { H.texts shelf.new ≡ H.texts shelf.old }
    ensures reported { IfOk result (λ a. IfSome (H.texts shelf.old) (λ shown.
        Reports (map string_bytes words.now) shown (answered a))) }
    ensures accepted { IfOk result (λ a. answered a ≡ accepted_answer → IfSome (H.texts shelf.old) (λ shown.
        CheckedIsSafe (map string_bytes words.now) shown)) }
    ensures verified { IfOk result (λ a. (answered a).status ≡ 0 → IfSome (H.texts shelf.old) (λ shown.
        VerifiedIsSafe (map string_bytes words.now) shown)) }
    ensures built { IfOk result (λ a. (answered a).status ≡ 0 → BuiltIsSafe (map string_bytes words.now)) }
    ensures ranked { IfOk result (λ a. (answered a).status ≡ 0 → IfSome (H.texts shelf.old) (λ shown.
        RankedIsGraph (map string_bytes words.now) shown)) }
    ensures usage { IfOk result (λ a. ((answered a).status ≡ 4 → requested (map string_bytes words.now) ≡ None)
        × (requested (map string_bytes words.now) ≡ None → (answered a).status ≡ 4)) }
    ensures fault { result ≡ Err Halt.Fault → Rose (H.faults shelf.old) (H.faults shelf.new) }
    ensures no_fault { result ≢ Err Halt.Fault → H.faults shelf.new ≡ H.faults shelf.old }
    ensures never_falls { H.faults shelf.old ≤ H.faults shelf.new }
{
    let Some(request) = read_words(alloc, words)? else {
        return Ok(Answer::Usage);
    };
    match request.task {
        Task::Texts(mode) => reported_on_texts(rt, alloc, &mode, &request.options, shelf, gate),
        Task::Generated(count) => Ok(summed(rt, alloc, count, request.options.limits, gate)?),
    }
}
