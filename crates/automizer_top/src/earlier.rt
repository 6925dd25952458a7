//! Verdicts on programs of which an earlier annotation is at hand.

ghost use Rattle.std.specs.Prelude.{◌≡◌, ◌≢◌, ◌≤◌, ℕ, length, Err, IfOk, IfSome, MatchResult};
ghost use Rattle.outer_io.specs.Faults.{Rose};
ghost use Rattle.outer_io.specs.Texts.{text_named};
ghost use Rattle.typed_tree.specs.TypingRules.TypedParts.{typed_program};
ghost use Rattle.race_rounds.specs.Limits.{AreInRange};
ghost use Rattle.text_reports.specs.Answers.{answer_of, IsGraphOf, HasNoErrorWord, TextIsSafe};
ghost use Rattle.automizer_top.specs.Ties.Answers.{answered};
ghost use Rattle.automizer_top.specs.Earlier.{ReportsReuse, ReportsVerifyWith};
ghost use Rattle.automizer_top.specs.Ties.EarlierViews.{IsLeftOf, RefusesText};
ghost use Rattle.automizer_top.specs.Report.{ReportsSecond};

use crate::answer::Answer;
use crate::reporting::decided;
use crate::words::Options;
use boogie_types::Typed;
use itp_automaton::Certified;
use letter_acts::Icfg;
use outer_io::Shelf;
use proof_form::{ProofFault, read_safe};
use proof_reuse::{first, reuse};
use race_core::Entry;
use race_rounds::Limits;
use race_workers::Gate;
use std::alloc::{AllocError, Global};
use std::sync::Wait;
use std::thread::Threads;
use text_reports::{Halt, PROGRAM_LIMIT, SECOND_LIMIT, TextAnswer, graph, text_within, typed};

/// The entry with which a race over a graph begins by an earlier annotation, if there is one, or what is answered to a text that is none.
fn entry_of<R: Threads + Sync>(
    rt: &R,
    alloc: Global,
    icfg: &Icfg,
    text: &[u8],
) -> Result<Result<Option<Entry<Certified>>, TextAnswer>, AllocError>
    requires text { length text.now ≤ SECOND_LIMIT }
    ensures { IfOk result (λ r. MatchResult r (IsLeftOf icfg.now text.now) (λ a. RefusesText text.now (answer_of a))) }
{
    let old = match read_safe(alloc, text) {
        Ok((_rounds, _coarse, old)) => old,
        Err(ProofFault::Syntax { line }) => {
            return Ok(Err(TextAnswer::Syntax {
                line: u128::from(line),
            }));
        }
        Err(ProofFault::Memory) => return Err(AllocError),
    };
    let Ok(reused) = reuse(rt, alloc, icfg, &old) else {
        drop(old);
        return Err(AllocError);
    };
    drop(old);
    Ok(Ok(first(alloc, icfg, reused)?))
}

/// What is answered to a program, its graph, and a text that should be an earlier annotation.
fn decided_by<R: Threads + Wait + Sync, G: Gate + Sync>(
    rt: &R,
    alloc: Global,
    program: &Typed,
    icfg: &Icfg,
    text: &[u8],
    limits: Limits,
    gate: &G,
) -> Result<Answer, AllocError>
    requires graph { IsGraphOf (typed_program program.now) icfg.now }
    requires text { length text.now ≤ SECOND_LIMIT }
    requires limits { AreInRange limits }
    ensures reported { IfOk result (λ a. ReportsReuse limits (typed_program program.now) text.now (answered a)) }
    ensures safe { IfOk result (λ a. (answered a).status ≡ 0 → HasNoErrorWord icfg.now) }
    ensures no_usage { IfOk result (λ a. (answered a).status ≢ 4) }
{
    match entry_of(rt, alloc, icfg, text)? {
        Ok(first) => decided(rt, alloc, program, icfg, limits, first, gate),
        Err(answer) => Ok(Answer::OnText(answer)),
    }
}

/// What is answered to a program, its graph, and the text of that name, which should be an earlier annotation.
fn decided_within<R: Threads + Wait + Sync, H: Shelf, G: Gate + Sync>(
    rt: &R,
    alloc: Global,
    shelf: &mut H,
    program: &Typed,
    icfg: &Icfg,
    old: &str,
    limits: Limits,
    gate: &G,
) -> Result<Answer, Halt>
    requires graph { IsGraphOf (typed_program program.now) icfg.now }
    requires limits { AreInRange limits }
    ensures texts { H.texts shelf.new ≡ H.texts shelf.old }
    ensures reported { IfOk result (λ a. IfSome (H.texts shelf.old) (λ shown.
        ReportsSecond (text_named old.now shown) (ReportsReuse limits (typed_program program.now)) (answered a))) }
    ensures safe { IfOk result (λ a. (answered a).status ≡ 0 → HasNoErrorWord icfg.now) }
    ensures no_usage { IfOk result (λ a. (answered a).status ≢ 4) }
    ensures fault { result ≡ Err Halt.Fault → Rose (H.faults shelf.old) (H.faults shelf.new) }
    ensures no_fault { result ≢ Err Halt.Fault → H.faults shelf.new ≡ H.faults shelf.old }
    ensures never_falls { H.faults shelf.old ≤ H.faults shelf.new }
{
    let Some(text) = text_within(alloc, shelf, old, SECOND_LIMIT)? else {
        return Ok(Answer::OnText(TextAnswer::TooLong));
    };
    Ok(decided_by(rt, alloc, program, icfg, &text, limits, gate)?)
}

/// What is answered to a program text whose verdict is asked for, and to the text of that name, which should be an earlier annotation.
pub(crate) fn verified<R: Threads + Wait + Sync, H: Shelf, G: Gate + Sync>(
    rt: &R,
    alloc: Global,
    shelf: &mut H,
    text: &[u8],
    old: &str,
    options: &Options<'_>,
    gate: &G,
) -> Result<Answer, Halt>
    requires text { length text.now ≤ PROGRAM_LIMIT }
    requires limits { AreInRange options.now.limits }
    ensures texts { H.texts shelf.new ≡ H.texts shelf.old }
    ensures reported { IfOk result (λ a. IfSome (H.texts shelf.old) (λ shown.
        ReportsVerifyWith options.now.entry.now options.now.limits text.now (text_named old.now shown) (answered a))) }
    ensures safe { IfOk result (λ a. (answered a).status ≡ 0 → TextIsSafe options.now.entry.now text.now) }
    ensures no_usage { IfOk result (λ a. (answered a).status ≢ 4) }
    ensures fault { result ≡ Err Halt.Fault → Rose (H.faults shelf.old) (H.faults shelf.new) }
    ensures no_fault { result ≢ Err Halt.Fault → H.faults shelf.new ≡ H.faults shelf.old }
    ensures never_falls { H.faults shelf.old ≤ H.faults shelf.new }
{
    let program = match typed(alloc, text, options.entry)? {
        Ok(program) => program,
        Err(answer) => return Ok(Answer::OnText(answer)),
    };
    let Ok(made) = graph(alloc, &program) else {
        drop(program);
        return Err(Halt::Memory);
    };
    let icfg = match made {
        Ok(icfg) => icfg,
        Err(answer) => {
            drop(program);
            return Ok(Answer::OnText(answer));
        }
    };
    let answer = decided_within(rt, alloc, shelf, &program, &icfg, old, options.limits, gate);
    drop(icfg);
    drop(program);
    answer
}
