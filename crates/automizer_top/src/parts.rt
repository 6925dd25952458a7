//! Procedures that are verified, checked and replayed each by itself, in their parts.

ghost use Rattle.std.specs.Prelude.{true, ◌≡◌, ◌≢◌, ◌≤◌, ◌<◌, ◌+◌, ◌*◌, ◌^◌, ◌++◌, ◌∷◌, [], ℕ, List, Option, length, map, Some, None, Err, IfOk, IfSome, MatchOption, MatchResult, OnOk, option_map};
ghost use Rattle.std.specs.List.{list_all};
ghost use Rattle.outer_io.specs.Faults.{Rose};
ghost use Rattle.outer_io.specs.Texts.{text_named};
ghost use Rattle.boogie_tree.specs.Names.{is_name};
ghost use Rattle.typed_tree.specs.TypedTree.{TypedProgram};
ghost use Rattle.typed_tree.specs.TypingRules.TypedParts.{typed_program};
ghost use Rattle.modular_cut.specs.View.{plain_part};
ghost use Rattle.race_rounds.specs.Limits.{AreInRange};
ghost use Rattle.lowered_graph.specs.Lowered.{lowered};
ghost use Rattle.text_reports.specs.Answers.{answer_of, IsGraphOf, HasNoErrorWord, TextIsSafe};
ghost use Rattle.automizer_top.specs.Ties.Answers.{answered};
ghost use Rattle.automizer_top.specs.PartTexts.{part_line, front_lines, front_text, rest_text};
ghost use Rattle.automizer_top.specs.Ties.PartViews.{AreParts, RefusesFree, AreGraphsOf, HaveNoErrorWord, RefusesUnlowered, RefusesParts, IsLoweredText, JudgesPart, ChecksOn, FindsPart};
ghost use Rattle.automizer_top.specs.Parts.{ReportsVerifyParts, ReportsParts, ReportsCheckParts, ReportsPartProofs, RejectsPart, ProvesPart, ReportsReplayParts, ReportsPartFailure};
ghost use Rattle.text_reports.specs.ReportTexts.{accepted_answer};
ghost use Rattle.automizer_top.specs.Verdicts.{verdict_status};
ghost use Rattle.automizer_top.specs.Report.{ReportsSecond};

use crate::answer::{Answer, verdict_status};
use crate::part_texts::{Front, add_part, behind, behind_part_line, front_of, modular_line};
use crate::reporting::{Decision, raced};
use crate::words::Options;
use boogie_tree::Text;
use boogie_types::Typed;
use itp_automaton::Certified;
use letter_acts::Icfg;
use modular_cut::{CutFault, Part, cut};
use outer_io::Shelf;
use proof_form::{ProofFault, read_safe};
use race_core::Shared;
use race_rounds::Limits;
use race_verdicts::Verdict;
use race_workers::Gate;
use std::alloc::{AllocError, Global};
use std::sync::Wait;
use std::thread::Threads;
use text_reports::{
    Halt, PROGRAM_LIMIT, SECOND_LIMIT, TextAnswer, confirmed, graph, replayed_failure, text_within,
    typed,
};
use trace_replay::{FailureFault, read_failure};

/// The parts of a program, or what is answered where one of its specifications or invariants is free.
fn parts_of(alloc: Global, program: &Typed) -> Result<Result<Vec<Part>, Answer>, AllocError>
    requires names { list_all (λ p. is_name p.name) (typed_program program.now).procs ≡ true }
    ensures { IfOk result (λ r. MatchResult r
        (λ ps. AreParts (typed_program program.now) ps.items)
        (λ a. RefusesFree (typed_program program.now) (answered a))) }
{
    match cut(alloc, program) {
        Ok(parts) => Ok(Ok(parts)),
        Err(CutFault::Free(at)) => Ok(Err(Answer::Free(at))),
        Err(CutFault::Memory) => Err(AllocError),
    }
}

/// The graphs of parts, in order, or what is answered where one of them cannot be lowered.
fn graphs_of(alloc: Global, parts: &[Part]) -> Result<Result<Vec<Icfg>, TextAnswer>, AllocError>
    ensures { IfOk result (λ r. MatchResult r
        (λ gs. AreGraphsOf (map plain_part parts.now) gs.items)
        (λ a. RefusesUnlowered (map plain_part parts.now) (answer_of a))) }
{
    let mut graphs = Vec::with_capacity(alloc, parts.len())?;
    for part in parts {
        match graph(alloc, &part.program)? {
            Ok(icfg) => graphs.push(icfg)?,
            Err(answer) => return Ok(Err(answer)),
        }
    }
    Ok(Ok(graphs))
}

/// Parts with their graphs, in order.
#[derive(Drop)]
struct LoweredParts {
    parts: Vec<Part>,
    graphs: Vec<Icfg>,
}

/// The parts of the program of a text with their graphs, or what is answered to the text where there are none.
fn lowered_text(
    alloc: Global,
    text: &[u8],
    entry: &str,
) -> Result<Result<LoweredParts, Answer>, AllocError>
    requires { length text.now ≤ PROGRAM_LIMIT }
    ensures { IfOk result (λ r. MatchResult r
        (λ l. IsLoweredText entry.now text.now l)
        (λ a. RefusesParts entry.now text.now (answered a))) }
{
    let program = match typed(alloc, text, entry)? {
        Ok(program) => program,
        Err(answer) => return Ok(Err(Answer::OnText(answer))),
    };
    let Ok(made) = parts_of(alloc, &program) else {
        drop(program);
        return Err(AllocError);
    };
    drop(program);
    let parts = match made {
        Ok(parts) => parts,
        Err(answer) => return Ok(Err(answer)),
    };
    let Ok(lowered) = graphs_of(alloc, &parts) else {
        drop(parts);
        return Err(AllocError);
    };
    match lowered {
        Ok(graphs) => Ok(Ok(LoweredParts { parts, graphs })),
        Err(answer) => {
            drop(parts);
            Ok(Err(Answer::OnText(answer)))
        }
    }
}

/// Adds a race to others.
fn add_race(races: &mut Vec<Shared<Certified>>, race: Shared<Certified>) -> Result<(), AllocError>
    ensures { OnOk result (races.new.items ≡ races.old.items ++ race ∷ []) }
{
    races.push(race)?;
    Ok(())
}

/// Adds the race of a verdict on the part of that name, and the text of the verdict, which stands alone where that is not `safe`.
fn add_decision(
    text: &mut Vec<u8>,
    races: &mut Vec<Shared<Certified>>,
    name: &Text,
    decision: Decision,
) -> Result<Verdict, AllocError>
    ensures verdict { IfOk result (λ v. v ≡ decision.verdict) }
    ensures safe { OnOk result (verdict_status decision.verdict ≡ 0 → text.new.items ≡ text.old.items ++ (part_line name.now ++ decision.text.items)) }
    ensures alone { OnOk result (verdict_status decision.verdict ≢ 0 → text.new.items ≡ part_line name.now ++ decision.text.items) }
    ensures race { OnOk result (races.new.items ≡ races.old.items ++ decision.race ∷ []) }
{
    let Decision {
        text: own,
        verdict,
        race,
    } = decision;
    let Ok(()) = add_race(races, race) else {
        drop(own);
        drop(verdict);
        return Err(AllocError);
    };
    if verdict_status(&verdict) != 0 {
        text.clear();
    }
    let Ok(()) = add_part(text, name, &own) else {
        drop(own);
        drop(verdict);
        return Err(AllocError);
    };
    Ok(verdict)
}

/// What is answered to parts with their graphs, where their verdicts are asked for: all texts, or that of the first part that is not safe.
fn decided<R: Threads + Wait + Sync, G: Gate + Sync>(
    rt: &R,
    alloc: Global,
    lowered: &LoweredParts,
    limits: Limits,
    gate: &G,
) -> Result<Answer, AllocError>
    requires graphs { AreGraphsOf (map plain_part lowered.now.parts.items) lowered.now.graphs.items }
    requires limits { AreInRange limits }
    ensures reported { IfOk result (λ a. ReportsParts limits (map plain_part lowered.now.parts.items) (answered a)) }
    ensures short { IfOk result (λ a. length (answered a).bytes ≤ SECOND_LIMIT) }
    ensures safe { IfOk result (λ a. (answered a).status ≡ 0 → HaveNoErrorWord lowered.now.graphs.items) }
{
    let mut text = modular_line(alloc, lowered.parts.len())?;
    let mut races = Vec::new(alloc);
    for number in 0..lowered.parts.len() {
        let part = &lowered.parts[number];
        let Ok(decision) = raced(
            rt,
            alloc,
            &part.program,
            &lowered.graphs[number],
            limits,
            None,
            gate,
        ) else {
            drop(races);
            drop(text);
            return Err(AllocError);
        };
        let Ok(verdict) = add_decision(&mut text, &mut races, &part.name, decision) else {
            drop(races);
            drop(text);
            return Err(AllocError);
        };
        if verdict_status(&verdict) != 0 {
            return Ok(Answer::PartDecided {
                text,
                verdict,
                races,
            });
        }
        drop(verdict);
    }
    Ok(Answer::PartsDecided { text, races })
}

/// What is answered to a program text whose verdict is asked for part by part.
pub(crate) fn verified<R: Threads + Wait + Sync, G: Gate + Sync>(
    rt: &R,
    alloc: Global,
    text: &[u8],
    options: &Options<'_>,
    gate: &G,
) -> Result<Answer, AllocError>
    requires text { length text.now ≤ PROGRAM_LIMIT }
    requires limits { AreInRange options.now.limits }
    ensures reported { IfOk result (λ a. ReportsVerifyParts options.now.entry.now options.now.limits text.now (answered a)) }
    ensures safe { IfOk result (λ a. (answered a).status ≡ 0 → TextIsSafe options.now.entry.now text.now) }
{
    match lowered_text(alloc, text, options.entry)? {
        Ok(lowered) => decided(rt, alloc, &lowered, options.limits, gate),
        Err(answer) => Ok(answer),
    }
}

/// What is wrong with the annotation of a part, before which so many lines stand; none where it proves the part.
fn judged(
    alloc: Global,
    icfg: &Icfg,
    text: &[u8],
    before: u128,
) -> Result<Option<TextAnswer>, AllocError>
    requires text { length text.now ≤ SECOND_LIMIT }
    requires before { before < 2 ^ 65 }
    ensures reported { IfOk result (λ r. MatchOption r (ProvesPart icfg.now text.now) (λ a. RejectsPart icfg.now before text.now (answer_of a))) }
    ensures proved { IfOk result (λ r. r ≡ None → HasNoErrorWord icfg.now) }
    ensures wrong { IfOk result (λ r. IfSome r (λ a. (answer_of a).status ≡ 1)) }
{
    let (coarse, proof) = match read_safe(alloc, text) {
        Ok((_rounds, coarse, proof)) => (coarse, proof),
        Err(ProofFault::Syntax { line }) => {
            return Ok(Some(TextAnswer::Syntax {
                line: before + u128::from(line),
            }));
        }
        Err(ProofFault::Memory) => return Err(AllocError),
    };
    match confirmed(alloc, icfg, &coarse, &proof)? {
        TextAnswer::Accepted => Ok(None),
        TextAnswer::Rejected { line, cause } => Ok(Some(TextAnswer::Rejected {
            line: before + line,
            cause,
        })),
        _ => unreachable!(),
    }
}

/// What is left of a second text, and how many of its lines stand before that.
#[derive(Clone, Copy)]
struct Left<'a> {
    text: &'a [u8],
    before: u128,
}

/// What is left behind the line and the annotation of a part, where that proves the part, or what is answered.
fn checked_part<'a>(
    alloc: Global,
    part: &Part,
    icfg: &Icfg,
    left: Left<'a>,
) -> Result<Result<Left<'a>, TextAnswer>, AllocError>
    requires text { length left.text.now ≤ SECOND_LIMIT }
    requires before { left.before < 2 ^ 64 }
    requires graph { icfg.now ≡ lowered (plain_part part.now).program }
    ensures { IfOk result (λ r. MatchResult r
        (λ next. ChecksOn (plain_part part.now) icfg.now left.entry next)
        (λ a. JudgesPart (plain_part part.now) left.entry (answer_of a))) }
{
    let Some(text) = behind_part_line(left.text, &part.name) else {
        return Ok(Err(TextAnswer::Syntax {
            line: left.before + 1,
        }));
    };
    let Front { own, lines, rest } = front_of(text);
    match judged(alloc, icfg, own, left.before + 1)? {
        Some(answer) => Ok(Err(answer)),
        None => Ok(Ok(Left {
            text: rest,
            before: left.before + 1 + lines as u128,
        })),
    }
}

/// What is answered to parts with their graphs and to a second text, which should tell an annotation of each.
fn proved(alloc: Global, lowered: &LoweredParts, text: &[u8]) -> Result<TextAnswer, AllocError>
    requires graphs { AreGraphsOf (map plain_part lowered.now.parts.items) lowered.now.graphs.items }
    requires text { length text.now ≤ SECOND_LIMIT }
    ensures reported { IfOk result (λ a. ReportsPartProofs (map plain_part lowered.now.parts.items) text.now (answer_of a)) }
    ensures accepted { IfOk result (λ a. answer_of a ≡ accepted_answer → HaveNoErrorWord lowered.now.graphs.items) }
{
    let line = modular_line(alloc, lowered.parts.len())?;
    let Some(rest) = behind(text, &line) else {
        return Ok(TextAnswer::Syntax { line: 1 });
    };
    let mut left = Left {
        text: rest,
        before: 1,
    };
    for number in 0..lowered.parts.len() {
        match checked_part(alloc, &lowered.parts[number], &lowered.graphs[number], left)? {
            Ok(next) => left = next,
            Err(answer) => return Ok(answer),
        }
    }
    if left.text.is_empty() {
        Ok(TextAnswer::Accepted)
    } else {
        Ok(TextAnswer::Syntax {
            line: left.before + 1,
        })
    }
}

/// What is answered to parts with their graphs and to the annotations in the text of that name.
fn proved_within<H: Shelf>(
    alloc: Global,
    shelf: &mut H,
    lowered: &LoweredParts,
    second: &str,
) -> Result<TextAnswer, Halt>
    requires graphs { AreGraphsOf (map plain_part lowered.now.parts.items) lowered.now.graphs.items }
    ensures texts { H.texts shelf.new ≡ H.texts shelf.old }
    ensures reported { IfOk result (λ a. IfSome (H.texts shelf.old) (λ shown.
        ReportsSecond (text_named second.now shown) (ReportsPartProofs (map plain_part lowered.now.parts.items)) (answer_of a))) }
    ensures accepted { IfOk result (λ a. answer_of a ≡ accepted_answer → HaveNoErrorWord lowered.now.graphs.items) }
    ensures fault { result ≡ Err Halt.Fault → Rose (H.faults shelf.old) (H.faults shelf.new) }
    ensures no_fault { result ≢ Err Halt.Fault → H.faults shelf.new ≡ H.faults shelf.old }
    ensures never_falls { H.faults shelf.old ≤ H.faults shelf.new }
{
    let Some(text) = text_within(alloc, shelf, second, SECOND_LIMIT)? else {
        return Ok(TextAnswer::TooLong);
    };
    Ok(proved(alloc, lowered, &text)?)
}

/// What is answered to a program text and to the annotations of its parts in the text of that name.
pub(crate) fn checked<H: Shelf>(
    alloc: Global,
    shelf: &mut H,
    text: &[u8],
    second: &str,
    entry: &str,
) -> Result<Answer, Halt>
    requires { length text.now ≤ PROGRAM_LIMIT }
    ensures texts { H.texts shelf.new ≡ H.texts shelf.old }
    ensures reported { IfOk result (λ a. IfSome (H.texts shelf.old) (λ shown.
        ReportsCheckParts entry.now text.now (text_named second.now shown) (answered a))) }
    ensures accepted { IfOk result (λ a. answered a ≡ accepted_answer → TextIsSafe entry.now text.now) }
    ensures no_usage { IfOk result (λ a. (answered a).status ≢ 4) }
    ensures fault { result ≡ Err Halt.Fault → Rose (H.faults shelf.old) (H.faults shelf.new) }
    ensures no_fault { result ≢ Err Halt.Fault → H.faults shelf.new ≡ H.faults shelf.old }
    ensures never_falls { H.faults shelf.old ≤ H.faults shelf.new }
{
    let lowered = match lowered_text(alloc, text, entry)? {
        Ok(lowered) => lowered,
        Err(answer) => return Ok(answer),
    };
    let answer = proved_within(alloc, shelf, &lowered, second)?;
    Ok(Answer::OnText(answer))
}

/// The number of the part that the first line of a text names, and what stands behind that line.
fn part_in<'a>(parts: &[Part], text: &'a [u8]) -> Option<(usize, &'a [u8])>
    ensures { FindsPart (map plain_part parts.now) text.now result }
{
    for number in 0..parts.len() {
        if let Some(rest) = behind_part_line(text, &parts[number].name) {
            return Some((number, rest));
        }
    }
    None
}

/// What is answered to parts and to a text that should name one of them and tell its failure.
fn outcome(alloc: Global, parts: &[Part], text: &[u8]) -> Result<TextAnswer, AllocError>
    requires { length text.now ≤ SECOND_LIMIT }
    ensures { IfOk result (λ a. ReportsPartFailure (map plain_part parts.now) text.now (answer_of a)) }
{
    let Some((number, rest)) = part_in(parts, text) else {
        return Ok(TextAnswer::Syntax { line: 1 });
    };
    let failure = match read_failure(alloc, rest) {
        Ok(failure) => failure,
        Err(FailureFault::Syntax { line }) => {
            return Ok(TextAnswer::Syntax {
                line: u128::from(line) + 1,
            });
        }
        Err(FailureFault::Memory) => return Err(AllocError),
    };
    replayed_failure(alloc, &parts[number].program, &failure)
}

/// What is answered to a program text and to the failure of one of its parts in the text of that name.
pub(crate) fn replayed<H: Shelf>(
    alloc: Global,
    shelf: &mut H,
    text: &[u8],
    second: &str,
    entry: &str,
) -> Result<Answer, Halt>
    requires { length text.now ≤ PROGRAM_LIMIT }
    ensures texts { H.texts shelf.new ≡ H.texts shelf.old }
    ensures reported { IfOk result (λ a. IfSome (H.texts shelf.old) (λ shown.
        ReportsReplayParts entry.now text.now (text_named second.now shown) (answered a))) }
    ensures no_usage { IfOk result (λ a. (answered a).status ≢ 4) }
    ensures fault { result ≡ Err Halt.Fault → Rose (H.faults shelf.old) (H.faults shelf.new) }
    ensures no_fault { result ≢ Err Halt.Fault → H.faults shelf.new ≡ H.faults shelf.old }
    ensures never_falls { H.faults shelf.old ≤ H.faults shelf.new }
{
    let program = match typed(alloc, text, entry)? {
        Ok(program) => program,
        Err(answer) => return Ok(Answer::OnText(answer)),
    };
    let parts = match parts_of(alloc, &program)? {
        Ok(parts) => parts,
        Err(answer) => return Ok(answer),
    };
    let Some(failure) = text_within(alloc, shelf, second, SECOND_LIMIT)? else {
        return Ok(Answer::OnText(TextAnswer::TooLong));
    };
    Ok(Answer::OnText(outcome(alloc, &parts, &failure)?))
}
