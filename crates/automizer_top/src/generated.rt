//! The mode `big`.

ghost use Rattle.std.specs.Prelude.{◌≡◌, ◌≤◌, Some, IfOk, codes};
ghost use Rattle.boogie_run.specs.RunRules.Runs.{IsSafe};
ghost use Rattle.typed_tree.specs.TypedTree.{TypedProgram};
ghost use Rattle.typed_tree.specs.declared.fault.TypeFault.TheVariants.{Memory};
ghost use Rattle.typed_tree.specs.TypingRules.TypedParts.{typed_program};
ghost use Rattle.boogie_types.specs.Resolved.{resolved_program};
ghost use Rattle.proof_check.specs.Proves.{Proves};
ghost use Rattle.race_rounds.specs.Limits.{AreInRange};
ghost use Rattle.automizer_top.specs.GeneratedProgram.Generated.{generated};
ghost use Rattle.text_reports.specs.Answers.{IsGraphOf, HasNoErrorWord};
ghost use Rattle.automizer_top.specs.Ties.Answers.{answered, VerdictProves};
ghost use Rattle.automizer_top.specs.Report.{ReportsBig};
ghost use Rattle.automizer_top.specs.Summary.{summary_text};
ghost use Rattle.automizer_top.specs.Verdicts.{verdict_status};

use crate::answer::Answer;
use crate::generated_program::{
    generated, generated_programs_are_lowered, generated_programs_are_typed,
};
use crate::summary::summary;
use boogie_types::{TypeFault, Typed, resolve};
use letter_acts::Icfg;
use proof_check::{Reject, check};
use proof_form::Annotation;
use race_rounds::Limits;
use race_verdicts::{Verdict, verdict_of};
use race_workers::{Gate, race};
use std::alloc::{AllocError, Global};
use std::sync::Wait;
use std::thread::Threads;
use text_reports::graph;

/// The generated program keeps the typing rules, so that nothing but want of memory is said against it.
fn want_of_memory(fault: TypeFault) -> AllocError
    requires { fault ≡ Memory }
{
    match fault {
        TypeFault::Memory => AllocError,
        _ => unreachable!(),
    }
}

/// The generated program, typed.
fn program_of(alloc: Global, count: u32) -> Result<Typed, AllocError>
    requires { (1 ≤ count) × (count ≤ 200) }
    ensures { IfOk result (λ t. resolved_program (generated count) (codes "main") ≡ Some (typed_program t)) }
{
    generated_programs_are_typed();
    let tree = generated(alloc, count)?;
    match resolve(alloc, tree, "main") {
        Ok(program) => Ok(program),
        Err(fault) => Err(want_of_memory(fault)),
    }
}

/// The graph of the generated program.
fn graph_of(alloc: Global, count: u32, program: &Typed) -> Result<Icfg, AllocError>
    requires count { (1 ≤ count) × (count ≤ 200) }
    requires program { resolved_program (generated count) (codes "main") ≡ Some (typed_program program.now) }
    ensures { IfOk result (IsGraphOf (typed_program program.now)) }
{
    generated_programs_are_lowered();
    // Contracts alone speak of it.
    let _count = count;
    match graph(alloc, program)? {
        Ok(icfg) => Ok(icfg),
        Err(_answer) => unreachable!(),
    }
}

/// Checks an annotation that proves the graph.
fn accept(alloc: Global, icfg: &Icfg, annotation: &Annotation) -> Result<(), AllocError>
    requires { Proves icfg.now annotation.now }
    ensures { IfOk result (λ _. HasNoErrorWord icfg.now) }
{
    match check(alloc, icfg, annotation) {
        Ok(()) => Ok(()),
        Err(Reject::Memory) => Err(AllocError),
        Err(Reject::At { .. }) => unreachable!(),
    }
}

/// Checks the annotation of a verdict that has one.
fn confirm(alloc: Global, icfg: &Icfg, verdict: &Verdict) -> Result<(), AllocError>
    requires { VerdictProves icfg.now verdict.now }
    ensures { IfOk result (λ _. verdict_status verdict.now ≡ 0 → HasNoErrorWord icfg.now) }
{
    match verdict {
        Verdict::Safe { annotation, .. } => accept(alloc, icfg, annotation),
        Verdict::Unsafe(_) => Ok(()),
        Verdict::Unknown { .. } => Ok(()),
    }
}

/// The summary of a verdict, of which the annotation, where it has one, is checked first.
fn confirmed_summary(
    alloc: Global,
    icfg: &Icfg,
    count: u32,
    verdict: &Verdict,
) -> Result<Vec<u8>, AllocError>
    requires verdict { VerdictProves icfg.now verdict.now }
    requires count { count ≤ 200 }
    ensures text { IfOk result (λ text. text.items ≡ summary_text count verdict.now) }
    ensures safe { IfOk result (λ text. verdict_status verdict.now ≡ 0 → HasNoErrorWord icfg.now) }
{
    confirm(alloc, icfg, verdict)?;
    summary(alloc, count, verdict)
}

/// The summary of the verdict on the generated program by a race over its graph.
fn decided<R: Threads + Wait + Sync, G: Gate + Sync>(
    rt: &R,
    alloc: Global,
    count: u32,
    program: &Typed,
    icfg: &Icfg,
    limits: Limits,
    gate: &G,
) -> Result<Answer, AllocError>
    requires count { count ≤ 200 }
    requires program { resolved_program (generated count) (codes "main") ≡ Some (typed_program program.now) }
    requires graph { IsGraphOf (typed_program program.now) icfg.now }
    requires limits { AreInRange limits }
    ensures reported { IfOk result (λ a. ReportsBig limits count (answered a)) }
    ensures safe { IfOk result (λ a. (answered a).status ≡ 0 → HasNoErrorWord icfg.now) }
{
    let race = race(rt, alloc, program, icfg, limits, gate)?;
    let Ok(verdict) = verdict_of(alloc, program, icfg, &race) else {
        drop(race);
        return Err(AllocError);
    };
    let Ok(text) = confirmed_summary(alloc, icfg, count, &verdict) else {
        drop(verdict);
        drop(race);
        return Err(AllocError);
    };
    // Contracts alone speak of these.
    let (_history, _kept, _room) = (race.history(), race.kept(), race.sized());
    Ok(Answer::Decided {
        text,
        verdict,
        race,
    })
}

/// What is answered where the generated program is asked for: the summary of its verdict. The program is never refused.
pub(crate) fn summed<R: Threads + Wait + Sync, G: Gate + Sync>(
    rt: &R,
    alloc: Global,
    count: u32,
    limits: Limits,
    gate: &G,
) -> Result<Answer, AllocError>
    requires count { (1 ≤ count) × (count ≤ 200) }
    requires limits { AreInRange limits }
    ensures reported { IfOk result (λ a. ReportsBig limits count (answered a)) }
    ensures safe { IfOk result (λ a. (answered a).status ≡ 0 → (t : TypedProgram) → resolved_program (generated count) (codes "main") ≡ Some t → IsSafe t) }
{
    let program = program_of(alloc, count)?;
    let Ok(icfg) = graph_of(alloc, count, &program) else {
        drop(program);
        return Err(AllocError);
    };
    let answer = decided(rt, alloc, count, &program, &icfg, limits, gate);
    drop(icfg);
    drop(program);
    answer
}
