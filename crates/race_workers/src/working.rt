//! Workers, each in a thread of its own.

ghost use Rattle.std.specs.Prelude.{◌≡◌, ◌+◌, ◌<◌, ◌≤◌, length, IfOk, OnOk, IsSome};
ghost use Rattle.std.specs.List.{AllByRecursion};
ghost use Rattle.std.specs.Thread.{IsSync};
ghost use Rattle.typed_tree.specs.TypingRules.TypedParts.{typed_program};
ghost use Rattle.race_workers.specs.Ties.Parts.{IsJob, IsPassAt};

use crate::gates::Gate;
use crate::jobs::Job;
use crate::rounds::{Turn, round};
use itp_automaton::Certified;
use race_rounds::Seeker;
use std::alloc::{AllocError, Global};
use std::sync::Wait;
use std::thread::{Threads, join};
use version_cell::Pass;

/// Takes rounds until the race has ended.
fn take_rounds<G: Gate + Sync, R: Threads + Wait + Sync>(
    rt: &R,
    alloc: Global,
    job: &Job<'_, G>,
    number: u32,
    pass: &mut Pass<Certified>,
    seeker: &mut Seeker,
) -> Result<(), AllocError>
    requires job { IsJob (typed_program job.now.program.now) job.now.icfg.now job.now.limits job.now.cell.now }
    requires pass { IsPassAt job.now.cell.now (typed_program job.now.program.now) job.now.limits pass.old.shares pass.old }
    ensures pass { IsPassAt job.now.cell.now (typed_program job.now.program.now) job.now.limits pass.old.shares pass.new }
    ensures ended { OnOk result (IsSome pass.new.ended) }
{
    let mut carried = None;
    for _ in rt.forever() {
        match round(rt, alloc, job, number, pass, seeker, carried)? {
            Turn::Again(entry) => carried = entry,
            Turn::Over => return Ok(()),
        }
    }
    unreachable!()
}

/// One worker: it takes rounds until the race has ended, or there is no memory.
pub(crate) fn work<G: Gate + Sync, R: Threads + Wait + Sync>(
    rt: &R,
    alloc: Global,
    job: &Job<'_, G>,
    number: u32,
    pass: Pass<Certified>,
) -> (Result<(), AllocError>, Pass<Certified>)
    requires job { IsJob (typed_program job.now.program.now) job.now.icfg.now job.now.limits job.now.cell.now }
    requires pass { IsPassAt job.now.cell.now (typed_program job.now.program.now) job.now.limits 1 pass }
    ensures pass { IsPassAt job.now.cell.now (typed_program job.now.program.now) job.now.limits 1 result.1 }
    ensures ended { IfOk result.0 (λ _. IsSome result.1.ended) }
{
    let mut pass = pass;
    let Ok(mut seeker) = Seeker::new(alloc, job.icfg, number) else {
        return (Err(AllocError), pass);
    };
    let done = take_rounds(rt, alloc, job, number, &mut pass, &mut seeker);
    drop(seeker);
    (done, pass)
}

/// A worker for each pass, from this number on. All passes are joined, and it is Ok where one worker saw the end.
pub(crate) fn run_all<G: Gate + Sync, R: Threads + Wait + Sync>(
    rt: &R,
    alloc: Global,
    job: &Job<'_, G>,
    first: u32,
    passes: Vec<Pass<Certified>>,
) -> (Result<(), AllocError>, Pass<Certified>)
    requires job { IsJob (typed_program job.now.program.now) job.now.icfg.now job.now.limits job.now.cell.now }
    requires passes { AllByRecursion (IsPassAt job.now.cell.now (typed_program job.now.program.now) job.now.limits 1) passes.items }
    requires some { 0 < length passes.items }
    requires numbers { first + length passes.items ≤ 64 }
    ensures pass { IsPassAt job.now.cell.now (typed_program job.now.program.now) job.now.limits (length passes.items) result.1 }
    ensures ended { IfOk result.0 (λ _. IsSome result.1.ended) }
{
    let mut passes = passes;
    let Some(pass) = passes.pop() else {
        unreachable!()
    };
    if passes.is_empty() {
        return work(rt, alloc, job, first, pass);
    }
    // Closures hold these, and not the job, since what a closure with a lifetime in its type answers is not known to `join`.
    let (program, icfg, limits) = (job.program, job.icfg, job.limits);
    let (cell, gate) = (job.cell, job.gate);
    let (one, others) = join(
        rt,
        move || -> (Result<(), AllocError>, Pass<Certified>)
            requires { IsSync R.row × IsSync G.row × IsJob (typed_program program.now) icfg.now limits cell.now × IsPassAt cell.now (typed_program program.now) limits 1 pass }
            ensures { IsPassAt cell.entry.now (typed_program program.entry.now) limits 1 result.1 × IfOk result.0 (λ _. IsSome result.1.ended) }
        {
            let job = Job {
                program,
                icfg,
                limits,
                cell,
                gate,
            };
            work(rt, alloc, &job, first, pass)
        },
        move || -> (Result<(), AllocError>, Pass<Certified>)
            requires { IsSync R.row × IsSync G.row × IsJob (typed_program program.now) icfg.now limits cell.now × AllByRecursion (IsPassAt cell.now (typed_program program.now) limits 1) passes.items × (0 < length passes.items) × (first + 1 + length passes.items ≤ 64) }
            ensures { IsPassAt cell.entry.now (typed_program program.entry.now) limits (length passes.items) result.1 × IfOk result.0 (λ _. IsSome result.1.ended) }
        {
            let job = Job {
                program,
                icfg,
                limits,
                cell,
                gate,
            };
            run_all(rt, alloc, &job, first + 1, passes)
        },
    );
    let (done, mut pass) = one;
    let (others_done, other) = others;
    job.cell.join(&mut pass, other);
    match done {
        Ok(()) => (Ok(()), pass),
        Err(_) => (others_done, pass),
    }
}
