//! The race of several workers.

ghost use Rattle.std.specs.Prelude.{◌≡◌, ◌≤◌, ◌+◌, None, IfOk, IfSome, IsSome};
ghost use Rattle.nwa_base.specs.Acceptance.{Accepts};
ghost use Rattle.typed_tree.specs.TypingRules.TypedParts.{typed_program};
ghost use Rattle.lowered_graph.specs.Lowered.{lowered};
ghost use Rattle.race_rounds.specs.Limits.{AreInRange};
ghost use Rattle.race_rounds.specs.Rounds.{IsGiven, IsRaceOf};
ghost use Rattle.version_cell.specs.Passes.{IsPassOf, newcomer};
ghost use Rattle.race_workers.specs.Ties.Parts.{IsJob, HasRun};

use crate::beginning::begin;
use crate::gates::Gate;
use crate::jobs::Job;
use crate::splitting::split_all;
use crate::working::run_all;
use itp_automaton::Certified;
use letter_acts::Icfg;
use race_core::{Entry, Shared};
use race_rounds::Limits;
use std::alloc::{AllocError, Global};
use std::sync::{Arc, Wait};
use std::thread::Threads;
use typed_tree::typing_rules::Typed;
use version_cell::{Pass, VersionCell, create};

/// The cell of a race over the graph, and its first pass, which has a share for each worker and one to keep.
fn opened(
    alloc: Global,
    icfg: &Icfg,
    limits: Limits,
) -> Result<(VersionCell<Certified>, Pass<Certified>), AllocError>
    requires limits { AreInRange limits }
    ensures cell { IfOk result (λ t. (t.0.program ≡ icfg.now.automaton) × (t.0.limit ≡ limits.rounds) × (t.0.shares ≡ limits.workers + 1)) }
    ensures pass { IfOk result (λ t. t.1 ≡ newcomer t.0) }
    ensures of_cell { IfOk result (λ t. IsPassOf t.0 t.1) }
{
    let automaton = Arc::new(alloc, icfg.nwa().copy()?)?;
    let shares = limits.workers as u64 + 1;
    create::<Certified>(alloc, automaton, limits.rounds, shares)
}

/// Splits a pass off for each worker, runs the workers, and joins their passes. It fails where no worker saw the end.
fn run<G: Gate + Sync, R: Threads + Wait + Sync>(
    rt: &R,
    alloc: Global,
    job: &Job<'_, G>,
    pass: Pass<Certified>,
) -> Result<Pass<Certified>, AllocError>
    requires job { IsJob (typed_program job.now.program.now) job.now.icfg.now job.now.limits job.now.cell.now }
    requires workers { (1 ≤ job.now.limits.workers) × (job.now.limits.workers ≤ 64) }
    requires pass { IsPassOf job.now.cell.now pass × (pass.shares ≡ job.now.limits.workers + 1) }
    ensures done { IfOk result (HasRun job.now.cell.now (typed_program job.now.program.now) job.now.limits job.now.limits.workers pass) }
    ensures ended { IfOk result (λ p. IsSome p.ended) }
{
    let mut pass = pass;
    let passes = split_all(alloc, job.cell, &mut pass, job.limits.workers)?;
    let (done, other) = run_all(rt, alloc, job, 0, passes);
    job.cell.join(&mut pass, other);
    done?;
    Ok(pass)
}

/// The race of as many workers as the limits say over a program and its graph, to its end. Each takes kept words, decides their
/// rows, and removes each with all words of an automaton of infeasible ones, or ends the race, after `rounds` entries at the
/// latest. Decide has at most `depth` cuts on a branch. The gate is called at each moment and decides nothing.
pub fn race<G: Gate + Sync, R: Threads + Wait + Sync>(
    rt: &R,
    alloc: Global,
    program: &Typed,
    icfg: &Icfg,
    limits: Limits,
    gate: &G,
) -> Result<Shared<Certified>, AllocError>
    requires lowered { icfg.now ≡ lowered (typed_program program.now) }
    requires limits { AreInRange limits }
    ensures race { IfOk result (IsRaceOf (typed_program program.now) None limits) }
    ensures ended { IfOk result (λ r. IsSome r.end) }
{
    race_from(rt, alloc, program, icfg, limits, None, gate)
}

/// The same, where the history begins with the entry that is given, where one is. It is one of the `rounds` entries.
pub fn race_from<G: Gate + Sync, R: Threads + Wait + Sync>(
    rt: &R,
    alloc: Global,
    program: &Typed,
    icfg: &Icfg,
    limits: Limits,
    first: Option<Entry<Certified>>,
    gate: &G,
) -> Result<Shared<Certified>, AllocError>
    requires lowered { icfg.now ≡ lowered (typed_program program.now) }
    requires limits { AreInRange limits }
    requires given { IfSome first (λ e. Accepts icfg.now.automaton e.word × IsGiven (typed_program program.now) e) }
    ensures race { IfOk result (IsRaceOf (typed_program program.now) first limits) }
    ensures ended { IfOk result (λ r. IsSome r.end) }
{
    let Ok((cell, mut pass)) = opened(alloc, icfg, limits) else {
        drop(first);
        return Err(AllocError);
    };
    let Ok(()) = begin(rt, alloc, icfg, &cell, &mut pass, first) else {
        drop(pass);
        drop(cell);
        return Err(AllocError);
    };
    let job = Job {
        program,
        icfg,
        limits,
        cell: &cell,
        gate,
    };
    let Ok(pass) = run(rt, alloc, &job, pass) else {
        drop(cell);
        return Err(AllocError);
    };
    let closed = cell.close(pass);
    // That the history is within the limit is told by the room that is left.
    let _room = closed.sized();
    Ok(closed)
}
