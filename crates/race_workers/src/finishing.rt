//! Ends that workers offer.

ghost use Rattle.std.specs.Prelude.{◌≡◌, length};
ghost use Rattle.typed_tree.specs.TypingRules.TypedParts.{typed_program};
ghost use Rattle.race_rounds.specs.Ends.{EndMeets};
ghost use Rattle.race_rounds.specs.Rounds.{automaton_in};
ghost use Rattle.version_cell.specs.Counts.{Begins};
ghost use Rattle.race_workers.specs.Ties.Parts.{IsJob, IsPassAt, Seeks};

use crate::gates::{Gate, Moment};
use crate::jobs::Job;
use crate::rounds::Turn;
use itp_automaton::Certified;
use race_core::{End, Why};
use std::sync::Wait;
use version_cell::Pass;

/// Ends the race, where it is still at the version for which the end was found.
pub(crate) fn finish<G: Gate + Sync, R: Wait>(
    rt: &R,
    job: &Job<'_, G>,
    number: u32,
    pass: &mut Pass<Certified>,
    version: u64,
    end: End,
) -> Turn
    requires job { IsJob (typed_program job.now.program.now) job.now.icfg.now job.now.limits job.now.cell.now }
    requires pass { IsPassAt job.now.cell.now (typed_program job.now.program.now) job.now.limits pass.old.shares pass.old }
    requires version { version ≡ length pass.old.seen }
    requires end { EndMeets automaton_in (typed_program job.now.program.now) job.now.limits pass.old.seen end }
    ensures pass { IsPassAt job.now.cell.now (typed_program job.now.program.now) job.now.limits pass.old.shares pass.new }
    ensures grows { Begins pass.old.seen pass.new.seen }
    ensures turn { Seeks (typed_program job.now.program.now) pass.old pass.new result }
{
    job.gate.at(number, Moment::Finishing);
    match job.cell.finish(rt, pass, version, end) {
        Ok(()) => Turn::Over,
        Err(refused) => match refused.why {
            Why::Ended(_) => Turn::Over,
            Why::Full { .. } | Why::Stale { .. } => Turn::Again(None),
        },
    }
}
