//! Entries that workers offer.

ghost use Rattle.std.specs.Prelude.{◌≡◌, length, IfOk};
ghost use Rattle.std.specs.Arc.{arc_value};
ghost use Rattle.nwa_base.specs.Acceptance.{Accepts};
ghost use Rattle.nwa_reduce.specs.Lean.{IsLean};
ghost use Rattle.typed_tree.specs.TypingRules.TypedParts.{typed_program};
ghost use Rattle.race_core.specs.Histories.{IsFair};
ghost use Rattle.race_workers.specs.KeptWords.Without.{IsWithout};
ghost use Rattle.race_rounds.specs.Rounds.{automaton_in, IsOwn};
ghost use Rattle.race_workers.specs.Ties.Parts.{IsJob, IsPassAt, IsAsSeen, turn_after, Offers};

use crate::gates::{Gate, Moment};
use crate::jobs::Job;
use crate::kept_words::without;
use crate::rounds::Turn;
use itp_automaton::Certified;
use nwa_base::Nwa;
use race_core::{Entry, Evidence, Refused, Why};
use std::alloc::{AllocError, Global};
use std::sync::{Arc, Wait};
use version_cell::{Pass, Snapshot};

/// What is kept behind an entry, by an automaton from which no state can be taken away.
pub(crate) fn kept_behind(
    alloc: Global,
    kept: &Nwa,
    entry: &Entry<Certified>,
) -> Result<Arc<Nwa>, AllocError>
    ensures words { IfOk result (λ left. IsWithout kept.now (automaton_in entry.now.evidence) (arc_value left)) }
    ensures lean { IfOk result (λ left. IsLean (arc_value left)) }
{
    let left = without(alloc, kept, entry.evidence.nwa())?;
    Ok(Arc::new(alloc, left)?)
}

/// What a worker does after a refusal: it offers an entry that is stale again, reads again where the history is full, and stops
/// where the race has ended.
fn after_refusal<G: Gate>(gate: &G, number: u32, refused: Refused<Certified>) -> Turn
    ensures { result ≡ turn_after refused.why refused.entry }
{
    let Refused { why, entry, kept } = refused;
    drop(kept);
    match why {
        Why::Ended(_) => {
            drop(entry);
            Turn::Over
        }
        Why::Full { .. } => {
            drop(entry);
            Turn::Again(None)
        }
        Why::Stale { .. } => {
            gate.at(number, Moment::Stale);
            Turn::Again(Some(entry))
        }
    }
}

/// Publishes the entry and what is kept behind it against the version that was read.
fn publish<G: Gate + Sync, R: Wait>(
    rt: &R,
    job: &Job<'_, G>,
    number: u32,
    pass: &mut Pass<Certified>,
    base: u64,
    entry: Entry<Certified>,
    kept: Arc<Nwa>,
) -> Turn
    requires job { IsJob (typed_program job.now.program.now) job.now.icfg.now job.now.limits job.now.cell.now }
    requires pass { IsPassAt job.now.cell.now (typed_program job.now.program.now) job.now.limits pass.old.shares pass.old }
    requires base { base ≡ length pass.old.seen }
    requires fair { IsFair automaton_in pass.old.program pass.old.seen base entry (arc_value kept) }
    requires lean { IsLean (arc_value kept) }
    requires own { IsOwn (typed_program job.now.program.now) entry }
    ensures pass { IsPassAt job.now.cell.now (typed_program job.now.program.now) job.now.limits pass.old.shares pass.new }
    ensures turn { Offers pass.old pass.new entry result }
{
    job.gate.at(number, Moment::Publishing);
    match job.cell.publish(rt, pass, base, entry, kept) {
        Ok(_) => {
            job.gate.at(number, Moment::Published);
            Turn::Again(None)
        }
        Err(refused) => after_refusal(job.gate, number, refused),
    }
}

/// Makes what is kept behind the entry, and publishes both.
pub(crate) fn offer<G: Gate + Sync, R: Wait>(
    rt: &R,
    alloc: Global,
    job: &Job<'_, G>,
    number: u32,
    pass: &mut Pass<Certified>,
    snapshot: &Snapshot,
    entry: Entry<Certified>,
) -> Result<Turn, AllocError>
    requires job { IsJob (typed_program job.now.program.now) job.now.icfg.now job.now.limits job.now.cell.now }
    requires pass { IsPassAt job.now.cell.now (typed_program job.now.program.now) job.now.limits pass.old.shares pass.old }
    requires seen { IsAsSeen pass.old snapshot.now.version (arc_value snapshot.now.kept) }
    requires kept { Accepts (arc_value snapshot.now.kept) entry.word }
    requires own { IsOwn (typed_program job.now.program.now) entry }
    ensures pass { IsPassAt job.now.cell.now (typed_program job.now.program.now) job.now.limits pass.old.shares pass.new }
    ensures turn { IfOk result (Offers pass.old pass.new entry) }
{
    let Ok(kept) = kept_behind(alloc, &snapshot.kept, &entry) else {
        drop(entry);
        return Err(AllocError);
    };
    job.gate.at(number, Moment::Built);
    Ok(publish(rt, job, number, pass, snapshot.version, entry, kept))
}
