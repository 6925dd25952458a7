//! Rounds of one worker.

ghost use Rattle.std.specs.Prelude.{IfOk, IfSome};
ghost use Rattle.std.specs.Arc.{arc_value};
ghost use Rattle.typed_tree.specs.TypingRules.TypedParts.{typed_program};
ghost use Rattle.race_rounds.specs.Rounds.{IsOwn};
ghost use Rattle.version_cell.specs.Counts.{Begins};
ghost use Rattle.race_workers.specs.Ties.Parts.{IsJob, IsPassAt, IsAsSeen, IsStillKept, Seeks, Pursues};

use crate::finishing::finish;
use crate::gates::{Gate, Moment};
use crate::jobs::Job;
use crate::offering::offer;
use itp_automaton::Certified;
use nwa_base::{Nwa, accepts};
use nwa_emptiness::Found;
use race_core::{End, Entry};
use race_rounds::{Round, Seeker, Settled, kept_word, settle_kept};
use std::alloc::{AllocError, Global};
use std::sync::Wait;
use std::thread::Threads;
use version_cell::{Pass, Snapshot};

/// What a worker does after a round.
#[derive(Drop)]
pub enum Turn {
    /// It takes another round, with an entry that is to be offered.
    Again(Option<Entry<Certified>>),
    /// It stops, since the race has ended.
    Over,
}

/// The entry, where its word is still kept.
fn still_kept(
    alloc: Global,
    kept: &Nwa,
    carried: Option<Entry<Certified>>,
) -> Result<Option<Entry<Certified>>, AllocError>
    ensures { IfOk result (IsStillKept kept.now carried) }
{
    let Some(entry) = carried else {
        return Ok(None);
    };
    let Ok(is_kept) = accepts(alloc, kept, &entry.word) else {
        drop(entry);
        return Err(AllocError);
    };
    if is_kept {
        Ok(Some(entry))
    } else {
        drop(entry);
        Ok(None)
    }
}

/// Takes a kept word, and makes an entry that removes it or another one, to be offered after another read, since others may have published by then, or
/// ends the race.
fn seek<G: Gate + Sync, R: Threads + Wait + Sync>(
    rt: &R,
    alloc: Global,
    job: &Job<'_, G>,
    number: u32,
    pass: &mut Pass<Certified>,
    seeker: &mut Seeker,
    snapshot: &Snapshot,
) -> Result<Turn, AllocError>
    requires job { IsJob (typed_program job.now.program.now) job.now.icfg.now job.now.limits job.now.cell.now }
    requires pass { IsPassAt job.now.cell.now (typed_program job.now.program.now) job.now.limits pass.old.shares pass.old }
    requires seen { IsAsSeen pass.old snapshot.now.version (arc_value snapshot.now.kept) }
    ensures pass { IsPassAt job.now.cell.now (typed_program job.now.program.now) job.now.limits pass.old.shares pass.new }
    ensures grows { IfOk result (λ turn. Begins pass.old.seen pass.new.seen) }
    ensures turn { IfOk result (Seeks (typed_program job.now.program.now) pass.old pass.new) }
{
    let version = snapshot.version;
    let kept: &Nwa = &snapshot.kept;
    let this_round = Round {
        version,
        worker: number,
    };
    let word = match kept_word(alloc, job.icfg, kept, this_round, seeker)? {
        Found::Word(word) => word,
        Found::Empty => return Ok(finish(rt, job, number, pass, version, End::Safe)),
    };
    match settle_kept(
        rt,
        alloc,
        job.program,
        job.icfg,
        job.limits,
        this_round,
        kept,
        word,
        seeker.numbers(),
    )? {
        Settled::Ended(end) => Ok(finish(rt, job, number, pass, version, end)),
        Settled::Removed(entry) => Ok(Turn::Again(Some(entry))),
    }
}

/// Offers what is carried, where the word of that is still kept, or takes a kept word.
fn pursue<G: Gate + Sync, R: Threads + Wait + Sync>(
    rt: &R,
    alloc: Global,
    job: &Job<'_, G>,
    number: u32,
    pass: &mut Pass<Certified>,
    seeker: &mut Seeker,
    snapshot: &Snapshot,
    carried: Option<Entry<Certified>>,
) -> Result<Turn, AllocError>
    requires job { IsJob (typed_program job.now.program.now) job.now.icfg.now job.now.limits job.now.cell.now }
    requires pass { IsPassAt job.now.cell.now (typed_program job.now.program.now) job.now.limits pass.old.shares pass.old }
    requires seen { IsAsSeen pass.old snapshot.now.version (arc_value snapshot.now.kept) }
    requires carried { IfSome carried (IsOwn (typed_program job.now.program.now)) }
    ensures pass { IsPassAt job.now.cell.now (typed_program job.now.program.now) job.now.limits pass.old.shares pass.new }
    ensures turn { IfOk result (Pursues (typed_program job.now.program.now) pass.old pass.new carried) }
{
    match still_kept(alloc, &snapshot.kept, carried)? {
        Some(entry) => offer(rt, alloc, job, number, pass, snapshot, entry),
        None => seek(rt, alloc, job, number, pass, seeker, snapshot),
    }
}

/// One round: the worker reads, and where the race has not ended it offers what it carries, where the word of that is still kept,
/// or takes a kept word.
pub(crate) fn round<G: Gate + Sync, R: Threads + Wait + Sync>(
    rt: &R,
    alloc: Global,
    job: &Job<'_, G>,
    number: u32,
    pass: &mut Pass<Certified>,
    seeker: &mut Seeker,
    carried: Option<Entry<Certified>>,
) -> Result<Turn, AllocError>
    requires job { IsJob (typed_program job.now.program.now) job.now.icfg.now job.now.limits job.now.cell.now }
    requires pass { IsPassAt job.now.cell.now (typed_program job.now.program.now) job.now.limits pass.old.shares pass.old }
    requires carried { IfSome carried (IsOwn (typed_program job.now.program.now)) }
    ensures pass { IsPassAt job.now.cell.now (typed_program job.now.program.now) job.now.limits pass.old.shares pass.new }
    ensures turn { IfOk result (Pursues (typed_program job.now.program.now) pass.old pass.new carried) }
{
    job.gate.at(number, Moment::Reading);
    let Ok(snapshot) = job.cell.read(rt, pass) else {
        drop(carried);
        return Err(AllocError);
    };
    if snapshot.ended.is_some() {
        drop(carried);
        return Ok(Turn::Over);
    }
    pursue(rt, alloc, job, number, pass, seeker, &snapshot, carried)
}
