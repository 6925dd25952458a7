ghost use Rattle.std.specs.Prelude.{◌≡◌, ◌+◌, ◌<◌, ◌≤◌, ℕ, List, Option, None, Some, length, IfOk, IfErr, IsOk, MatchResult};
ghost use Rattle.std.specs.Arc.{arc_value};
ghost use Rattle.race_core.specs.declared.ends.End.{End};
ghost use Rattle.race_core.specs.declared.events.Entry.{Entry};
ghost use Rattle.race_core.specs.Histories.{Keeps, IsFair};
ghost use Rattle.race_core.specs.Steps.{publish_refusal, finish_refusal};
ghost use Rattle.version_cell.specs.Passes.{IsPassOf, IsValid, WasAt, shown, owning, ending, lessened_pass, part_of_pass, joined, Continues, Names, IsClosed};

use crate::board::{Cut, Glue, Home, Look};
use crate::passes::Pass;
use crate::turns::{announce, ended, finish, offer_end, offer_entry, release, win};
use nwa_base::Nwa;
use race_core::{End, EndKind, Entry, Evidence, FinishRefused, Refused, Shared};
use std::alloc::AllocError;
use std::marker::Model;
use std::sync::{Arc, Wait};

/// The state of a race that several threads share.
#[derive(Drop)]
pub struct VersionCell<E: Evidence> {
    pub(crate) table: Home<E>,
}

impl<E: Evidence> Model for VersionCell<E> {
    ghost use Rattle.version_cell.specs.Passes.{Cell, IsTable};

    ghost Value = { Cell };

    ghost view = { λ c. record { id = c.table.shared.table_id; program = c.table.shared.key.program.value; limit = c.table.shared.key.limit; shares = c.table.shared.key.total } };

    ghost invariant = { λ c. IsTable c.table.shared.table_id };
}

/// What a read finds.
#[derive(Drop)]
pub struct Snapshot {
    /// The version.
    pub version: u64,
    /// The automaton of the words that are left.
    pub kept: Arc<Nwa>,
    /// The kind of the end, where one is set.
    pub ended: Option<EndKind>,
}

impl<E: Evidence> VersionCell<E> {
    /// Gives one share away: a pass that has seen the same and owns nothing. This takes no memory.
    pub fn split(&self, pass: &mut Pass<E>) -> Pass<E>
        requires cell { IsPassOf self.now pass.old }
        requires shares { 2 ≤ pass.old.shares }
        ensures given { pass.new ≡ lessened_pass pass.old }
        ensures part { result ≡ part_of_pass pass.old }
        ensures of_cell { IsPassOf self.now pass.new × IsPassOf self.now result }
        ensures valid { IsValid E.automaton E.feasible result }
    {
        Pass {
            seat: self.table.shared.split_seat::<Cut>(&mut pass.seat),
        }
    }

    /// Makes two passes one, which has seen the longer history and has the entries, the end and the shares of both. Both
    /// histories that they have seen begin what it has seen. This takes no memory.
    pub fn join(&self, pass: &mut Pass<E>, other: Pass<E>)
        requires cell { IsPassOf self.now pass.old × IsPassOf self.now other }
        ensures both { pass.new ≡ joined pass.old other }
        ensures first { Continues pass.old pass.new }
        ensures second { Continues other pass.new }
        ensures of_cell { IsPassOf self.now pass.new }
        ensures valid { IsValid E.automaton E.feasible pass.new }
    {
        let Pass { seat } = other;
        self.table.shared.join_seat::<Glue>(&mut pass.seat, seat);
        self.table.shared.load::<Look>(&mut pass.seat, 0);
    }

    /// Looks at the state, which the pass has then seen, also where there is no memory for the answer.
    pub fn read<R: Wait>(&self, rt: &R, pass: &mut Pass<E>) -> Result<Snapshot, AllocError>
        requires cell { IsPassOf self.now pass.old }
        ensures moment { (h : List (Entry E)) × (e : Option End) × WasAt pass.old h e × (pass.new ≡ shown pass.old h e) }
        ensures snapshot { IfOk result (λ s. (s.version ≡ length pass.new.seen) × (s.ended ≡ pass.new.ended) × Keeps E.automaton pass.new.program pass.new.seen (arc_value s.kept)) }
        ensures of_cell { IsPassOf self.now pass.new }
        ensures valid { IsValid E.automaton E.feasible pass.new }
    {
        let top = &self.table.shared;
        let state = win(rt, top, &mut pass.seat);
        let version = state.version();
        let ended = ended(&state);
        let kept = Arc::try_clone(state.kept());
        release(top, &mut pass.seat, state);
        Ok(Snapshot {
            version,
            kept: kept?,
            ended,
        })
    }

    /// Adds the entry, where no end is set, the version is below the limit, and it is `base`. What is refused is handed back,
    /// first as `Ended`, then as `Full`, then as `Stale`, and the pass has then seen the history that refused it. A whole pass
    /// that set no end is not refused at what it has seen, below the limit. This takes no memory.
    pub fn publish<R: Wait>(
        &self,
        rt: &R,
        pass: &mut Pass<E>,
        base: u64,
        entry: Entry<E>,
        kept: Arc<Nwa>,
    ) -> Result<u64, Refused<E>>
        requires cell { IsPassOf self.now pass.old }
        requires base { base ≤ length pass.old.seen }
        requires fair { IsFair E.automaton pass.old.program pass.old.seen base entry (arc_value kept) }
        ensures moment { (h : List (Entry E)) × (e : Option End) × WasAt pass.old h e × MatchResult result
            (λ v. (publish_refusal e (length h) pass.old.limit base ≡ None) × (v ≡ base + 1) × (length h ≡ base) × (pass.new ≡ owning pass.old h entry base))
            (λ r. (publish_refusal e (length h) pass.old.limit base ≡ Some r.why) × (r.entry ≡ entry) × (r.kept ≡ kept) × (pass.new ≡ shown pass.old h e)) }
        ensures whole { pass.old.shares ≡ pass.old.total → pass.old.finish ≡ None → base ≡ length pass.old.seen → base < pass.old.limit → IsOk result }
        ensures names { IfErr result (λ r. Names pass.new r.why) }
        ensures of_cell { IsPassOf self.now pass.new }
        ensures valid { IsValid E.automaton E.feasible pass.new }
    {
        let top = &self.table.shared;
        let mut state = win(rt, top, &mut pass.seat);
        match offer_entry(&mut state, base, entry, kept) {
            Ok(version) => {
                announce(top, &mut pass.seat, state);
                Ok(version)
            }
            Err(refused) => {
                release(top, &mut pass.seat, state);
                Err(refused)
            }
        }
    }

    /// Sets the end, where none is set and the version is `base`. What is refused is handed back, first as `Ended`, then as
    /// `Stale`, and the pass has then seen the history that refused it. This takes no memory.
    pub fn finish<R: Wait>(
        &self,
        rt: &R,
        pass: &mut Pass<E>,
        base: u64,
        end: End,
    ) -> Result<(), FinishRefused>
        requires cell { IsPassOf self.now pass.old }
        ensures moment { (h : List (Entry E)) × (e : Option End) × WasAt pass.old h e × MatchResult result
            (λ _. (finish_refusal e (length h) base ≡ None) × (length h ≡ base) × (pass.new ≡ ending pass.old h end))
            (λ r. (finish_refusal e (length h) base ≡ Some r.why) × (r.end ≡ end) × (pass.new ≡ shown pass.old h e)) }
        ensures names { IfErr result (λ r. Names pass.new r.why) }
        ensures of_cell { IsPassOf self.now pass.new }
        ensures valid { IsValid E.automaton E.feasible pass.new }
    {
        let top = &self.table.shared;
        let mut state = win(rt, top, &mut pass.seat);
        match offer_end(&mut state, base, end) {
            Ok(()) => {
                finish(top, &mut pass.seat, state);
                Ok(())
            }
            Err(refused) => {
                release(top, &mut pass.seat, state);
                Err(refused)
            }
        }
    }

    /// The whole state, for the pass into which every other pass was joined. Its history begins with what the pass has seen,
    /// each entry is one of the pass's own, once, and its end is the pass's own. This takes no memory.
    pub fn close(self, pass: Pass<E>) -> Shared<E>
        requires cell { IsPassOf self pass }
        requires whole { pass.shares ≡ pass.total }
        ensures { IsClosed pass result }
    {
        let VersionCell { table } = self;
        let Pass { seat } = pass;
        let mut closed = table.close_with(seat);
        let state = closed.take(0);
        closed.free();
        state.unwrap()
    }
}
