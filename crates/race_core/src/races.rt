ghost use Rattle.std.specs.Prelude.{◌≡◌, ◌+◌, ◌<◌, ◌≤◌, [], ◌∷◌, ◌++◌, None, length, vec_capacity, option_copied};
ghost use Rattle.std.specs.Arc.{arc_value};

use crate::ends::End;
use crate::events::{Entry, Event, FinishRefused, Outcome, Refused, Why};
use crate::evidence::Evidence;
use nwa_base::Nwa;
use std::marker::Model;
use std::sync::Arc;

/// The state of a race. Its history is legal, and what it keeps is exactly the program's words that no automaton of the history
/// accepts. The history has room for as many entries as the limit says, so no event takes memory.
#[derive(Drop)]
pub struct Shared<E: Evidence> {
    program: Arc<Nwa>,
    limit: u64,
    history: Vec<Entry<E>>,
    kept: Arc<Nwa>,
    end: Option<End>,
}

impl<E: Evidence> Model for Shared<E> {
    ghost use Rattle.std.specs.Prelude.{◌≤◌, vec_capacity};
    ghost use Rattle.std.specs.Arc.{arc_value};
    ghost use Rattle.race_core.specs.Races.{Race, RaceIsSound};

    ghost Value = { Race E };

    ghost view = { λ s. record { program = arc_value s.program; limit = s.limit; history = s.history.items; kept = arc_value s.kept; end = s.end } };

    ghost invariant = { λ s. RaceIsSound E.automaton E.feasible (record { program = arc_value s.program; limit = s.limit; history = s.history.items; kept = arc_value s.kept; end = s.end }) × (s.limit ≤ vec_capacity s.history) };
}

impl<E: Evidence> Shared<E> {
    ghost use Rattle.race_core.specs.Histories.{Keeps, IsNext, IsFair, IsLegal};
    ghost use Rattle.race_core.specs.Steps.{publish_refusal, finish_refusal, published, finished, publish_outcome, finish_outcome, after, outcome, IsFairEvent};

    /// The state before the first event.
    pub(crate) fn new(program: Arc<Nwa>, limit: u64, history: Vec<Entry<E>>, kept: Arc<Nwa>) -> Self
        requires empty { history.items ≡ [] }
        requires room { limit ≤ vec_capacity history }
        requires kept { arc_value kept ≡ arc_value program }
        ensures { result ≡ record { program = arc_value program; limit = limit; history = []; kept = arc_value program; end = None } }
    {
        Shared {
            program,
            limit,
            history,
            kept,
            end: None,
        }
    }

    /// Takes one event, or refuses it: a publication first as `Ended`, then as `Full`, then as `Stale`, an end first as
    /// `Ended`, then as `Stale`. What is refused is handed back. This takes no memory.
    #[tactic(auto, using(crate::proofs::Interleaved::program_stays, crate::proofs::Interleaved::limit_stays))]
    pub fn apply(&mut self, event: Event<E>) -> Outcome<E>
        requires { IsFairEvent E.automaton self.old event }
        ensures state { self.new ≡ after self.old event }
        ensures same { (self.new.program ≡ self.old.program) × (self.new.limit ≡ self.old.limit) }
        ensures answer { result ≡ outcome self.old event }
    {
        match event {
            Event::Read { .. } => Outcome::Seen {
                version: self.version(),
            },
            Event::Publish {
                base,
                entry,
                kept,
                ..
            } => self.publish(base, entry, kept),
            Event::Finish { base, end, .. } => self.finish(base, end),
        }
    }

    /// How many entries the history has.
    pub fn version(&self) -> u64
        ensures { result ≡ length self.now.history }
    {
        self.history.len() as u64
    }

    /// The automaton of the words that are left.
    pub fn kept(&self) -> &Arc<Nwa>
        ensures value { arc_value result.now ≡ self.now.kept }
        ensures keeps { Keeps E.automaton self.now.program self.now.history self.now.kept }
    {
        &self.kept
    }

    /// The entries, in the order in which they were published.
    pub fn history(&self) -> &[Entry<E>]
        ensures value { result.now ≡ self.now.history }
        ensures legal { IsLegal E.automaton E.feasible self.now.program self.now.history }
    {
        self.history.as_slice()
    }

    /// The end, where one is set.
    pub fn end(&self) -> Option<&End>
        ensures { option_copied result ≡ self.now.end }
    {
        self.end.as_ref()
    }

    /// How many entries there is still room for.
    pub fn sized(&self) -> u64
        ensures { result + length self.now.history ≡ self.now.limit }
    {
        self.limit - self.version()
    }

    fn publish(&mut self, base: u64, entry: Entry<E>, kept: Arc<Nwa>) -> Outcome<E>
        requires { base ≤ length self.old.history → IsFair E.automaton self.old.program self.old.history base entry (arc_value kept) }
        ensures state { self.new ≡ published (publish_refusal self.old.end (length self.old.history) self.old.limit base) self.old entry (arc_value kept) }
        ensures answer { result ≡ publish_outcome (publish_refusal self.old.end (length self.old.history) self.old.limit base) (length self.old.history) (λ why. record { why = why; entry = entry; kept = kept }) }
    {
        match self.publish_refusal(base) {
            Some(why) => Outcome::NotPublished(Refused { why, entry, kept }),
            None => {
                self.add(entry, kept);
                Outcome::Published {
                    version: self.version(),
                }
            }
        }
    }

    fn finish(&mut self, base: u64, end: End) -> Outcome<E>
        ensures state { self.new ≡ finished (finish_refusal self.old.end (length self.old.history) base) self.old end }
        ensures answer { result ≡ finish_outcome (finish_refusal self.old.end (length self.old.history) base) end }
    {
        match self.finish_refusal(base) {
            Some(why) => Outcome::NotFinished(FinishRefused { why, end }),
            None => {
                self.end = Some(end);
                Outcome::Finished
            }
        }
    }

    fn publish_refusal(&self, base: u64) -> Option<Why>
        ensures value { result ≡ publish_refusal self.now.end (length self.now.history) self.now.limit base }
        ensures room { length self.now.history ≤ self.now.limit }
    {
        if self.end.is_none() && self.limit <= self.version() {
            return Some(Why::Full { limit: self.limit });
        }
        self.finish_refusal(base)
    }

    fn finish_refusal(&self, base: u64) -> Option<Why>
        ensures { result ≡ finish_refusal self.now.end (length self.now.history) base }
    {
        if let Some(end) = &self.end {
            return Some(Why::Ended(end.kind()));
        }
        let version = self.version();
        if base == version {
            None
        } else {
            Some(Why::Stale { version })
        }
    }

    /// Adds the entry and sets what is kept.
    fn add(&mut self, entry: Entry<E>, kept: Arc<Nwa>)
        requires room { length self.old.history < self.old.limit }
        requires next { IsNext E.automaton self.old.program self.old.history entry }
        requires keeps { Keeps E.automaton self.old.program (self.old.history ++ entry ∷ []) (arc_value kept) }
        ensures { self.new ≡ record self.old { history = self.old.history ++ entry ∷ []; kept = arc_value kept } }
    {
        // The evidence tells that its words are infeasible, which the history keeps of each entry.
        entry.evidence.nwa();
        self.kept = kept;
        self.history.push_reserved(entry);
    }
}
