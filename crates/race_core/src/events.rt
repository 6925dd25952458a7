//! What workers ask of the state, and what they are answered.

use crate::ends::{End, EndKind};
use nwa_base::{Nwa, Word};
use std::sync::Arc;

/// A word of the program, and evidence that neither it nor any other word of the evidence's automaton is feasible.
#[derive(Drop)]
pub struct Entry<E> {
    /// The word for which the evidence was made.
    pub word: Word,
    /// The evidence.
    pub evidence: E,
}

/// Why an event was not taken.
#[derive(Clone, Copy, Debug, PartialEq, Eq)]
pub enum Why {
    /// An end of this kind is set.
    Ended(EndKind),
    /// The history is at its limit.
    Full {
        /// The limit.
        limit: u64,
    },
    /// The state has another version than the event was made for.
    Stale {
        /// The version of the state.
        version: u64,
    },
}

/// A publication that was not taken, handed back.
#[derive(Drop)]
pub struct Refused<E> {
    /// Why.
    pub why: Why,
    /// The entry.
    pub entry: Entry<E>,
    /// The automaton that was to be kept.
    pub kept: Arc<Nwa>,
}

/// An end that was not taken, handed back.
#[derive(Drop)]
pub struct FinishRefused {
    /// Why.
    pub why: Why,
    /// The end.
    pub end: End,
}

/// What a worker asks.
#[derive(Drop)]
pub enum Event<E> {
    /// To see the version.
    Read {
        /// The worker.
        worker: u32,
    },
    /// To add an entry, where the version is still `base`.
    Publish {
        /// The worker.
        worker: u32,
        /// The version for which the entry was made.
        base: u64,
        /// The entry.
        entry: Entry<E>,
        /// The automaton that is kept then.
        kept: Arc<Nwa>,
    },
    /// To end the race, where the version is still `base`.
    Finish {
        /// The worker.
        worker: u32,
        /// The version for which the end was found.
        base: u64,
        /// The end.
        end: End,
    },
}

/// What a worker is answered.
#[derive(Drop)]
pub enum Outcome<E> {
    /// The version.
    Seen {
        /// The version.
        version: u64,
    },
    /// The entry was added.
    Published {
        /// The new version.
        version: u64,
    },
    /// The race has ended so.
    Finished,
    /// The publication was not taken.
    NotPublished(Refused<E>),
    /// The end was not taken.
    NotFinished(FinishRefused),
}
