//! The table that the passes of a cell share. Word 0 is the turn, 0 where it is free and 1 where it is held, word 1 is the
//! version, and the one slot has the state.

use atomic_table::{Join, Play, Seat, Shared as Steps, Split, Table, TableRule};
use nwa_base::Nwa;
use race_core::{End, EndKind, Entry, Evidence, Shared};
use std::alloc::Global;
use std::collections::LinkedList;
use std::marker::PhantomData;
use std::snapshot::Snapshot;

/// The history and the end that a holder of the turn names. No value of it is made.
pub struct Held<E> {
    /// The history.
    pub history: LinkedList<Entry<E>>,
    /// The end.
    pub end: Option<End>,
}

/// What a seat knows. No value of it is made.
pub struct Sight<E> {
    /// The program of the cell.
    pub program: Nwa,
    /// The limit of the cell.
    pub limit: u64,
    /// The number of shares of the cell.
    pub total: u64,
    /// The seat's own shares, 0 where it is spent.
    pub shares: u64,
    /// The history that it has seen.
    pub seen: LinkedList<Entry<E>>,
    /// The kind of the end that it has seen.
    pub ended: Option<EndKind>,
    /// The places of its own entries.
    pub own: LinkedList<u64>,
    /// Its own end.
    pub finish: Option<End>,
    /// The shorter of two histories that a join made one.
    pub told: LinkedList<Entry<E>>,
    /// The kind of end that was seen with it.
    pub told_ended: Option<EndKind>,
    /// What it names, where it holds the turn.
    pub held: Option<Held<E>>,
}

/// What a cell is made for.
#[derive(Drop)]
pub struct Terms {
    /// The program.
    pub program: Snapshot<Nwa>,
    /// The limit.
    pub limit: u64,
    /// The number of shares.
    pub total: u64,
}

/// The rule of the table.
pub struct Turns<E> {
    evidence: PhantomData<E>,
}

impl<E: Evidence> TableRule<Option<Shared<E>>, Sight<E>, Terms> for Turns<E> {
    ghost use Rattle.version_cell.specs.Ties.Rule.{RuleIsKept};
    ghost use Rattle.version_cell.specs.Views.{first_sight};

    ghost holds = { λ key. RuleIsKept key.program.value key.limit key.total };

    ghost first = { λ key. first_sight key.program.value key.limit key.total };
}

pub(crate) type Home<E> = Table<Option<Shared<E>>, Sight<E>, Terms, Turns<E>, Global>;

pub(crate) type Board<E> = Steps<Option<Shared<E>>, Sight<E>, Terms, Turns<E>>;

pub(crate) type Place<E> = Seat<Option<Shared<E>>, Sight<E>>;

/// Wins the turn and takes the slot, or loses.
pub(crate) struct Win;

impl<E: Evidence> Play<Option<Shared<E>>, Sight<E>> for Win {
    ghost use Rattle.version_cell.specs.Ties.Plays.{won};

    ghost then = { won };
}

/// Raises the version.
pub(crate) struct Bump;

impl<E: Evidence> Play<Option<Shared<E>>, Sight<E>> for Bump {
    ghost use Rattle.version_cell.specs.Ties.Plays.{bumped};

    ghost then = { bumped };
}

/// Puts the slot back and frees the turn.
pub(crate) struct Release;

impl<E: Evidence> Play<Option<Shared<E>>, Sight<E>> for Release {
    ghost use Rattle.version_cell.specs.Ties.Plays.{released};

    ghost then = { released };
}

/// The same after the end was set.
pub(crate) struct Finish;

impl<E: Evidence> Play<Option<Shared<E>>, Sight<E>> for Finish {
    ghost use Rattle.version_cell.specs.Ties.Plays.{finished};

    ghost then = { finished };
}

/// Tells what a join knew.
pub(crate) struct Look;

impl<E: Evidence> Play<Option<Shared<E>>, Sight<E>> for Look {
    ghost use Rattle.version_cell.specs.Ties.Plays.{looked};

    ghost then = { looked };
}

/// Gives one share away.
pub(crate) struct Cut;

impl<E: Evidence> Split<Sight<E>> for Cut {
    ghost use Rattle.version_cell.specs.Views.{lessened, part_of};

    ghost left = { lessened };

    ghost right = { part_of };
}

/// Makes two views one.
pub(crate) struct Glue;

impl<E: Evidence> Join<Sight<E>> for Glue {
    ghost use Rattle.version_cell.specs.Views.{both_of, nobody};

    ghost both = { both_of };

    ghost spent = { nobody };
}
