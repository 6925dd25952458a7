use crate::board::Place;
use race_core::Evidence;
use std::marker::Model;

/// What a worker knows of a cell. It has no bytes, and only contracts read it. A pass that is dropped keeps its shares.
#[derive(Drop)]
pub struct Pass<E: Evidence> {
    pub(crate) seat: Place<E>,
}

impl<E: Evidence> Model for Pass<E> {
    ghost use Rattle.std.specs.Prelude.{◌≤◌};
    ghost use Rattle.version_cell.specs.Ties.Plays.{IsIdle};
    ghost use Rattle.version_cell.specs.Passes.{Known, known, IsTable, IsValid};

    ghost Value = { Known E };

    ghost view = { λ p. known p.seat.table_id p.seat.me.0 };

    ghost invariant = { λ p. IsTable p.seat.table_id × IsIdle p.seat.me × (p.seat.me.0.limit ≤ 100000) × IsValid E.automaton E.feasible (known p.seat.table_id p.seat.me.0) };
}
