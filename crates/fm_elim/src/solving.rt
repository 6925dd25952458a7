//! The elimination of all columns.

ghost use Rattle.std.specs.Prelude.{◌≡◌, ◌<◌, ◌^◌, Err, IfOk, OnOk, length, map};
ghost use Rattle.lin_rows.specs.Rows.{RowsBelow};
ghost use Rattle.lin_rows.specs.Tightening.{tightened};
ghost use Rattle.fm_elim.specs.Answers.{Exactly, outcome_of};
ghost use Rattle.fm_elim.specs.Elimination.{elimination, EliminationFits, solve, SolveFits};
ghost use Rattle.fm_elim.specs.Worth.{IsWorth};

use crate::ascent::go_up;
use crate::derivations::inputs;
use crate::descent::{Bottom, go_down};
use crate::types::{Derived, Elim, ElimFault};
use lin_rows::Row;
use std::alloc::Global;

/// The elimination of the columns of the rows, which it tightens, from the last column to the first: multipliers that
/// refute the tightened rows, or a point that meets them. The rows are numbered from 0, in the order given.
///
/// # Errors
///
/// `Past` comes exactly where a number that it forms does not fit: a coefficient, a bound, a multiplier, a value, or a
/// product or sum on the way. `Memory` comes where memory ran out.
pub fn eliminate(alloc: Global, rows: &[Row], columns: u32) -> Result<Elim, ElimFault>
    requires below { RowsBelow columns rows.now }
    requires numbered { length rows.now < 2 ^ 32 }
    ensures value { IfOk result (λ e. outcome_of e ≡ elimination columns rows.now) }
    ensures worth { IfOk result (λ e. IsWorth columns (map tightened rows.now) (outcome_of e)) }
    ensures fits { OnOk result (EliminationFits columns rows.now) }
    ensures past { result ≡ Err ElimFault.Past → EliminationFits columns rows.now → ⊥ }
{
    let derived = inputs(alloc, rows)?;
    solve(alloc, columns, derived)
}

/// The elimination of the columns of derived rows.
fn solve(alloc: Global, columns: u32, rows: Vec<Derived>) -> Result<Elim, ElimFault>
    ensures { Exactly result (λ e. outcome_of e ≡ solve columns rows.items) (SolveFits columns rows.items) }
{
    let Bottom { asides, refuted } = go_down(alloc, columns, rows)?;
    match refuted {
        Some(parts) => Ok(Elim::Refuted(parts)),
        None => Ok(Elim::Point(go_up(alloc, columns, asides)?)),
    }
}
