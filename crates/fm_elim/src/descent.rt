//! The way down: columns are eliminated from the last to the first.

ghost use Rattle.std.specs.Prelude.{◌≡◌, ◌≤◌, ◌<◌, ◌-◌, ℕ, pos, [], ◌++◌, map, replicate, IfOk};
ghost use Rattle.std.specs.List.{AllByRecursion};
ghost use Rattle.std.specs.Result.{MatchResult};
ghost use Rattle.fm_elim.specs.Answers.{PastOnly, aside_of};
ghost use Rattle.fm_elim.specs.Ties.Climb.{IsBottom, bottom_of};
ghost use Rattle.fm_elim.specs.Columns.{bounded};
ghost use Rattle.fm_elim.specs.Derivations.{at};
ghost use Rattle.fm_elim.specs.Elimination.{SolveFits};

use crate::columns::step;
use crate::rows::{first_false, refuting};
use crate::types::{Aside, Derived, ElimFault};
use std::alloc::{AllocError, Global};

/// Where the way down ends.
#[derive(Drop)]
pub struct Bottom {
    /// What each column left, from the last column on.
    pub asides: Vec<Aside>,
    /// The multipliers of a false row, if there is one.
    pub refuted: Option<Vec<(u32, i128)>>,
}

/// One more than the greatest column that stands in a row, 0 where none does; no more than the columns that are left.
fn columns_used(rows: &[Derived], left: u32) -> u32
    ensures bound { result ≤ left }
    ensures free { (k : ℕ) → result ≤ k → k < left → AllByRecursion (λ r. at k r ≡ pos 0) rows.now }
{
    let mut used = 0;
    for row in rows {
        if let Some(last) = row.row().terms().last() {
            if last.0 >= left {
                return left;
            }
            used = used.max(last.0 + 1);
        }
    }
    used
}

/// Sets aside the columns from `used` on that are left. They stand in no row, so nothing bounds them.
fn set_free(alloc: Global, asides: &mut Vec<Aside>, left: u32, used: u32) -> Result<(), AllocError>
    requires { used ≤ left }
    ensures { IfOk result (λ _. map aside_of asides.new.items ≡ map aside_of asides.old.items ++ replicate (left - used) (bounded [] [])) }
{
    for _ in used..left {
        asides.push(Aside::Bounded(Vec::new(alloc), Vec::new(alloc)))?;
    }
    Ok(())
}

/// Eliminates the columns below the number given, from the last one on, until a row is false or no column is left.
pub fn go_down(alloc: Global, columns: u32, rows: Vec<Derived>) -> Result<Bottom, ElimFault>
    ensures { MatchResult result
        (λ b. IsBottom columns rows.items (map aside_of b.asides.items) (bottom_of b.refuted))
        (λ e. PastOnly e (SolveFits columns rows.items)) }
{
    let mut rows = rows;
    let mut asides = Vec::new(alloc);
    let mut left = columns;
    'columns: loop {
        if let Some(row) = first_false(&rows) {
            let parts = refuting(alloc, row)?;
            return Ok(Bottom {
                asides,
                refuted: Some(parts),
            });
        }
        let used = columns_used(&rows, left);
        set_free(alloc, &mut asides, left, used)?;
        left = used;
        if left == 0 {
            return Ok(Bottom {
                asides,
                refuted: None,
            });
        }
        left -= 1;
        let next = step(alloc, left, rows)?;
        rows = next.rows;
        asides.push(next.aside)?;
    }
}
