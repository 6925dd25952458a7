//! Elimination of the columns of rows over whole numbers, with exact rational values (Fourier, 1826; Motzkin, 1936): rows
//! that no rational point meets are refuted by multipliers, and for others a point is found.
#![tactic(auto)]

mod ascent;
mod columns;
mod derivations;
mod descent;
mod fractions;
mod numbers;
mod rows;
mod solving;
mod types;
mod values;

ghost use Rattle.std.specs.Prelude.{◌≡◌, ℕ, List, map};
ghost use Rattle.std.specs.List.{AllByRecursion};
ghost use Rattle.lin_rows.specs.Rows.{LinearRow, IsRow, RowsBelow};
ghost use Rattle.lin_rows.specs.Tightening.{tightened};
ghost use Rattle.fm_elim.specs.Elimination.{elimination};
ghost use Rattle.fm_elim.specs.Slices.{IsPicked, IsPoint, IsPickedOutcome};
ghost use Rattle.frac.specs.Fractions.{Fraction};

pub use solving::eliminate;
pub use types::{Elim, ElimFault};

/// The elimination refutes exactly where the tightened rows have no rational point, and else its point is the picked one:
/// column by column, of the values with which a point of the rows begins, after the values before it, the whole number nearest
/// 0, or the least where none is whole.
pub fn the_point_is_picked()
    ensures { (columns : ℕ) (rows : List LinearRow) → AllByRecursion IsRow rows → RowsBelow columns rows →
        IsPickedOutcome columns (map tightened rows) (elimination columns rows) }
{}

/// Rows have one picked point at most, so a point that is picked is that of the elimination.
pub fn picked_points_are_one()
    ensures { (columns : ℕ) (rows : List LinearRow) (x y : List Fraction) →
        IsPicked (IsPoint columns rows) x → IsPicked (IsPoint columns rows) y → x ≡ y }
{}
