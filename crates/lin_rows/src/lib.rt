//! Rows over whole numbers, `a.x <= b` and `a.x = b`: made from terms, tightened, negated, added up, and tried at a point.
//! All numbers of a row fit, and each call says exactly when a number would not. A system has rows, and groups of
//! systems of which one member holds.
#![tactic(auto)]

mod make;
mod merging;
mod negating;
mod numbers;
mod points;
mod sums;
mod systems;
mod tightening;
mod types;

ghost use Rattle.std.specs.Prelude.{ℕ, ℤ, List};
ghost use Rattle.std.specs.List.{AllByRecursion};
ghost use Rattle.lin_rows.specs.Rows.{LinearRow, Holds};
ghost use Rattle.lin_rows.specs.Combinations.{Contradicts};

pub use make::{row, system};
pub use negating::negate;
pub use numbers::plus_times;
pub use points::{all_hold, holds, sum_at};
pub use sums::add_scaled;
pub use systems::{System, copied_rows};
pub use tightening::{is_tight, tighten};
pub use types::{Col, Past, Row, RowFault, RowKind};

/// Rows with a contradicting combination hold together at no whole point (Farkas, 1902).
pub fn contradiction_is_sound()
    ensures { (rows : List LinearRow) (parts : List (ℕ × ℤ)) (point : ℕ → ℤ) →
        Contradicts rows parts → AllByRecursion (Holds point) rows → ⊥ }
{}
