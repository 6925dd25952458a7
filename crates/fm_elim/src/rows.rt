//! What kind of bound a derived row is, and which rows refute.

ghost use Rattle.std.specs.Prelude.{◌≡◌, ◌<◌, None, Some, IfOk, length, MatchOption};
ghost use Rattle.std.specs.List.{AllByRecursion, HoldsAt, remove};
ghost use Rattle.math_facts.specs.Terms.{opposite};
ghost use Rattle.lin_rows.specs.Rows.{IsCoefficient};
ghost use Rattle.fm_elim.specs.Folds.{first, others};
ghost use Rattle.fm_elim.specs.Derivations.{has, is_upper, is_lower, is_false, refuting};
ghost use Rattle.fm_elim.specs.Columns.{is_pivot};

use crate::numbers::coefficient;
use crate::types::Derived;
use lin_rows::RowKind;
use std::alloc::{AllocError, Global};

/// Whether the column stands in the row.
pub fn has(row: &Derived, column: u32) -> bool
    ensures { result ≡ has column row.now }
{
    coefficient(row.row(), column) != 0
}

/// Whether the row is an upper bound of the column.
pub fn is_upper(row: &Derived, column: u32) -> bool
    ensures { result ≡ is_upper column row.now }
{
    coefficient(row.row(), column) > 0
}

/// Whether the row is a lower bound of the column.
pub fn is_lower(row: &Derived, column: u32) -> bool
    ensures { result ≡ is_lower column row.now }
{
    coefficient(row.row(), column) < 0
}

/// Whether the row is an equality in which the column has the coefficient 1 or -1.
pub fn is_pivot(row: &Derived, column: u32) -> bool
    ensures { result ≡ is_pivot column row.now }
{
    row.row().kind() == RowKind::Eq && coefficient(row.row(), column).unsigned_abs() == 1
}

/// Whether the row has no terms and does not hold.
fn is_false(row: &Derived) -> bool
    ensures { result ≡ is_false row.now }
{
    if !row.row().terms().is_empty() {
        return false;
    }
    match row.row().kind() {
        RowKind::Le => row.row().bound() < 0,
        RowKind::Eq => row.row().bound() != 0,
    }
}

/// The first row that refutes.
pub fn first_false(rows: &[Derived]) -> Option<&Derived>
    ensures { MatchOption result (first is_false rows.now ≡ None) (λ r. first is_false rows.now ≡ Some r.now) }
{
    for row in rows {
        if is_false(row) {
            return Some(row);
        }
    }
    None
}

/// The place of the first equality in which the column has the coefficient 1 or -1.
pub fn first_pivot(rows: &[Derived], column: u32) -> Option<usize>
    ensures { MatchOption result (first (is_pivot column) rows.now ≡ None)
        (λ i. (i < length rows.now) × HoldsAt (λ r. first (is_pivot column) rows.now ≡ Some r) rows.now i × (others (is_pivot column) rows.now ≡ remove rows.now i)) }
{
    for (i, row) in rows.iter().enumerate() {
        if is_pivot(row, column) {
            return Some(i);
        }
    }
    None
}

/// The multipliers with which a false row refutes.
pub fn refuting(alloc: Global, row: &Derived) -> Result<Vec<(u32, i128)>, AllocError>
    ensures { IfOk result (λ parts. parts.items ≡ refuting row.now) }
{
    if row.row().kind() == RowKind::Eq && row.row().bound() > 0 {
        opposite(alloc, row.by().terms())
    } else {
        Vec::from_slice(alloc, row.by().terms())
    }
}

/// Each multiplier with the other sign.
fn opposite(alloc: Global, terms: &[(u32, i128)]) -> Result<Vec<(u32, i128)>, AllocError>
    requires { AllByRecursion IsCoefficient terms.now }
    ensures { IfOk result (λ parts. parts.items ≡ opposite terms.now) }
{
    let mut parts = Vec::with_capacity(alloc, terms.len())?;
    for (number, multiplier) in terms {
        parts.push((*number, -*multiplier))?;
    }
    Ok(parts)
}
