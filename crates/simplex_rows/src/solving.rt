//! The search for a point, or for multipliers that refute.

use crate::tableau::Tableau;
use crate::types::{Found, Stop};
use lin_rows::Row;
use std::alloc::{AllocError, Global};

/// A proposal for rows over the columns below `columns`, from a simplex that takes the first violated row first, and for it the
/// last column or first row that may be moved (Bland, 1977; Dutertre and de Moura, 2006): multipliers that are to refute the rows as
/// they are given, or a rational point that is to meet them. `None` where it does not come to an end with that many pivots, or
/// where a number does not fit. Nothing is promised of a proposal: check it.
pub fn try_solve(
    alloc: Global,
    rows: &[Row],
    columns: u32,
    pivots: u32,
) -> Result<Option<Found>, AllocError> {
    match solved(alloc, rows, columns, pivots) {
        Ok(found) => Ok(Some(found)),
        Err(Stop::Past) => Ok(None),
        Err(Stop::Memory(e)) => Err(e),
    }
}

/// The proposal.
fn solved(alloc: Global, rows: &[Row], columns: u32, pivots: u32) -> Result<Found, Stop> {
    let mut tableau = Tableau::new(alloc, rows)?;
    let found = found_by(&mut tableau, columns, pivots);
    drop(tableau);
    found
}

/// The proposal of a tableau.
fn found_by(tableau: &mut Tableau, columns: u32, pivots: u32) -> Result<Found, Stop> {
    match tableau.solve(pivots)? {
        Some(parts) => Ok(Found::Refuted(parts)),
        None => Ok(Found::Point(tableau.point(columns)?)),
    }
}
