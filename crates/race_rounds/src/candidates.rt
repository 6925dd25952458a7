//! Numbers to try where the products of a word leave open whether a run fails.

use lin_rows::Row;
use std::alloc::{AllocError, Global};

/// So many are tried at most.
const MOST_CANDIDATES: usize = 24;

/// Numbers that are tried for every word.
const SMALL_NUMBERS: [i128; 6] = [1, -1, 2, -2, 0, 3];

/// Adds a number that is none of them yet, where there is room.
fn add(candidates: &mut Vec<i128>, number: i128) -> Result<(), AllocError> {
    if !candidates.contains(&number) && candidates.len() < MOST_CANDIDATES {
        candidates.push(number)?;
    }
    Ok(())
}

/// Adds a bound, what is opposite to it, and the numbers beside it.
fn add_bound(candidates: &mut Vec<i128>, bound: i128) -> Result<(), AllocError> {
    for number in [
        Some(bound),
        bound.checked_neg(),
        bound.checked_add(1),
        bound.checked_sub(1),
    ] {
        if let Some(number) = number {
            add(candidates, number)?;
        }
    }
    Ok(())
}

/// Small numbers, and those near the bounds of rows, the last rows first: these are nearest to the assertion.
pub(crate) fn candidates(alloc: Global, rows: &[Row]) -> Result<Vec<i128>, AllocError> {
    let mut candidates = Vec::new(alloc);
    for number in SMALL_NUMBERS {
        add(&mut candidates, number)?;
    }
    for row in rows.iter().rev() {
        add_bound(&mut candidates, row.bound())?;
    }
    Ok(candidates)
}
