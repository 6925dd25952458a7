//! Bounds of single columns that rows may imply.

use lin_rows::{Col, Row, RowFault, RowKind, row};
use std::alloc::{AllocError, Global};

/// How many bounds are tried at most.
const MOST: usize = 40;

/// `column <= k`, or `-column <= k` where it is turned.
#[derive(Clone, Copy)]
pub(crate) struct Bound {
    pub(crate) column: Col,
    pub(crate) is_turned: bool,
    pub(crate) k: i128,
}

impl Bound {
    /// What holds where the bound does not, at whole points.
    pub(crate) fn opposite(self) -> Option<Bound> {
        Some(Bound {
            column: self.column,
            is_turned: !self.is_turned,
            k: (-1i128).checked_sub(self.k)?,
        })
    }

    /// The bound as a row; `None` where a number would not fit.
    pub(crate) fn row(self, alloc: Global) -> Result<Option<Row>, AllocError> {
        let coefficient = if self.is_turned { -1 } else { 1 };
        match row(alloc, &[(self.column, coefficient)], RowKind::Le, self.k) {
            Ok(made) => Ok(Some(made)),
            Err(RowFault::Past) => Ok(None),
            Err(RowFault::Memory) => Err(AllocError),
        }
    }

    /// The number of a cut whose first side has the bound, or whose second side has it where it is turned.
    pub(crate) fn cut(self) -> Option<i128> {
        if self.is_turned {
            (-1i128).checked_sub(self.k)
        } else {
            Some(self.k)
        }
    }
}

/// The numbers that are tried as bounds, ascending: those near 0, those of the rows, and their opposites.
pub(crate) fn numbers_of(alloc: Global, rows: &[Row]) -> Result<Vec<i128>, AllocError> {
    let mut numbers = Vec::new(alloc);
    add_numbers(&mut numbers, rows)?;
    Ok(numbers)
}

/// Adds those numbers, and sorts them.
fn add_numbers(numbers: &mut Vec<i128>, rows: &[Row]) -> Result<(), AllocError> {
    for number in [-1, 0, 1] {
        numbers.push(number)?;
    }
    for row in rows {
        if numbers.len() >= MOST {
            break;
        }
        add_number(numbers, row.bound())?;
    }
    numbers.sort()
}

/// Adds a number and its opposite, where they are not there.
fn add_number(numbers: &mut Vec<i128>, number: i128) -> Result<(), AllocError> {
    if numbers.contains(&number) {
        return Ok(());
    }
    numbers.push(number)?;
    if let Some(opposite) = number.checked_neg() {
        numbers.push(opposite)?;
    }
    Ok(())
}
