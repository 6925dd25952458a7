//! Points that are guessed: where a row does not hold, a column of it is changed so that it does. Whether a guess is right is for others to see.

use lin_rows::{Row, RowKind, sum_at};
use std::alloc::{AllocError, Global};

/// A point, with a value for each of so many columns, and the columns that keep their value.
#[derive(Drop)]
struct Guess {
    values: Vec<i128>,
    kept: Vec<bool>,
}

impl Guess {
    /// The point 0.
    fn new(alloc: Global, columns: u32) -> Result<Self, AllocError> {
        let values = vec![in alloc; 0i128; columns as usize]?;
        let kept = vec![in alloc; false; columns as usize]?;
        Ok(Guess { values, kept })
    }

    /// Makes a row hold by the last column that may be changed and is taken once, if it does not hold.
    fn mend(&mut self, row: &Row) {
        let Some(gap) = self.gap(row) else {
            return;
        };
        for (column, coefficient) in row.terms().iter().rev() {
            if self.is_changed(*column as usize, *coefficient, gap) {
                return;
            }
        }
    }

    /// What the sum of a row lacks where it does not hold.
    fn gap(&self, row: &Row) -> Option<i128> {
        let gap = row.bound().checked_sub(sum_at(row.terms(), &self.values)?)?;
        match row.kind() {
            RowKind::Le if gap >= 0 => None,
            RowKind::Eq if gap == 0 => None,
            _ => Some(gap),
        }
    }

    /// Changes a column that is taken once, so that a sum grows by the gap; whether it may be changed.
    fn is_changed(&mut self, column: usize, coefficient: i128, gap: i128) -> bool {
        let Some(false) = self.kept.get(column) else {
            return false;
        };
        let Some(value) = self.values.get(column) else {
            return false;
        };
        let changed = match coefficient {
            1 => value.checked_add(gap),
            -1 => value.checked_sub(gap),
            _ => None,
        };
        match changed {
            Some(changed) => {
                self.values[column] = changed;
                self.kept[column] = true;
                true
            }
            None => false,
        }
    }
}

/// A point at which the rows are made to hold one after another.
pub(crate) fn guessed_up(
    alloc: Global,
    rows: &[Row],
    columns: u32,
) -> Result<Vec<i128>, AllocError> {
    let mut guess = Guess::new(alloc, columns)?;
    for row in rows {
        guess.mend(row);
    }
    Ok(guess.values)
}

/// The same, the last row first.
pub(crate) fn guessed_down(
    alloc: Global,
    rows: &[Row],
    columns: u32,
) -> Result<Vec<i128>, AllocError> {
    let mut guess = Guess::new(alloc, columns)?;
    for row in rows.iter().rev() {
        guess.mend(row);
    }
    Ok(guess.values)
}
