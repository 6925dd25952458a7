//! The order in which rows are dropped.

use lin_rows::{Col, Row};
use std::alloc::{AllocError, Global};

/// Where a row stands in the order: by rank, then by the number of a row of the system, then by its own number.
type Key = (u32, u32, u32);

/// The order of the rows of a system, and where rows that are added stand in it.
#[derive(Drop)]
pub(crate) struct Order {
    alloc: Global,
    /// By column the rank and the number of the first row that has it.
    firsts: Vec<(u32, u32)>,
    keys: Vec<Key>,
}

impl Order {
    /// The order of rows over the columns below a number, by rank, and else as they stand. A row without a rank has 0.
    pub(crate) fn new(
        alloc: Global,
        rows: &[Row],
        columns: u32,
        ranks: &[u32],
    ) -> Result<Self, AllocError> {
        let mut order = Order {
            alloc,
            firsts: vec![in alloc; (u32::MAX, u32::MAX); columns as usize]?,
            keys: Vec::new(alloc),
        };
        order.add_rows(rows, ranks)?;
        Ok(order)
    }

    /// Adds the first rows, with their ranks.
    fn add_rows(&mut self, rows: &[Row], ranks: &[u32]) -> Result<(), AllocError> {
        self.keys.reserve(rows.len())?;
        for (place, row) in rows.iter().enumerate() {
            let number = u32::try_from(place).unwrap_or(u32::MAX);
            let rank = ranks.get(place).copied().unwrap_or(0);
            self.see(row, (rank, number));
            self.keys.push((rank, number, number))?;
        }
        Ok(())
    }

    /// Notes the columns of a row at a place.
    fn see(&mut self, row: &Row, place: (u32, u32)) {
        for (column, _) in row.terms() {
            if let Some(first) = self.firsts.get_mut(*column as usize) {
                *first = place.min(*first);
            }
        }
    }

    /// Adds a row after the first row that has a column.
    pub(crate) fn push_beside(&mut self, column: Col, number: u32) -> Result<(), AllocError> {
        let place = self.firsts.get(column as usize).copied();
        let (rank, first) = place.unwrap_or((u32::MAX, u32::MAX));
        self.keys.push((rank, first, number))?;
        Ok(())
    }

    /// Adds so many rows from a number on as the last.
    pub(crate) fn push_all_last(&mut self, first: u32, count: usize) -> Result<(), AllocError> {
        let mut number = first;
        for _row in 0..count {
            self.keys.push((u32::MAX, u32::MAX, number))?;
            number = number.saturating_add(1);
        }
        Ok(())
    }

    /// Takes the row away that was added last.
    pub(crate) fn pop(&mut self) {
        let _key = self.keys.pop();
    }

    /// The numbers of the rows in order.
    pub(crate) fn numbers(&self) -> Result<Vec<u32>, AllocError> {
        let mut keys = self.keys.clone()?;
        keys.sort()?;
        numbers_in(self.alloc, &keys)
    }
}

/// The numbers of the rows with these keys.
fn numbers_in(alloc: Global, keys: &[Key]) -> Result<Vec<u32>, AllocError> {
    let mut numbers = Vec::with_capacity(alloc, keys.len())?;
    for (_, _, number) in keys {
        numbers.push(*number)?;
    }
    Ok(numbers)
}
