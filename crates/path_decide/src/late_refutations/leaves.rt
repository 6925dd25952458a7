//! Leaves that use the last rows of an order.

use crate::late_refutations::refuting::refuted;
use crate::late_refutations::types::{Parts, number_beside};
use lin_rows::Row;
use std::alloc::{AllocError, Global};
use std::mem::replace;

/// The rows that may be used, and the best refutation found so far.
#[derive(Drop)]
struct Trials<'a> {
    alloc: Global,
    rows: &'a [Row],
    columns: u32,
    on: Vec<bool>,
    best: Parts,
    /// How many rows may still be looked at.
    work: &'a mut u64,
}

/// The place of the first row of an order that the parts use; 0 where they use none.
fn first_used(order: &[u32], parts: &[(u32, i128)]) -> usize {
    for (place, number) in order.iter().enumerate() {
        if uses(parts, *number) {
            return place;
        }
    }
    0
}

/// Whether the parts use a row.
fn uses(parts: &[(u32, i128)], number: u32) -> bool {
    number_beside(parts, number).is_some()
}

impl<'a> Trials<'a> {
    /// Turns a row on or off.
    fn turn(&mut self, number: u32, is_on: bool) {
        if let Some(on) = self.on.get_mut(number as usize) {
            *on = is_on;
        }
    }

    /// Turns on the rows of an order from a place on, and no others.
    fn turn_on_from(&mut self, order: &[u32], place: usize) {
        self.on.fill(false);
        for number in order.iter().skip(place) {
            self.turn(*number, true);
        }
    }

    /// Whether the rows that are on are refuted. The refutation is the best then. False where no work is left.
    fn improve(&mut self) -> Result<bool, AllocError> {
        let Some(left) = self.work.checked_sub(self.rows.len() as u64) else {
            *self.work = 0;
            return Ok(false);
        };
        *self.work = left;
        match refuted(self.alloc, self.rows, &self.on, self.columns)? {
            Some(parts) => {
                self.best = parts;
                Ok(true)
            }
            None => Ok(false),
        }
    }

    /// Makes the trials, and answers the best refutation.
    fn try_all(&mut self, order: &[u32]) -> Result<Parts, AllocError> {
        self.on.resize(self.rows.len(), false)?;
        self.begin_late(order)?;
        self.drop_rows(order)?;
        Ok(replace(&mut self.best, Vec::new(self.alloc)))
    }

    /// Turns on the rows of the order from the last place on from which they are refuted alone, by halving.
    fn begin_late(&mut self, order: &[u32]) -> Result<(), AllocError> {
        let mut low = first_used(order, &self.best);
        let mut high = order.len();
        for _half in 0..64 {
            let middle = low.saturating_add(high.saturating_sub(low) / 2);
            if middle <= low {
                break;
            }
            self.turn_on_from(order, middle);
            if self.improve()? {
                low = middle.max(first_used(order, &self.best));
            } else {
                high = middle;
            }
        }
        self.turn_on_from(order, low);
        Ok(())
    }

    /// Turns off, in order, each row that the best refutation uses and that is not needed.
    fn drop_rows(&mut self, order: &[u32]) -> Result<(), AllocError> {
        for number in order {
            if uses(&self.best, *number) {
                self.turn(*number, false);
                if !self.improve()? {
                    self.turn(*number, true);
                }
            }
        }
        Ok(())
    }
}

/// Parts that are to refute the rows, as given ones do, and need none of the rows that they use: the first rows of the order are
/// dropped first. So many rows may be looked at, of which what is left stays.
pub(crate) fn late_leaf(
    alloc: Global,
    rows: &[Row],
    columns: u32,
    order: &[u32],
    given: &[(u32, i128)],
    work: &mut u64,
) -> Result<Parts, AllocError> {
    let best = Vec::from_slice(alloc, given)?;
    let mut trials = Trials {
        alloc,
        rows,
        columns,
        on: Vec::new(alloc),
        best,
        work,
    };
    trials.try_all(order)
}
