//! Which rows may have a column.

use crate::late_refutations::types::Stop;
use lin_rows::{Col, Row};
use std::alloc::Global;

/// No entry.
const NONE: u32 = u32::MAX;

/// The first and the last entry of a column.
#[derive(Clone, Copy)]
struct Ends {
    first: u32,
    last: u32,
}

/// No entries.
const NO_ENDS: Ends = Ends {
    first: NONE,
    last: NONE,
};

/// The number of a row, and the next entry of the same column.
#[derive(Clone, Copy)]
struct Entry {
    number: u32,
    next: u32,
}

/// By column, the numbers of the rows that may have it, in the order in which they were added. All stand in one list, in which each
/// entry names the next one of its column, since most columns have few.
#[derive(Drop)]
pub(crate) struct Users {
    ends: Vec<Ends>,
    entries: Vec<Entry>,
}

/// Rows that may have a column, from one on.
#[derive(Clone, Copy)]
pub(crate) struct SomeUsers {
    first: u32,
}

impl Users {
    /// No row has any of so many columns.
    pub(crate) fn new(alloc: Global, columns: u32, rows: usize) -> Result<Self, Stop> {
        let ends = vec![in alloc; NO_ENDS; columns as usize]?;
        let entries = Vec::with_capacity(alloc, rows.saturating_mul(2))?;
        Ok(Users { ends, entries })
    }

    /// Says that a row may have the columns of another.
    pub(crate) fn add_columns(&mut self, number: u32, row: &Row) -> Result<(), Stop> {
        for (column, _) in row.terms() {
            self.add(*column, number)?;
        }
        Ok(())
    }

    /// Says that a row may have a column.
    fn add(&mut self, column: Col, number: u32) -> Result<(), Stop> {
        let Ok(place) = u32::try_from(self.entries.len()) else {
            return Err(Stop::Nothing);
        };
        let Some(ends) = self.ends.get_mut(column as usize) else {
            return Err(Stop::Nothing);
        };
        let last = ends.last;
        if ends.first == NONE {
            ends.first = place;
        }
        ends.last = place;
        if let Some(entry) = self.entries.get_mut(last as usize) {
            entry.next = place;
        }
        self.entries.push(Entry { number, next: NONE })?;
        Ok(())
    }

    /// The rows that may have a column, which are forgotten.
    pub(crate) fn take(&mut self, column: Col) -> SomeUsers {
        let Some(ends) = self.ends.get_mut(column as usize) else {
            return SomeUsers { first: NONE };
        };
        let first = ends.first;
        *ends = NO_ENDS;
        SomeUsers { first }
    }

    /// The number of the first of these rows, which is no longer among them then.
    pub(crate) fn next(&self, users: &mut SomeUsers) -> Option<u32> {
        let entry = self.entries.get(users.first as usize)?;
        users.first = entry.next;
        Some(entry.number)
    }

    /// How many rows there are at most that may have a column.
    pub(crate) fn len(&self) -> usize {
        self.entries.len()
    }
}
