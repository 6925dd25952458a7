//! Rows that can always be met, since a column that is bounded nowhere else may be moved for them.

use crate::late_refutations::lines::Lines;
use crate::late_refutations::types::Stop;
use lin_rows::{Col, Row, RowKind};
use std::alloc::Global;

/// In how many rows a column is.
#[derive(Clone, Copy)]
pub(crate) struct Uses {
    /// Inequalities in which its coefficient is positive.
    positive: u32,
    /// Inequalities in which it is negative.
    negative: u32,
    equalities: u32,
}

/// No rows.
const NO_USES: Uses = Uses {
    positive: 0,
    negative: 0,
    equalities: 0,
};

/// One more, or one less.
fn moved(count: u32, more: bool) -> u32 {
    if more {
        count.saturating_add(1)
    } else {
        count.saturating_sub(1)
    }
}

impl Uses {
    /// With one more or one less row of a kind, in which the column has that coefficient.
    fn with(self, kind: RowKind, coefficient: i128, more: bool) -> Self {
        let mut uses = self;
        match kind {
            RowKind::Eq => uses.equalities = moved(uses.equalities, more),
            RowKind::Le if coefficient > 0 => uses.positive = moved(uses.positive, more),
            RowKind::Le => uses.negative = moved(uses.negative, more),
        }
        uses
    }

    /// Whether the column may be moved so that all its rows are met.
    fn is_free(self) -> bool {
        match self.equalities {
            0 => self.positive == 0 || self.negative == 0,
            1 => self.positive == 0 && self.negative == 0,
            _ => false,
        }
    }
}

/// The uses of columns, and the columns whose uses are to be looked at.
#[derive(Drop)]
struct Waiting {
    uses: Vec<Uses>,
    /// The columns below this number are still to be looked at, the last one first.
    below: Col,
    /// Those that come before them.
    columns: Vec<Col>,
}

impl Waiting {
    /// Those of no rows, over the columns below a number, all of which are to be looked at.
    fn new(alloc: Global, columns: u32) -> Result<Self, Stop> {
        Ok(Waiting {
            uses: vec![in alloc; NO_USES; columns as usize]?,
            below: columns,
            columns: Vec::new(alloc),
        })
    }

    /// The next column, which is to be looked at no more then.
    fn next(&mut self) -> Option<Col> {
        let next = self.columns.pop();
        if next.is_none() && self.below > 0 {
            self.below -= 1;
            return Some(self.below);
        }
        next
    }

    /// Counts one more or one less row.
    fn count(&mut self, row: &Row, more: bool) {
        for (column, coefficient) in row.terms() {
            if let Some(uses) = self.uses.get_mut(*column as usize) {
                *uses = uses.with(row.kind(), *coefficient, more);
            }
        }
    }

    /// Counts one less row, and has its columns looked at again.
    fn drop_row(&mut self, row: &Row) -> Result<(), Stop> {
        self.count(row, false);
        for (column, _) in row.terms() {
            self.columns.push(*column)?;
        }
        Ok(())
    }

    /// Whether the column may be moved so that all its rows are met.
    fn is_free(&self, column: Col) -> bool {
        match self.uses.get(column as usize) {
            Some(uses) => uses.is_free(),
            None => false,
        }
    }
}

/// Drops the rows of columns that may be moved so that all their rows are met, until there is no such column.
pub(crate) fn drop_met(alloc: Global, lines: &mut Lines, columns: u32) -> Result<(), Stop> {
    let mut waiting = Waiting::new(alloc, columns)?;
    for number in 0..lines.len() {
        if let Some(row) = lines.row(number) {
            waiting.count(row, true);
        }
    }
    drop_waiting(lines, &mut waiting)
}

/// Drops the rows of the columns that wait, and of those that come to wait, where they may be moved so that all their rows are met.
fn drop_waiting(lines: &mut Lines, waiting: &mut Waiting) -> Result<(), Stop> {
    for _look in 0..u64::MAX {
        let Some(column) = waiting.next() else {
            break;
        };
        if waiting.is_free(column) {
            drop_users(lines, column, waiting)?;
        }
    }
    Ok(())
}

/// Drops the rows that have a column.
fn drop_users(lines: &mut Lines, column: Col, waiting: &mut Waiting) -> Result<(), Stop> {
    let mut users = lines.users.take(column);
    for _user in 0..lines.users.len() {
        let Some(number) = lines.users.next(&mut users) else {
            break;
        };
        drop_user(lines, number, column, waiting)?;
    }
    Ok(())
}

/// Drops the row with a number, where it has a column.
fn drop_user(
    lines: &mut Lines,
    number: u32,
    column: Col,
    waiting: &mut Waiting,
) -> Result<(), Stop> {
    match lines.take_with(number, column) {
        Some(row) => waiting.drop_row(row),
        None => Ok(()),
    }
}
