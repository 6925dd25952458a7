//! The rows of a trial: equalities are taken out by substitution, and rows that can always be met are dropped.

use crate::late_refutations::types::{Stop, number_beside};
use crate::late_refutations::users::Users;
use lin_rows::{Col, Row, RowKind, add_scaled};
use std::alloc::Global;
use std::mem::replace;

/// So many times one row was added to another.
#[derive(Clone, Copy)]
pub(crate) struct Step {
    pub(crate) to: u32,
    pub(crate) from: u32,
    pub(crate) times: i128,
}

/// A row as it is after the steps so far.
#[derive(Clone, Copy)]
enum Line {
    /// It is off or was taken out.
    Gone,
    /// It is as it was given.
    Given,
    /// It was made, and has this place among those that were.
    Made(usize),
}

/// The rows as they are after the steps so far.
#[derive(Drop)]
pub(crate) struct Lines<'a> {
    alloc: Global,
    /// Those that were given.
    rows: &'a [Row],
    /// By number.
    lines: Vec<Line>,
    /// The numbers of the equalities, ascending.
    equalities: Vec<usize>,
    /// The rows that were made.
    made: Vec<Row>,
    pub(crate) users: Users,
    /// The steps, in order.
    pub(crate) steps: Vec<Step>,
}

/// The row with a number, which is such a line.
fn row_of<'b>(given: &'b [Row], made: &'b [Row], number: usize, line: Line) -> Option<&'b Row> {
    match line {
        Line::Gone => None,
        Line::Given => given.get(number),
        Line::Made(place) => made.get(place),
    }
}

/// The coefficient of a column.
fn coefficient_of(row: &Row, column: Col) -> i128 {
    number_beside(row.terms(), column).unwrap_or(0)
}

/// The last column of an equality with the coefficient 1 or -1, with that coefficient.
fn solvable(row: &Row) -> Option<(Col, i128)> {
    if row.kind() == RowKind::Le {
        return None;
    }
    for &(column, coefficient) in row.terms().iter().rev() {
        if coefficient == 1 || coefficient == -1 {
            return Some((column, coefficient));
        }
    }
    None
}

/// Whether no point meets the row.
fn is_false(row: &Row) -> bool {
    row.terms().is_empty() && (row.bound() < 0 || (row.kind() == RowKind::Eq && row.bound() > 0))
}

impl<'a> Lines<'a> {
    /// None of the rows, over the columns below a number.
    pub(crate) fn new(alloc: Global, rows: &'a [Row], columns: u32) -> Result<Self, Stop> {
        let users = Users::new(alloc, columns, rows.len())?;
        Ok(Lines {
            alloc,
            rows,
            lines: Vec::new(alloc),
            equalities: Vec::new(alloc),
            made: Vec::new(alloc),
            users,
            steps: Vec::new(alloc),
        })
    }

    /// Adds the rows that are on.
    pub(crate) fn add_all(&mut self, on: &[bool]) -> Result<(), Stop> {
        let rows = self.rows;
        self.lines.reserve(rows.len())?;
        for (row, is_on) in rows.iter().zip(on) {
            self.add(row, *is_on)?;
        }
        Ok(())
    }

    /// Adds the row with the next number.
    fn add(&mut self, row: &Row, is_on: bool) -> Result<(), Stop> {
        let Ok(number) = u32::try_from(self.lines.len()) else {
            return Err(Stop::Nothing);
        };
        if is_on {
            if row.kind() == RowKind::Eq {
                self.equalities.push(number as usize)?;
            }
            self.users.add_columns(number, row)?;
            self.lines.push(Line::Given)?;
        } else {
            self.lines.push(Line::Gone)?;
        }
        Ok(())
    }

    /// The row with a number, where it is there.
    pub(crate) fn row(&self, number: usize) -> Option<&Row> {
        row_of(self.rows, &self.made, number, *self.lines.get(number)?)
    }

    /// How many rows there were at first.
    pub(crate) fn len(&self) -> usize {
        self.lines.len()
    }

    /// Takes out the equalities that are solved for a column. The number of a row that no point meets, where one comes up.
    pub(crate) fn substitute(&mut self) -> Result<Option<u32>, Stop> {
        for turn in 0..self.equalities.len() {
            let place = self.equality(turn);
            if let Some((column, unit)) = self.solvable_at(place) {
                let found = self.take_out(place, column, unit)?;
                if found.is_some() {
                    return Ok(found);
                }
            }
        }
        Ok(None)
    }

    /// The number of an equality.
    fn equality(&self, turn: usize) -> usize {
        match self.equalities.get(turn) {
            Some(number) => *number,
            None => self.lines.len(),
        }
    }

    /// The column for which the row at a place is solved.
    fn solvable_at(&self, place: usize) -> Option<(Col, i128)> {
        solvable(self.row(place)?)
    }

    /// Takes an equality out, by a column that has the coefficient `unit` there, and adds it to the rows that have the column so often
    /// that it is gone from them. The number of a row that no point meets, where one comes up.
    fn take_out(&mut self, place: usize, column: Col, unit: i128) -> Result<Option<u32>, Stop> {
        let zero = self.take(place);
        let mut users = self.users.take(column);
        for _user in 0..self.users.len() {
            let Some(number) = self.users.next(&mut users) else {
                break;
            };
            if self.add_times(number, place, zero, column, unit)? {
                return Ok(Some(number));
            }
        }
        Ok(None)
    }

    /// Takes the row with a number out.
    fn take(&mut self, number: usize) -> Line {
        match self.lines.get_mut(number) {
            Some(line) => replace(line, Line::Gone),
            None => Line::Gone,
        }
    }

    /// Takes the row with a number out, where it has a column.
    pub(crate) fn take_with(&mut self, number: u32, column: Col) -> Option<&Row> {
        let row = self.row(number as usize)?;
        if coefficient_of(row, column) == 0 {
            return None;
        }
        let line = self.take(number as usize);
        row_of(self.rows, &self.made, number as usize, line)
    }

    /// The numbers of the rows that are left.
    pub(crate) fn rest(&self, alloc: Global) -> Result<Vec<u32>, Stop> {
        let mut numbers = Vec::new(alloc);
        self.push_rest(&mut numbers)?;
        Ok(numbers)
    }

    /// Adds the numbers of the rows that are left at the end.
    fn push_rest(&self, numbers: &mut Vec<u32>) -> Result<(), Stop> {
        let mut number = 0u32;
        for line in &self.lines {
            match line {
                Line::Gone => {}
                Line::Given | Line::Made(_) => numbers.push(number)?,
            }
            number = number.saturating_add(1);
        }
        Ok(())
    }

    /// Copies of the rows with these numbers.
    pub(crate) fn copies(&self, alloc: Global, numbers: &[u32]) -> Result<Vec<Row>, Stop> {
        let mut copies = Vec::with_capacity(alloc, numbers.len())?;
        for number in numbers {
            if let Some(row) = self.row(*number as usize) {
                copies.push(row.copy()?)?;
            }
        }
        Ok(copies)
    }

    /// Adds an equality to a row so often that the column is gone from it. Whether no point meets the row then.
    fn add_times(
        &mut self,
        number: u32,
        place: usize,
        zero: Line,
        column: Col,
        unit: i128,
    ) -> Result<bool, Stop> {
        let (alloc, given) = (self.alloc, self.rows);
        let Some(line) = self.lines.get(number as usize).copied() else {
            return Ok(false);
        };
        let Some(row) = row_of(given, &self.made, number as usize, line) else {
            return Ok(false);
        };
        let Some(zero) = row_of(given, &self.made, place, zero) else {
            return Ok(false);
        };
        let coefficient = coefficient_of(row, column);
        if coefficient == 0 {
            return Ok(false);
        }
        let times = if unit > 0 {
            coefficient.checked_neg()
        } else {
            Some(coefficient)
        };
        let (Some(times), Ok(from)) = (times, u32::try_from(place)) else {
            return Err(Stop::Nothing);
        };
        self.users.add_columns(number, zero)?;
        self.steps.push(Step {
            to: number,
            from,
            times,
        })?;
        let sum = sum_of(alloc, row, times, zero)?;
        let is_refuted = is_false(&sum);
        self.put(number, sum)?;
        Ok(is_refuted)
    }

    /// Puts a row that was made in place of another.
    fn put(&mut self, number: u32, row: Row) -> Result<(), Stop> {
        let place = self.made.len();
        if let Some(line) = self.lines.get_mut(number as usize) {
            *line = Line::Made(place);
        }
        self.made.push(row)?;
        Ok(())
    }
}

/// `row + times*zero`, where `zero` is an equality.
fn sum_of(alloc: Global, row: &Row, times: i128, zero: &Row) -> Result<Row, Stop> {
    match zero.kind() {
        RowKind::Eq => Ok(add_scaled(alloc, row, times, zero)?),
        RowKind::Le => Err(Stop::Nothing),
    }
}
