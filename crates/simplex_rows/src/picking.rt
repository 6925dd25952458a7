//! The search for the point that is picked: column by column, of the values that those before it leave, the whole number
//! nearest 0.

use crate::tableau::{Tableau, Way};
use crate::types::{Parts, Picked, Stop};
use frac::{Frac, den, floor, is_whole, num};
use lin_rows::{Col, Row, RowKind};
use math_facts::checked_product;
use std::alloc::{AllocError, Global};
use std::mem::replace;

/// A proposal for the picked point of rows over the columns below `columns`: multipliers that are to refute the rows as they are
/// given, or a point. Column by column, its value is to be the whole number nearest 0 of those with which a point of the rows
/// begins, after the values before it; the columns from the first on that has no such number have some value. What is to show
/// this stands beside it. `None` where it takes more than that many pivots for the first point or for one column, or where a
/// number does not fit. Nothing is promised of a proposal: check it.
pub fn try_pick(
    alloc: Global,
    rows: &[Row],
    columns: u32,
    pivots: u32,
) -> Result<Option<Picked>, AllocError> {
    match picked(alloc, rows, columns, pivots) {
        Ok(found) => Ok(Some(found)),
        Err(Stop::Past) => Ok(None),
        Err(Stop::Memory(e)) => Err(e),
    }
}

/// The proposal.
fn picked(alloc: Global, rows: &[Row], columns: u32, pivots: u32) -> Result<Picked, Stop> {
    let tableau = Tableau::new(alloc, rows)?;
    let mut picker = Picker {
        alloc,
        rows,
        last_columns: Vec::new(alloc),
        columns,
        pivots,
        tableau,
        point: Vec::new(alloc),
        waiting: Vec::new(alloc),
        shown: Vec::new(alloc),
    };
    let found = picker.pick_all();
    drop(picker);
    found
}

/// The last column of each row that has terms, with the number of the row, ascending.
fn last_columns(alloc: Global, rows: &[Row]) -> Result<Vec<(Col, u32)>, Stop> {
    let mut columns = Vec::with_capacity(alloc, rows.len())?;
    for (number, row) in rows.iter().enumerate() {
        if let (Some(term), Ok(number)) = (row.terms().last(), u32::try_from(number)) {
            columns.push((term.0, number))?;
        }
    }
    columns.sort_unstable();
    Ok(columns)
}

/// What is picked so far. The columns before the one at hand have their values, in `point` as in the tableau's; those that wait
/// are not yet kept from moving there.
#[derive(Drop)]
struct Picker<'a> {
    alloc: Global,
    rows: &'a [Row],
    last_columns: Vec<(Col, u32)>,
    columns: u32,
    pivots: u32,
    tableau: Tableau<'a>,
    point: Vec<Frac>,
    waiting: Vec<Col>,
    shown: Vec<Parts>,
}

impl<'a> Picker<'a> {
    /// Refutes the rows, or picks a point, which is handed over with what shows it.
    fn pick_all(&mut self) -> Result<Picked, Stop> {
        if let Some(parts) = self.tableau.solve(self.pivots)? {
            return Ok(Picked::Refuted(parts));
        }
        self.pick_columns()?;
        Ok(Picked::Point {
            values: replace(&mut self.point, Vec::new(self.alloc)),
            shown: replace(&mut self.shown, Vec::new(self.alloc)),
        })
    }

    /// Picks the values of the columns, up to the first that has no whole number.
    fn pick_columns(&mut self) -> Result<(), Stop> {
        self.point = self.tableau.point(self.columns)?;
        self.last_columns = last_columns(self.alloc, self.rows)?;
        for column in 0..self.columns {
            if !self.pick(column)? {
                break;
            }
        }
        Ok(())
    }

    /// Picks the value of a column. False where it has no whole number.
    fn pick(&mut self, column: Col) -> Result<bool, Stop> {
        let Some(value) = self.point.get(column as usize) else {
            return Err(Stop::Past);
        };
        let (k, whole) = (floor(value), is_whole(value));
        let shown = if whole {
            self.take_at_once(column, k)?
        } else {
            self.show_sides(column, k)?
        };
        if shown { Ok(whole) } else { self.seek(column) }
    }

    /// Keeps a whole value that is shown to be nearest 0 by one row. False where none shows it.
    fn take_at_once(&mut self, column: Col, k: i128) -> Result<bool, Stop> {
        if !self.show_at_once(column, k)? {
            return Ok(false);
        }
        self.waiting.push(column)?;
        self.tableau.fix(k)?;
        Ok(true)
    }

    /// Shows that a whole value is nearest 0, by one row; 0 by none. False where no row shows it.
    fn show_at_once(&mut self, column: Col, k: i128) -> Result<bool, Stop> {
        if k == 0 {
            self.shown.push(Vec::new(self.alloc))?;
            return Ok(true);
        }
        if k > 0 {
            self.show_side(column, Way::Down, k.saturating_sub(1))
        } else {
            self.show_side(column, Way::Up, k)
        }
    }

    /// Shows that the column is neither at most k nor at least k + 1, each by one row. False where no row shows it.
    fn show_sides(&mut self, column: Col, k: i128) -> Result<bool, Stop> {
        let before = self.shown.len();
        let below = self.show_side(column, Way::Down, k)?;
        let above = self.show_side(column, Way::Up, k)?;
        if !below || !above {
            self.shown.truncate(before);
        }
        Ok(below && above)
    }

    /// Shows that the column is not at most k, or at least k + 1, by one row. False where no row shows it.
    fn show_side(&mut self, column: Col, way: Way, k: i128) -> Result<bool, Stop> {
        match self.side_shown(column, way, k)? {
            Some(parts) => {
                self.shown.push(parts)?;
                Ok(true)
            }
            None => Ok(false),
        }
    }

    /// The parts that refute that the column is at most k, or at least k + 1, by one row whose last column it is.
    fn side_shown(&self, column: Col, way: Way, k: i128) -> Result<Option<Parts>, Stop> {
        let start = self.last_columns.partition_point(|entry| entry.0 < column);
        for (last, number) in self.last_columns.iter().skip(start) {
            if *last != column {
                break;
            }
            if let Some(parts) = self.side_shown_by(*number, way, k)? {
                return Ok(Some(parts));
            }
        }
        Ok(None)
    }

    /// The parts that refute that the last column of the row is at most k, or at least k + 1, where the others have values.
    fn side_shown_by(&self, number: u32, way: Way, k: i128) -> Result<Option<Parts>, Stop> {
        let Some(row) = self.rows.get(number as usize) else {
            return Ok(None);
        };
        match self.sign_shown(row, way, k)? {
            Some(sign) => Ok(Some(self.parts_of(row, (number, sign))?)),
            None => Ok(None),
        }
    }

    /// How often the row is taken to show that its last column is not at most k, or at least k + 1; `None` where it does not.
    fn sign_shown(&self, row: &Row, way: Way, k: i128) -> Result<Option<i128>, Stop> {
        let Some((last, others)) = row.terms().split_last() else {
            return Ok(None);
        };
        let sign = sign_for(last.1, way);
        if sign < 0 && row.kind() == RowKind::Le {
            return Ok(None);
        }
        // the row, with the values, says `sign*last*x <= sign*room`
        let room = less_product(self.room(row.bound(), others)?, last.1, end_of(way, k))?;
        Ok(if is_passed(room, sign) {
            Some(sign)
        } else {
            None
        })
    }

    /// The part, and those that take the terms out of its row by the values of their columns.
    fn parts_of(&self, row: &Row, part: (u32, i128)) -> Result<Parts, Stop> {
        let mut parts = Vec::with_capacity(self.alloc, row.terms().len().saturating_add(1))?;
        self.push_parts(&mut parts, part, row.terms())?;
        Ok(parts)
    }

    /// What a bound leaves where the columns of these terms have the values that are said.
    fn room(&self, bound: i128, terms: &[(Col, i128)]) -> Result<i128, Stop> {
        let mut room = bound;
        for (column, coefficient) in terms {
            room = less_product(room, *coefficient, self.tableau.fixed_at(*column)?)?;
        }
        Ok(room)
    }

    /// Adds a part at the end, and those that take the terms out of its row: all but the last by the values of their columns, and the
    /// last by what is said of its column.
    fn push_parts(
        &self,
        parts: &mut Parts,
        part: (u32, i128),
        terms: &[(Col, i128)],
    ) -> Result<(), Stop> {
        parts.push(part)?;
        let Some((last, others)) = terms.split_last() else {
            return Ok(());
        };
        let times = if part.1 < 0 { 1 } else { -1 };
        for (column, coefficient) in others {
            self.push_fixing(parts, *column, coefficient.saturating_mul(times))?;
        }
        self.push_fixing(parts, last.0, last.1.saturating_abs())
    }

    /// Adds so many times the row that fixes a column at the end.
    fn push_fixing(&self, parts: &mut Parts, column: Col, times: i128) -> Result<(), Stop> {
        parts.push((self.tableau.fixing(column)?, times))?;
        Ok(())
    }

    /// Picks the value of a column by moving it. False where it has no whole number.
    fn seek(&mut self, column: Col) -> Result<bool, Stop> {
        for fixed in self.waiting.as_slice() {
            self.tableau.hold(*fixed)?;
        }
        self.waiting.clear();
        self.tableau.fix(0)?;
        self.tableau.aim(column)?;
        let Some(parts) = self.tableau.reach(column, self.pivots)? else {
            self.shown.push(Vec::new(self.alloc))?;
            return self.reached(column, true);
        };
        self.shown.push(parts)?;
        self.seek_whole(column)
    }

    /// Picks the value of a column that was moved as far as it goes, by moving it on to the whole number beyond. False where it has
    /// no whole number.
    fn seek_whole(&mut self, column: Col) -> Result<bool, Stop> {
        let end = self.tableau.value_of(column)?;
        // a column that is moved has another value then, and nothing moves without it
        let moves = !is_whole(&end) || !self.is_at(column, &end);
        let from_above = num(&end) > 0;
        let mut k = floor(&end);
        if from_above && !is_whole(&end) {
            k = k.saturating_add(1);
        }
        self.tableau.move_aim(k)?;
        match self.tableau.reach(column, self.pivots)? {
            Some(others) => self.show_other_end(others, from_above)?,
            None => return self.reached(column, moves),
        }
        self.point = self.tableau.point(self.columns)?;
        Ok(false)
    }

    /// Keeps what shows the other end of a column, beside what shows the one that was reached first. The lower end comes first.
    fn show_other_end(&mut self, others: Parts, is_above: bool) -> Result<(), Stop> {
        let last = self.shown.len().saturating_sub(1);
        let place = if is_above { self.shown.len() } else { last };
        self.shown.insert(place, others)?;
        Ok(())
    }

    /// Whether the point has that value in the column.
    fn is_at(&self, column: Col, value: &Frac) -> bool {
        match self.point.get(column as usize) {
            Some(at) => num(at) == num(value) && den(at) == den(value),
            None => false,
        }
    }

    /// Keeps the value of the column that was reached, by moves or without one.
    fn reached(&mut self, column: Col, moves: bool) -> Result<bool, Stop> {
        self.tableau.pin(column)?;
        if moves {
            self.point = self.tableau.point(self.columns)?;
        }
        Ok(true)
    }
}

/// How often a row with that coefficient of a column is taken to bound it against a way: 1 or -1 times.
fn sign_for(coefficient: i128, way: Way) -> i128 {
    match way {
        Way::Up if coefficient > 0 => 1,
        Way::Down if coefficient <= 0 => 1,
        _ => -1,
    }
}

/// The end of a side: it is up to k, or from k + 1 on.
fn end_of(way: Way, k: i128) -> i128 {
    match way {
        Way::Down => k,
        Way::Up => k.saturating_add(1),
    }
}

/// Whether so much room, of a row that is taken 1 or -1 times, is too little.
fn is_passed(room: i128, sign: i128) -> bool {
    if sign > 0 { room < 0 } else { room > 0 }
}

/// `a - b*c`.
fn less_product(a: i128, b: i128, c: i128) -> Result<i128, Stop> {
    let Some(product) = checked_product(b, c) else {
        return Err(Stop::Past);
    };
    a.checked_sub(product).ok_or(Stop::Past)
}
