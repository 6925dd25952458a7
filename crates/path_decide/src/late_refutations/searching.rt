//! The search for lemmas: bounds of columns of calls that the rows before imply.

use crate::late_refutations::bounds::{Bound, numbers_of};
use crate::late_refutations::leaves::late_leaf;
use crate::late_refutations::refuting::refuted;
use crate::late_refutations::types::Parts;
use lin_rows::{Col, Row, RowKind};
use std::alloc::{AllocError, Global};
use std::mem::replace;

/// How many lemmas there are at most.
const MOST_LEMMAS: usize = 40;

/// A bound, and the parts that refute its opposite, which is the row after those of the lemmas before.
#[derive(Drop)]
pub(crate) struct Lemma {
    pub(crate) bound: Bound,
    pub(crate) parts: Parts,
}

/// The lemmas that were found, and what the search for them has left.
#[derive(Drop)]
pub(crate) struct Search<'a> {
    alloc: Global,
    columns: u32,
    /// How many rows the system has.
    given: usize,
    /// Their numbers, in the order in which they are dropped.
    order: &'a [u32],
    /// The rows of the system, and then the lemmas.
    rows: Vec<Row>,
    numbers: Vec<i128>,
    lemmas: Vec<Lemma>,
    /// How many rows may still be looked at.
    work: u64,
}

impl<'a> Search<'a> {
    /// The search before the first candidate, among tightened rows.
    pub(crate) fn new(
        alloc: Global,
        columns: u32,
        order: &'a [u32],
        rows: Vec<Row>,
        work: u64,
    ) -> Result<Self, AllocError> {
        let numbers = numbers_of(alloc, &rows)?;
        Ok(Search {
            alloc,
            columns,
            given: rows.len(),
            order,
            rows,
            numbers,
            lemmas: Vec::new(alloc),
            work,
        })
    }

    /// Tries the candidates, and hands over the rows with the lemmas that were found, and these.
    pub(crate) fn try_columns(
        &mut self,
        candidates: &[(Col, u32)],
    ) -> Result<(Vec<Row>, Vec<Lemma>), AllocError> {
        for (column, before) in candidates {
            self.try_column(*column, *before as usize)?;
        }
        let rows = replace(&mut self.rows, Vec::new(self.alloc));
        let lemmas = replace(&mut self.lemmas, Vec::new(self.alloc));
        Ok((rows, lemmas))
    }

    /// Tries both bounds of a column, from the first rows, so many.
    fn try_column(&mut self, column: Col, before: usize) -> Result<(), AllocError> {
        for is_turned in [false, true] {
            if self.lemmas.len() >= MOST_LEMMAS {
                return Ok(());
            }
            if let Some((bound, parts)) = self.tightest(column, is_turned, before)? {
                self.add(bound, &parts, before)?;
            }
        }
        Ok(())
    }

    /// The tightest bound that holds, with what refutes its opposite.
    fn tightest(
        &mut self,
        column: Col,
        is_turned: bool,
        before: usize,
    ) -> Result<Option<(Bound, Parts)>, AllocError> {
        let mut found = None;
        self.tighten(column, is_turned, before, &mut found)?;
        Ok(found)
    }

    /// Puts down each bound that holds, the tightest at last.
    fn tighten(
        &mut self,
        column: Col,
        is_turned: bool,
        before: usize,
        found: &mut Option<(Bound, Parts)>,
    ) -> Result<(), AllocError> {
        let mut low = 0usize;
        let mut high = self.numbers.len();
        let mut middle = high.saturating_sub(1);
        for _half in 0..64 {
            let Some(k) = self.numbers.get(middle).copied() else {
                break;
            };
            let bound = Bound {
                column,
                is_turned,
                k,
            };
            match self.refutation_of_opposite(bound, before)? {
                Some(parts) => {
                    *found = Some((bound, parts));
                    high = middle;
                }
                None => low = middle.saturating_add(1),
            }
            if low >= high {
                break;
            }
            middle = low.saturating_add(high.saturating_sub(low) / 2);
        }
        Ok(())
    }

    /// The parts that refute the opposite of a bound, from the first rows and the lemmas; `None` where none are found.
    fn refutation_of_opposite(
        &mut self,
        bound: Bound,
        before: usize,
    ) -> Result<Option<Parts>, AllocError> {
        let Some(left) = self.work.checked_sub(self.rows.len() as u64) else {
            self.work = 0;
            return Ok(None);
        };
        self.work = left;
        if !self.push_opposite(bound)? {
            return Ok(None);
        }
        let parts = self.refutation_from(before)?;
        self.drop_last();
        Ok(parts)
    }

    /// The parts that refute the first rows and those after the rows of the system; `None` where none are found.
    fn refutation_from(&self, before: usize) -> Result<Option<Parts>, AllocError> {
        let on = self.rows_on(before)?;
        refuted(self.alloc, &self.rows, &on, self.columns)
    }

    /// Adds the opposite of a bound as the last row. False where a number would not fit.
    fn push_opposite(&mut self, bound: Bound) -> Result<bool, AllocError> {
        match bound.opposite() {
            Some(opposite) => self.push_bound(opposite),
            None => Ok(false),
        }
    }

    /// Adds a bound as the last row. False where a number would not fit.
    fn push_bound(&mut self, bound: Bound) -> Result<bool, AllocError> {
        let Some(row) = bound.row(self.alloc)? else {
            return Ok(false);
        };
        self.rows.push(row)?;
        Ok(true)
    }

    /// Which rows are on: the first ones, and all after those of the system.
    fn rows_on(&self, before: usize) -> Result<Vec<bool>, AllocError> {
        let mut on = Vec::with_capacity(self.alloc, self.rows.len())?;
        for place in 0..self.rows.len() {
            on.push(place < before || place >= self.given)?;
        }
        Ok(on)
    }

    /// The numbers of the rows that are on, in the order in which they are dropped.
    fn order_before(&self, before: usize) -> Result<Vec<u32>, AllocError> {
        let mut numbers = Vec::with_capacity(self.alloc, self.rows.len())?;
        for number in self.order {
            if (*number as usize) < before {
                numbers.push(*number)?;
            }
        }
        for place in self.given..self.rows.len() {
            if let Ok(number) = u32::try_from(place) {
                numbers.push(number)?;
            }
        }
        Ok(numbers)
    }

    /// Adds a lemma, whose opposite is refuted by the parts, without the rows that these do not need. A bound that a row says is
    /// no lemma.
    fn add(
        &mut self,
        bound: Bound,
        parts: &[(u32, i128)],
        before: usize,
    ) -> Result<(), AllocError> {
        if !self.push_opposite(bound)? {
            return Ok(());
        }
        let parts = self.late_parts(parts, before)?;
        self.drop_last();
        if !self.is_said(&parts) && self.push_bound(bound)? {
            self.lemmas.push(Lemma { bound, parts })?;
        }
        Ok(())
    }

    /// The parts without the rows that they do not need.
    fn late_parts(&mut self, parts: &[(u32, i128)], before: usize) -> Result<Parts, AllocError> {
        let order = self.order_before(before)?;
        late_leaf(
            self.alloc,
            &self.rows,
            self.columns,
            &order,
            parts,
            &mut self.work,
        )
    }

    /// Takes the last row away.
    fn drop_last(&mut self) {
        let _last = self.rows.pop();
    }

    /// Whether the parts are of one bound of a column and an opposite alone.
    fn is_said(&self, parts: &[(u32, i128)]) -> bool {
        match parts {
            [(number, _), (_, _)] => match self.rows.get(*number as usize) {
                Some(row) => row.terms().len() == 1 && row.kind() == RowKind::Le,
                None => false,
            },
            _ => false,
        }
    }
}
