//! The tableau: what rows add up to, as forms over variables that may be moved.

use crate::forms::{
    Form, Term, Variable, coefficient_of, combine, drop_term, form_of, negate, put_term, reduce,
};
use crate::numbers::{added, multiplied, opposite, product, ratio, whole};
use crate::types::{Parts, Stop};
use frac::{Frac, den, floor, is_whole, num};
use lin_rows::{Col, Row, RowKind};
use std::alloc::Global;
use std::cmp::Ordering;
use std::mem::swap;

/// What a row adds up to, where it is no variable of the forms: a form, divided by one positive denominator, and the value
/// at hand.
#[derive(Drop)]
pub(crate) struct Line {
    pub(crate) row: u32,
    pub(crate) form: Form,
    pub(crate) denominator: i128,
    pub(crate) value: Frac,
}

impl Line {
    /// How far the value moves where a variable does that has that coefficient.
    fn step(&self, coefficient: i128, moved: &Frac) -> Result<Frac, Stop> {
        if self.denominator == 1 && is_whole(moved) {
            whole(product(coefficient, num(moved))?)
        } else {
            multiplied(&ratio(coefficient, self.denominator)?, moved)
        }
    }

    /// Moves the value.
    fn move_by(&mut self, step: &Frac) -> Result<(), Stop> {
        self.value = added(&self.value, step)?;
        Ok(())
    }

    /// Takes away `n/d` times a form that is 0. The other form is overwritten.
    fn subtract(&mut self, spare: &mut Form, n: i128, d: i128, zero: &[Term]) -> Result<(), Stop> {
        match d {
            // most forms have the coefficient 1 or -1 of what is taken out by them
            1 => self.add_times(spare, 1, opposite(n)?, zero),
            -1 => self.add_times(spare, 1, n, zero),
            _ => {
                let times = ratio(n, d)?;
                self.add_times(spare, den(&times), opposite(num(&times))?, zero)
            }
        }
    }

    /// Adds so many times a form that is 0 to so many times its own. The other form is overwritten.
    fn add_times(
        &mut self,
        spare: &mut Form,
        own: i128,
        times: i128,
        zero: &[Term],
    ) -> Result<(), Stop> {
        combine(spare, own, self.form.as_slice(), times, zero)?;
        swap(&mut self.form, spare);
        if own != 1 {
            self.denominator = product(own, self.denominator)?;
            reduce(&mut self.form, &mut self.denominator);
        }
        Ok(())
    }

    /// Takes a variable out, by a form that is 0 and has that coefficient of it, and moves it. The other form is overwritten.
    fn take_out(
        &mut self,
        spare: &mut Form,
        by: Term,
        zero: &[Term],
        moved: &Frac,
    ) -> Result<(), Stop> {
        let other = coefficient_of(self.form.as_slice(), by.0);
        if other == 0 {
            return Ok(());
        }
        if num(moved) != 0 {
            let step = self.step(other, moved)?;
            self.move_by(&step)?;
        }
        self.subtract(spare, other, by.1, zero)
    }

    /// Takes a variable out, by a form that is 0. The value stays as it is. The other form is overwritten.
    pub(crate) fn substitute(
        &mut self,
        spare: &mut Form,
        variable: Variable,
        zero: &[Term],
    ) -> Result<(), Stop> {
        let other = coefficient_of(self.form.as_slice(), variable);
        if other != 0 {
            self.subtract(spare, other, coefficient_of(zero, variable), zero)?;
        }
        Ok(())
    }
}

/// A column that was solved for, by a form that is 0.
#[derive(Drop)]
pub(crate) struct Solved {
    pub(crate) column: Col,
    pub(crate) zero: Form,
}

/// Which way a line's value has to move.
#[derive(Clone, Copy)]
pub enum Way {
    Up,
    Down,
}

/// A row that does not hold at the values at hand.
#[derive(Clone, Copy)]
pub struct Violated {
    /// The place of its line.
    place: usize,
    way: Way,
}

impl Violated {
    /// The place of its line.
    pub(crate) fn place(&self) -> usize {
        self.place
    }
}

/// The rows, with the values at hand. Each variable of a form is a column, of the value 0, or a row that adds up to its
/// bound. A column that was solved for stands in no line: it has no bound that could be violated. The rows that fix the columns
/// from 0 on at values come after the given ones.
#[derive(Drop)]
pub struct Tableau<'a> {
    pub(crate) alloc: Global,
    pub(crate) rows: &'a [Row],
    pub(crate) fixed: Vec<i128>,
    pub(crate) lines: Vec<Line>,
    pub(crate) solved: Vec<Solved>,
    /// What a form is made in that takes the place of another.
    spare: Form,
}

/// Whether a variable has to fall so that its term with that coefficient moves that way.
fn falls(coefficient: i128, way: Way) -> bool {
    match way {
        Way::Up => coefficient < 0,
        Way::Down => coefficient >= 0,
    }
}

/// How the value compares with a whole number.
fn compared(value: &Frac, bound: i128) -> Ordering {
    if is_whole(value) {
        num(value).cmp(&bound)
    } else if floor(value) < bound {
        Ordering::Less
    } else {
        Ordering::Greater
    }
}

impl<'a> Tableau<'a> {
    /// The tableau in which all columns are 0.
    pub fn new(alloc: Global, rows: &'a [Row]) -> Result<Self, Stop> {
        let mut lines = Vec::new(alloc);
        push_lines(alloc, &mut lines, rows)?;
        Ok(Tableau {
            alloc,
            rows,
            fixed: Vec::new(alloc),
            lines,
            solved: Vec::new(alloc),
            spare: Vec::new(alloc),
        })
    }

    /// Multipliers that refute the rows, or none: then all rows hold at the values at hand.
    pub fn solve(&mut self, pivots: u32) -> Result<Option<Parts>, Stop> {
        for _pivot in 0..=pivots {
            let Some(violated) = self.first_violated() else {
                return Ok(None);
            };
            match self.movable(violated) {
                Some(term) => self.pivot(violated.place, term)?,
                None => return Ok(Some(self.refutation(violated)?)),
            }
        }
        Err(Stop::Past)
    }

    /// The kind of a row.
    pub(crate) fn kind(&self, row: u32) -> RowKind {
        match self.rows.get(row as usize) {
            Some(row) => row.kind(),
            None => RowKind::Eq,
        }
    }

    /// The bound of a row.
    pub(crate) fn bound(&self, row: u32) -> Result<i128, Stop> {
        if let Some(row) = self.rows.get(row as usize) {
            return Ok(row.bound());
        }
        match (row as usize).checked_sub(self.rows.len()) {
            Some(column) => self.fixed.get(column).copied().ok_or(Stop::Past),
            None => Err(Stop::Past),
        }
    }

    /// Which way the line's value has to move for its row to hold.
    fn way(&self, line: &Line) -> Option<Way> {
        let bound = self.bound(line.row).ok()?;
        match (compared(&line.value, bound), self.kind(line.row)) {
            (Ordering::Greater, _) => Some(Way::Down),
            (Ordering::Less, RowKind::Eq) => Some(Way::Up),
            _ => None,
        }
    }

    /// The line at a place, where its row does not hold.
    pub(crate) fn violated_at(&self, place: Option<usize>) -> Option<Violated> {
        let place = place?;
        let way = self.way(self.lines.get(place)?)?;
        Some(Violated { place, way })
    }

    /// The first row that does not hold.
    pub fn first_violated(&self) -> Option<Violated> {
        let mut first: Option<(u32, Violated)> = None;
        for (place, line) in self.lines.iter().enumerate() {
            let is_before = match first {
                Some((row, _)) => line.row < row,
                None => true,
            };
            if is_before {
                if let Some(way) = self.way(line) {
                    first = Some((line.row, Violated { place, way }));
                }
            }
        }
        Some(first?.1)
    }

    /// Whether a variable may be moved so that its term moves that way. A row that is an inequality may fall below its bound,
    /// and no other row may move.
    fn moves(&self, term: &Term, way: Way) -> bool {
        match term.0 {
            Variable::Column(_) => true,
            Variable::Sum(row) => match self.rows.get(row as usize) {
                Some(row) => row.kind() == RowKind::Le && falls(term.1, way),
                None => false,
            },
        }
    }

    /// The last column that may be moved so that the violated row holds, or the first row, with its coefficient.
    pub fn movable(&self, violated: Violated) -> Option<Term> {
        let line = self.lines.get(violated.place)?;
        let terms = line.form.as_slice();
        let mut found = None;
        for term in terms {
            match term.0 {
                Variable::Column(_) => found = Some(*term),
                Variable::Sum(_) => {
                    if found.is_some() {
                        return found;
                    }
                    if self.moves(term, violated.way) {
                        return Some(*term);
                    }
                }
            }
        }
        found
    }

    /// Moves a variable until the row of the line at that place adds up to its bound. The two change places: the row becomes a
    /// variable.
    pub fn pivot(&mut self, place: usize, by: Term) -> Result<(), Stop> {
        let Some(line) = self.lines.get(place) else {
            return Err(Stop::Past);
        };
        let moved = self.way_to_bound(line, by.1)?;
        let zero = self.take_zero(place)?;
        self.exchange(by, zero, &moved)
    }

    /// Takes a line's form out, with its own row taken away, which is 0. The line is gone.
    fn take_zero(&mut self, place: usize) -> Result<Form, Stop> {
        if place >= self.lines.len() {
            return Err(Stop::Past);
        }
        let Line {
            row,
            form,
            denominator,
            ..
        } = self.lines.swap_remove(place);
        with_own(form, row, denominator)
    }

    /// Takes a variable out of all lines, by a form that is 0, and moves it. It becomes a line, or a column that is solved for.
    fn exchange(&mut self, by: Term, zero: Form, moved: &Frac) -> Result<(), Stop> {
        self.substitute(by, zero.as_slice(), moved)?;
        match by.0 {
            Variable::Column(column) => {
                self.solved.push(Solved { column, zero })?;
                Ok(())
            }
            Variable::Sum(row) => self.take_line(row, by.1, zero, moved),
        }
    }

    /// The line's form with its own row taken away, which is 0.
    pub(crate) fn zero_of(&self, line: &Line) -> Result<Form, Stop> {
        let mut form = Vec::with_capacity(self.alloc, line.form.len().saturating_add(1))?;
        form.extend_from_slice(line.form.as_slice())?;
        with_own(form, line.row, line.denominator)
    }

    /// Takes a variable out of all lines, by a form that is 0 and has that coefficient of it, and moves it.
    fn substitute(&mut self, by: Term, zero: &[Term], moved: &Frac) -> Result<(), Stop> {
        for line in &mut self.lines {
            line.take_out(&mut self.spare, by, zero, moved)?;
        }
        Ok(())
    }

    /// Makes a line of a row that was a variable, by a form that is 0 and has that coefficient of it.
    fn take_line(
        &mut self,
        row: u32,
        coefficient: i128,
        zero: Form,
        moved: &Frac,
    ) -> Result<(), Stop> {
        let mut line = Line {
            row,
            form: zero,
            denominator: coefficient,
            value: *moved,
        };
        self.solve_for_row(&mut line)?;
        add_line(&mut self.lines, line)
    }

    /// Solves a line for its row: so far its form is 0, the denominator is what the form has of the row, and the value is how far the row
    /// was moved from its bound.
    fn solve_for_row(&self, line: &mut Line) -> Result<(), Stop> {
        drop_term(&mut line.form, Variable::Sum(line.row));
        if line.denominator < 0 {
            line.denominator = opposite(line.denominator)?;
        } else {
            negate(&mut line.form)?;
        }
        line.value = added(&whole(self.bound(line.row)?)?, &line.value)?;
        Ok(())
    }

    /// The multipliers that refute, where no variable may be moved for a violated row: its form has no columns, and each row
    /// in it is at its bound and cannot move that way.
    pub fn refutation(&self, violated: Violated) -> Result<Parts, Stop> {
        let Some(line) = self.lines.get(violated.place) else {
            return Err(Stop::Past);
        };
        let sign = match violated.way {
            Way::Up => 1,
            Way::Down => -1,
        };
        let zero = self.zero_of(line)?;
        parts_of(self.alloc, zero.as_slice(), sign)
    }

    /// The values at hand of the columns below a number.
    pub fn point(&self, columns: u32) -> Result<Vec<Frac>, Stop> {
        let mut values = Vec::with_capacity(self.alloc, columns as usize)?;
        if columns > 0 {
            self.push_values(&mut values, columns)?;
        }
        Ok(values)
    }

    /// Adds the values at hand of so many columns at the end: those that were solved for are not 0.
    fn push_values(&self, values: &mut Vec<Frac>, columns: u32) -> Result<(), Stop> {
        push_zeros(values, columns)?;
        let sums = self.sums()?;
        // a form names columns that were solved for later, or never
        for Solved { column, zero } in self.solved.iter().rev() {
            let value = solution(*column, zero.as_slice(), values.as_slice(), &sums)?;
            if let Some(at) = values.get_mut(*column as usize) {
                *at = value;
            }
        }
        Ok(())
    }

    /// What each row adds up to at the values at hand.
    fn sums(&self) -> Result<Vec<Frac>, Stop> {
        let mut sums = Vec::with_capacity(self.alloc, self.rows.len())?;
        self.push_bounds(&mut sums)?;
        for line in &self.lines {
            if let Some(sum) = sums.get_mut(line.row as usize) {
                *sum = line.value;
            }
        }
        Ok(sums)
    }

    /// Adds the bound of each row at the end.
    fn push_bounds(&self, sums: &mut Vec<Frac>) -> Result<(), Stop> {
        for row in self.rows {
            sums.push(whole(row.bound())?)?;
        }
        for value in &self.fixed {
            sums.push(whole(*value)?)?;
        }
        Ok(())
    }
}

/// Adds a line for each row at the end, with the value 0.
fn push_lines(alloc: Global, lines: &mut Vec<Line>, rows: &[Row]) -> Result<(), Stop> {
    lines.reserve(rows.len())?;
    let zero = whole(0)?;
    for (number, row) in rows.iter().enumerate() {
        add_line(lines, line_of(alloc, number, row, zero)?)?;
    }
    Ok(())
}

/// Adds a line at the end.
pub(crate) fn add_line(lines: &mut Vec<Line>, line: Line) -> Result<(), Stop> {
    lines.push(line)?;
    Ok(())
}

/// The form with its own row taken away, which is 0.
fn with_own(mut form: Form, row: u32, denominator: i128) -> Result<Form, Stop> {
    put_term(&mut form, (Variable::Sum(row), opposite(denominator)?))?;
    Ok(form)
}

/// The line of a row, with a value.
fn line_of(alloc: Global, number: usize, row: &Row, value: Frac) -> Result<Line, Stop> {
    let Ok(number) = u32::try_from(number) else {
        return Err(Stop::Past);
    };
    Ok(Line {
        row: number,
        form: form_of(alloc, row)?,
        denominator: 1,
        value,
    })
}

/// The rows of a form, with so many times their coefficients.
fn parts_of(alloc: Global, form: &[Term], sign: i128) -> Result<Parts, Stop> {
    let mut parts = Vec::with_capacity(alloc, form.len())?;
    for (variable, coefficient) in form {
        if let Variable::Sum(row) = variable {
            parts.push((*row, product(sign, *coefficient)?))?;
        }
    }
    Ok(parts)
}

/// Adds so many zeros at the end.
fn push_zeros(values: &mut Vec<Frac>, count: u32) -> Result<(), Stop> {
    let zero = whole(0)?;
    for _ in 0..count {
        values.push(zero)?;
    }
    Ok(())
}

/// The value of the column at which the form is 0.
fn solution(column: Col, zero: &[Term], values: &[Frac], sums: &[Frac]) -> Result<Frac, Stop> {
    let mut rest = whole(0)?;
    for (variable, coefficient) in zero {
        let at = match variable {
            Variable::Column(other) if *other == column => None,
            Variable::Column(other) => values.get(*other as usize),
            Variable::Sum(row) => sums.get(*row as usize),
        };
        if let Some(at) = at {
            rest = added(&rest, &multiplied(&whole(*coefficient)?, at)?)?;
        }
    }
    let own = coefficient_of(zero, Variable::Column(column));
    multiplied(&rest, &ratio(-1, own)?)
}
