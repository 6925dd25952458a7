//! Columns that are moved towards values, and kept there.

use crate::forms::{Form, Term, Variable, coefficient_of};
use crate::numbers::{less, multiplied, product, ratio, whole};
use crate::tableau::{Line, Solved, Tableau, Violated, add_line};
use crate::types::{Parts, Stop};
use frac::{Frac, cmp, num};
use lin_rows::{Col, RowKind};
use std::cmp::Ordering;

impl<'a> Tableau<'a> {
    /// The number of the row that fixes a column.
    pub fn fixing(&self, column: Col) -> Result<u32, Stop> {
        match u32::try_from(self.rows.len()) {
            Ok(count) => count.checked_add(column).ok_or(Stop::Past),
            Err(_) => Err(Stop::Past),
        }
    }

    /// Says the value of the next column.
    pub fn fix(&mut self, value: i128) -> Result<(), Stop> {
        self.fixed.push(value)?;
        Ok(())
    }

    /// The value of a column that is said.
    pub fn fixed_at(&self, column: Col) -> Result<i128, Stop> {
        self.fixed.get(column as usize).copied().ok_or(Stop::Past)
    }

    /// Says another value of the last column.
    pub fn move_aim(&mut self, value: i128) -> Result<(), Stop> {
        let _before = self.fixed.pop();
        self.fix(value)
    }

    /// Keeps a column from moving, which has the value that is said.
    pub fn hold(&mut self, column: Col) -> Result<(), Stop> {
        self.aim(column)?;
        self.pin(column)
    }

    /// Takes up the row that fixes a column.
    pub fn aim(&mut self, column: Col) -> Result<(), Stop> {
        let line = self.fixed_line(column)?;
        add_line(&mut self.lines, line)
    }

    /// The line of the row that fixes a column, over the variables of the forms, with the value at hand.
    fn fixed_line(&self, column: Col) -> Result<Line, Stop> {
        let (row, value) = (self.fixing(column)?, whole(0)?);
        let form = Form::from_slice(self.alloc, &[(Variable::Column(column), 1)])?;
        let mut line = Line {
            row,
            form,
            denominator: 1,
            value,
        };
        self.take_variables_out(&mut line)?;
        Ok(line)
    }

    /// Takes out of a line what is no variable of the forms, and gives it the value at hand.
    fn take_variables_out(&self, line: &mut Line) -> Result<(), Stop> {
        let mut spare = Vec::new(self.alloc);
        for Solved { column, zero } in &self.solved {
            line.substitute(&mut spare, Variable::Column(*column), zero.as_slice())?;
        }
        for other in &self.lines {
            self.take_row_out(line, other, &mut spare)?;
        }
        line.value = self.value_at_hand(line)?;
        Ok(())
    }

    /// Takes the row of another line out of a line. The form is overwritten.
    fn take_row_out(&self, line: &mut Line, other: &Line, spare: &mut Form) -> Result<(), Stop> {
        let variable = Variable::Sum(other.row);
        if coefficient_of(line.form.as_slice(), variable) == 0 {
            return Ok(());
        }
        let zero = self.zero_of(other)?;
        line.substitute(spare, variable, zero.as_slice())
    }

    /// The value of a line at the values of its variables.
    fn value_at_hand(&self, line: &Line) -> Result<Frac, Stop> {
        let mut sum: i128 = 0;
        for (variable, coefficient) in line.form.as_slice() {
            if let Variable::Sum(row) = variable {
                let Some(next) = sum.checked_add(product(*coefficient, self.bound(*row)?)?) else {
                    return Err(Stop::Past);
                };
                sum = next;
            }
        }
        ratio(sum, line.denominator)
    }

    /// The place of the line of the row that fixes a column.
    fn place_of(&self, column: Col) -> Result<Option<usize>, Stop> {
        let row = self.fixing(column)?;
        for (place, line) in self.lines.iter().enumerate() {
            if line.row == row {
                return Ok(Some(place));
            }
        }
        Ok(None)
    }

    /// The value at hand of the column whose row was taken up last.
    pub fn value_of(&self, column: Col) -> Result<Frac, Stop> {
        match self.place_of(column)? {
            Some(place) => match self.lines.get(place) {
                Some(line) => Ok(line.value),
                None => Err(Stop::Past),
            },
            None => whole(self.fixed_at(column)?),
        }
    }

    /// Moves a column whose row is taken up as far as all rows hold, at most to the value that is said. None where it has that value then,
    /// else the parts that show that it goes no farther.
    pub fn reach(&mut self, column: Col, pivots: u32) -> Result<Option<Parts>, Stop> {
        for _pivot in 0..=pivots {
            let Some(violated) = self.violated_at(self.place_of(column)?) else {
                return Ok(None);
            };
            match self.movable(violated) {
                Some(term) => self.move_some(violated, term)?,
                None => return Ok(Some(self.end_parts(violated)?)),
            }
        }
        Err(Stop::Past)
    }

    /// The multipliers that refute that the column goes farther, the last of them positive.
    fn end_parts(&self, violated: Violated) -> Result<Parts, Stop> {
        let mut parts = self.refutation(violated)?;
        if let Some(last) = parts.as_mut_slice().last_mut() {
            last.1 = last.1.saturating_abs();
        }
        Ok(parts)
    }

    /// Moves a variable until the line has the bound of its row, or the first other row would not hold any more. That row becomes a
    /// variable.
    fn move_some(&mut self, violated: Violated, by: Term) -> Result<(), Stop> {
        let Some(line) = self.lines.get(violated.place()) else {
            return Err(Stop::Past);
        };
        let mut first = violated.place();
        let mut coefficient = by.1;
        let mut least = self.way_to_bound(line, by.1)?;
        let rises = num(&least) > 0;
        for (place, other) in self.lines.iter().enumerate() {
            let own = coefficient_of(other.form.as_slice(), by.0);
            if own == 0 || place == violated.place() {
                continue;
            }
            if self.kind(other.row) == RowKind::Le && (own > 0) != rises {
                continue;
            }
            let way = self.way_to_bound(other, own)?;
            let nearer = if rises {
                Ordering::Less
            } else {
                Ordering::Greater
            };
            if cmp(&way, &least)? == nearer {
                (first, coefficient, least) = (place, own, way);
            }
        }
        self.pivot(first, (by.0, coefficient))
    }

    /// How far the variable with that coefficient moves until the line has the bound of its row.
    pub(crate) fn way_to_bound(&self, line: &Line, coefficient: i128) -> Result<Frac, Stop> {
        let missing = less(self.bound(line.row)?, &line.value)?;
        multiplied(&missing, &ratio(line.denominator, coefficient)?)
    }

    /// Makes a variable of the row that fixes a column, which has the value that is said. It is forced where no other may move.
    pub fn pin(&mut self, column: Col) -> Result<(), Stop> {
        let Some(place) = self.place_of(column)? else {
            return Ok(());
        };
        match self.free_at(place) {
            Some(term) => self.pivot(place, term),
            None => {
                self.drop_line(place);
                Ok(())
            }
        }
    }

    /// The first variable of a line that may move at all, with its coefficient.
    fn free_at(&self, place: usize) -> Option<Term> {
        for term in self.lines.get(place)?.form.as_slice() {
            if self.is_free(term.0) {
                return Some(*term);
            }
        }
        None
    }

    /// Whether a variable may move at all.
    fn is_free(&self, variable: Variable) -> bool {
        match variable {
            Variable::Column(_) => true,
            Variable::Sum(row) => self.kind(row) == RowKind::Le,
        }
    }

    /// Drops a line.
    pub(crate) fn drop_line(&mut self, place: usize) {
        if place < self.lines.len() {
            let _forced = self.lines.swap_remove(place);
        }
    }
}
