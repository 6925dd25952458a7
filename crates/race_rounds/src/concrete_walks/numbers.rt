//! The numbers of a walk.

use crate::concrete_walks::choices::Choices;
use crate::concrete_walks::columns::Columns;
use crate::concrete_walks::letters::{
    Entry, Form, Kind, Letters, Procedure, Rest, Says, Span, Step, members,
};
use crate::concrete_walks::loops::mixed;
use std::alloc::{AllocError, Global};

/// The numbers of all frames, those of a callee behind those of its caller, and behind the present frame what a letter seeks.
#[derive(Drop)]
pub(crate) struct Numbers {
    columns: Columns,
    /// Where the present frame begins.
    base: usize,
    /// Where the frames before the open calls begin, the last opened at the end.
    callers: Vec<usize>,
}

impl Numbers {
    /// No numbers.
    pub fn new(alloc: Global) -> Self {
        Numbers {
            columns: Columns::new(alloc),
            base: 0,
            callers: Vec::new(alloc),
        }
    }

    /// The start's frame gets free numbers.
    pub fn start(&mut self, letters: &Letters, choices: &mut Choices) -> Result<(), AllocError> {
        self.base = 0;
        self.callers.clear();
        self.columns.make_room(letters.widest())?;
        if let Some(form) = letters.start() {
            for step in members(&letters.steps, form.steps) {
                self.start_with(letters, choices, step);
            }
        }
        Ok(())
    }

    /// The numbers of all frames, of which the present one has so many columns, mixed in.
    pub fn mixed_in(&self, mix: i128, width: usize) -> i128 {
        let mut mix = mix;
        for &base in self.callers.as_slice() {
            mix = mixed(mix, base as i128);
        }
        for place in 0..self.base.saturating_add(width) {
            mix = mixed(mix, self.columns.get(place).unwrap_or(0));
        }
        mix
    }

    /// Adds the numbers that the start makes: one for each column of its frame.
    pub fn add_made_at_start(
        &self,
        letters: &Letters,
        made: &mut Vec<i128>,
    ) -> Result<(), AllocError> {
        match letters.start() {
            Some(form) => self.add_made(0, form.all, made),
            None => Ok(()),
        }
    }

    /// Adds the numbers that a letter has made which was taken just now, in the order of the columns that it makes in the rows of a word:
    /// an inside letter makes what it writes, and its helpers; a call the locals of the callee, the helpers, and the callee's old columns.
    pub fn add_made_by(
        &self,
        letters: &Letters,
        letter: u32,
        made: &mut Vec<i128>,
    ) -> Result<(), AllocError> {
        let Some(form) = letters.form(letter) else {
            return Ok(());
        };
        match &form.kind {
            Kind::Inside => self.add_made(form.known, form.all, made),
            Kind::Call(callee) => {
                let locals = letters.locals(callee);
                self.add_made(locals, form.all.saturating_sub(form.known), made)?;
                self.add_made(callee.globals.len(), locals, made)
            }
            Kind::Back(_) | Kind::Missing => Ok(()),
        }
    }

    /// Adds the numbers of columns of the present frame, or behind it, from one up to another.
    fn add_made(&self, first: usize, end: usize, made: &mut Vec<i128>) -> Result<(), AllocError> {
        for column in first..end {
            made.push(self.number(column).unwrap_or(0))?;
        }
        Ok(())
    }

    /// Takes a step of the start, which gives a column its number.
    fn start_with(&mut self, letters: &Letters, choices: &mut Choices, step: &Step) {
        match step {
            Step::Free { column, ty } => self.columns.set(*column, choices.value(*ty)),
            _ => {
                let _number = self.take_any_step(letters, choices, step);
            }
        }
    }

    /// Takes a letter, where its rows can be met; otherwise the numbers of the frames stay.
    pub fn take(
        &mut self,
        letters: &Letters,
        choices: &mut Choices,
        letter: u32,
    ) -> Result<bool, AllocError> {
        let Some(form) = letters.form(letter) else {
            return Ok(false);
        };
        if let Kind::Call(callee) = &form.kind {
            self.enter(letters, choices, callee, self.callee_base(form));
        }
        if !self.take_steps(letters, choices, form.steps) {
            return Ok(false);
        }
        match &form.kind {
            Kind::Inside => {
                if !form.moves.is_empty() {
                    self.give(letters, form.moves, self.base);
                }
                Ok(true)
            }
            Kind::Call(_) => {
                self.callers.push(self.base)?;
                self.base = self.callee_base(form);
                let end = self.base.saturating_add(letters.widest());
                self.columns.make_room(end)?;
                Ok(true)
            }
            Kind::Back(callee) => Ok(self.take_back(letters, form, callee)),
            Kind::Missing => Ok(false),
        }
    }

    /// Where the callee's frame begins at a call: behind the present one, where what is sought begins.
    fn callee_base(&self, form: &Form) -> usize {
        self.base.saturating_add(form.known)
    }

    /// The columns of a callee, whose frame begins there, get their numbers, but for those that its call seeks.
    fn enter(
        &mut self,
        letters: &Letters,
        choices: &mut Choices,
        callee: &Procedure,
        frame: usize,
    ) {
        let entries = members(&letters.entries, callee.entries);
        for (column, entry) in entries.iter().enumerate() {
            let place = frame.wrapping_add(column);
            match *entry {
                Entry::Global(global) => self.columns.copy(self.base.wrapping_add(global), place),
                Entry::Free(ty) => self.columns.set(place, choices.value(ty)),
                Entry::Sought => {}
            }
        }
    }

    /// A return: the caller's frame gets the globals, and into the targets the results of the callee.
    fn take_back(&mut self, letters: &Letters, form: &Form, callee: &Procedure) -> bool {
        let Some(caller) = self.callers.pop() else {
            return false;
        };
        self.give(letters, callee.globals, caller);
        self.give(letters, form.moves, caller);
        self.base = caller;
        true
    }

    /// Moves numbers of the present frame, and of what was found behind it, to the frame that begins there.
    fn give(&mut self, letters: &Letters, moves: Span, frame: usize) {
        for &(column, target) in members(&letters.moves, moves) {
            self.columns
                .copy(self.base.wrapping_add(column), frame.wrapping_add(target));
        }
    }

    /// The number of a column of the present frame, or behind it.
    fn number(&self, column: usize) -> Option<i128> {
        self.columns.get(self.base.wrapping_add(column))
    }

    /// Gives a column of the present frame, or behind it, its number.
    fn set(&mut self, column: usize, number: i128) {
        self.columns.set(self.base.wrapping_add(column), number);
    }

    /// Takes steps; false where a row cannot hold, or a number does not fit.
    fn take_steps(&mut self, letters: &Letters, choices: &mut Choices, steps: Span) -> bool {
        let all = letters.steps.as_slice();
        for at in steps.first..steps.end {
            if let Some(step) = all.get(at) {
                if !self.take_step(letters, choices, step) {
                    return false;
                }
            }
        }
        true
    }

    /// Takes one step. Nearly all are free numbers and narrow rows over numbers that are not wide: these are taken here, and the others
    /// apart.
    fn take_step(&mut self, letters: &Letters, choices: &mut Choices, step: &Step) -> bool {
        let (left, says) = match step {
            Step::Short { pair, says, .. } => (self.columns.pair_left(self.base, pair), says),
            Step::Row { rest, says } if rest.is_narrow => {
                let terms = letters.narrow_terms.as_slice();
                let left = self
                    .columns
                    .narrow_left(self.base, rest.bound, terms, rest.terms);
                (left, says)
            }
            Step::Free { column, ty } => {
                self.set(*column, choices.value(*ty));
                return true;
            }
            _ => return self.take_any_step(letters, choices, step).is_some(),
        };
        match left {
            Some(left) => self.use_narrow(says, left),
            None => self.take_any_step(letters, choices, step).is_some(),
        }
    }

    /// Whether what is left of a bound is as the row says; a column may get its number so. What is left is that of a narrow row, so that
    /// its opposite fits.
    fn use_narrow(&mut self, says: &Says, left: i128) -> bool {
        match says {
            Says::NotNegative => left >= 0,
            Says::Zero => left == 0,
            Says::Forces {
                column,
                coefficient,
            } => match *coefficient {
                1 => {
                    self.set(*column, left);
                    true
                }
                -1 => {
                    self.set(*column, left.wrapping_neg());
                    true
                }
                _ => self.force(*column, *coefficient, left),
            },
        }
    }

    /// Gives a column the whole number that times the coefficient is that number, if there is one.
    fn force(&mut self, column: usize, coefficient: i128, number: i128) -> bool {
        match quotient(number, coefficient) {
            Some(number) => {
                self.set(column, number);
                true
            }
            None => false,
        }
    }

    /// Takes one step, of whatever kind and with whatever numbers.
    fn take_any_step(
        &mut self,
        letters: &Letters,
        choices: &mut Choices,
        step: &Step,
    ) -> Option<()> {
        let holds = match step {
            Step::Copied { column, from } => {
                let number = self.number(*from)?;
                self.set(*column, number);
                true
            }
            Step::Free { column, ty } => {
                self.set(*column, choices.value(*ty));
                true
            }
            Step::Row { rest, says } | Step::Short { rest, says, .. } => {
                let left = self.left(letters, rest)?;
                match says {
                    Says::NotNegative => left >= 0,
                    Says::Zero => left == 0,
                    Says::Forces {
                        column,
                        coefficient,
                    } => self.force(*column, *coefficient, left),
                }
            }
            Step::Chosen { column, ty, bounds } => {
                let (low, high) = self.bounds(letters, *bounds)?;
                self.set(*column, choices.value_within(*ty, low, high)?);
                true
            }
            Step::IsBoolean { column } => {
                let number = self.number(*column)?;
                number == 0 || number == 1
            }
        };
        if holds { Some(()) } else { None }
    }

    /// What is left of a bound, whatever the row and the numbers; None where a number does not fit.
    fn left(&self, letters: &Letters, rest: &Rest) -> Option<i128> {
        let mut left = rest.bound;
        for &(column, coefficient) in members(&letters.terms, rest.terms) {
            let number = self.number(column)?;
            left = match coefficient {
                1 => left.checked_sub(number)?,
                -1 => left.checked_add(number)?,
                _ => left.checked_sub(coefficient.checked_mul(number)?)?,
            };
        }
        Some(left)
    }

    /// The least and the greatest number that inequalities leave to a column.
    fn bounds(&self, letters: &Letters, bounds: Span) -> Option<(Option<i128>, Option<i128>)> {
        let mut low = None;
        let mut high = None;
        for (coefficient, rest) in members(&letters.bounds, bounds) {
            let end = floor(self.left(letters, rest)?, *coefficient)?;
            if *coefficient > 0 {
                high = Some(match high {
                    Some(other) => end.min(other),
                    None => end,
                });
            } else {
                low = Some(match low {
                    Some(other) => end.max(other),
                    None => end,
                });
            }
        }
        Some((low, high))
    }
}

/// The number through the coefficient, so that the remainder is not negative; None where it does not fit.
fn floor(number: i128, coefficient: i128) -> Option<i128> {
    match coefficient {
        1 => Some(number),
        -1 => number.checked_neg(),
        _ => number.checked_div_euclid(coefficient),
    }
}

/// The whole number that times the coefficient is that number, if there is one.
fn quotient(number: i128, coefficient: i128) -> Option<i128> {
    match coefficient {
        1 => Some(number),
        -1 => number.checked_neg(),
        _ => match (i64::try_from(number), i64::try_from(coefficient)) {
            (Ok(number), Ok(coefficient)) => narrow_quotient(number, coefficient),
            _ => wide_quotient(number, coefficient),
        },
    }
}

/// The same for numbers that are not wide.
fn narrow_quotient(number: i64, coefficient: i64) -> Option<i128> {
    if number.checked_rem(coefficient)? == 0 {
        Some(i128::from(number.checked_div(coefficient)?))
    } else {
        None
    }
}

/// The same for numbers that may be wide.
fn wide_quotient(number: i128, coefficient: i128) -> Option<i128> {
    let quotient = number.checked_div_euclid(coefficient)?;
    if coefficient.checked_mul(quotient)? == number {
        Some(quotient)
    } else {
        None
    }
}
