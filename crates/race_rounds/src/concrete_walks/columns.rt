//! The numbers of columns, where those that fit 64 bits stand apart: they are nearly all, and sums of them cost much less.

use crate::concrete_walks::letters::{Pair, Span};
use std::alloc::{AllocError, Global};

/// What stands in place of a number that is wide.
const WIDE: i64 = i64::MIN;

/// Numbers of columns by their places.
#[derive(Drop)]
pub(crate) struct Columns {
    narrow: Vec<i64>,
    /// As many. What stands at a place counts where the other number there is `WIDE`.
    wide: Vec<i128>,
}

impl Columns {
    /// None.
    pub fn new(alloc: Global) -> Self {
        Columns {
            narrow: Vec::new(alloc),
            wide: Vec::new(alloc),
        }
    }

    /// Makes room for so many; new ones are 0.
    pub fn make_room(&mut self, count: usize) -> Result<(), AllocError> {
        if self.narrow.len() < count {
            self.narrow.resize(count, 0)?;
            self.wide.resize(count, 0)?;
        }
        Ok(())
    }

    /// The number at a place.
    pub fn get(&self, place: usize) -> Option<i128> {
        match self.narrow.get(place) {
            Some(&WIDE) => self.wide.get(place).copied(),
            Some(&number) => Some(i128::from(number)),
            None => None,
        }
    }

    /// Puts a number at a place.
    pub fn set(&mut self, place: usize, number: i128) {
        match i64::try_from(number) {
            Ok(number) if number != WIDE => self.set_narrow(place, number),
            _ => self.set_wide(place, number),
        }
    }

    /// Puts a number that is not wide at a place.
    fn set_narrow(&mut self, place: usize, number: i64) {
        if let Some(at) = self.narrow.get_mut(place) {
            *at = number;
        }
    }

    /// Puts a wide number at a place.
    fn set_wide(&mut self, place: usize, number: i128) {
        self.set_narrow(place, WIDE);
        if let Some(at) = self.wide.get_mut(place) {
            *at = number;
        }
    }

    /// Puts the number at a place also at another.
    pub fn copy(&mut self, from: usize, to: usize) {
        match self.narrow.get(from) {
            Some(&WIDE) => self.copy_wide(from, to),
            Some(&number) => self.set_narrow(to, number),
            None => {}
        }
    }

    /// The same for a wide number.
    fn copy_wide(&mut self, from: usize, to: usize) {
        if let Some(number) = self.wide.get(from).copied() {
            self.set_wide(to, number);
        }
    }

    /// What is left of a bound when products of coefficients with the numbers of the frame that begins there are taken away, where none
    /// of these is wide. The sum has to fit.
    pub fn narrow_left(
        &self,
        frame: usize,
        bound: i128,
        all: &[(usize, i64)],
        terms: Span,
    ) -> Option<i128> {
        let numbers = self.narrow.as_slice();
        let mut left = bound;
        for at in terms.first..terms.end {
            let &(column, coefficient) = all.get(at)?;
            match numbers.get(frame.wrapping_add(column)) {
                Some(&number) if number != WIDE => {
                    left = left.wrapping_sub(product(coefficient, number));
                }
                _ => return None,
            }
        }
        Some(left)
    }

    /// The same for a pair.
    pub fn pair_left(&self, frame: usize, pair: &Pair) -> Option<i128> {
        let numbers = self.narrow.as_slice();
        let first = numbers.get(frame.wrapping_add(pair.first));
        let second = numbers.get(frame.wrapping_add(pair.second));
        match (first, second) {
            (Some(&first), Some(&second)) if first != WIDE && second != WIDE => Some(
                i128::from(pair.bound)
                    .wrapping_sub(product(pair.first_coefficient, first))
                    .wrapping_sub(product(pair.second_coefficient, second)),
            ),
            _ => None,
        }
    }
}

/// The product of two numbers that are not wide, which fits.
fn product(coefficient: i64, number: i64) -> i128 {
    i128::from(coefficient).wrapping_mul(i128::from(number))
}
