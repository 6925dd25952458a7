//! Values for columns that are free.

use boogie_tree::Ty;
use letter_acts::{Act, Icfg};
use lin_rows::Row;
use math_facts::random_numbers::Random;
use std::alloc::{AllocError, Global};

/// What a walk chooses by: a generator, and the numbers of the program's rows.
#[derive(Drop)]
pub(crate) struct Choices {
    random: Random,
    /// The bounds of rows and their opposites, each with the numbers beside it.
    numbers: Vec<i128>,
}

impl Choices {
    /// The choices of a seed in a program.
    pub fn new(alloc: Global, icfg: &Icfg, seed: u64) -> Result<Self, AllocError> {
        let mut bounds = Vec::new(alloc);
        for act in icfg.acts() {
            add_bounds(&mut bounds, rows_of(act))?;
        }
        bounds.sort_unstable();
        bounds.dedup();
        let mut numbers = Vec::new(alloc);
        for &bound in bounds.as_slice() {
            add_around(&mut numbers, bound)?;
        }
        Ok(Choices {
            random: Random::new(seed),
            numbers,
        })
    }

    /// What is chosen next depends on this alone.
    pub fn mark(&self) -> Random {
        self.random
    }

    /// Goes back to where that was what is chosen next.
    pub fn go_back(&mut self, mark: Random) {
        self.random = mark;
    }

    /// A number below a count; 0 where the count is 0 or 1.
    pub fn below(&mut self, count: usize) -> usize {
        if count < 2 {
            return 0;
        }
        part(self.random.next(), count)
    }

    /// A value for a column of that type that is free: 0 or 1 of a boolean one; else 0, 1, 2 or -1, or a number of the program's
    /// rows, or one beside it.
    pub fn value(&mut self, ty: Ty) -> i128 {
        let drawn = self.random.next();
        // the highest bit is not among those that say which number it is
        let (first, rest) = (drawn >> 63, drawn << 1);
        if ty == Ty::Bool {
            return i128::from(first);
        }
        if first == 0 {
            return i128::from(rest >> 62) - 1;
        }
        let place = part(rest, self.numbers.len());
        self.numbers.get(place).copied().unwrap_or(0)
    }

    /// A value between two bounds, where there is one: a free one that lies there, else the bound that is nearest to it.
    pub fn value_within(&mut self, ty: Ty, low: Option<i128>, high: Option<i128>) -> Option<i128> {
        let mut value = self.value(ty);
        if let Some(low) = low {
            value = value.max(low);
        }
        if let Some(high) = high {
            value = value.min(high);
        }
        match low {
            Some(low) if value < low => None,
            _ => Some(value),
        }
    }
}

/// The rows of an act.
fn rows_of(act: &Act) -> &[Row] {
    match act {
        Act::Inside { rows, .. } => rows.as_slice(),
        Act::Call { rows, .. } => rows.as_slice(),
        Act::Back { .. } => &[],
    }
}

/// The number below a count that is the same part of it as the random number is of 2^64.
fn part(random: u64, count: usize) -> usize {
    (u128::from(random).wrapping_mul(count as u128) >> 64) as usize
}

/// Adds a number and those beside it.
fn add_around(numbers: &mut Vec<i128>, number: i128) -> Result<(), AllocError> {
    numbers.push(number.saturating_sub(1))?;
    numbers.push(number)?;
    numbers.push(number.saturating_add(1))?;
    Ok(())
}

/// Adds the bounds of rows and their opposites.
fn add_bounds(constants: &mut Vec<i128>, rows: &[Row]) -> Result<(), AllocError> {
    for row in rows {
        let bound = row.bound();
        constants.push(bound)?;
        constants.push(bound.checked_neg().unwrap_or(bound))?;
    }
    Ok(())
}
