use frac::{Frac, Past};
use std::alloc::{AllocError, AllocFailed};

/// Row numbers, ascending, with multipliers.
pub type Parts = Vec<(u32, i128)>;

/// What is proposed of rows.
#[derive(Drop)]
pub enum Found {
    /// The multipliers by which the rows as they are given are to add up to `0 <= c` with `c < 0`.
    Refuted(Parts),
    /// The values of a point that is to meet the rows, one for each column.
    Point(Vec<Frac>),
}

/// What is proposed of the picked point of rows.
#[derive(Drop)]
pub enum Picked {
    /// As of `Found`.
    Refuted(Parts),
    /// A point, and what is to show that its values are picked.
    Point {
        /// A value for each column. The first that is not whole is that of the first column which has no whole number.
        values: Vec<Frac>,
        /// For each column before that one the parts that are to refute the rows, those that fix the columns before it at their
        /// values, and one that says that its value is nearer to 0, numbered in this order; none for the value 0. Then, for the
        /// column whose value is not whole, the parts that refute that it is at most the whole number below, and that it is at least
        /// the one above.
        shown: Vec<Parts>,
    },
}

/// Why nothing is proposed.
#[derive(Drop)]
pub(crate) enum Stop {
    /// A number would not fit.
    Past,
    /// Memory ran out.
    Memory(AllocError),
}

impl From<Past> for Stop {
    fn from(_p: Past) -> Stop {
        Stop::Past
    }
}

impl From<AllocError> for Stop {
    fn from(e: AllocError) -> Stop {
        Stop::Memory(e)
    }
}

impl<T: Drop> From<AllocFailed<T>> for Stop {
    fn from(f: AllocFailed<T>) -> Stop {
        Stop::Memory(AllocError::from(f))
    }
}
