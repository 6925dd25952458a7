//! A simplex over rows with exact fractions: rows that no rational point meets are mostly refuted by multipliers after a few
//! pivots, and others are mostly met by a point. What it finds is a proposal, to be checked by whoever takes it.
#![tactic(auto)]

mod forms;
mod holding;
mod numbers;
mod picking;
mod solving;
mod tableau;
mod types;

pub use picking::try_pick;
pub use solving::try_solve;
pub use types::{Found, Parts, Picked};
