//! Rows over the columns of frames: rows whose columns get other numbers, columns that are equal, and the bounds of booleans;
//! and the columns of a frame by what they are.
#![tactic(auto)]

mod columns;
mod frames;
mod rows;

pub use columns::add_columns;
pub use frames::{Class, numbers_of, types_at, types_in, types_of};
pub use rows::{bound_rows, equal_row, fitting_row, renamed_row, renamed_rows};
