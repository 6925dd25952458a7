//! Rows over whole numbers as expressions, where a clause of a procedure stands: which columns can be said there, and how.
#![tactic(auto)]

mod cases;
pub mod laws;
mod rows;
mod scopes;
mod sums;

pub use rows::add_row;
pub use scopes::{Position, Scope, Voice};
