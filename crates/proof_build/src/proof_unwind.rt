//! The unwinding of a program's automaton over predicates: nodes, and the steps between them.
#![tactic(auto)]

mod candidates;
mod exits;
mod following;
mod joining;
pub mod laws;
mod opening;
mod ordering;
mod search;
mod spots;
mod stepping;
mod unwinding;

pub use ordering::by_place;
pub(crate) use search::added;
pub use spots::{Spot, spot_at};
pub use unwinding::{Unwound, unwind};
