//! Expressions of the tree that stand nowhere in a text, put together: operations, long chains of them, and conjunctions.
#![tactic(auto)]

mod building;
pub mod laws;
mod members;

pub use building::{NOWHERE, chained, expression, not, number, old, operation, truth, variable};
pub use members::{Members, add_either};
