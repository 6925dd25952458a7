//! Whether a nested word automaton accepts a word, and which.
#![tactic(auto)]

mod finding;
pub mod laws;
mod search;
mod spelling;
mod stepping;

pub use finding::{Found, find};
