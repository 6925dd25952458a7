//! The steps of a word's letters: what the system of each letter's triple says of which predicates, what multiplier each of its
//! rows has in the refutation, and where the word's columns stand in it.
#![tactic(auto)]

mod bounds;
mod classes;
mod columns;
mod letters;
mod making;
mod readings;
mod sections;
mod ties;

pub use columns::Columns;
pub use making::{Step, steps};
pub use sections::{Section, Tie};
