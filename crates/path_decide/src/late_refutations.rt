//! Refutations of rows by the last rows that refute: what their leaves do not need is dropped, the first rows first. The new
//! ones are proposals, which are checked before they are taken.
#![tactic(auto)]

mod bounds;
mod chains;
mod dropping;
mod late_trees;
mod leaves;
mod lemma_trees;
mod lines;
mod orders;
mod refuting;
mod searching;
mod shrinking;
mod types;
mod users;

pub use late_trees::late;
pub use lemma_trees::{Calls, lemmas};
