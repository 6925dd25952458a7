//! What Decide says of the rows of a word: whether it is feasible.
#![tactic(auto)]

mod calls;
mod deciding;
pub mod late_refutations;

pub use deciding::{decide_path, late_path, lemma_path, plain_path};
