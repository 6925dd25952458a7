//! Nested interpolants: from a refutation of the rows of a word the prefix predicates of its positions, and a proved triple for
//! each of its letters.
#![tactic(auto)]

mod making;
pub mod nested_predicates;
pub mod nested_refutations;
mod proved;
pub mod triple_steps;
pub mod triple_walks;

pub use crate::nested_predicates::ItpFault;
pub use making::interpolants;
pub use proved::Interpolants;
