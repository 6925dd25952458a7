//! The refutation of a letter's triple, put down along the tree of the word's refutation.
#![tactic(auto)]

mod claims;
mod exposing;
mod goals;
mod leaves;
mod putting;
mod stops;
mod trees;
mod walks;

pub use putting::refutation;
pub use trees::Tree;
