//! The refutations of a word's triples that a refutation of its rows gives, and which numbers they have. The laws stand in
//! [`laws`].
#![tactic(auto)]

pub mod laws;
