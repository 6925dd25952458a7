//! Annotations from certified automata: an unwinding of the graph by predicates, and what unwindings are worth.
#![tactic(auto)]

mod building;
pub mod laws;
mod listing;
mod needs;
mod noted;
mod numbers;
pub mod proof_lean;
pub mod proof_unwind;
mod spots;
mod triples;
mod unions;

pub use building::build;
