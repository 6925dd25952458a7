//! What is kept of a program's words when an automaton of infeasible words is published.
#![tactic(auto)]

mod keeping;
pub mod laws;

pub use keeping::without;
