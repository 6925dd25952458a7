//! Nested word automata made deterministic while words are read: states are sets of pairs, which are kept once and named by
//! numbers (Alur and Madhusudan, 2009).
#![tactic(auto)]

mod kept;
pub mod laws;
mod making;
mod notes;

pub use kept::Det;
pub use making::det;
