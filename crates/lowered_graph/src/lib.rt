//! The graph of a program: its places, the letters of their edges, and the items that cannot be lowered. Definitions and laws alone.
#![tactic(auto)]

pub mod laws;
pub mod lowered_choices;
pub mod lowered_imports;
pub mod lowered_parts;
pub mod lowered_runs;
pub mod lowered_steps;
