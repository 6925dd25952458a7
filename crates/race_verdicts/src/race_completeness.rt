//! When a race comes to an end that says nothing is known. Definitions and laws alone.
#![tactic(auto)]

pub mod laws;
