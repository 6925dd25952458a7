//! The trace that a whole solution of a word's rows tells: definitions and laws alone.
#![tactic(auto)]

pub mod laws;
