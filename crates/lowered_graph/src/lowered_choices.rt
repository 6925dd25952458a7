//! The choices of a run of a program, told of a trace in its graph: definitions and laws alone.
#![tactic(auto)]

pub mod laws;
