//! Runs of programs by rules, and that the steps of `boogie_run` are such runs. Definitions and laws alone.
#![tactic(auto)]

pub mod laws;
