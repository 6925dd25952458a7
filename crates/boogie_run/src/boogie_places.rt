//! The places of a program: its points in the order of the text, their numbers, and where the points lead. Definitions and laws alone.
#![tactic(auto)]

pub mod laws;
