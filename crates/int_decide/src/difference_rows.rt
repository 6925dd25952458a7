//! Rows that bound a column, or the difference of two: their rational solutions can be rounded, so that Decide has an answer to
//! them. Definitions and laws alone.
#![tactic(auto)]

pub mod laws;
