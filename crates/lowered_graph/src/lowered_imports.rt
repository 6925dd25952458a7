//! Calls of procedures without body as single steps of the letters of a program, and what typing says of its points. Definitions and laws alone.
#![tactic(auto)]

pub mod laws;
