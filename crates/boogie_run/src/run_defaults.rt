//! No default of the definitions of steps is taken in a run of a typed program. Definitions and laws alone.
#![tactic(auto)]

pub mod laws;
