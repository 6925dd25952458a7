//! Cuts a typed program into parts, one for each procedure with a body, in which calls are taken by the specification of what they call.
#![tactic(auto)]

mod cutting;
mod free;
pub mod laws;
mod procedures;
mod recalling;

pub use cutting::{CutFault, Part, cut};
