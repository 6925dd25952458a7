//! The automaton of a program: its states are the places of the program and those where assertions fail, and its letters carry acts.
#![tactic(auto)]

mod building;
pub mod call_jumps;
mod faults;
pub mod label_places;
pub mod place_edges;
pub mod program_layout;
pub mod program_walk;
mod programs;

pub use faults::LowerFault;
pub use programs::lower;
