//! The race of several workers over one program. Each worker reads what is kept, makes an automaton that removes a kept word and
//! what is kept then, and publishes both against the version that it read, or ends the race. [`race`] runs the workers in threads
//! and answers the closed state, of which the same is promised for every number of workers and every schedule. [`race_from`]
//! does the same where a first entry is given.
#![tactic(auto)]

mod beginning;
mod finishing;
mod gates;
mod jobs;
pub mod kept_words;
mod offering;
mod racing;
mod rounds;
mod splitting;
mod working;

pub use gates::{Gate, Moment, NoGate};
pub use racing::{race, race_from};
