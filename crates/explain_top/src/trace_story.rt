//! The traces of which nothing is known: their texts, read, and their stories, told in the words of the program's text.
#![tactic(auto)]

pub mod laws;
mod reading;
mod sites;
mod telling;
mod traces;

pub use reading::read_trace;
pub use telling::trace_story;
pub use traces::{ToldFault, Trace, TraceFault};
