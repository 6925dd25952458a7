//! The predicates of an earlier annotation, proved anew on another program: the automaton of the triples that hold.
#![tactic(auto)]

mod choosing;
mod common;
mod finding;
mod founds;
mod limits;
mod lines;
mod numbers;
mod picking;
mod reusing;
mod sets;
mod settling;
mod taking;

pub use common::first;
pub use reusing::reuse;
