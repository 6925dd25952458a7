//! Automata of predicates: certified, so that they accept no feasible word, and saturated.
#![tactic(auto)]

mod assembling;
mod automata;
mod building;
mod counting;
mod edges;
mod equality;
mod faults;
mod finding;
pub mod laws;
mod letters;
mod listing;
mod making;
mod saturating;
mod settling;
mod sources;
mod states;

pub use automata::Certified;
pub use building::build;
pub use faults::BuildFault;
pub use finding::{Predicates, state_of};
pub use making::certified;
pub use saturating::saturate;
