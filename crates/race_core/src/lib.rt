//! The race as one state and its events: workers publish automata of infeasible words against the version that they read, and
//! one of them ends the race. What a state keeps over every list of events is proved here, without a thread.
//! [`Shared`] is the state, [`Shared::apply`] the step, [`laws`] what is true of steps.
#![tactic(auto)]

mod ends;
mod events;
mod evidence;
pub mod laws;
mod opening;
mod races;

pub use ends::{Cause, End, EndKind};
pub use events::{Entry, Event, FinishRefused, Outcome, Refused, Why};
pub use evidence::Evidence;
pub use opening::shared;
pub use races::Shared;
