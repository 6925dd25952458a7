//! The state of a race as several threads share it. Each worker has a [`Pass`], which carries what it knows: the history that it
//! has seen, and its own entries and end. A call wins the turn, takes the state out of the one slot, asks it, puts it back and
//! frees the turn, so what the state answers is what it answers without threads.
#![tactic(auto)]

mod board;
mod cells;
mod opening;
mod passes;
mod turns;

pub use cells::{Snapshot, VersionCell};
pub use opening::create;
pub use passes::Pass;
