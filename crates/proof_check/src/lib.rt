//! The check of an annotation against the graph of a program: where it proves the graph, no accepted word of the graph is
//! feasible.
#![tactic(auto)]

mod checking;
mod covering;
mod index;
mod places;
mod plan;
mod refuting;
mod rejects;
mod sound;

pub use checking::{check, named_proof};
pub use rejects::{Reject, RejectCause};
