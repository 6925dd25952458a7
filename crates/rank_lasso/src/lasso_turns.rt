//! Turns: the rows of a list of inside letters of one procedure, begun at any state of its frame; and what refutations of them show.
#![tactic(auto)]

mod claims;
pub mod laws;
mod made;
mod turns;

pub use claims::{refutes_turn, shows_bound, shows_fall};
pub use made::MadeTurn;
pub use turns::turn_of;
