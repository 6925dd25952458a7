//! Predicates over the states of frames, triples of two or three places, and the systems of rows that decide whether a
//! triple is valid.
#![tactic(auto)]

mod adding;
mod agreeing;
mod building;
mod drafts;
mod frames;
mod halves;
mod holding;
pub mod laws;
mod making;
mod pieces;
mod predicates;
mod proofs;
mod proving;
mod reading;
mod rows;
mod systems;
mod tables;
mod ties;
mod triples;

pub use agreeing::{agrees, is_over};
pub use halves::{source_system, target_system};
pub use holding::pred_holds;
pub use making::pred;
pub use predicates::{Pred, PredNode};
pub use proofs::Proof;
pub use proving::proof;
pub use systems::systems_of;
pub use triples::{Scoped, Triple};
