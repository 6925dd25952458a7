//! Triples proved: by Decide, without cuts.
#![tactic(auto)]

mod alone;
mod counting;
mod cuts;
mod equality;
mod false_rows;
mod guessing;
mod halves;
mod leaves;
mod meeting;
mod points;
mod proving;

pub use alone::{tried_alone, tried_with};
pub use cuts::are_cuts_within;
pub use equality::is_same_row;
pub use halves::{Half, refuted_at_once, source_half, target_half};
pub use points::Points;
pub use proving::{prove, prove_all};
pub use triple_rows::Proof;
