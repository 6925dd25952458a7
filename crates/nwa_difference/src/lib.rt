//! The difference of two nested word automata, by the product of the one and the sets of pairs of the other.
#![tactic(auto)]

mod covered;
mod covering;
pub mod laws;
mod making;
mod opening;
mod pairs;
mod product;
mod returning;
mod stepping;

pub use making::difference;
