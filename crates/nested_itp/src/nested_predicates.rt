//! Nested interpolants: the prefix predicates of a word under a refutation of its rows, and the triples of its letters. Here are
//! their definition, the laws of it in [`laws`], and the predicates and triples themselves.
#![tactic(auto)]

pub mod acts;
mod bases;
mod branches;
mod faults;
mod joins;
pub mod laws;
mod layout;
mod leaves;
mod making;
mod passes;
mod preds;
mod returns;
mod running;
mod spots;
mod stamps;
mod sums;
mod tables;
mod triples;
mod versions;
mod wide;

pub use faults::ItpFault;
pub use making::{PrefixSums, prefix_predicates, prefix_sums};
pub use triples::triples_of;
