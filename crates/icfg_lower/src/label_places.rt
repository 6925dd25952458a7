//! Where the labels of a procedure lead.
#![tactic(auto)]

mod ends;
mod labels;

pub use ends::before_last_labels;
pub use labels::labels_of;
