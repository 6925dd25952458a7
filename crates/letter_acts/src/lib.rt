//! Letters and what they mean: the acts of letters as rows over frames, feasible words, and what a graph of all
//! procedures of a program keeps. The laws that other crates build on stand in [`laws`].
#![tactic(auto)]

mod acts;
mod checks;
mod finding;
pub mod frame_rows;
mod frames;
mod graphs;
pub mod laws;
pub mod letter_table;
mod making;
mod parts;
mod sites;

pub use acts::Act;
pub use checks::{count_local_targets, count_variables, is_within};
pub use finding::type_at;
pub use frames::Frame;
pub use graphs::Icfg;
pub use making::icfg;
pub use sites::{AssertId, Site};
