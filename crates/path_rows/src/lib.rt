//! The rows of a word: a system over versions of the columns of frames, which has a whole point exactly where the word is
//! feasible. The laws that other crates build on stand in [`laws`].
#![tactic(auto)]

mod drafts;
pub mod laws;
mod making;
mod parts;
mod paths;
mod rows;
mod times;
mod versions;

pub use making::rows_of;
pub use paths::PathSystem;
pub use times::add_times;
