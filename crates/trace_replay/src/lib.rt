//! Failures of programs: their texts, written and read, and their replay.
#![tactic(auto)]

mod causes;
mod choosing;
mod failure;
mod guessing;
pub mod laws;
mod numerals;
pub mod path_traces;
mod pieces;
mod reading;
mod replaying;
mod searching;
mod suggesting;
pub mod told_choices;
mod trying;
mod writing;

pub use boogie_run::{AssertId, Choice};
pub use causes::{ReplayCause, ReplayFault};
pub use choosing::{choices_of, other_choices_of};
pub use failure::{Failure, FailureFault, Trail};
pub use numerals::number_of;
pub use reading::read_failure;
pub use replaying::{Turn, one_step, replay};
pub use writing::write_failure;
