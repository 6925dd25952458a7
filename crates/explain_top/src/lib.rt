//! The program `explain` as one call, [`run`].
#![tactic(auto)]

mod answers;
mod explaining;
mod reporting;
pub mod run_story;
mod running;
pub mod trace_story;
mod words;

pub use running::{
    explanations_follow_checks, explanations_follow_replays, explanations_say_more, one_report, run,
};
