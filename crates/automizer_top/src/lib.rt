//! The program as one call, [`run`].
#![tactic(auto)]

mod answer;
mod earlier;
mod generated;
pub mod generated_program;
mod part_texts;
mod parts;
mod rankings;
mod reporting;
mod running;
mod summary;
mod words;

pub use running::{
    one_report, part_verdicts_are_true, rankings_are_accepted, reports_are_answers, run,
    summaries_are_verdicts, verdicts_agree, verdicts_are_complete, verdicts_are_confirmed,
    verdicts_are_true,
};
