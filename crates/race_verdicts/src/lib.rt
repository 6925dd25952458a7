//! What is said of a race that has ended: an annotation, values that replay, or a word and why nothing is known of it; and as which text.
#![tactic(auto)]

mod failures;
mod proving;
pub mod race_completeness;
mod texts;
mod verdicts;

pub use texts::verdict_text;
pub use verdicts::{Verdict, verdict_of};
