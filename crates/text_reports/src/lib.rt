//! What is answered to a program text, to an annotation and to a failure as whole texts, whatever words asked for it.
#![tactic(auto)]

mod annotations;
mod answers;
pub mod command_words;
mod failures;
mod programs;
mod reading;
mod refusals;

pub use annotations::{checked, confirmed};
pub use answers::TextAnswer;
pub use failures::{replayed, replayed_failure};
pub use programs::{graph, lowered_text, printed, typed};
pub use reading::{Halt, PROGRAM_LIMIT, SECOND_LIMIT, text_within};
pub use refusals::rule_line;
