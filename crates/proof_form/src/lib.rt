//! The texts of annotations: readers and a writer that are inverse to each other.
#![tactic(auto)]

mod annotations;
mod drafts;
mod fault;
pub mod laws;
mod line_checks;
mod line_writing;
mod lines;
mod making;
mod numerals;
mod predicates;
mod reading;
mod refusal;
mod refutations;
mod shared_texts;
mod spelling;
mod text_lines;
mod text_reading;
mod text_writing;
mod texts;
mod trees;

pub use annotations::Annotation;
pub use fault::ProofFault;
pub use lines::{NodeLine, PredLine, StepLine, TripleLine};
pub use making::annotation;
pub use numerals::Numeral;
pub use predicates::PNode;
pub use refutations::RNode;
pub use shared_texts::{is_col, read_ref, write_ref};
pub use text_writing::write_safe;
pub use texts::read_safe;
