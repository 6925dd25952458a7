//! The lines of an annotation that tell coarse letters: which its triples ask for, and the first that is wrong or missing.
#![tactic(auto)]

mod comparing;
mod fault;
pub mod laws;
mod letters;

pub use comparing::compared;
pub use fault::CoarseFault;
pub use letters::coarse_letters;
