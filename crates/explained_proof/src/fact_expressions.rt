//! What facts of nodes say as expressions: conjunctions of rows and of predicates with cases, and disjunctions of them.
#![tactic(auto)]

mod conjunctions;
mod disjunctions;
mod entry_rows;
mod equality;
pub mod laws;
mod saying;
mod splitting;
mod trees;

pub use conjunctions::Conjunction;
pub use disjunctions::{Disjunction, either_of_all};
pub use saying::{alternatives_said, facts_said};
pub use trees::Tree;
