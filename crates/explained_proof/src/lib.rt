//! What an annotation that proves a program says of it, as a program with contracts: at the heads of procedures, at loops and behind labels
//! the facts of the nodes that stand there.
#![tactic(auto)]

mod backwards;
pub mod built_expressions;
mod clauses;
pub mod explained_runs;
pub mod fact_expressions;
mod knowledge;
pub mod known_runs;
pub mod laws;
mod procedures;
mod programs;
pub mod row_expressions;
mod statements;
mod tightening;

pub use programs::explained;
