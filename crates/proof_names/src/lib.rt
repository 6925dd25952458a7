//! What the lines of an annotation name: predicates, triples, nodes and steps by their numbers, procedures and columns by their
//! names. The first line that names what does not exist, or what is of another scope, is told apart.
#![tactic(auto)]

pub mod coarse_lines;
mod columns;
mod fault;
pub mod laws;
mod naming;
mod nodes;
mod numbers;
mod outlines;
mod predicates;
pub mod proof_spell;
mod refutations;
mod steps;
mod triples;

pub use columns::{column_named, procedure_named};
pub use fault::NameFault;
pub use naming::outline;
pub use numbers::{index_in, number_in, short_in};
pub use outlines::{Listed, NamedNode, NamedStep, NamedTriple, Outline};
pub use predicates::{pred_named, terms_named};
pub use refutations::refutation_of;
pub use triples::triple_at;
