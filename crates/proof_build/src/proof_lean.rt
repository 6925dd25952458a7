//! Lean annotations: of an annotation that proves a graph what its proof needs, and nothing else.
#![tactic(auto)]

mod classes;
mod copies;
mod covers;
mod drafts;
mod facts;
mod joining;
mod leaning;
mod needs;
mod numbers;
mod reaching;
mod spelling;

pub use leaning::lean;
