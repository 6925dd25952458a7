//! Smaller automata of the same language: [`reduce`] takes away the states that lie on no way from the start to a final state, and
//! makes twins one state. The law of images in [`laws`] says why the language stays.
#![tactic(auto)]

mod classing;
mod folding;
mod guessing;
mod imaging;
mod joining;
pub mod laws;
mod marking;
mod merging;
mod naming;
mod numbering;
mod reducing;
mod returning;
mod rows;
mod searching;
mod signing;
mod states;
mod stepping;
mod trimming;

pub use reducing::reduce;
