//! The walk of a program: its start and its bodies are lowered in the order of the text.
#![tactic(auto)]

mod bodies;
mod calls;
mod guards;
mod items;
mod programs;
mod starting;
mod statements;
mod walking;

pub use programs::walk;
