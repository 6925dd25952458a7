//! Concrete walks: the automaton of a program run on numbers, along random edges, until an assertion fails. A walk finds a
//! failure that lies deep; what it proposes is a word of the automaton.
#![tactic(auto)]

mod choices;
mod columns;
mod drafting;
mod edges;
mod leading;
mod letters;
mod loops;
mod numbers;
mod programs;
mod walkers;
mod walks;

pub use walkers::Walker;
pub(crate) use walks::if_accepted;
