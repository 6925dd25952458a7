//! The choices of a run of a program that a whole solution of a word's rows and a run of the automaton over the word tell.
#![tactic(auto)]

mod columns;
mod frames;
mod imports;
mod kinds;
mod positions;
mod statements;
mod table;
mod telling;
mod values;

pub use telling::told_choices;
