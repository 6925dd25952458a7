//! Tests of the cell that the threads of a race share, and of the texts of files.
#![tactic(auto)]

#[cfg(test)]
mod cells;
pub mod command_tests;
