//! The stories of runs that fail: a line for each step, in the words of the program's text.
#![tactic(auto)]

mod changes;
mod keeping;
mod lines;
mod reading;
mod sites;
mod sources;
mod steps;
mod tables;
mod telling;
mod values;

pub use keeping::{Lines, finish, keep, no_lines};
pub use steps::item_line;
pub use tables::{Table, table_of};
pub use telling::story;
