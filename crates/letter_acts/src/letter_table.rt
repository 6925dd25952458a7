//! Letters by first occurrence: equal acts are one letter, and letters are numbered in the order in which they first occur.
#![tactic(auto)]

mod keys;
mod letters;
mod table;

pub use table::{CallEdges, CallStep, InsideStep, Lettered, Table};
