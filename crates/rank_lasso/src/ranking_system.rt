//! The ranking system of a turn (Podelski and Rybalchenko, 2004), whose rational points are linear ranks, and the rank at such a point.
#![tactic(auto)]

mod points;
mod scaling;
mod system;

pub use points::{LinearRank, rank_at};
pub use scaling::scaled;
pub use system::{ranking_rows, tightened_rows};
