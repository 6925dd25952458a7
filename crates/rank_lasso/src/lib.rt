//! Ranking functions for lassos: their texts, read and written, and, from `lasso_ranks`, the search for one and the check.
#![tactic(auto)]

mod cutting;
mod forms;
pub mod lasso_ranks;
mod lasso_reading;
pub mod lasso_turns;
pub mod laws;
mod letters;
mod lines;
mod naming;
mod numerals;
mod ranking_lines;
mod ranking_reading;
pub mod ranking_system;
mod ranking_writing;
mod terms;
mod trees;

pub use crate::lasso_ranks::{Lasso, LassoFault, Ranked, Ranking, check_rank, placed, rank};
pub use cutting::line_at;
pub use lasso_reading::read_lasso;
pub use letters::letters_of;
pub use ranking_reading::read_ranking;
pub use ranking_writing::write_ranking;
