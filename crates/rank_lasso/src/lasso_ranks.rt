//! Ranking functions for lassos: a lasso of a program is a list of letters from its start and a loop behind it. A linear rank that
//! each turn of the loop lowers, and that is bounded before each, shows that no run goes through the loop for ever.
#![tactic(auto)]

mod checking;
mod lassos;
pub mod laws;
mod placing;
mod points;
mod proposing;
mod ranking;
mod rankings;

pub use checking::check_rank;
pub use lassos::{Lasso, LassoFault};
pub use placing::placed;
pub use ranking::rank;
pub use rankings::{Ranked, Ranking};
