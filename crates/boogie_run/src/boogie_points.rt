//! The control flow of runs: where a frame stands, what happens there, and where it goes on.
#![tactic(auto)]

mod acting;
mod actions;
mod blocks;
mod conditions;
pub mod counts;
mod going;
mod numbers;
mod points;
mod seeking;
mod sites;
mod starting;

pub use acting::action_at;
pub use actions::Action;
pub use conditions::procedure_at;
pub use going::go_on;
pub use numbers::Numbers;
pub use points::{Point, Stage, pass_call, targets};
pub use sites::{clause_at, span_at};
pub use starting::{entry_point, start_point};
