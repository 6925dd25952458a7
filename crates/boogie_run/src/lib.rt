//! Runs of typed programs, one step after another.
#![tactic(auto)]

mod actions;
pub mod boogie_places;
pub mod boogie_points;
mod calls;
mod choices;
mod configurations;
mod evaluation;
mod frames;
pub mod laws;
mod observing;
pub mod run_defaults;
pub mod run_rules;
mod stepping;
mod types;
mod writing;

pub use calls::modifies_at;
pub use choices::locals_at;
pub use configurations::{Config, RunFrame};
pub use observing::{calling, happens, held, holds, open_calls, running};
pub use stepping::{needs, start, step};
pub use types::{AssertId, Choice, Moved, Need, RunFault};
