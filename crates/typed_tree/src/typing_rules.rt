//! Typed programs: the typing rules of statements, procedures and programs, and the programs that keep them.
#![tactic(auto)]

mod arguments;
mod calls;
mod copying;
mod counts;
mod frame;
mod label_order;
mod labels;
pub mod laws;
mod names;
mod numbers;
mod procedures;
mod program;
mod shape;
mod statements;
mod targets;
mod validity;
mod values;

pub use counts::numbers_fit;
pub use procedures::check_typing;
pub use program::Typed;
pub use validity::typed;
