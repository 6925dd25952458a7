//! The letters of calls: of what a called procedure requires, of its arguments, and of calls without body.
#![tactic(auto)]

mod columns;
mod conjoined;
mod constants;
mod demands;
mod ensured;
mod imports;
mod layouts;
mod parameter_rows;
mod reader;
mod reading;
mod rebuilding;
mod standing;
mod standings;
mod types;
mod written;

pub use demands::demanded;
pub use imports::{Import, imported};
pub use parameter_rows::parameters;
