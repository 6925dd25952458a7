//! The edges of one place: by conditions, assignments and calls, or what is wrong with the lists that they need.
#![tactic(auto)]

mod calls;
mod columns;
mod conditions;
mod faults;
mod lowering;
mod widths;

pub use calls::{Called, demand, enter, import};
pub use conditions::{guard, suppose, test, write};
pub use faults::{ItemFault, NO_TROUBLE, Trouble, either};
pub use lowering::{Here, Lowered, Lowering};
