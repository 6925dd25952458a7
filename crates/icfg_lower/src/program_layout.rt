//! The layout of a program: the frames of its procedures, and where the numbers of its places, assertions and columns begin.
#![tactic(auto)]

mod ends;
mod frames;
mod layouts;
mod marks;

pub use ends::has_ended;
pub(crate) use ends::is_label;
pub use layouts::{Layout, lay_out};
pub use marks::Marks;
