//! The generated program, a chain of procedures, and that it is never refused.
#![tactic(auto)]

mod generating;
mod laws;
mod parts;

pub use generating::{big_text, generated};
pub use laws::{
    generated_programs_are_lowered, generated_programs_are_sized, generated_programs_are_typed,
};
