//! Conditions and assignments as rows: lists of conjunctions of rows of which a state meets one, and no more, exactly where
//! the condition has the wanted value. What the lists mean stands in [`laws`].
#![tactic(auto)]

mod assignments;
mod columns;
mod combining;
mod comparisons;
mod conditions;
mod conj;
mod equations;
mod fault;
pub mod free_products;
mod joining;
pub mod laws;
mod linear;
mod lists;
mod long;
mod pairs;
mod refusal;
mod shapes;
mod sums;
mod totals;
mod widths;

pub use assignments::assign;
pub use columns::{Spot, place};
pub use combining::{each_with, members};
pub use conditions::paths;
pub use conj::Conj;
pub use equations::equal_to;
pub use fault::JumpFault;
pub use sums::later;
