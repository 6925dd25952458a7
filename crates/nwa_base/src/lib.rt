//! Nested words and automata over them (Alur and Madhusudan, 2009): what a word is, and when an automaton accepts it.
//! The laws that other crates build on stand in [`laws`]; [`on_inside`], [`on_call`] and [`on_back`] are the steps by
//! which an automaton is made deterministic.
#![tactic(auto)]

mod automata;
mod back_edges;
mod building;
mod calls;
mod edges;
mod faults;
mod finals;
mod groups;
pub mod laws;
mod letters;
mod number_hasher;
mod pairs;
mod reading;
mod spelling;
mod tracing;
mod words;

pub use automata::Nwa;
pub use building::empty;
pub use faults::NwaFault;
pub use groups::Groups;
pub use letters::{Kind, Letter};
pub use number_hasher::{NumberHasher, mixed};
pub use pairs::{Pair, on_back, on_call, on_inside};
pub use reading::{accepts, has_final};
pub use spelling::word;
pub use tracing::run_of;
pub use words::Word;
