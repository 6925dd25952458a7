//! Rounds of a race: [`kept_word`] takes a kept word, and [`settle_kept`] decides its rows and makes what comes of it: an automaton that
//! removes the word, or an end.
#![tactic(auto)]

mod candidates;
mod choosing;
pub mod concrete_walks;
mod deviating;
mod exact;
mod failing;
mod limits;
mod plans;
mod products;
mod recursion;
mod refining;
mod seeking;
mod settling;
mod sizes;

pub use limits::{Limits, Round};
pub use seeking::{Seeker, kept_word};
pub use settling::{Settled, settle_kept};
