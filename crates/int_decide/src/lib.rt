//! Whether a system over whole numbers has a whole point: refuted by a tree of cuts and cases, or met by a point that is
//! found.
#![tactic(auto)]

mod accepting;
mod deciding;
pub mod difference_rows;
mod laws;
mod measuring;
mod meeting;
mod picking;
mod proposing;
mod search;
mod types;
mod values;
mod without_cuts;

pub use accepting::accepted;
pub use deciding::{decide, plain};
pub use laws::{decisions_are_sound, group_count_is_enough, rows_are_refuted_exactly};
pub use measuring::measure;
pub use types::{Answer, DecideFault, Uncut};
pub use without_cuts::decide_uncut;
