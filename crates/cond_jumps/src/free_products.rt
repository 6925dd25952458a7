//! Products of two expressions as rows. A free product, neither factor of which is constant, stands in a list of conjunctions as a local
//! past the frame's; the *letter* of a conjunction is over the frame alone, with a mark where it allows more than the product does.
//! What letters are worth stands in [`laws`].
#![tactic(auto)]

mod conditions;
mod freeing;
pub mod laws;
mod letters;
mod ties;
mod told;

pub use conditions::{all_exact, free_assign, free_paths, letters_over, widened};
pub use freeing::{FreedExpr, FreedExprs, all_count, all_freed, freed, product_count};
pub use letters::{MarkedConj, letter};
pub use told::told_condition;
