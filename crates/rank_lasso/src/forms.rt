use boogie_tree::Text;
use proof_form::{Numeral, RNode};

/// A ranking as it is spelled: numerals keep their digits, columns their names.
#[derive(Drop)]
pub(crate) enum Form {
    /// A linear rank.
    Rank {
        /// Coefficients with the names of their columns.
        terms: Vec<(Numeral, Text)>,
        /// The bound.
        bound: Numeral,
        /// Shows that the rank falls.
        falls: Vec<RNode>,
        /// Shows that it is bounded.
        bounded: Vec<RNode>,
    },
    /// An exclusion.
    Excluded(Vec<RNode>),
}
