use farkas_check::Refutation;

/// Why no run goes through a lasso's loop for ever.
#[derive(Drop)]
pub enum Ranking {
    /// A linear rank.
    Rank {
        /// The columns of the frame at the start, ascending, each with its coefficient.
        terms: Vec<(u32, i128)>,
        /// What the rank is at least, before a turn.
        bound: i128,
        /// Refutes a turn that does not lower the rank.
        falls: Refutation,
        /// Refutes a turn before which the rank is below the bound.
        bounded: Refutation,
    },
    /// Refutes the stem and one turn behind it.
    Excluded(Refutation),
}

/// What the search for a ranking finds.
#[derive(Drop)]
pub enum Ranked {
    /// A ranking.
    Found(Ranking),
    /// There is no linear rank that leaves could show, and the stem and one turn are not refuted.
    NoRank,
    /// A number did not fit.
    Number,
}
