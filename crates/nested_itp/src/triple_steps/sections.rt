//! The rows of a system, section by section.

/// A row that ties two frames, and what its multiplier is.
#[derive(Clone, Copy)]
pub enum Tie {
    /// The coefficient of the target at this column.
    Target(usize),
    /// The opposite of that.
    Opposite(usize),
    /// The opposite of that of the first source.
    Source(usize),
}

/// Some rows of a system, one after another.
#[derive(Clone, Copy)]
pub enum Section {
    /// Those that the claim with this number gives.
    Claim(usize),
    /// So many rows that no leaf uses.
    Spare(usize),
    /// Rows with the multipliers of so many rows of the word, from this one on.
    Rows { first: usize, count: usize },
    /// One row that ties two frames.
    Tie(Tie),
}
