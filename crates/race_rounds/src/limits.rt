/// The limits of a race.
#[derive(Clone, Copy, Debug)]
pub struct Limits {
    /// How many entries the history may have.
    pub rounds: u64,
    /// How many workers there are.
    pub workers: u32,
    /// How many cuts a branch of Decide may have.
    pub depth: u32,
}

/// A round of a worker.
#[derive(Clone, Copy, Debug)]
pub struct Round {
    /// How many entries there are.
    pub version: u64,
    /// The number of the worker. Workers with different numbers do different things.
    pub worker: u32,
}
