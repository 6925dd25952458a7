//! Gates, which are told what each worker is about to do or has done.

/// What a worker is about to do, or has done.
#[derive(Clone, Copy, Debug, PartialEq, Eq)]
pub enum Moment {
    /// It is about to read.
    Reading,
    /// It has made what is kept behind its entry.
    Built,
    /// It is about to publish.
    Publishing,
    /// Its publication was taken.
    Published,
    /// Its publication was made for another version, and was refused.
    Stale,
    /// It is about to end the race.
    Finishing,
}

/// A gate is called by each worker at each moment. It decides nothing, and may wait.
pub trait Gate {
    /// The worker has come to the moment.
    fn at(&self, worker: u32, moment: Moment);
}

/// The gate that does nothing.
#[derive(Clone, Copy, Debug)]
pub struct NoGate;

impl Gate for NoGate {
    fn at(&self, _worker: u32, _moment: Moment) {}
}
