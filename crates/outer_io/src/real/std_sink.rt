ghost use Rattle.std.specs.Prelude.{◌≡◌, ℕ, ◌^◌, ◌<◌, None};

use crate::shelf::Failed;
use crate::sink::Sink;
use std::marker::Model;

/// The standard output.
#[derive(Drop)]
pub struct StdSink<R: Print + Drop> {
    rt: R,
    faults: u64,
}

// Clauses see how many of its calls failed.
impl<R: Print + Drop> Model for StdSink<R> {
    ghost Value = { ℕ };

    ghost view = { λ s. s.faults };

    ghost invariant = { λ s. s.faults < 2 ^ 64 };
}

impl<R: Print + Drop> StdSink<R> {
    /// A sink that writes to the standard output of `rt`.
    pub fn new(rt: R) -> StdSink<R>
        ensures { result ≡ 0 }
    {
        StdSink { rt, faults: 0 }
    }
}

impl<R: Print + Drop> Sink for StdSink<R> {
    ghost taken = { λ _. None };

    ghost faults = { λ count. count };

    // A write that takes no byte is a fault, since it would be tried for ever.
    fn write(&mut self, piece: &[u8]) -> Result<usize, Failed> {
        match self.rt.write_some(piece) {
            Ok(count) if count > 0 => Ok(count),
            _ => Err(Failed::count(&mut self.faults)),
        }
    }
}
