ghost use Rattle.std.specs.Prelude.{◌≡◌, ℕ, ◌^◌, ◌<◌, ◌≤◌, [], ◌++◌, length, take, min, Contains, Some, IfOk, OnOk, OnErr, IsErr};
ghost use Rattle.outer_io.specs.Faults.{Rose, next_count};

use crate::memory::calls::Calls;
use crate::shelf::Failed;
use crate::sink::Sink;
use std::alloc::Global;
use std::marker::Model;

/// A sink that keeps what it takes in memory, for tests.
#[derive(Drop)]
pub struct MemSink {
    bytes: Vec<u8>,
    most: usize,
    calls: Calls,
}

impl Model for MemSink {
    ghost use Rattle.std.specs.Prelude.{◌≤◌};
    ghost use Rattle.outer_io.specs.Ties.MemSink.{MemSinkState};

    ghost Value = { MemSinkState };

    ghost view = { λ s. record {
      taken = s.bytes.items;
      most = s.most;
      fails = s.calls.fails.items;
      calls = s.calls.made;
      faults = s.calls.faults;
    } };

    ghost invariant = { λ s. 1 ≤ s.most };
}

impl MemSink {
    /// An empty sink, that takes at most `most` bytes a call. Its calls are numbered from 1 in order, and those whose
    /// number is in `fails` fail. Any other call may find no memory, and then fails too.
    pub fn new(alloc: Global, most: usize, fails: Vec<u64>) -> MemSink
        requires { 1 ≤ most }
        ensures { result ≡ record { taken = []; most = most; fails = fails.items; calls = 0; faults = 0 } }
    {
        MemSink {
            bytes: Vec::new(alloc),
            most,
            calls: Calls::new(fails),
        }
    }

    /// The bytes that it took so far.
    pub fn taken(&self) -> &[u8]
        ensures { result.now ≡ self.now.taken }
    {
        self.bytes.as_slice()
    }
}

impl Sink for MemSink {
    ghost use Rattle.std.specs.Prelude.{Some};

    ghost taken = { λ s. Some s.taken };

    ghost faults = { λ s. s.faults };

    fn write(&mut self, piece: &[u8]) -> Result<usize, Failed>
        requires { 0 < length piece.now }
        // Without the other direction, since a call that is not listed may find no memory.
        ensures fails { Contains self.old.fails (next_count self.old.calls) → IsErr result }
        ensures count { IfOk result (λ n. n ≡ min (length piece.now) self.old.most) }
        ensures after { IfOk result (λ n. self.new ≡ record self.old
            { taken = self.old.taken ++ take n piece.now; calls = next_count self.old.calls }) }
        ensures failed { OnErr result (self.new ≡ record self.old
            { calls = next_count self.old.calls; faults = next_count self.old.faults }) }
        ensures some { IfOk result (λ n. 0 < n) }
        ensures counted { OnErr result (Rose self.old.faults self.new.faults) }
        ensures never_falls { self.old.faults ≤ self.new.faults }
        ensures count_fits { self.new.faults < 2 ^ 64 }
    {
        self.calls.begin()?;
        let count = piece.len().min(self.most);
        match self.bytes.extend_from_slice(&piece[..count]) {
            Ok(()) => Ok(count),
            Err(_) => Err(Failed::count(&mut self.calls.faults)),
        }
    }
}
