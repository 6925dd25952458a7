ghost use Rattle.std.specs.Prelude.{◌≡◌, ◌↔◌, Contains, IsErr, OnOk, OnErr};
ghost use Rattle.outer_io.specs.Faults.{next_count};

use crate::shelf::Failed;

/// The calls on an object, numbered from 1 in order. Those past the last number of the type share it.
#[derive(Drop)]
pub struct Calls {
    pub fails: Vec<u64>,
    pub made: u64,
    pub faults: u64,
}

impl Calls {
    /// No call yet.
    pub fn new(fails: Vec<u64>) -> Calls
        ensures { result ≡ record { fails = fails; made = 0; faults = 0 } }
    {
        Calls {
            fails,
            made: 0,
            faults: 0,
        }
    }

    /// Begins the next call, which fails where its number is among those that fail.
    pub fn begin(&mut self) -> Result<(), Failed>
        ensures fails { IsErr result ↔ Contains self.old.fails.items (next_count self.old.made) }
        ensures ok { OnOk result (self.new ≡ record self.old { made = next_count self.old.made }) }
        ensures err { OnErr result (self.new ≡ record self.old
            { made = next_count self.old.made; faults = next_count self.old.faults }) }
    {
        self.made = self.made.saturating_add(1);
        if self.fails.contains(&self.made) {
            return Err(Failed::count(&mut self.faults));
        }
        Ok(())
    }
}
