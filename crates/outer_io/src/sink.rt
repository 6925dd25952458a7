ghost use Rattle.std.specs.Prelude.{◌≡◌, ℕ, ◌^◌, ◌<◌, ◌≤◌, ◌++◌, List, length, take, Option, Some, IfOk, OnOk, OnErr, IfSome};
ghost use Rattle.outer_io.specs.Faults.{Rose};

use crate::shelf::Failed;

/// A place that output goes to, in pieces.
pub trait Sink {
    /// The bytes that were taken so far, where the object tells them.
    ghost taken: { Self → Option (List ℕ) };

    /// How many calls failed so far.
    ghost faults: { Self → ℕ };

    /// Takes a front of the piece, at least one byte of it, and answers its length.
    fn write(&mut self, piece: &[u8]) -> Result<usize, Failed>
        requires { 0 < length piece.now }
        ensures some { IfOk result (λ n. (0 < n) × (n ≤ length piece.now)) }
        ensures took { IfOk result (λ n. IfSome (taken self.old)
            (λ before. taken self.new ≡ Some (before ++ take n piece.now))) }
        ensures refused { OnErr result (taken self.new ≡ taken self.old) }
        ensures kept { OnOk result (faults self.new ≡ faults self.old) }
        ensures counted { OnErr result (Rose (faults self.old) (faults self.new)) }
        ensures never_falls { faults self.old ≤ faults self.new }
        ensures count_fits { faults self.new < 2 ^ 64 };
}
