ghost use Rattle.std.specs.Prelude.{◌≡◌, ℕ, ◌^◌, ◌<◌, ◌≤◌, List, [], length, take, drop, Option, Some, IfOk, OnOk, OnErr, IfSome, IfNone};
ghost use Rattle.outer_io.specs.Faults.{Rose, next_count};
ghost use Rattle.outer_io.specs.Texts.{text_named};

/// A call on the outside did not succeed. The object that it was made on has raised its count of faults.
#[derive(Clone, Copy, Debug, PartialEq, Eq)]
pub struct Failed;

impl Failed {
    /// A call that did not succeed, counted in `faults`.
    pub(crate) fn count(faults: &mut u64) -> Failed
        ensures next { faults.new ≡ next_count faults.old }
        ensures rose { Rose faults.old faults.new }
    {
        *faults = faults.saturating_add(1);
        Failed
    }
}

/// Texts that can be read by their names, one at a time and in pieces.
pub trait Shelf {
    /// The texts by their names, where the object tells them. No call changes them.
    ghost texts: { Self → Option (List (List ℕ × List ℕ)) };

    /// The rest of the text begun last, where the object tells it.
    ghost left: { Self → Option (List ℕ) };

    /// How many calls failed so far.
    ghost faults: { Self → ℕ };

    /// Begins the text of that name. A name that is not among the texts is a fault. A call that fails begins nothing.
    fn begin(&mut self, name: &str) -> Result<(), Failed>
        ensures texts { texts self.new ≡ texts self.old }
        ensures begun { OnOk result (IfSome (texts self.old)
            (λ shown. IfSome (text_named name.now shown) (λ text. left self.new ≡ Some text))) }
        ensures missing { IfSome (texts self.old)
            (λ shown. IfNone (text_named name.now shown) (OnOk result ⊥)) }
        ensures stays { OnErr result (left self.new ≡ left self.old) }
        ensures kept { OnOk result (faults self.new ≡ faults self.old) }
        ensures counted { OnErr result (Rose (faults self.old) (faults self.new)) }
        ensures never_falls { faults self.old ≤ faults self.new }
        ensures count_fits { faults self.new < 2 ^ 64 };

    /// Moves some first bytes of what is left to the front of `buf`, and answers how many. 0 says that nothing is left. A
    /// call that fails moves nothing.
    fn read(&mut self, buf: &mut [u8]) -> Result<usize, Failed>
        requires { 0 < length buf.old }
        ensures texts { texts self.new ≡ texts self.old }
        ensures room { IfOk result (λ n. n ≤ length buf.old) }
        ensures moved { IfOk result (λ n. IfSome (left self.old) (λ rest. (n ≤ length rest)
            × (take n buf.new ≡ take n rest) × (left self.new ≡ Some (drop n rest)))) }
        ensures ended { IfOk result (λ n. n ≡ 0 → IfSome (left self.old) (λ rest. rest ≡ [])) }
        ensures stays { OnErr result (left self.new ≡ left self.old) }
        ensures kept { OnOk result (faults self.new ≡ faults self.old) }
        ensures counted { OnErr result (Rose (faults self.old) (faults self.new)) }
        ensures never_falls { faults self.old ≤ faults self.new }
        ensures count_fits { faults self.new < 2 ^ 64 };
}
