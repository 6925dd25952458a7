//! Numbers that look random, the same from the same seed (Marsaglia, 2003).
#![tactic(auto)]

ghost use Rattle.std.specs.Prelude.{◌<◌};

/// A generator of numbers that look random. A copy makes the same numbers.
#[derive(Clone, Copy)]
pub struct Random {
    state: u64,
}

impl Random {
    /// The generator of this seed.
    pub fn new(seed: u64) -> Self {
        Random {
            state: seed.wrapping_mul(0x9e37_79b9_7f4a_7c15) ^ 0x2545_f491_4f6c_dd1d,
        }
    }

    /// The next number. Its high bits look more random than its low ones.
    pub fn next(&mut self) -> u64 {
        self.state ^= self.state << 13;
        self.state ^= self.state >> 7;
        self.state ^= self.state << 17;
        self.state
    }

    /// A number below a count; 0 where the count is 0.
    pub fn below(&mut self, count: usize) -> usize
        ensures { 0 < count → result < count }
    {
        if count == 0 {
            return 0;
        }
        ((self.next() >> 16) % count as u64) as usize
    }
}
