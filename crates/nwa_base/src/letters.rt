ghost use Rattle.std.proofs.Common.{rules};
ghost use Rattle.std.specs.Cmp.Rules.{hashing};
ghost use Rattle.std.specs.Hash as fed;

use std::hash::{Hash, Hasher};

/// What a letter does to calls.
#[derive(Clone, Copy, Debug, PartialEq, Eq, Hash)]
pub enum Kind {
    /// Stays in the call that it stands in.
    Inside,
    /// Opens a call.
    Call,
    /// Returns from the last call that is open.
    Back,
}

/// A letter of a nested word.
#[derive(Clone, Copy, Debug, PartialEq, Eq)]
pub struct Letter {
    /// The number of the letter.
    pub id: u32,
    /// What the letter does to calls.
    pub kind: Kind,
    /// Of a return the number of the call letter that it names, else 0.
    pub call: u32,
}

impl Hash for Letter {
    // letters with one number rarely differ otherwise
    ghost hash_input = { λ a. fed.u32 a.id };

    ghost respects_eq = { Prim.search (hashing, rules) };

    fn hash<H: Hasher>(&self, state: &mut H) {
        state.write_u32(self.id);
    }
}
