//! Final states, in the order in which they were set.

ghost use Rattle.std.specs.Prelude.{◌≡◌, ◌↔◌, [], ◌∷◌, ◌++◌, IsTrue, OnOk, OnErr};

use crate::number_hasher::NumberHasher;
use std::alloc::{AllocError, Global};
use std::collections::HashSet;
use std::hash::BuildHasherDefault;
use std::marker::Model;

/// Final states, in the order in which they were set.
#[derive(Drop)]
pub struct Finals {
    list: Vec<u32>,
    set: HashSet<u32, BuildHasherDefault<NumberHasher>>,
}

impl Model for Finals {
    ghost use Rattle.std.specs.Prelude.{ℕ, List};
    ghost use Rattle.std.specs.HashSet.{contains};
    ghost use Rattle.nwa_base.specs.Members.{IsSetOf};

    ghost Value = { List ℕ };

    ghost view = { λ f. f.list.items };

    ghost invariant = { λ f. IsSetOf f.list.items (contains ⟦<u32 as PartialEq>⟧.eq f.set) };
}

impl Finals {
    ghost use Rattle.nwa_base.specs.Members.{Member};

    /// No states.
    pub fn new(alloc: Global) -> Self
        ensures { result ≡ [] }
    {
        Finals {
            list: Vec::new(alloc),
            set: HashSet::with_hasher(alloc, BuildHasherDefault::new()),
        }
    }

    /// The states.
    pub fn as_slice(&self) -> &[u32]
        ensures { result.now ≡ self.now }
    {
        self.list.as_slice()
    }

    /// Whether `q` is one of the states.
    pub fn contains(&self, q: u32) -> bool
        ensures { IsTrue result ↔ Member self.now q }
    {
        self.set.contains(&q)
    }

    /// Adds a state at the end.
    pub fn push(&mut self, q: u32) -> Result<(), AllocError>
        ensures ok { OnOk result (self.new ≡ self.old ++ q ∷ []) }
        ensures err { OnErr result (self.new ≡ self.old) }
    {
        self.list.reserve(1)?;
        self.set.insert(q)?;
        self.list.push_reserved(q);
        Ok(())
    }

    /// Adds states at the end.
    pub fn add_all(&mut self, states: &[u32]) -> Result<(), AllocError>
        ensures { OnOk result (self.new ≡ self.old ++ states.now) }
    {
        for &q in states {
            self.push(q)?;
        }
        Ok(())
    }
}
