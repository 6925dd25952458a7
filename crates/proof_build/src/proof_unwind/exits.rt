//! The exits of each entry node.

ghost use Rattle.std.specs.Prelude.{◌≡◌, [], ◌∷◌, ◌++◌, ℕ, OnOk, if◌then◌else◌, nat_eq};

use nwa_base::Groups;
use std::alloc::{AllocError, Global};

/// The numbers of nodes from which returns lead, by their entry node.
#[derive(Drop)]
pub(crate) struct Exits {
    by_entry: Groups<u32, u32>,
}

impl Exits {
    ghost use Rattle.proof_build.specs.ProofUnwind.Ties.Searches.{exits_of};

    /// None yet.
    pub(crate) fn new(alloc: Global) -> Self
        ensures { (k : ℕ) → exits_of result k ≡ [] }
    {
        Exits {
            by_entry: Groups::new(alloc),
        }
    }

    /// Those of an entry node.
    pub(crate) fn of(&self, entry: u32) -> &[u32]
        ensures { result.now ≡ exits_of self.now entry }
    {
        self.by_entry.of(&entry)
    }

    /// One more.
    pub(crate) fn add(&mut self, entry: u32, exit: u32) -> Result<(), AllocError>
        ensures { OnOk result ((k : ℕ) → exits_of self.new k ≡ (if nat_eq entry k then exits_of self.old k ++ exit ∷ [] else exits_of self.old k)) }
    {
        self.by_entry.add(entry, exit)
    }
}
