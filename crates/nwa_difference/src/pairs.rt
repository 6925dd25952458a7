//! The pairs of an entry and a state of the product to which words lead.
#![tactic(auto, unfolding(crate::specs::Ties::Seen::found))]

ghost use Rattle.std.specs.Prelude.{◌≡◌, ◌<◌, ◌^◌, [], List, ℕ, IfOk, OnOk, length, slice_get};

use indexmap::IndexSet;
use nwa_base::Groups;
use std::alloc::{AllocError, Global};

/// The pairs that were found, in this order, each once. An entry is the state after the innermost open call, or none where no call
/// is open.
#[derive(Drop)]
pub struct Pairs {
    alloc: Global,
    found: IndexSet<(Option<u32>, u32)>,
    /// The entries of a state, of the pairs that were gone through.
    callers: Groups<u32, Option<u32>>,
    /// The states of an entry that have returns, of the pairs that were gone through.
    exits: Groups<u32, u32>,
    /// The states that have their inside letters and calls.
    opened: IndexSet<u32>,
    /// The states that have their returns to a state before the call.
    joined: IndexSet<(u32, u32)>,
}

impl Pairs {
    ghost use Rattle.nwa_difference.specs.Ties.Stages.{Adds, AddsAt, Tells};
    ghost use Rattle.nwa_difference.specs.Ties.Seen.{found};

    /// No pairs.
    pub fn new(alloc: Global) -> Self
        ensures pairs { (found result).pairs ≡ [] }
        ensures callers { (q : ℕ) → (found result).callers q ≡ [] }
        ensures exits { (n : ℕ) → (found result).exits n ≡ [] }
        ensures opened { (found result).opened ≡ [] }
        ensures joined { (found result).joined ≡ [] }
    {
        Pairs {
            alloc,
            found: IndexSet::new(alloc),
            callers: Groups::new(alloc),
            exits: Groups::new(alloc),
            opened: IndexSet::new(alloc),
            joined: IndexSet::new(alloc),
        }
    }

    /// The pair at a place, or none past the end.
    pub fn at(&self, place: usize) -> Option<(Option<u32>, u32)>
        ensures value { result ≡ slice_get (found self.now).pairs place }
        ensures small { length (found self.now).pairs < 2 ^ 63 }
    {
        let _pairs = self.found.len();
        self.found.get_index(place).copied()
    }

    /// The entries of a state that were gone through, as they are now.
    pub fn callers(&self, state: u32) -> Result<Vec<Option<u32>>, AllocError>
        ensures { IfOk result (λ v. v.items ≡ (found self.now).callers state) }
    {
        Vec::from_slice(self.alloc, self.callers.of(&state))
    }

    /// The exits of an entry that were gone through, as they are now.
    pub fn exits(&self, entry: u32) -> Result<Vec<u32>, AllocError>
        ensures { IfOk result (λ v. v.items ≡ (found self.now).exits entry) }
    {
        Vec::from_slice(self.alloc, self.exits.of(&entry))
    }

    /// Adds a pair at the end, unless it was found before.
    pub fn add(&mut self, entry: Option<u32>, state: u32) -> Result<(), AllocError>
        ensures adds { OnOk result (Adds (found self.old).pairs (found self.new).pairs (entry, state)) }
        ensures rest { OnOk result (found self.new ≡ record (found self.old) { pairs = (found self.new).pairs }) }
    {
        self.found.insert((entry, state))?;
        Ok(())
    }

    /// Notes that the pair of an entry and a state is gone through.
    pub fn note_caller(&mut self, entry: Option<u32>, state: u32) -> Result<(), AllocError>
        ensures groups { OnOk result (AddsAt (found self.old).callers (found self.new).callers state entry) }
        ensures rest { OnOk result (found self.new ≡ record (found self.old) { callers = (found self.new).callers }) }
    {
        self.callers.add(state, entry)?;
        Ok(())
    }

    /// Notes that the pair of an entry and a state that has returns is gone through.
    pub fn note_exit(&mut self, entry: u32, state: u32) -> Result<(), AllocError>
        ensures groups { OnOk result (AddsAt (found self.old).exits (found self.new).exits entry state) }
        ensures rest { OnOk result (found self.new ≡ record (found self.old) { exits = (found self.new).exits }) }
    {
        self.exits.add(entry, state)?;
        Ok(())
    }

    /// Notes that a state has its inside letters and calls, and tells whether it did not have them until now.
    pub fn note_opened(&mut self, state: u32) -> Result<bool, AllocError>
        ensures adds { OnOk result (Adds (found self.old).opened (found self.new).opened state) }
        ensures tells { IfOk result (Tells (found self.old).opened state) }
        ensures rest { OnOk result (found self.new ≡ record (found self.old) { opened = (found self.new).opened }) }
    {
        let is_new = self.opened.insert(state)?;
        Ok(is_new)
    }

    /// Notes that a state has its returns to a state before the call, and tells whether it did not have them until now.
    pub fn note_joined(&mut self, exit: u32, before: u32) -> Result<bool, AllocError>
        ensures adds { OnOk result (Adds (found self.old).joined (found self.new).joined (exit, before)) }
        ensures tells { IfOk result (Tells (found self.old).joined (exit, before)) }
        ensures rest { OnOk result (found self.new ≡ record (found self.old) { joined = (found self.new).joined }) }
    {
        let is_new = self.joined.insert((exit, before))?;
        Ok(is_new)
    }
}
