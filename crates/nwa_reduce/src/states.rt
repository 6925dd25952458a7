//! Sets of states, in the order in which they were inserted.

ghost use Rattle.std.specs.Prelude.{◌≡◌, ◌<◌, ◌^◌, ℕ, [], ◌∷◌, ◌++◌, ◌||◌, nat_eq, length, slice_get, OnOk, OnErr, if◌then◌else◌};
ghost use Rattle.std.specs.List.{list_any};
ghost use Rattle.nwa_reduce.specs.Ties.Rows.{mark_at};

use std::alloc::{AllocError, Global};
use std::marker::Model;

/// States, each once, in the order in which they were inserted.
#[derive(Drop)]
pub struct States {
    list: Vec<u32>,
    /// Whether a state is in the list.
    marks: Vec<bool>,
}

impl Model for States {
    ghost use Rattle.std.specs.Prelude.{◌≡◌, ℕ, List, nat_eq};
    ghost use Rattle.std.specs.List.{list_any};
    ghost use Rattle.nwa_reduce.specs.Ties.Rows.{mark_at};

    ghost Value = { List ℕ };

    ghost view = { λ s. s.list.items };

    ghost invariant = { λ s. (q : ℕ) → mark_at s.marks.items q ≡ list_any (nat_eq q) s.list.items };
}

impl States {
    /// No states.
    pub fn new(alloc: Global) -> Self
        ensures { result ≡ [] }
    {
        States {
            list: Vec::new(alloc),
            marks: Vec::new(alloc),
        }
    }

    /// The states.
    pub fn as_slice(&self) -> &[u32]
        ensures { result.now ≡ self.now }
    {
        self.list.as_slice()
    }

    /// The state at a place, or none past the end.
    pub fn at(&self, place: usize) -> Option<u32>
        ensures value { result ≡ slice_get self.now place }
        ensures small { length self.now < 2 ^ 63 }
    {
        let _states = self.list.len();
        self.list.get(place).copied()
    }

    /// Whether a state is in the list.
    pub fn contains(&self, state: u32) -> bool
        ensures { result ≡ list_any (nat_eq state) self.now }
    {
        match self.marks.get(state as usize) {
            Some(mark) => *mark,
            None => false,
        }
    }

    /// Inserts a state at the end, unless it is in the list. The memory is that of the states up to this one.
    pub fn insert(&mut self, state: u32) -> Result<(), AllocError>
        ensures { OnOk result (self.new ≡ (if list_any (nat_eq state) self.old then self.old else self.old ++ state ∷ [])) }
    {
        if self.contains(state) {
            return Ok(());
        }
        self.list.reserve(1)?;
        mark(&mut self.marks, state)?;
        self.list.push_reserved(state);
        Ok(())
    }
}

/// Marks a number.
fn mark(marks: &mut Vec<bool>, place: u32) -> Result<(), AllocError>
    ensures ok { OnOk result ((q : ℕ) → mark_at marks.new.items q ≡ (nat_eq q place || mark_at marks.old.items q)) }
    ensures err { OnErr result ((q : ℕ) → mark_at marks.new.items q ≡ mark_at marks.old.items q) }
{
    reach(marks, place)?;
    marks[place as usize] = true;
    Ok(())
}

/// Adds marks that are not set, up to a number.
fn reach(marks: &mut Vec<bool>, place: u32) -> Result<(), AllocError>
    ensures within { OnOk result (place < length marks.new.items) }
    ensures same { (q : ℕ) → mark_at marks.new.items q ≡ mark_at marks.old.items q }
{
    let length = place as usize + 1;
    if marks.len() < length {
        marks.resize(length, false)?;
    }
    Ok(())
}
