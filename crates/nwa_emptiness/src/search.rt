//! The pairs that a search has found, and how.
#![tactic(auto, unfolding(crate::specs::Ties::Seen::seen))]

ghost use Rattle.std.specs.Prelude.{◌≡◌, ◌≤◌, ◌<◌, ◌^◌, length, slice_get, IfOk, OnOk, MatchOption};

use indexmap::IndexSet;
use nwa_base::{Groups, Letter, Nwa};
use std::alloc::{AllocError, Global};

/// By which letter a pair was found, and from which pairs, named by their places.
#[derive(Clone, Copy)]
pub enum Link {
    /// The start.
    Begin,
    /// By an inside letter from a pair.
    Inside(usize, Letter),
    /// By a call, as the entry of its call.
    Call,
    /// By a call from a pair and a return from a pair inside the call.
    Back(usize, Letter, usize, Letter),
}

/// How a pair was found, and by which call from which pair its entry was entered.
#[derive(Clone, Copy)]
pub struct Way {
    pub link: Link,
    pub caller: Option<(usize, Letter)>,
}

/// A pair of an entry, which is the state after the innermost open call, or none where no call is open, and the present state.
/// It stands at a place, and its entry was entered by a call from another pair.
#[derive(Clone, Copy)]
pub struct Point {
    pub place: usize,
    pub entry: Option<u32>,
    pub state: u32,
    pub caller: Option<(usize, Letter)>,
}

/// The pairs that were found, in this order, each once.
#[derive(Drop)]
pub struct Search<'a> {
    alloc: Global,
    nwa: &'a Nwa,
    pairs: IndexSet<(Option<u32>, u32)>,
    ways: Vec<Way>,
    /// The places of a present state.
    by_state: Groups<u32, usize>,
    /// The places of an entry.
    by_entry: Groups<u32, usize>,
}

impl<'a> Search<'a> {
    ghost use Rattle.nwa_base.specs.Members.{Member};
    ghost use Rattle.nwa_base.specs.Automata.{IsAutomaton};
    ghost use Rattle.nwa_emptiness.specs.Ties.Search.{IsWay, IsSearch, IsPoint, Keeps};
    ghost use Rattle.nwa_emptiness.specs.Ties.Seen.{seen};

    /// No pairs.
    pub fn new(alloc: Global, nwa: &'a Nwa) -> Self
        requires { IsAutomaton nwa.now }
        ensures automaton { (seen result).nwa ≡ nwa.now }
        ensures search { IsSearch (seen result) }
    {
        Search {
            alloc,
            nwa,
            pairs: IndexSet::new(alloc),
            ways: Vec::new(alloc),
            by_state: Groups::new(alloc),
            by_entry: Groups::new(alloc),
        }
    }

    /// The automaton that is searched.
    pub fn nwa(&self) -> &'a Nwa
        ensures { result.now ≡ (seen self.now).nwa }
    {
        self.nwa
    }

    /// The pair at a place, or none past the end.
    pub fn point(&self, place: usize) -> Option<Point>
        requires { IsSearch (seen self.now) }
        ensures point { MatchOption result (length (seen self.now).pairs ≤ place) (λ p. IsPoint (seen self.now) p × (p.place ≡ place)) }
        ensures small { length (seen self.now).pairs < 2 ^ 63 }
    {
        let _pairs = self.pairs.len();
        let Some(&(entry, state)) = self.pairs.get_index(place) else {
            return None;
        };
        let Some(way) = self.way(place) else {
            return None;
        };
        Some(Point {
            place,
            entry,
            state,
            caller: way.caller,
        })
    }

    /// How the pair at a place was found.
    pub fn way(&self, place: usize) -> Option<Way>
        ensures { result ≡ slice_get (seen self.now).ways place }
    {
        self.ways.get(place).copied()
    }

    /// The places of a state, as they are now.
    pub fn places_at(&self, state: u32) -> Result<Vec<usize>, AllocError>
        ensures { IfOk result (λ v. v.items ≡ (seen self.now).by_state state) }
    {
        Vec::from_slice(self.alloc, self.by_state.of(&state))
    }

    /// The places of an entry, as they are now.
    pub fn places_inside(&self, entry: u32) -> Result<Vec<usize>, AllocError>
        ensures { IfOk result (λ v. v.items ≡ (seen self.now).by_entry entry) }
    {
        Vec::from_slice(self.alloc, self.by_entry.of(&entry))
    }

    /// Adds a pair at the end, unless it was found before.
    pub fn add(&mut self, entry: Option<u32>, state: u32, way: Way) -> Result<(), AllocError>
        requires search { IsSearch (seen self.old) }
        requires way { IsWay (seen self.old).nwa (seen self.old).pairs entry state way }
        ensures { OnOk result (Keeps (seen self.old) (seen self.new) × Member (seen self.new).pairs (entry, state)) }
    {
        let place = self.pairs.len();
        let (_, is_new) = self.pairs.insert_full((entry, state))?;
        if !is_new {
            return Ok(());
        }
        self.ways.push(way)?;
        self.by_state.add(state, place)?;
        match entry {
            Some(entry) => self.by_entry.add(entry, place),
            None => Ok(()),
        }
    }
}
