//! The product of an automaton and the sets of pairs of another. It grows while it is searched.
#![tactic(auto, unfolding(crate::specs::Ties::Seen::seen))]

ghost use Rattle.std.specs.Prelude.{◌≡◌, ◌≢◌, ◌<◌, ◌↔◌, ◌∷◌, [], false, IsTrue, Err, IfOk, OnOk, MatchOption, length, slice_index_or, if◌then◌else◌};
ghost use Rattle.nwa_difference.specs.Ties.Making.{Ends};

use crate::covered::{Places, is_covered};
use crate::covering::covers;
use indexmap::IndexSet;
use nwa_base::{Letter, Nwa, NwaFault, empty};
use nwa_determinise::{Det, det};
use std::alloc::{AllocError, Global};

/// The product. Each of its states stands for a state of the first automaton and a set of pairs of the second.
#[derive(Drop)]
pub struct Product<'a> {
    first: &'a Nwa,
    sets: Det<'a>,
    /// For states of the first automaton a state of the second that covers it.
    covers: Vec<Option<u32>>,
    places: Places,
    states: IndexSet<(u32, u32)>,
    nwa: Nwa,
}

impl<'a> Product<'a> {
    ghost use Rattle.nwa_base.specs.Members.{Member};
    ghost use Rattle.nwa_difference.specs.Ties.Making.{IsMade, Extends, Nowhere, NoReturn, Only, OnlyReturn, IsInsideEnd, IsCallEnd, IsBackEnd, HasInside, HasCall, HasBack, NoReturns, first_at, number_at};
    ghost use Rattle.nwa_difference.specs.Ties.Seen.{seen};

    /// The start alone.
    pub fn new(alloc: Global, first: &'a Nwa, second: &'a Nwa) -> Result<Self, AllocError>
        ensures { IfOk result (λ p. IsMade (seen p) × ((seen p).first ≡ first.now) × ((seen p).sets.nwa ≡ second.now)) }
    {
        let start = first.start();
        let covers = covers(alloc, first, second)?;
        let mut sets = det(alloc, second)?;
        let set = sets.start()?;
        let mut states = IndexSet::new(alloc);
        states.insert((start, set))?;
        let nwa = one_state(alloc, ends(first, &sets, start, set))?;
        Ok(Product {
            first,
            sets,
            covers,
            places: Places::new(alloc),
            states,
            nwa,
        })
    }

    /// The automaton that was made.
    pub fn nwa(&self) -> &Nwa
        ensures { result.now ≡ (seen self.now).product }
    {
        &self.nwa
    }

    /// The automaton, when all is made.
    pub fn into_nwa(self) -> Nwa
        ensures { result ≡ (seen self.entry).product }
    {
        let Product {
            first: _,
            sets: _,
            covers: _,
            places: _,
            states: _,
            nwa,
        } = self;
        nwa
    }

    /// The first automaton.
    pub fn first(&self) -> &'a Nwa
        ensures { result.now ≡ (seen self.now).first }
    {
        self.first
    }

    /// The state of the first automaton and the number of the set for which a state stands.
    pub fn parts(&self, state: u32) -> (u32, u32)
        ensures { result ≡ slice_index_or (seen self.now).states state (0, 0) }
    {
        match self.states.get_index(state as usize) {
            Some(&parts) => parts,
            None => (0, 0),
        }
    }

    /// Whether a return leaves a state.
    pub fn returns(&self, state: u32) -> bool
        ensures { (result ≡ false) ↔ NoReturns (seen self.now) state }
    {
        let (first, _) = self.parts(state);
        !self.first.backs_leaving(first).is_empty()
    }

    /// The state for where an inside letter leads from a state and in the first automaton, or none where that is covered.
    fn inside_end(
        &mut self,
        state: u32,
        letter: Letter,
        end: u32,
    ) -> Result<Option<u32>, AllocError>
        requires made { IsMade (seen self.old) }
        requires within { state < length (seen self.old).states }
        ensures extends { OnOk result (Extends (seen self.old) (seen self.new) Nowhere NoReturn) }
        ensures state { IfOk result (λ o. MatchOption o (HasInside (seen self.new) state letter end) (IsInsideEnd (seen self.new) state letter end)) }
    {
        let (_, set) = self.parts(state);
        let next = self.sets.on_inside(set, letter)?;
        if is_covered(
            &mut self.places,
            self.covers.as_slice(),
            &self.sets,
            end,
            next,
        ) {
            return Ok(None);
        }
        let to = self.state(end, next)?;
        Ok(Some(to))
    }

    /// The state for where a call letter leads from a state and in the first automaton, or none where that is covered.
    fn call_end(&mut self, state: u32, letter: Letter, end: u32) -> Result<Option<u32>, AllocError>
        requires made { IsMade (seen self.old) }
        requires within { state < length (seen self.old).states }
        ensures extends { OnOk result (Extends (seen self.old) (seen self.new) Nowhere NoReturn) }
        ensures state { IfOk result (λ o. MatchOption o (HasCall (seen self.new) state letter end) (IsCallEnd (seen self.new) state letter end)) }
    {
        let (_, set) = self.parts(state);
        let next = self.sets.on_call(set, letter)?;
        if is_covered(
            &mut self.places,
            self.covers.as_slice(),
            &self.sets,
            end,
            next,
        ) {
            return Ok(None);
        }
        let to = self.state(end, next)?;
        Ok(Some(to))
    }

    /// The state for where a return leads from a state and in the first automaton, or none where that is covered. `before` was the
    /// state before the call.
    fn back_end(
        &mut self,
        state: u32,
        before: u32,
        letter: Letter,
        end: u32,
    ) -> Result<Option<u32>, AllocError>
        requires made { IsMade (seen self.old) }
        requires within { state < length (seen self.old).states }
        requires before { before < length (seen self.old).states }
        ensures extends { OnOk result (Extends (seen self.old) (seen self.new) Nowhere NoReturn) }
        ensures state { IfOk result (λ o. MatchOption o (HasBack (seen self.new) state before letter end) (IsBackEnd (seen self.new) state before letter end)) }
    {
        let (_, set) = self.parts(state);
        let (_, outer) = self.parts(before);
        let next = self.sets.on_back(set, outer, letter)?;
        if is_covered(
            &mut self.places,
            self.covers.as_slice(),
            &self.sets,
            end,
            next,
        ) {
            return Ok(None);
        }
        let to = self.state(end, next)?;
        Ok(Some(to))
    }

    /// Adds an edge by an inside letter, unless its end is covered.
    pub fn add_inside(&mut self, state: u32, letter: Letter, end: u32) -> Result<(), AllocError>
        requires made { IsMade (seen self.old) }
        requires within { state < length (seen self.old).states }
        requires edge { Member (seen self.old).first.insides (first_at (seen self.old) state, letter, end) }
        ensures { OnOk result (Extends (seen self.old) (seen self.new) (Only state) NoReturn × HasInside (seen self.new) state letter end) }
    {
        let _states = self.first.states();
        let Some(to) = self.inside_end(state, letter, end)? else {
            return Ok(());
        };
        in_memory(self.nwa.add_inside(state, letter, to))?;
        Ok(())
    }

    /// Adds an edge by a call letter, unless its end is covered.
    pub fn add_call(&mut self, state: u32, letter: Letter, end: u32) -> Result<(), AllocError>
        requires made { IsMade (seen self.old) }
        requires within { state < length (seen self.old).states }
        requires edge { Member (seen self.old).first.calls (first_at (seen self.old) state, letter, end) }
        ensures { OnOk result (Extends (seen self.old) (seen self.new) (Only state) NoReturn × HasCall (seen self.new) state letter end) }
    {
        let _states = self.first.states();
        let Some(to) = self.call_end(state, letter, end)? else {
            return Ok(());
        };
        in_memory(self.nwa.add_call(state, letter, to))?;
        Ok(())
    }

    /// Adds an edge by a return, unless its end is covered. `before` was the state before the call.
    pub fn add_back(
        &mut self,
        state: u32,
        before: u32,
        letter: Letter,
        end: u32,
    ) -> Result<(), AllocError>
        requires made { IsMade (seen self.old) }
        requires within { state < length (seen self.old).states }
        requires before { before < length (seen self.old).states }
        requires edge { Member (seen self.old).first.backs (first_at (seen self.old) state, first_at (seen self.old) before, letter, end) }
        ensures { OnOk result (Extends (seen self.old) (seen self.new) Nowhere (OnlyReturn state before) × HasBack (seen self.new) state before letter end) }
    {
        let _states = self.first.states();
        let Some(to) = self.back_end(state, before, letter, end)? else {
            return Ok(());
        };
        in_memory(self.nwa.add_back(state, before, letter, to))?;
        Ok(())
    }

    /// The state for a state of the first automaton and a set, which is made if there is none.
    fn state(&mut self, first: u32, set: u32) -> Result<u32, AllocError>
        requires made { IsMade (seen self.old) }
        requires set { set < length (seen self.old).sets.sets }
        ensures extends { OnOk result (Extends (seen self.old) (seen self.new) Nowhere NoReturn) }
        ensures state { IfOk result (λ x. (x < length (seen self.new).states) × (first_at (seen self.new) x ≡ first) × (number_at (seen self.new) x ≡ set)) }
        ensures sets { OnOk result ((seen self.new).sets ≡ (seen self.old).sets) }
    {
        let (place, is_new) = self.states.insert_full((first, set))?;
        if !is_new {
            return Ok(place as u32);
        }
        let ends = ends(self.first, &self.sets, first, set);
        let state = self.nwa.add_state()?;
        if ends {
            in_memory(self.nwa.set_final(state))?;
        }
        Ok(state)
    }
}

/// Whether the first automaton accepts in a state and the second does not in a set.
fn ends(first: &Nwa, sets: &Det, state: u32, set: u32) -> bool
    requires { set < length sets.now.sets }
    ensures { IsTrue result ↔ Ends first.now sets.now state set }
{
    first.is_final(state) && !sets.accepting(set)
}

/// The automaton of a start alone.
fn one_state(alloc: Global, is_final: bool) -> Result<Nwa, AllocError>
    ensures { IfOk result (λ m. m ≡ record { states = 1; start = 0; finals = (if is_final then 0 ∷ [] else []); insides = []; calls = []; backs = [] }) }
{
    let mut nwa = in_memory(empty(alloc, 1, 0))?;
    if is_final {
        in_memory(nwa.set_final(0))?;
    }
    Ok(nwa)
}

/// What was made of states and letters that fit, or want of memory.
fn in_memory<T: Drop>(outcome: Result<T, NwaFault>) -> Result<T, AllocError>
    requires state { outcome ≢ Err NwaFault.BadState }
    requires letter { outcome ≢ Err NwaFault.BadLetter }
    ensures { IfOk result (λ value. outcome ≡ Ok value) }
{
    match outcome {
        Ok(value) => Ok(value),
        Err(NwaFault::Memory) => Err(AllocError),
        Err(NwaFault::BadState | NwaFault::BadLetter) => unreachable!(),
    }
}
