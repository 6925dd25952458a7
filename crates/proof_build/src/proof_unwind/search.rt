//! What is found while nodes and steps are searched, and how it grows.

ghost use Rattle.std.specs.Prelude.{true, ◌≡◌, ◌≢◌, ◌<◌, ◌↔◌, ◌∷◌, [], Ok, Err, IfOk, OnOk, IfSome, IsTrue, length, nat_eq};
ghost use Rattle.std.specs.List.{list_all, list_any};
ghost use Rattle.proof_build.specs.ProofUnwind.Spots.{plain, nodes_of, IsWeaker, IsEntryWith};

use crate::proof_unwind::candidates::Candidates;
use crate::proof_unwind::spots::{Spot, spot_at};
use nwa_base::{Letter, Nwa, NwaFault};
use std::alloc::{AllocError, Global};

/// Nodes, the steps between them, and where a node may be found again.
#[derive(Drop)]
pub(crate) struct Search {
    pub(crate) candidates: Candidates,
    pub(crate) spots: Vec<Spot>,
    pub(crate) steps: Nwa,
}

/// Whether each of the first numbers is among the others.
fn are_among(numbers: &[u32], others: &[u32]) -> bool
    ensures { result ≡ list_all (λ n. list_any (λ y. nat_eq y n) others.now) numbers.now }
{
    numbers.iter().all(|number| others.contains(number))
}

/// Whether the node is at the place, under the entry node, and has none but these predicates.
fn is_weaker(spot: &Spot, place: u32, entry: u32, preds: &[u32]) -> bool
    ensures { result ≡ true → (spot.now.place ≡ place) × (spot.now.entry ≡ entry) × (list_all (λ n. list_any (λ y. nat_eq y n) preds.now) spot.now.preds.items ≡ true) }
{
    spot.place == place && spot.entry == entry && are_among(&spot.preds, preds)
}

/// Whether the node is an entry node at the place with these predicates.
fn is_entry_with(spot: &Spot, number: u32, place: u32, preds: &[u32]) -> bool
    ensures { result ≡ true → (spot.now.place ≡ place) × (spot.now.entry ≡ number) × (spot.now.preds.items ≡ preds.now) }
{
    spot.place == place && spot.entry == number && spot.preds.as_slice() == preds
}

/// One of the candidates that is at the place, under the entry node, and has none but these predicates.
pub(crate) fn weaker(
    spots: &[Spot],
    candidates: &[u32],
    place: u32,
    entry: u32,
    preds: &[u32],
) -> Option<u32>
    ensures { IfSome result (IsWeaker (nodes_of spots.now) place entry preds.now) }
{
    for candidate in candidates {
        match spot_at(spots, *candidate) {
            Some(spot) if is_weaker(spot, place, entry, preds) => return Some(*candidate),
            _ => {}
        }
    }
    None
}

/// One of the candidates that is an entry node at the place with these predicates.
pub(crate) fn entry_with(
    spots: &[Spot],
    candidates: &[u32],
    place: u32,
    preds: &[u32],
) -> Option<u32>
    ensures { IfSome result (IsEntryWith (nodes_of spots.now) place preds.now) }
{
    for candidate in candidates {
        match spot_at(spots, *candidate) {
            Some(spot) if is_entry_with(spot, *candidate, place, preds) => return Some(*candidate),
            _ => {}
        }
    }
    None
}

/// What an automaton answers where its states are there and each letter has its kind.
pub(crate) fn added<T: Drop>(answer: Result<T, NwaFault>) -> Result<T, AllocError>
    requires state { answer ≢ Err NwaFault.BadState }
    requires letter { answer ≢ Err NwaFault.BadLetter }
    ensures { IfOk result (λ value. answer ≡ Ok value) }
{
    match answer {
        Ok(value) => Ok(value),
        Err(NwaFault::Memory) => Err(AllocError),
        Err(NwaFault::BadState | NwaFault::BadLetter) => unreachable!(),
    }
}

impl Search {
    ghost use Rattle.nwa_base.specs.declared.letters.Kind.TheVariants.{Inside, Call};
    ghost use Rattle.nwa_base.specs.Automata.{IsEdge, IsBackEdge};
    ghost use Rattle.proof_check.specs.Steps.{IsOpen};
    ghost use Rattle.proof_build.specs.ProofUnwind.Unwindings.{node_at, node_place_in, entry_of};
    ghost use Rattle.proof_build.specs.ProofUnwind.Exploring.{with_node, linked_inside, linked_call, linked_back};
    ghost use Rattle.proof_build.specs.ProofUnwind.Ties.Searches.{stage_of};

    /// The place of a node.
    pub(crate) fn place(&self, number: u32) -> u32
        requires { number < length (stage_of self.now).nodes }
        ensures { result ≡ node_place_in (stage_of self.now).nodes number }
    {
        self.spots[number as usize].place
    }

    /// The entry node of a node.
    pub(crate) fn entry(&self, number: u32) -> u32
        requires { number < length (stage_of self.now).nodes }
        ensures { result ≡ entry_of (stage_of self.now).nodes number }
    {
        self.spots[number as usize].entry
    }

    /// Whether a node lacks the predicate false.
    pub(crate) fn is_open(&self, number: u32) -> bool
        requires { number < length (stage_of self.now).nodes }
        ensures { IsTrue result ↔ IsOpen (node_at (stage_of self.now).nodes number) }
    {
        !self.spots[number as usize].preds.contains(&1)
    }

    /// Adds a node, of which the steps are a state more.
    pub(crate) fn add(&mut self, spot: Spot) -> Result<u32, AllocError>
        ensures number { IfOk result (λ k. k ≡ self.old.steps.states) }
        ensures stage { OnOk result (stage_of self.new ≡ with_node (stage_of self.old) (plain spot)) }
    {
        let number = self.steps.add_state()?;
        self.candidates.add(spot.place, spot.entry, number)?;
        self.spots.push(spot)?;
        Ok(number)
    }

    /// Adds a step by an inside letter between nodes.
    pub(crate) fn link_inside(
        &mut self,
        from: u32,
        letter: Letter,
        to: u32,
    ) -> Result<(), AllocError>
        requires { IsEdge self.old.steps.states Inside (from, letter, to) }
        ensures { OnOk result (stage_of self.new ≡ linked_inside (stage_of self.old) (from, letter, to)) }
    {
        added(self.steps.add_inside(from, letter, to))?;
        Ok(())
    }

    /// Adds a step by a call letter between nodes.
    pub(crate) fn link_call(&mut self, from: u32, letter: Letter, to: u32) -> Result<(), AllocError>
        requires { IsEdge self.old.steps.states Call (from, letter, to) }
        ensures { OnOk result (stage_of self.new ≡ linked_call (stage_of self.old) (from, letter, to)) }
    {
        added(self.steps.add_call(from, letter, to))?;
        Ok(())
    }

    /// Adds a back between nodes.
    pub(crate) fn link_back(
        &mut self,
        exit: u32,
        before: u32,
        letter: Letter,
        to: u32,
    ) -> Result<(), AllocError>
        requires { IsBackEdge self.old.steps.states (exit, before, letter, to) }
        ensures { OnOk result (stage_of self.new ≡ linked_back (stage_of self.old) (exit, before, letter, to)) }
    {
        added(self.steps.add_back(exit, before, letter, to))?;
        Ok(())
    }
}
