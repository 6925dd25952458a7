//! Nodes under new numbers, in the order of their places.

ghost use Rattle.std.specs.Prelude.{◌≡◌, ◌≢◌, ◌+◌, ◌<◌, ◌^◌, ◌++◌, ℕ, IfOk, OnOk, length, map, slice_index, Some, slice_get};
ghost use Rattle.std.specs.List.{AllByRecursion};
ghost use Rattle.nwa_base.specs.declared.letters.Kind.TheVariants.{Inside, Call};
ghost use Rattle.nwa_base.specs.Automata.{Automaton, IsAutomaton, IsEdge, IsBackEdge};
ghost use Rattle.proof_build.specs.ProofUnwind.Unwindings.{node_at, node_place_in, bare};
ghost use Rattle.proof_build.specs.ProofUnwind.Exploring.{IsExploring, AreOpened};
ghost use Rattle.proof_build.specs.ProofUnwind.Renumbering.{renamed, moved, moved_back, IsMoved, PlacesAscend, pair_at, AreOthers, IsOrder, ArePlaced, AreRanks};
ghost use Rattle.proof_build.specs.ProofUnwind.Spots.{nodes_of};

use crate::proof_unwind::search::added;
use crate::proof_unwind::spots::Spot;
use crate::proof_unwind::unwinding::Unwound;
use nwa_base::{Letter, Nwa, empty};
use std::alloc::{AllocError, Global};

/// The place and the number of each node but the first.
fn other_pairs(alloc: Global, spots: &[Spot]) -> Result<Vec<(u32, u32)>, AllocError>
    requires some { 0 < length spots.now }
    requires fits { length spots.now < 2 ^ 32 }
    ensures { IfOk result (λ v. AreOthers (nodes_of spots.now) v.items) }
{
    let mut pairs = Vec::new(alloc);
    for number in 1..spots.len() {
        pairs.push((spots[number].place, number as u32))?;
    }
    Ok(pairs)
}

/// The place and the number of each node, in the order of their places.
fn placed(alloc: Global, spots: &[Spot]) -> Result<Vec<(u32, u32)>, AllocError>
    requires some { 0 < length spots.now }
    requires fits { length spots.now < 2 ^ 32 }
    requires first { node_place_in (nodes_of spots.now) 0 ≡ 0 }
    ensures { IfOk result (λ v. ArePlaced (nodes_of spots.now) v.items) }
{
    let mut others = other_pairs(alloc, spots)?;
    others.sort_by_key(|pair| pair.0)?;
    let mut order = Vec::new(alloc);
    order.push((0, 0))?;
    order.extend_from_slice(&others)?;
    Ok(order)
}

/// The new number of each node.
fn ranked(alloc: Global, order: &[(u32, u32)]) -> Result<Vec<u32>, AllocError>
    requires fits { length order.now < 2 ^ 32 }
    requires is_order { IsOrder order.now }
    ensures { IfOk result (λ v. AreRanks order.now v.items) }
{
    let mut ranks = vec![in alloc; 0; order.len()]?;
    for (rank, pair) in order.iter().enumerate() {
        ranks[pair.1 as usize] = rank as u32;
    }
    Ok(ranks)
}

/// The new number of a node.
fn rank(ranks: &[u32], number: u32) -> u32
    ensures { result ≡ slice_index ranks.now number }
{
    match ranks.get(number as usize) {
        Some(rank) => *rank,
        None => 0,
    }
}

/// The nodes in the order.
fn moved_spots(
    alloc: Global,
    spots: &[Spot],
    order: &[(u32, u32)],
    ranks: &[u32],
) -> Result<Vec<Spot>, AllocError>
    requires { (j : ℕ) → j < length order.now → (pair_at order.now j).1 < length spots.now }
    ensures { IfOk result (λ v. nodes_of v.items ≡ map (λ p. renamed (slice_index ranks.now) (node_at (nodes_of spots.now) p.1)) order.now) }
{
    let mut moved = Vec::new(alloc);
    for pair in order {
        let spot = &spots[pair.1 as usize];
        moved.push(Spot {
            place: spot.place,
            entry: rank(ranks, spot.entry),
            preds: Vec::from_slice(alloc, &spot.preds)?,
        })?;
    }
    Ok(moved)
}

/// Adds steps by inside letters, between the new numbers.
fn move_insides(
    steps: &mut Nwa,
    edges: &[(u32, Letter, u32)],
    ranks: &[u32],
) -> Result<(), AllocError>
    requires edges { AllByRecursion (IsEdge steps.old.states Inside) edges.now }
    requires within { (q : ℕ) → q < steps.old.states → slice_index ranks.now q < steps.old.states }
    ensures { OnOk result (steps.new ≡ record steps.old { insides = steps.old.insides ++ map (moved (slice_index ranks.now)) edges.now }) }
{
    for &(from, letter, to) in edges {
        added(steps.add_inside(rank(ranks, from), letter, rank(ranks, to)))?;
    }
    Ok(())
}

/// Adds steps by call letters, between the new numbers.
fn move_calls(
    steps: &mut Nwa,
    edges: &[(u32, Letter, u32)],
    ranks: &[u32],
) -> Result<(), AllocError>
    requires edges { AllByRecursion (IsEdge steps.old.states Call) edges.now }
    requires within { (q : ℕ) → q < steps.old.states → slice_index ranks.now q < steps.old.states }
    ensures { OnOk result (steps.new ≡ record steps.old { calls = steps.old.calls ++ map (moved (slice_index ranks.now)) edges.now }) }
{
    for &(from, letter, to) in edges {
        added(steps.add_call(rank(ranks, from), letter, rank(ranks, to)))?;
    }
    Ok(())
}

/// Adds backs, between the new numbers.
fn move_backs(
    steps: &mut Nwa,
    edges: &[(u32, u32, Letter, u32)],
    ranks: &[u32],
) -> Result<(), AllocError>
    requires edges { AllByRecursion (IsBackEdge steps.old.states) edges.now }
    requires within { (q : ℕ) → q < steps.old.states → slice_index ranks.now q < steps.old.states }
    ensures { OnOk result (steps.new ≡ record steps.old { backs = steps.old.backs ++ map (moved_back (slice_index ranks.now)) edges.now }) }
{
    for &(exit, before, letter, to) in edges {
        let exit = rank(ranks, exit);
        added(steps.add_back(exit, rank(ranks, before), letter, rank(ranks, to)))?;
    }
    Ok(())
}

/// Adds the steps and backs of an automaton, between the new numbers.
fn move_steps(to: &mut Nwa, from: &Nwa, ranks: &[u32]) -> Result<(), AllocError>
    requires automaton { IsAutomaton from.now }
    requires states { to.old.states ≡ from.now.states }
    requires within { (q : ℕ) → q < from.now.states → slice_index ranks.now q < from.now.states }
    ensures { OnOk result (to.new ≡ record to.old {
      insides = to.old.insides ++ map (moved (slice_index ranks.now)) from.now.insides;
      calls = to.old.calls ++ map (moved (slice_index ranks.now)) from.now.calls;
      backs = to.old.backs ++ map (moved_back (slice_index ranks.now)) from.now.backs;
    }) }
{
    move_insides(to, from.insides(), ranks)?;
    move_calls(to, from.calls(), ranks)?;
    move_backs(to, from.backs(), ranks)?;
    Ok(())
}

/// The steps and backs between the new numbers.
fn moved_steps(alloc: Global, steps: &Nwa, ranks: &[u32]) -> Result<Nwa, AllocError>
    requires { (q : ℕ) → q < steps.now.states → slice_index ranks.now q < steps.now.states }
    ensures { IfOk result (λ t. IsMoved (slice_index ranks.now) steps.now t) }
{
    let mut moved = added(empty(alloc, steps.states(), steps.start()))?;
    let Ok(()) = move_steps(&mut moved, steps, ranks) else {
        drop(moved);
        return Err(AllocError);
    };
    Ok(moved)
}

/// The same nodes and steps, numbered in the order of the places.
pub fn by_place(alloc: Global, found: &Unwound) -> Result<Unwound, AllocError>
    requires first { slice_get (nodes_of found.now.nodes.items) 0 ≡ Some bare }
    requires states { found.now.steps.states ≡ length (nodes_of found.now.nodes.items) }
    ensures exploring { IfOk result (λ u. (m b : Automaton) → IsExploring m b (nodes_of found.now.nodes.items) found.now.steps → IsExploring m b (nodes_of u.nodes.items) u.steps) }
    ensures opened { IfOk result (λ u. (m b : Automaton) → IsExploring m b (nodes_of found.now.nodes.items) found.now.steps → AreOpened m (nodes_of found.now.nodes.items) found.now.steps (length (nodes_of found.now.nodes.items)) → AreOpened m (nodes_of u.nodes.items) u.steps (length (nodes_of u.nodes.items))) }
    ensures ascend { IfOk result (λ u. PlacesAscend (nodes_of u.nodes.items)) }
{
    let _states = found.steps.states();
    let order = placed(alloc, &found.nodes)?;
    let ranks = ranked(alloc, &order)?;
    let nodes = moved_spots(alloc, &found.nodes, &order, &ranks)?;
    let steps = moved_steps(alloc, &found.steps, &ranks)?;
    Ok(Unwound { nodes, steps })
}
