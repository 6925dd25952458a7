//! Nodes in whose place others stand: at one place, under one entry node, with no other facts.

use crate::proof_lean::classes::number_at;
use crate::proof_lean::drafts::Move;
use nwa_base::Groups;
use proof_names::NamedNode;
use std::alloc::{AllocError, Global};

/// So many nodes at one place under one entry node are tried for each further one there: those with the fewest facts.
const TRIED: usize = 64;

/// How many facts each node has, and its number; nodes with fewer facts come first.
fn by_facts(alloc: Global, nodes: &[NamedNode]) -> Result<Vec<(usize, usize)>, AllocError> {
    let mut order = Vec::with_capacity(alloc, nodes.len())?;
    for (number, node) in nodes.iter().enumerate() {
        order.push((node.preds.len(), number))?;
    }
    order.sort_unstable();
    Ok(order)
}

/// Whether each of the first numbers is one of the others.
fn are_among(numbers: &[usize], others: &[usize]) -> bool {
    for number in numbers {
        if !others.contains(number) {
            return false;
        }
    }
    true
}

/// The first of the nodes whose facts are all among these.
fn first_among(nodes: &[NamedNode], numbers: &[usize], facts: &[usize]) -> Option<usize> {
    for number in numbers.iter().take(TRIED) {
        if let Some(node) = nodes.get(*number) {
            if are_among(&node.preds, facts) {
                return Some(*number);
            }
        }
    }
    None
}

/// Puts another node in the place of one, if there is one that was looked at before; else the node is one for others from now on.
fn cover(
    covers: &mut [usize],
    seen: &mut Groups<(u32, usize), usize>,
    nodes: &[NamedNode],
    number: usize,
) -> Result<(), AllocError> {
    let Some(node) = nodes.get(number) else {
        return Ok(());
    };
    // A call leads to an entry node with just its facts, and what returns from it goes by those.
    if node.entry == number {
        return Ok(());
    }
    let key = (node.place, node.entry);
    match first_among(nodes, seen.of(&key), &node.preds) {
        Some(other) => {
            if let Some(cover) = covers.get_mut(number) {
                *cover = other;
            }
            Ok(())
        }
        None => seen.add(key, number),
    }
}

/// Each number below the count.
fn counted(alloc: Global, count: usize) -> Result<Vec<usize>, AllocError> {
    let mut numbers = Vec::with_capacity(alloc, count)?;
    for number in 0..count {
        numbers.push(number)?;
    }
    Ok(numbers)
}

/// The node that stands in the place of each, the node itself where none does. What is shown of a node's facts is shown of fewer, and the other has
/// the steps and backs that are due from the place.
pub(crate) fn covers_of(alloc: Global, nodes: &[NamedNode]) -> Result<Vec<usize>, AllocError> {
    let order = by_facts(alloc, nodes)?;
    let mut covers = counted(alloc, nodes.len())?;
    let mut seen = Groups::new(alloc);
    for (_, number) in &order {
        cover(&mut covers, &mut seen, nodes, *number)?;
    }
    Ok(covers)
}

/// Whether no other node stands in the place of this one.
fn stands(covers: &[usize], number: usize) -> bool {
    number_at(covers, number) == number
}

/// The moves from nodes that stand, each to the node that stands in the place of its end.
pub(crate) fn covered_moves(
    alloc: Global,
    moves: &[Move],
    covers: &[usize],
) -> Result<Vec<Move>, AllocError> {
    let mut covered = Vec::new(alloc);
    for step in moves {
        if stands(covers, step.exit) && stands(covers, step.before) {
            covered.push(Move {
                exit: step.exit,
                before: step.before,
                letter: step.letter,
                to: number_at(covers, step.to),
                is_back: step.is_back,
            })?;
        }
    }
    Ok(covered)
}
