//! The nodes to which moves lead from the first one.

use crate::proof_lean::drafts::Move;
use nwa_base::Groups;
use std::alloc::{AllocError, Global};
use std::collections::HashSet;

/// A search for the nodes to which moves lead.
#[derive(Drop)]
struct Reach {
    seen: HashSet<usize>,
    /// The nodes of which it is still to be asked where moves lead from them.
    open: Vec<usize>,
}

impl Reach {
    /// The node is reached.
    fn see(&mut self, node: usize) -> Result<(), AllocError> {
        if self.seen.insert(node)? {
            self.open.push(node)?;
        }
        Ok(())
    }

    /// The ends of the moves are reached, where all nodes are from which a move leads.
    fn see_ends(&mut self, moves: &[Move]) -> Result<(), AllocError> {
        for step in moves {
            if self.seen.contains(&step.exit) && self.seen.contains(&step.before) {
                self.see(step.to)?;
            }
        }
        Ok(())
    }
}

/// The moves by each node from which they lead.
fn by_start(alloc: Global, moves: &[Move]) -> Result<Groups<usize, Move>, AllocError> {
    let mut groups = Groups::new(alloc);
    for step in moves {
        groups.add(step.exit, *step)?;
        groups.add(step.before, *step)?;
    }
    Ok(groups)
}

/// The search at the first node.
fn begin(alloc: Global) -> Result<Reach, AllocError> {
    let mut reach = Reach {
        seen: HashSet::new(alloc),
        open: Vec::new(alloc),
    };
    reach.see(0)?;
    Ok(reach)
}

/// The nodes, of which there are so many, that moves reach from the first one.
fn reached(alloc: Global, count: usize, moves: &[Move]) -> Result<HashSet<usize>, AllocError> {
    let from = by_start(alloc, moves)?;
    let mut reach = begin(alloc)?;
    // Each node is opened once at most.
    for _ in 0..count {
        let Some(node) = reach.open.pop() else {
            break;
        };
        reach.see_ends(from.of(&node))?;
    }
    let Reach { seen, .. } = reach;
    Ok(seen)
}

/// The new number of each node that moves reach, in the order of the old ones; of the others one that no node has.
pub(crate) fn ranks_of(
    alloc: Global,
    count: usize,
    moves: &[Move],
) -> Result<Vec<usize>, AllocError> {
    let seen = reached(alloc, count, moves)?;
    let mut ranks = Vec::with_capacity(alloc, count)?;
    let mut next = 0usize;
    for number in 0..count {
        if seen.contains(&number) {
            ranks.push(next)?;
            next = next.saturating_add(1);
        } else {
            ranks.push(usize::MAX)?;
        }
    }
    Ok(ranks)
}

/// The moves from nodes that have a new number.
pub(crate) fn moves_within(
    alloc: Global,
    moves: &[Move],
    ranks: &[usize],
) -> Result<Vec<Move>, AllocError> {
    let mut kept = Vec::new(alloc);
    for step in moves {
        if is_ranked(ranks, step.exit) && is_ranked(ranks, step.before) {
            kept.push(*step)?;
        }
    }
    Ok(kept)
}

/// Whether the node has a new number.
fn is_ranked(ranks: &[usize], node: usize) -> bool {
    match ranks.get(node) {
        Some(rank) => *rank != usize::MAX,
        None => false,
    }
}
