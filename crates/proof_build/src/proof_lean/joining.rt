//! One node for each class of nodes.

use crate::proof_lean::classes::number_at;
use crate::proof_lean::drafts::Move;
use proof_names::NamedNode;
use std::alloc::{AllocError, Global};
use std::collections::HashSet;

/// The first node of each class, with its entry node by its class.
pub(crate) fn joined_nodes(
    alloc: Global,
    nodes: &[NamedNode],
    classes: &[usize],
) -> Result<Vec<NamedNode>, AllocError> {
    let mut joined = Vec::new(alloc);
    for (number, node) in nodes.iter().enumerate() {
        // The classes are numbered in the order of their first nodes.
        if number_at(classes, number) == joined.len() {
            let preds = Vec::from_slice(alloc, &node.preds)?;
            joined.push(NamedNode {
                place: node.place,
                entry: number_at(classes, node.entry),
                preds,
            })?;
        }
    }
    Ok(joined)
}

/// The move between the classes of its nodes.
fn joined_move(classes: &[usize], step: Move) -> Move {
    Move {
        exit: number_at(classes, step.exit),
        before: number_at(classes, step.before),
        letter: step.letter,
        to: number_at(classes, step.to),
        is_back: step.is_back,
    }
}

/// The moves between the classes, each once.
pub(crate) fn joined_moves(
    alloc: Global,
    moves: &[Move],
    classes: &[usize],
) -> Result<Vec<Move>, AllocError> {
    let mut seen = HashSet::new(alloc);
    let mut joined = Vec::new(alloc);
    for step in moves {
        let step = joined_move(classes, *step);
        if seen.insert((step.exit, step.before, step.letter, step.to))? {
            joined.push(step)?;
        }
    }
    Ok(joined)
}
