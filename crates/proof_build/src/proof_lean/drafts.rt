//! Annotations by numbers alone.

use proof_names::{Listed, NamedNode, NamedStep, NamedTriple, Outline};
use std::alloc::{AllocError, Global};

/// A triple: its place among the triples, its predicates at the exit and before the call, its letter, and its target. One of another letter than a
/// return has its source at the exit, and true before the call.
#[derive(Clone, Copy)]
pub(crate) struct Rule {
    pub place: usize,
    pub exit: usize,
    pub before: usize,
    pub letter: u32,
    pub to: usize,
}

/// A step or a back: the nodes from which it leads, its letter, and the node to which it leads. A step has its node as exit and as the one before a
/// call.
#[derive(Clone, Copy)]
pub(crate) struct Move {
    pub exit: usize,
    pub before: usize,
    pub letter: u32,
    pub to: usize,
    pub is_back: bool,
}

/// An annotation by numbers. Predicate 0 is true, 1 is false, and the others are the lines of predicates, from 2 on.
#[derive(Drop)]
pub(crate) struct Draft {
    pub rules: Vec<Rule>,
    pub nodes: Vec<NamedNode>,
    pub moves: Vec<Move>,
}

/// The triple at a place.
fn rule_of(place: usize, listed: Listed) -> Rule {
    match listed {
        Listed::Inside { from, letter, to } => Rule {
            place,
            exit: from,
            before: 0,
            letter,
            to,
        },
        Listed::Call { from, letter, to } => Rule {
            place,
            exit: from,
            before: 0,
            letter,
            to,
        },
        Listed::Back {
            exit,
            before,
            letter,
            to,
        } => Rule {
            place,
            exit,
            before,
            letter,
            to,
        },
    }
}

fn move_of(step: NamedStep) -> Move {
    match step {
        NamedStep::Step { from, letter, to } => Move {
            exit: from,
            before: from,
            letter,
            to,
            is_back: false,
        },
        NamedStep::Back {
            exit,
            call,
            letter,
            to,
        } => Move {
            exit,
            before: call,
            letter,
            to,
            is_back: true,
        },
    }
}

fn rules_of(alloc: Global, triples: &[NamedTriple]) -> Result<Vec<Rule>, AllocError> {
    let mut rules = Vec::with_capacity(alloc, triples.len())?;
    for (place, triple) in triples.iter().enumerate() {
        rules.push(rule_of(place, triple.listed))?;
    }
    Ok(rules)
}

fn moves_of(alloc: Global, steps: &[NamedStep]) -> Result<Vec<Move>, AllocError> {
    let mut moves = Vec::with_capacity(alloc, steps.len())?;
    for step in steps {
        moves.push(move_of(*step))?;
    }
    Ok(moves)
}

/// What an annotation names, by numbers.
pub(crate) fn draft_of(alloc: Global, outline: Outline) -> Result<Draft, AllocError> {
    let rules = rules_of(alloc, &outline.triples)?;
    let moves = moves_of(alloc, &outline.steps)?;
    let Outline { nodes, .. } = outline;
    Ok(Draft {
        rules,
        nodes,
        moves,
    })
}
