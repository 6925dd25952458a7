//! Facts: predicates at nodes, by their numbers.

use crate::proof_lean::drafts::{Move, Rule};
use proof_names::NamedNode;
use std::alloc::{AllocError, Global};
use std::collections::HashSet;

/// Some of the facts of an annotation: nodes with predicates. True is a fact everywhere.
#[derive(Drop)]
pub(crate) struct Facts {
    marks: HashSet<(usize, usize)>,
}

impl Facts {
    /// True alone.
    pub(crate) fn new(alloc: Global) -> Self {
        Facts {
            marks: HashSet::new(alloc),
        }
    }

    /// How many there are, but for true.
    pub(crate) fn count(&self) -> usize {
        self.marks.len()
    }

    /// Whether the predicate at the node is among them.
    pub(crate) fn has(&self, node: usize, pred: usize) -> bool {
        pred == 0 || self.marks.contains(&(node, pred))
    }

    /// Whether what a triple needs is among them, at the nodes from which a move leads.
    pub(crate) fn show(&self, rule: Rule, step: Move) -> bool {
        self.has(step.exit, rule.exit) && self.has(step.before, rule.before)
    }

    /// Adds a predicate at a node; whether it is a new fact.
    pub(crate) fn add(&mut self, node: usize, pred: usize) -> Result<bool, AllocError> {
        if pred == 0 {
            return Ok(false);
        }
        let is_new = self.marks.insert((node, pred))?;
        Ok(is_new)
    }

    /// Adds all predicates of a node.
    fn add_all(&mut self, node: usize, preds: &[usize]) -> Result<(), AllocError> {
        for pred in preds {
            self.add(node, *pred)?;
        }
        Ok(())
    }

    /// Those of a node's predicates that are among them.
    fn among(&self, alloc: Global, node: usize, preds: &[usize]) -> Result<Vec<usize>, AllocError> {
        let mut kept = Vec::new(alloc);
        for pred in preds {
            if self.has(node, *pred) {
                kept.push(*pred)?;
            }
        }
        Ok(kept)
    }
}

/// All facts of the nodes.
pub(crate) fn facts_of(alloc: Global, nodes: &[NamedNode]) -> Result<Facts, AllocError> {
    let mut facts = Facts::new(alloc);
    for (number, node) in nodes.iter().enumerate() {
        facts.add_all(number, &node.preds)?;
    }
    Ok(facts)
}

/// The nodes, each with those of its predicates that are among the facts.
pub(crate) fn with_facts(
    alloc: Global,
    nodes: &[NamedNode],
    facts: &Facts,
) -> Result<Vec<NamedNode>, AllocError> {
    let mut kept = Vec::with_capacity(alloc, nodes.len())?;
    for (number, node) in nodes.iter().enumerate() {
        let preds = facts.among(alloc, number, &node.preds)?;
        kept.push(NamedNode {
            place: node.place,
            entry: node.entry,
            preds,
        })?;
    }
    Ok(kept)
}
