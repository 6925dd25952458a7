//! The triples that are used, and the predicates under new numbers.

use crate::proof_lean::drafts::{Draft, Move, Rule};
use crate::proof_lean::facts::{Facts, facts_of};
use crate::proof_lean::needs::by_target;
use indexmap::IndexSet;
use nwa_base::Groups;
use proof_names::NamedNode;
use std::alloc::{AllocError, Global};
use std::collections::HashSet;

/// One of the triples that show the move: the first that is used already, and else the first.
fn pick(facts: &Facts, used: &HashSet<usize>, rules: &[Rule], step: Move) -> Option<usize> {
    let mut first = None;
    for rule in rules {
        if facts.show(*rule, step) {
            if used.contains(&rule.place) {
                return Some(rule.place);
            }
            if first.is_none() {
                first = Some(rule.place);
            }
        }
    }
    first
}

/// Uses a triple for each of the predicates at the end of a move.
fn use_rules(
    used: &mut HashSet<usize>,
    facts: &Facts,
    rules: &Groups<(u32, usize), Rule>,
    step: Move,
    preds: &[usize],
) -> Result<(), AllocError> {
    for pred in preds {
        if let Some(place) = pick(facts, used, rules.of(&(step.letter, *pred)), step) {
            used.insert(place)?;
        }
    }
    Ok(())
}

/// The places of the triples that the moves use: for each predicate at the end of a move one.
pub(crate) fn used_rules(alloc: Global, draft: &Draft) -> Result<HashSet<usize>, AllocError> {
    let facts = facts_of(alloc, &draft.nodes)?;
    let rules = by_target(alloc, &draft.rules)?;
    let mut used = HashSet::new(alloc);
    for step in &draft.moves {
        if let Some(node) = draft.nodes.get(step.to) {
            use_rules(&mut used, &facts, &rules, *step, &node.preds)?;
        }
    }
    Ok(used)
}

/// Adds the predicates that lines name.
fn add_preds(order: &mut IndexSet<usize>, preds: &[usize]) -> Result<(), AllocError> {
    for pred in preds {
        if *pred > 1 {
            order.insert(*pred)?;
        }
    }
    Ok(())
}

/// The predicates of the nodes that lines name, each once, in the order of the nodes.
pub(crate) fn preds_in_order(
    alloc: Global,
    nodes: &[NamedNode],
) -> Result<IndexSet<usize>, AllocError> {
    let mut order = IndexSet::new(alloc);
    for node in nodes {
        add_preds(&mut order, &node.preds)?;
    }
    Ok(order)
}

/// The number of a predicate in the order; true and false keep theirs.
fn renumbered(order: &IndexSet<usize>, pred: usize) -> usize {
    if pred < 2 {
        return pred;
    }
    match order.get_index_of(&pred) {
        Some(place) => place.saturating_add(2),
        None => 0,
    }
}

/// The triple with its predicates by their numbers in the order.
pub(crate) fn renumbered_rule(order: &IndexSet<usize>, rule: Rule) -> Rule {
    Rule {
        place: rule.place,
        exit: renumbered(order, rule.exit),
        before: renumbered(order, rule.before),
        letter: rule.letter,
        to: renumbered(order, rule.to),
    }
}

/// The numbers of predicates in the order, ascending.
pub(crate) fn renumbered_preds(
    alloc: Global,
    order: &IndexSet<usize>,
    preds: &[usize],
) -> Result<Vec<usize>, AllocError> {
    let mut numbers = Vec::with_capacity(alloc, preds.len())?;
    for pred in preds {
        numbers.push(renumbered(order, *pred))?;
    }
    numbers.sort_unstable();
    Ok(numbers)
}
