//! The lines of what is by numbers.

use crate::proof_lean::copies::{pred_line, refutation};
use crate::proof_lean::drafts::{Draft, Move, Rule};
use crate::proof_lean::numbers::{preds_in_order, renumbered_preds, renumbered_rule, used_rules};
use boogie_tree::Text;
use indexmap::IndexSet;
use proof_form::{
    Annotation, NodeLine, Numeral, PredLine, RNode, StepLine, TripleLine, annotation,
};
use proof_names::NamedNode;
use std::alloc::{AllocError, Global};
use std::collections::HashSet;

/// The numeral of a number.
fn numeral(alloc: Global, number: usize) -> Result<Numeral, AllocError> {
    let text = format!(in alloc; "{number}")?;
    Ok(Numeral {
        negative: false,
        digits: Text::new(text.into_bytes()),
    })
}

fn numerals(alloc: Global, numbers: &[usize]) -> Result<Vec<Numeral>, AllocError> {
    let mut numerals = Vec::with_capacity(alloc, numbers.len())?;
    for number in numbers {
        numerals.push(numeral(alloc, *number)?)?;
    }
    Ok(numerals)
}

/// The numerals of where a letter leads from, of the letter, and of where it leads.
fn three(
    alloc: Global,
    from: usize,
    letter: u32,
    to: usize,
) -> Result<(Numeral, Numeral, Numeral), AllocError> {
    let from = numeral(alloc, from)?;
    let letter = numeral(alloc, letter as usize)?;
    let to = numeral(alloc, to)?;
    Ok((from, letter, to))
}

fn inside_line(alloc: Global, rule: Rule, proof: Vec<RNode>) -> Result<TripleLine, AllocError> {
    let (from, letter, to) = three(alloc, rule.exit, rule.letter, rule.to)?;
    Ok(TripleLine::Inside {
        from,
        letter,
        to,
        proof,
    })
}

fn call_line(alloc: Global, rule: Rule, proof: Vec<RNode>) -> Result<TripleLine, AllocError> {
    let (from, letter, to) = three(alloc, rule.exit, rule.letter, rule.to)?;
    Ok(TripleLine::Call {
        from,
        letter,
        to,
        proof,
    })
}

fn back_line(alloc: Global, rule: Rule, proof: Vec<RNode>) -> Result<TripleLine, AllocError> {
    let exit = numeral(alloc, rule.exit)?;
    let (before, letter, to) = three(alloc, rule.before, rule.letter, rule.to)?;
    Ok(TripleLine::Back {
        exit,
        before,
        letter,
        to,
        proof,
    })
}

/// The line of a triple, of the kind of a given line and with its refutation.
fn triple_line(alloc: Global, rule: Rule, given: &TripleLine) -> Result<TripleLine, AllocError> {
    match given {
        TripleLine::Inside { proof, .. } => inside_line(alloc, rule, refutation(alloc, proof)?),
        TripleLine::Call { proof, .. } => call_line(alloc, rule, refutation(alloc, proof)?),
        TripleLine::Back { proof, .. } => back_line(alloc, rule, refutation(alloc, proof)?),
    }
}

/// The line of a node whose predicates have these numbers.
fn node_line(alloc: Global, node: &NamedNode, preds: &[usize]) -> Result<NodeLine, AllocError> {
    let place = numeral(alloc, node.place as usize)?;
    let entry = numeral(alloc, node.entry)?;
    let preds = numerals(alloc, preds)?;
    Ok(NodeLine {
        place,
        entry,
        preds,
    })
}

fn back_step(alloc: Global, step: Move) -> Result<StepLine, AllocError> {
    let exit = numeral(alloc, step.exit)?;
    let (call, letter, to) = three(alloc, step.before, step.letter, step.to)?;
    Ok(StepLine::Back {
        exit,
        call,
        letter,
        to,
    })
}

/// The line of a step or back.
fn step_line(alloc: Global, step: Move) -> Result<StepLine, AllocError> {
    if step.is_back {
        return back_step(alloc, step);
    }
    let (from, letter, to) = three(alloc, step.exit, step.letter, step.to)?;
    Ok(StepLine::Step { from, letter, to })
}

/// The given lines of predicates, in the order.
fn pred_lines(
    alloc: Global,
    order: &IndexSet<usize>,
    given: &[PredLine],
) -> Result<Vec<PredLine>, AllocError> {
    let mut lines = Vec::with_capacity(alloc, order.len())?;
    for pred in order.as_slice() {
        if let Some(line) = given.get(pred.saturating_sub(2)) {
            lines.push(pred_line(alloc, line)?)?;
        }
    }
    Ok(lines)
}

/// The lines of the triples that are used, with their predicates by their numbers in the order.
fn triple_lines(
    alloc: Global,
    order: &IndexSet<usize>,
    used: &HashSet<usize>,
    rules: &[Rule],
    given: &[TripleLine],
) -> Result<Vec<TripleLine>, AllocError> {
    let mut lines = Vec::with_capacity(alloc, used.len())?;
    for (rule, line) in rules.iter().zip(given.iter()) {
        if used.contains(&rule.place) {
            lines.push(triple_line(alloc, renumbered_rule(order, *rule), line)?)?;
        }
    }
    Ok(lines)
}

fn node_lines(
    alloc: Global,
    order: &IndexSet<usize>,
    nodes: &[NamedNode],
) -> Result<Vec<NodeLine>, AllocError> {
    let mut lines = Vec::with_capacity(alloc, nodes.len())?;
    for node in nodes {
        let preds = renumbered_preds(alloc, order, &node.preds)?;
        lines.push(node_line(alloc, node, &preds)?)?;
    }
    Ok(lines)
}

fn step_lines(alloc: Global, moves: &[Move]) -> Result<Vec<StepLine>, AllocError> {
    let mut lines = Vec::with_capacity(alloc, moves.len())?;
    for step in moves {
        lines.push(step_line(alloc, *step)?)?;
    }
    Ok(lines)
}

/// The lines of an annotation.
#[derive(Drop)]
struct Lines {
    preds: Vec<PredLine>,
    triples: Vec<TripleLine>,
    nodes: Vec<NodeLine>,
    steps: Vec<StepLine>,
}

/// The lines of the nodes and moves, with the given triples that are used, and the given predicates in the order.
fn fill(
    alloc: Global,
    lines: &mut Lines,
    given: &Annotation,
    draft: &Draft,
    used: &HashSet<usize>,
    order: &IndexSet<usize>,
) -> Result<(), AllocError> {
    lines.preds = pred_lines(alloc, order, given.preds())?;
    lines.triples = triple_lines(alloc, order, used, &draft.rules, given.triples())?;
    lines.nodes = node_lines(alloc, order, &draft.nodes)?;
    lines.steps = step_lines(alloc, &draft.moves)?;
    Ok(())
}

/// The annotation of the nodes and moves, with the given triples that are used, and the given predicates in the order.
fn in_order(
    alloc: Global,
    given: &Annotation,
    draft: &Draft,
    used: &HashSet<usize>,
    order: &IndexSet<usize>,
) -> Result<Option<Annotation>, AllocError> {
    let mut lines = Lines {
        preds: Vec::new(alloc),
        triples: Vec::new(alloc),
        nodes: Vec::new(alloc),
        steps: Vec::new(alloc),
    };
    fill(alloc, &mut lines, given, draft, used, order)?;
    let Lines {
        preds,
        triples,
        nodes,
        steps,
    } = lines;
    annotation(preds, triples, nodes, steps)
}

/// The annotation of the nodes and moves, with those of the given predicates and triples that they use; none where a line is not in the grammar.
pub(crate) fn spelled(
    alloc: Global,
    given: &Annotation,
    draft: &Draft,
) -> Result<Option<Annotation>, AllocError> {
    let used = used_rules(alloc, draft)?;
    let order = preds_in_order(alloc, &draft.nodes)?;
    in_order(alloc, given, draft, &used, &order)
}
