//! Copies of the parts of lines.

use boogie_tree::Text;
use proof_form::{Numeral, PNode, PredLine, RNode};
use std::alloc::{AllocError, Global};

/// An equal numeral.
fn numeral(given: &Numeral) -> Result<Numeral, AllocError> {
    Ok(Numeral {
        negative: given.negative,
        digits: given.digits.copy()?,
    })
}

/// An equal coefficient and column.
fn term(given: &(Numeral, Text)) -> Result<(Numeral, Text), AllocError> {
    let coefficient = numeral(&given.0)?;
    let column = given.1.copy()?;
    Ok((coefficient, column))
}

fn terms(alloc: Global, given: &[(Numeral, Text)]) -> Result<Vec<(Numeral, Text)>, AllocError> {
    let mut copied = Vec::with_capacity(alloc, given.len())?;
    for pair in given {
        copied.push(term(pair)?)?;
    }
    Ok(copied)
}

fn atom(alloc: Global, bound: &Numeral, given: &[(Numeral, Text)]) -> Result<PNode, AllocError> {
    let terms = terms(alloc, given)?;
    let bound = numeral(bound)?;
    Ok(PNode::Atom { bound, terms })
}

/// An equal node of a predicate.
fn predicate_node(alloc: Global, given: &PNode) -> Result<PNode, AllocError> {
    match given {
        PNode::Atom { bound, terms } => atom(alloc, bound, terms),
        PNode::And(parts) => Ok(PNode::And(*parts)),
        PNode::Or(parts) => Ok(PNode::Or(*parts)),
    }
}

fn predicate_nodes(alloc: Global, given: &[PNode]) -> Result<Vec<PNode>, AllocError> {
    let mut copied = Vec::with_capacity(alloc, given.len())?;
    for node in given {
        copied.push(predicate_node(alloc, node)?)?;
    }
    Ok(copied)
}

/// An equal line of a predicate.
pub(crate) fn pred_line(alloc: Global, given: &PredLine) -> Result<PredLine, AllocError> {
    let nodes = predicate_nodes(alloc, &given.nodes)?;
    let proc = given.proc.copy()?;
    Ok(PredLine { proc, nodes })
}

/// Two equal numerals.
fn two(first: &Numeral, second: &Numeral) -> Result<(Numeral, Numeral), AllocError> {
    let first = numeral(first)?;
    let second = numeral(second)?;
    Ok((first, second))
}

fn parts(
    alloc: Global,
    given: &[(Numeral, Numeral)],
) -> Result<Vec<(Numeral, Numeral)>, AllocError> {
    let mut copied = Vec::with_capacity(alloc, given.len())?;
    for pair in given {
        copied.push(two(&pair.0, &pair.1)?)?;
    }
    Ok(copied)
}

/// An equal node of a refutation.
fn refutation_node(alloc: Global, given: &RNode) -> Result<RNode, AllocError> {
    match given {
        RNode::Leaf(given) => Ok(RNode::Leaf(parts(alloc, given)?)),
        RNode::Cut { col, k } => {
            let (col, k) = two(col, k)?;
            Ok(RNode::Cut { col, k })
        }
        RNode::Cases(members) => Ok(RNode::Cases(*members)),
    }
}

/// Equal nodes of a refutation.
pub(crate) fn refutation(alloc: Global, given: &[RNode]) -> Result<Vec<RNode>, AllocError> {
    let mut copied = Vec::with_capacity(alloc, given.len())?;
    for node in given {
        copied.push(refutation_node(alloc, node)?)?;
    }
    Ok(copied)
}
