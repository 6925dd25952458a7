//! Whether terms and nodes of predicates are equal.

ghost use Rattle.std.specs.Prelude.{◌≡◌};
ghost use lib.Pointwise.{pointwise};
ghost use Rattle.letter_acts.specs.LetterTable.Letters.{same_term};
ghost use Rattle.explained_proof.specs.FactExpressions.Trees as spec;

use lin_rows::Row;
use triple_rows::PredNode;

/// Whether two terms are equal.
fn same_term(a: &(u32, i128), b: &(u32, i128)) -> bool
    ensures { result ≡ same_term a.now b.now }
{
    a.0 == b.0 && a.1 == b.1
}

/// Whether two lists of terms are equal.
fn are_same_terms(a: &[(u32, i128)], b: &[(u32, i128)]) -> bool
    ensures { result ≡ pointwise same_term a.now b.now }
{
    if a.len() != b.len() {
        return false;
    }
    for (i, term) in a.iter().enumerate() {
        if !same_term(term, &b[i]) {
            return false;
        }
    }
    true
}

/// Whether two rows have equal terms.
pub(crate) fn same_terms(a: &Row, b: &Row) -> bool
    ensures { result ≡ spec.same_terms a.now b.now }
{
    are_same_terms(a.terms(), b.terms())
}

/// Whether two nodes are equal.
fn same_node(a: &PredNode, b: &PredNode) -> bool
    ensures { result ≡ spec.same_node a.now b.now }
{
    match (a, b) {
        (PredNode::Truth(x), PredNode::Truth(y)) => *x == *y,
        (PredNode::Atom(x), PredNode::Atom(y)) => same_terms(x, y) && x.bound() == y.bound(),
        (PredNode::And(x), PredNode::And(y)) | (PredNode::Or(x), PredNode::Or(y)) => *x == *y,
        _ => false,
    }
}

/// Whether two lists of nodes are equal.
pub(crate) fn same_nodes(a: &[PredNode], b: &[PredNode]) -> bool
    ensures { result ≡ pointwise spec.same_node a.now b.now }
{
    if a.len() != b.len() {
        return false;
    }
    for i in 0..a.len() {
        if !same_node(&a[i], &b[i]) {
            return false;
        }
    }
    true
}
