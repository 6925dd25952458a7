//! The first predicate of a list of nodes.

ghost use Rattle.std.specs.Prelude.{◌≡◌, ◌≢◌, ◌∷◌, ◌≤◌, ◌<◌, [], length};
ghost use Rattle.triple_rows.specs.Predicates.{formulas};
ghost use Rattle.explained_proof.specs.FactExpressions.Trees as spec;
ghost use Rattle.explained_proof.specs.FactExpressions.Views as view;

use crate::fact_expressions::trees::Tree;
use triple_rows::PredNode;

/// How many predicates stand behind a node as its parts.
fn part_count(node: &PredNode) -> u32
    ensures { result ≡ spec.part_count node.now }
{
    match node {
        PredNode::Truth(_) | PredNode::Atom(_) => 0,
        PredNode::And(parts) | PredNode::Or(parts) => *parts,
    }
}

/// How many nodes the first predicate of a list has.
fn first_length(nodes: &[PredNode]) -> usize
    ensures value { result ≡ spec.tree_length 1 nodes.now }
    ensures within { result ≤ length nodes.now }
{
    let mut open: u128 = 1;
    for (number, node) in nodes.iter().enumerate() {
        open = open - 1 + u128::from(part_count(node));
        if open == 0 {
            return number + 1;
        }
    }
    nodes.len()
}

/// The first predicate of a list, and the nodes behind it.
pub(crate) fn split_first<'a>(nodes: &'a [PredNode]) -> (Tree<'a>, &'a [PredNode])
    requires some { nodes.now ≢ [] }
    requires spelled { spec.SpellsSome nodes.now }
    ensures value { formulas nodes.now ≡ view.tree result.0 ∷ formulas result.1.now }
    ensures spelled { spec.SpellsSome result.1.now }
    ensures shorter { length result.1.now < length nodes.now }
{
    let (first, rest) = nodes.split_at(first_length(nodes));
    (Tree { nodes: first }, rest)
}
