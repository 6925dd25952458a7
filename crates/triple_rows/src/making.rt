ghost use Rattle.std.specs.Prelude.{◌≡◌, ◌↔◌, [], IsTrue, IsSome, IfSome};
ghost use Rattle.triple_rows.specs.Predicates.{SpellsPredicate};
ghost use Rattle.triple_rows.specs.Reading.{IsAfterTree, IsTruthAlone};

use crate::predicates::{Pred, PredNode};
use crate::reading::after_tree;

/// The predicate with these nodes, `None` exactly where they are neither a single truth value nor one whole tree without
/// one, whose atoms are inequalities with a term, and whose `And` and `Or` have two parts or more and nest at most 200 deep.
pub fn pred(nodes: Vec<PredNode>) -> Option<Pred>
    ensures found { IsSome result ↔ SpellsPredicate nodes.items }
    ensures value { IfSome result (λ p. p ≡ nodes.items) }
{
    if spells_predicate(&nodes) {
        Some(Pred::new(nodes))
    } else {
        None
    }
}

/// Whether the nodes are the prefix list of a predicate.
fn spells_predicate(nodes: &[PredNode]) -> bool
    ensures { IsTrue result ↔ SpellsPredicate nodes.now }
{
    is_truth(nodes) || is_tree(nodes)
}

/// Whether the nodes are a single truth value.
fn is_truth(nodes: &[PredNode]) -> bool
    ensures { IsTrue result ↔ IsTruthAlone nodes.now }
{
    let Some((first, rest)) = nodes.split_first() else {
        return false;
    };
    match first {
        PredNode::Truth(_) => rest.is_empty(),
        PredNode::Atom(_) | PredNode::And(_) | PredNode::Or(_) => false,
    }
}

/// Whether the nodes are one whole tree that is nested at most 200 deep.
fn is_tree(nodes: &[PredNode]) -> bool
    ensures { IsTrue result ↔ IsAfterTree 200 nodes.now [] }
{
    match after_tree(nodes, 200) {
        Some(rest) => rest.is_empty(),
        None => false,
    }
}
