//! Predicates, each as the nodes of its tree.

ghost use Rattle.std.specs.Prelude.{◌≡◌, true};
ghost use Rattle.explained_proof.specs.FactExpressions.Trees.{spells};

use crate::fact_expressions::equality::same_nodes;
use triple_rows::PredNode;

/// A predicate, as the nodes of its tree.
#[derive(Clone, Copy)]
pub struct Tree<'a> {
    pub(crate) nodes: &'a [PredNode],
    ghost spelled: { spells 1 nodes.now ≡ true },
}

impl<'a> Tree<'a> {
    ghost use Rattle.std.specs.Prelude.{◌∷◌, [], true};
    ghost use Rattle.triple_rows.specs.Predicates.{formulas, formula_of};
    ghost use Rattle.explained_proof.specs.FactExpressions.Conclusions.{parts_of};
    ghost use Rattle.explained_proof.specs.FactExpressions.Trees as spec;
    ghost use Rattle.explained_proof.specs.FactExpressions.Views as view;

    /// The predicate that the nodes spell.
    pub fn of(nodes: &'a [PredNode]) -> Tree<'a>
        requires { spec.spells 1 nodes.now ≡ true }
        ensures { view.tree result ≡ formula_of nodes.now }
    {
        Tree { nodes }
    }

    /// Its nodes, and those of its parts.
    pub(crate) fn nodes(self) -> &'a [PredNode]
        ensures value { formulas result.now ≡ view.tree self.entry ∷ [] }
        ensures spelled { spec.SpellsSome result.now }
    {
        self.nodes
    }

    /// The nodes of its parts, of which there are none unless it begins with `or`.
    pub(crate) fn parts(self) -> &'a [PredNode]
        ensures value { formulas result.now ≡ parts_of (view.tree self.entry) }
        ensures spelled { spec.SpellsSome result.now }
    {
        match self.nodes.split_first() {
            Some((PredNode::Or(_), parts)) => parts,
            _ => &[],
        }
    }

    /// Whether the predicates are equal.
    pub(crate) fn is_same(self, other: Tree<'_>) -> bool
        ensures { result ≡ spec.same_formula (view.tree self.entry) (view.tree other.entry) }
    {
        same_nodes(self.nodes, other.nodes)
    }
}
