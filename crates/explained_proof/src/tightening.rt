//! Predicates whose rows are tightened.

ghost use Rattle.std.specs.Prelude.{◌≡◌, true, IfOk, map};
ghost use Rattle.triple_rows.specs.Predicates.{formula_of};
ghost use Rattle.explained_proof.specs.FactExpressions.Trees.{spells};
ghost use Rattle.explained_proof.specs.FactExpressions.Views as seen;
ghost use Rattle.explained_proof.specs.Tightened as spec;

use crate::fact_expressions::Tree;
use lin_rows::tighten;
use std::alloc::{AllocError, Global};
use triple_rows::{Pred, PredNode};

/// A predicate whose rows are tightened, as the nodes of its tree.
#[derive(Drop)]
pub(crate) struct Tightened {
    nodes: Vec<PredNode>,
    ghost spelled: { spells 1 nodes.items ≡ true },
}

/// A node whose row is tightened.
fn tight_node(alloc: Global, node: &PredNode) -> Result<PredNode, AllocError>
    ensures { IfOk result (λ n. n ≡ spec.tight_node node.now) }
{
    match node {
        PredNode::Truth(value) => Ok(PredNode::Truth(*value)),
        PredNode::Atom(row) => Ok(PredNode::Atom(tighten(alloc, row)?)),
        PredNode::And(parts) => Ok(PredNode::And(*parts)),
        PredNode::Or(parts) => Ok(PredNode::Or(*parts)),
    }
}

/// Nodes whose rows are tightened.
fn tight_nodes(alloc: Global, nodes: &[PredNode]) -> Result<Vec<PredNode>, AllocError>
    ensures { IfOk result (λ list. list.items ≡ map spec.tight_node nodes.now) }
{
    let mut list = Vec::with_capacity(alloc, nodes.len())?;
    for node in nodes {
        list.push(tight_node(alloc, node)?)?;
    }
    Ok(list)
}

impl Tightened {
    /// The predicate with its rows tightened.
    pub(crate) fn of(alloc: Global, pred: &Pred) -> Result<Self, AllocError>
        ensures { IfOk result (λ t. formula_of t.nodes.items ≡ spec.tight (formula_of pred.now)) }
    {
        let nodes = tight_nodes(alloc, pred.nodes())?;
        Ok(Tightened { nodes })
    }

    /// Its tree.
    pub(crate) fn tree(&self) -> Tree<'_>
        ensures { seen.tree result ≡ formula_of self.now.nodes.items }
    {
        Tree::of(&self.nodes)
    }
}
