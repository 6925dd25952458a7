ghost use Rattle.std.specs.Prelude.{◌≡◌, IfOk};

use lin_rows::Row;
use std::alloc::AllocError;
use std::marker::Model;
use std::sync::Arc;

/// A node of a predicate. The trees of its parts stand after it, in order.
#[derive(Drop)]
pub enum PredNode {
    /// True or false.
    Truth(bool),
    /// The row holds.
    Atom(Row),
    /// All of so many parts hold.
    And(u32),
    /// One of so many parts holds.
    Or(u32),
}

impl PredNode {
    /// An equal node.
    pub fn copy(&self) -> Result<Self, AllocError>
        ensures { IfOk result (λ n. n ≡ self.now) }
    {
        match self {
            PredNode::Truth(value) => Ok(PredNode::Truth(*value)),
            PredNode::Atom(row) => Ok(PredNode::Atom(row.copy()?)),
            PredNode::And(parts) => Ok(PredNode::And(*parts)),
            PredNode::Or(parts) => Ok(PredNode::Or(*parts)),
        }
    }
}

/// The nodes of a predicate.
#[derive(Drop)]
pub(crate) enum Nodes {
    /// Those of a predicate that was made of them.
    Own(Vec<PredNode>),
    /// Those that copies share.
    Shared(Arc<Vec<PredNode>>),
}

/// A predicate over the columns of a frame, a tree that is kept as its prefix list. Its copies share their nodes, and copies of these take no memory.
#[derive(Drop)]
pub struct Pred {
    nodes: Nodes,
}

impl Model for Pred {
    ghost use Rattle.std.specs.Prelude.{List};
    ghost use Rattle.triple_rows.specs.declared.predicates.PredNode.{PredNode};
    ghost use Rattle.triple_rows.specs.Predicates.{SpellsPredicate};
    ghost use Rattle.triple_rows.specs.Nodes.{nodes_in};

    ghost Value = { List PredNode };

    ghost view = { λ p. nodes_in p.nodes };

    ghost invariant = { λ p. SpellsPredicate (nodes_in p.nodes) };
}

impl Pred {
    ghost use Rattle.triple_rows.specs.Predicates.{SpellsPredicate};

    /// The predicate of nodes that are in order.
    pub(crate) fn new(nodes: Vec<PredNode>) -> Self
        requires { SpellsPredicate nodes.items }
        ensures { result ≡ nodes.items }
    {
        Pred {
            nodes: Nodes::Own(nodes),
        }
    }

    /// The nodes, each before the trees of its parts.
    pub fn nodes(&self) -> &[PredNode]
        ensures value { result.now ≡ self.now }
        ensures valid { SpellsPredicate self.now }
    {
        match &self.nodes {
            Nodes::Own(nodes) => nodes.as_slice(),
            Nodes::Shared(nodes) => nodes.as_slice(),
        }
    }

    /// An equal predicate.
    pub fn copy(&self) -> Result<Self, AllocError>
        ensures { IfOk result (λ p. p ≡ self.now) }
    {
        let nodes = match &self.nodes {
            Nodes::Own(nodes) => Arc::new(*nodes.allocator(), copied_nodes(nodes)?)?,
            Nodes::Shared(nodes) => nodes.clone()?,
        };
        Ok(Pred {
            nodes: Nodes::Shared(nodes),
        })
    }
}

/// A copy of each node.
fn copied_nodes(nodes: &Vec<PredNode>) -> Result<Vec<PredNode>, AllocError>
    ensures { IfOk result (λ copies. copies.items ≡ nodes.now.items) }
{
    let mut copies = Vec::with_capacity(*nodes.allocator(), nodes.len())?;
    for node in nodes {
        copies.push(node.copy()?)?;
    }
    Ok(copies)
}
