ghost use Rattle.std.specs.Prelude.{◌≡◌, ◌↔◌, ◌<◌, ◌^◌, IsTrue, IsSome, IfSome, IfOk};
ghost use Rattle.farkas_check.specs.Nodes.{plain, plain_nodes, branches, is_tree};
ghost use Rattle.farkas_check.specs.Trees.{IsPrefixList};

use lin_rows::Col;
use std::alloc::AllocError;
use std::marker::Model;

/// A node of a refutation. The trees below it stand after it, in order.
#[derive(Debug, Drop, PartialEq, Eq)]
pub enum Node {
    /// The rows with these numbers, ascending from 0 on, each taken as often as its multiplier says, add up to `0 <= c`
    /// with `c < 0`. Each multiplier fits and is not 0, and that of an inequality is positive.
    Leaf(Vec<(u32, i128)>),
    /// Two trees, one for `col <= k` and one for `col > k`.
    Cut {
        /// The column.
        col: Col,
        /// The number.
        k: i128,
    },
    /// A tree for each member of the first group; so many there are.
    Cases(u32),
}

impl Node {
    ghost use Rattle.farkas_check.specs.Nodes.{plain};

    /// An equal node.
    pub fn copy(&self) -> Result<Self, AllocError>
        ensures { IfOk result (λ n. plain n ≡ plain self.now) }
    {
        match self {
            Node::Leaf(parts) => Ok(Node::Leaf(Vec::from_slice(*parts.allocator(), parts)?)),
            Node::Cut { col, k } => Ok(Node::Cut { col: *col, k: *k }),
            Node::Cases(members) => Ok(Node::Cases(*members)),
        }
    }
}

/// A tree, kept as its prefix list: each node, and then the trees below it.
#[derive(Drop)]
pub struct Refutation {
    nodes: Vec<Node>,
}

impl Model for Refutation {
    ghost use Rattle.std.specs.Prelude.{IsTrue, List};
    ghost use Rattle.farkas_check.specs.Nodes.{PlainNode, plain_nodes, is_tree};

    ghost Value = { List PlainNode };

    ghost view = { λ a. plain_nodes a.nodes.items };

    ghost invariant = { λ a. IsTrue (is_tree (plain_nodes a.nodes.items)) };
}

impl Refutation {
    /// The nodes, each before the trees below it.
    pub fn nodes(&self) -> &[Node]
        ensures value { plain_nodes result.now ≡ self.now }
        ensures whole { IsTrue (is_tree self.now) }
    {
        self.nodes.as_slice()
    }

    /// An equal refutation.
    pub fn copy(&self) -> Result<Self, AllocError>
        ensures { IfOk result (λ r. r ≡ self.now) }
    {
        let nodes = copied_nodes(&self.nodes)?;
        Ok(Refutation { nodes })
    }
}

/// A copy of each node.
fn copied_nodes(nodes: &Vec<Node>) -> Result<Vec<Node>, AllocError>
    ensures { IfOk result (λ copies. plain_nodes copies.items ≡ plain_nodes nodes.now.items) }
{
    let mut copies = Vec::with_capacity(*nodes.allocator(), nodes.len())?;
    for node in nodes {
        copies.push(node.copy()?)?;
    }
    Ok(copies)
}

/// The refutation with these nodes, or `None` where they are not the prefix list of one whole tree.
pub fn tree(nodes: Vec<Node>) -> Option<Refutation>
    ensures whole { IsSome result ↔ IsPrefixList (plain_nodes nodes.items) }
    ensures counted { IsSome result ↔ IsTrue (is_tree (plain_nodes nodes.items)) }
    ensures value { IfSome result (λ r. r ≡ plain_nodes nodes.items) }
{
    if is_tree(&nodes) {
        Some(Refutation { nodes })
    } else {
        None
    }
}

/// Whether the nodes are the prefix list of one whole tree.
fn is_tree(nodes: &[Node]) -> bool
    ensures { result ≡ is_tree (plain_nodes nodes.now) }
{
    let mut missing: u128 = 1;
    for node in nodes {
        if missing == 0 {
            return false;
        }
        missing = missing - 1 + branches(node);
    }
    missing == 0
}

/// How many trees stand below a node.
fn branches(node: &Node) -> u128
    ensures value { result ≡ branches (plain node.now) }
    ensures small { result < 2 ^ 32 }
{
    match node {
        Node::Leaf(_) => 0,
        Node::Cut { .. } => 2,
        Node::Cases(members) => u128::from(*members),
    }
}
