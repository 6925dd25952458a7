//! The tree of a word's refutation, with the predicates that stand at its nodes.

ghost use Rattle.std.specs.Prelude.{◌≡◌, None, Some, IfOk, MatchOption, length, drop, reverse, unwrap_or, slice_get};
ghost use Rattle.farkas_check.specs.Nodes.{plain, plain_nodes};
ghost use Rattle.farkas_check.specs.Trees as trees;
ghost use Rattle.nested_itp.specs.TripleWalks.Spots.{HasNoCases, seconds_of, node_in, is_or, is_counted_in, sides_in, second_in, behind_parts};

use farkas_check::Node;
use std::alloc::{AllocError, Global};
use triple_rows::PredNode;

/// The tree of a refutation of a word's rows.
#[derive(Drop)]
pub struct Tree {
    /// For each node the node that stands for it at each position.
    table: Vec<Vec<PredNode>>,
    /// For each node where its second part begins, if it is a cut; the first follows it.
    seconds: Vec<Option<usize>>,
}

impl Tree {
    /// That of these nodes, for each of which a node stands at each position.
    pub fn of(alloc: Global, nodes: &[Node], table: Vec<Vec<PredNode>>) -> Result<Tree, AllocError>
        ensures seconds { IfOk result (λ x. (t : trees.Tree) → HasNoCases t → trees.prefix_of t ≡ plain_nodes nodes.now → x.seconds.items ≡ seconds_of 0 t) }
        ensures table { IfOk result (λ x. x.table ≡ table) }
    {
        let mut seconds = Vec::with_capacity(alloc, nodes.len())?;
        let mut roots = Vec::new(alloc);
        for i in 0..nodes.len() {
            let at = nodes.len() - 1 - i;
            seconds.push(second_part(&nodes[at], &mut roots))?;
            roots.push(at)?;
        }
        Ok(Tree {
            table,
            seconds: turned(seconds),
        })
    }

    /// How many nodes it has.
    pub(crate) fn len(&self) -> usize
        ensures { result ≡ length self.now.table.items }
    {
        self.table.len()
    }

    /// Where the parts of a node begin, if it is a cut.
    pub(crate) fn sides(&self, node: usize) -> Option<(usize, usize)>
        ensures { result ≡ sides_in self.now node }
    {
        if node >= self.seconds.len() {
            return None;
        }
        match self.seconds[node] {
            Some(second) => Some((node + 1, second)),
            None => None,
        }
    }

    /// What stands for a node at a position.
    pub(crate) fn at(&self, node: usize, position: usize) -> Option<&PredNode>
        ensures { MatchOption result (node_in self.now node position ≡ None) (λ n. node_in self.now node position ≡ Some n.now) }
    {
        match self.table.get(node) {
            Some(row) => row.get(position),
            None => None,
        }
    }

    /// Whether a cut is counted at a position.
    pub(crate) fn is_counted(&self, node: usize, position: usize) -> bool
        ensures { result ≡ is_counted_in (node_in self.now node position) }
    {
        match self.at(node, position) {
            Some(found) => is_or(found),
            None => false,
        }
    }
}

/// Whether the node is an `Or`.
fn is_or(node: &PredNode) -> bool
    ensures { result ≡ is_or node.now }
{
    match node {
        PredNode::Or(_) => true,
        PredNode::Truth(_) | PredNode::Atom(_) | PredNode::And(_) => false,
    }
}

/// Where the second part of a node begins, if it is a cut, whose parts are taken from the trees that begin at these numbers.
fn second_part(node: &Node, roots: &mut Vec<usize>) -> Option<usize>
    ensures value { result ≡ second_in (plain node.now) (reverse roots.old.items) }
    ensures roots { reverse roots.new.items ≡ behind_parts (plain node.now) (reverse roots.old.items) }
{
    if let Node::Cut { .. } = node {
        let _first = next_root(roots);
        return next_root(roots);
    }
    None
}

/// Takes the next number away, which stands last.
fn next_root(roots: &mut Vec<usize>) -> Option<usize>
    ensures value { result ≡ slice_get (reverse roots.old.items) 0 }
    ensures roots { reverse roots.new.items ≡ drop 1 (reverse roots.old.items) }
{
    roots.pop()
}

/// The last number first.
fn turned(seconds: Vec<Option<usize>>) -> Vec<Option<usize>>
    ensures { result.items ≡ reverse seconds.items }
{
    let mut turned = seconds;
    turned.as_mut_slice().reverse();
    turned
}
