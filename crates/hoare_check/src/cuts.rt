//! Cuts at columns of a triple's system.

ghost use Rattle.std.specs.Prelude.{◌↔◌, ◌<◌, ℕ, IsTrue};
ghost use Rattle.std.specs.List.{AllByRecursion};
ghost use Rattle.farkas_check.specs.Nodes.{plain, plain_nodes};
ghost use Rattle.letter_acts.specs.Invariant.{alphabet_of};
ghost use Rattle.hoare_check.specs.Ties.Counts.{IsCount};
ghost use Rattle.hoare_check.specs.Decided.{AreCutsWithin};
ghost use Rattle.triple_rows.specs.Cuts.{IsCutWithin};

use crate::counting::columns_of;
use farkas_check::{Node, Refutation};
use letter_acts::Icfg;
use lin_rows::Col;
use triple_rows::Triple;

/// Whether the column is below the count; `None` is a count of 2^32 columns or more.
fn is_below(column: Col, columns: Option<u32>) -> bool
    ensures { (n : ℕ) → IsCount n columns → (IsTrue result ↔ column < n) }
{
    match columns {
        Some(count) => column < count,
        // A column has 32 bits.
        None => true,
    }
}

/// Whether the node is no cut, or one at a column below the count.
fn is_cut_within(node: &Node, columns: Option<u32>) -> bool
    ensures { (n : ℕ) → IsCount n columns → (IsTrue result ↔ IsCutWithin n (plain node.now)) }
{
    match node {
        Node::Cut { col, .. } => is_below(*col, columns),
        Node::Leaf(_) | Node::Cases(_) => true,
    }
}

/// Whether each cut is at a column below the count.
fn cuts_within(nodes: &[Node], columns: Option<u32>) -> bool
    ensures { (n : ℕ) → IsCount n columns → (IsTrue result ↔ AllByRecursion (IsCutWithin n) (plain_nodes nodes.now)) }
{
    for node in nodes {
        if !is_cut_within(node, columns) {
            return false;
        }
    }
    true
}

/// Whether each cut is at a column of the triple's system.
pub fn are_cuts_within(icfg: &Icfg, triple: &Triple, nodes: &Refutation) -> bool
    ensures { IsTrue result ↔ AreCutsWithin (alphabet_of icfg.now) triple.now nodes.now }
{
    cuts_within(nodes.nodes(), columns_of(icfg, triple))
}
