//! Refutations as texts.

ghost use Rattle.std.specs.Prelude.{IsTrue, IfOk};
ghost use Rattle.nested_itp.specs.NestedPredicates.Interpolants.{RefutesRows, HasCutsUpTo};

use crate::reading::{pair, pairs};
use farkas_check::{Node, Refutation, check, tree};
use path_rows::PathSystem;
use std::alloc::{AllocError, Global};
use table_reading::keep;

/// A leaf, `leaf 0:-1 1:1`, or a cut, `cut 4:0`.
fn node_of(alloc: Global, text: &str) -> Result<Node, AllocError> {
    match text.strip_prefix("leaf ") {
        Some(said) => Ok(Node::Leaf(pairs(alloc, said)?)),
        None => {
            let (col, k) = pair(text.trim_start_matches("cut "));
            Ok(Node::Cut { col, k })
        }
    }
}

fn push_nodes(alloc: Global, nodes: &mut Vec<Node>, text: &str) -> Result<(), AllocError> {
    for line in text.lines() {
        keep(nodes, node_of(alloc, line)?)?;
    }
    Ok(())
}

/// The refutation with the nodes of a text, each on a line.
pub(crate) fn refutation(alloc: Global, text: &str) -> Option<Refutation> {
    let mut nodes = Vec::new(alloc);
    match push_nodes(alloc, &mut nodes, text) {
        Ok(()) => tree(nodes),
        Err(_) => None,
    }
}

/// Whether it has few enough nodes that no branch has more than 64 cuts: one of so many has twice as many nodes, and one more.
pub(crate) fn has_few_cuts(proof: &Refutation) -> bool
    ensures { IsTrue result → HasCutsUpTo 64 proof.now }
{
    proof.nodes().len() <= 129
}

/// Whether the tree refutes the rows of the word.
pub(crate) fn is_refuted(
    alloc: Global,
    path: &PathSystem,
    proof: &Refutation,
) -> Result<bool, AllocError>
    ensures { IfOk result (λ yes. IsTrue yes → RefutesRows proof.now path.now.rows) }
{
    check(alloc, path.system(), proof)
}
