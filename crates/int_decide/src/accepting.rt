//! Which proposed refutations are taken.

ghost use Rattle.std.specs.Prelude.{◌≡◌, [], ◌∷◌, IfOk, IfSome, SomeIff, MatchBool, None, Some, reverse};
ghost use Rattle.farkas_check.specs.Nodes.{plain, plain_nodes};
ghost use Rattle.int_decide.specs.Answers.{RefutesWithin};
ghost use Rattle.int_decide.specs.Ties.CutCounts.{after_node, have_few_cuts};

use crate::search::push_copies;
use farkas_check::{Node, Refutation, check, tree};
use lin_rows::System;
use std::alloc::{AllocError, Global};

/// The refutation with these nodes, where it is one of the system and has at most `depth` cuts on a branch.
pub fn accepted(
    alloc: Global,
    system: &System,
    depth: u32,
    nodes: Vec<Node>,
) -> Result<Option<Refutation>, AllocError>
    ensures exact { IfOk result (λ o. SomeIff o (RefutesWithin depth system.now (plain_nodes nodes.items)) (plain_nodes nodes.items)) }
    ensures refutes { IfOk result (λ o. IfSome o (RefutesWithin depth system.now)) }
{
    if !have_few_cuts(alloc, &nodes, depth)? {
        return Ok(None);
    }
    let Some(proof) = tree(nodes) else {
        return Ok(None);
    };
    if check(alloc, system, &proof)? {
        Ok(Some(proof))
    } else {
        Ok(None)
    }
}

/// Whether the nodes are trees with at most so many cuts on a branch, one after another: one tree, with `depth`.
fn have_few_cuts(alloc: Global, nodes: &[Node], depth: u32) -> Result<bool, AllocError>
    ensures { IfOk result (λ yes. yes ≡ have_few_cuts (depth ∷ []) (plain_nodes nodes.now)) }
{
    let mut lefts = Vec::new(alloc);
    lefts.push(depth)?;
    for node in nodes {
        let passes = pass_node(&mut lefts, node)?;
        if !passes {
            return Ok(false);
        }
    }
    Ok(lefts.is_empty())
}

/// Passes a node: the numbers of cuts that are left for the trees to come, the next one's last. False where no tree is to
/// come, or the node is a cut and none is left.
fn pass_node(lefts: &mut Vec<u32>, node: &Node) -> Result<bool, AllocError>
    ensures { IfOk result (λ yes. MatchBool yes
        (after_node (reverse lefts.old.items) (plain node.now) ≡ Some (reverse lefts.new.items))
        (after_node (reverse lefts.old.items) (plain node.now) ≡ None)) }
{
    let Some(left) = lefts.pop() else {
        return Ok(false);
    };
    match node {
        Node::Leaf(_) => {}
        Node::Cut { .. } => {
            if left == 0 {
                return Ok(false);
            }
            lefts.push(left - 1)?;
            lefts.push(left - 1)?;
        }
        Node::Cases(members) => push_copies(lefts, left, *members as usize)?,
    }
    Ok(true)
}
