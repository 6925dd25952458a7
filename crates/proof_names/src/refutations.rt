//! The refutations that lines name.

ghost use Rattle.std.specs.Prelude.{◌≡◌, map, IsTrue, IfOk};
ghost use Rattle.std.specs.List.{list_all};
ghost use Rattle.std.specs.Option.{option_map};
ghost use Rattle.farkas_check.specs.Nodes.{plain, plain_nodes};
ghost use Rattle.proof_names.specs.Options.{all_some};
ghost use Rattle.proof_form.specs.Refutations as form;
ghost use Rattle.proof_names.specs.Refutations as spec;

use crate::numbers::{index_in, number_in, short_in};
use farkas_check::{Node, Refutation, tree};
use proof_form::{Numeral, RNode};
use std::alloc::{AllocError, Global};

fn part_fits(part: &(Numeral, Numeral)) -> bool
    ensures { result ≡ spec.part_fits part.now }
{
    number_in(&part.0).is_some() && number_in(&part.1).is_some()
}

fn parts_fit(parts: &[(Numeral, Numeral)]) -> bool
    ensures { result ≡ list_all spec.part_fits parts.now }
{
    parts.iter().all(|part| part_fits(part))
}

/// Whether the node's numbers fit, and a cut is at one of so many columns.
fn node_is_named(columns: usize, node: &RNode) -> bool
    ensures { result ≡ spec.node_is_named columns (form.plain_refutation_node node.now) }
{
    match node {
        RNode::Leaf(parts) => parts_fit(parts),
        RNode::Cut { col, k } => {
            index_in(col).is_some_and(|col| col < columns) && number_in(k).is_some()
        }
        RNode::Cases(_) => true,
    }
}

/// Whether the numbers of all nodes fit, and each cut is at one of so many columns.
pub(crate) fn is_named(columns: usize, nodes: &[RNode]) -> bool
    ensures { result ≡ list_all (λ n. spec.node_is_named columns (form.plain_refutation_node n)) nodes.now }
{
    nodes.iter().all(|node| node_is_named(columns, node))
}

fn part_of(part: &(Numeral, Numeral)) -> Option<(u32, i128)>
    ensures { result ≡ spec.named_part part.now }
{
    Some((short_in(&part.0)?, number_in(&part.1)?))
}

fn parts_of(
    alloc: Global,
    parts: &[(Numeral, Numeral)],
) -> Result<Option<Vec<(u32, i128)>>, AllocError>
    ensures { IfOk result (λ o. option_map (λ v. v.items) o ≡ all_some (map spec.named_part parts.now)) }
{
    let mut named = Vec::with_capacity(alloc, parts.len())?;
    for part in parts {
        match part_of(part) {
            Some(part) => named.push(part)?,
            None => return Ok(None),
        }
    }
    Ok(Some(named))
}

fn node_of(alloc: Global, node: &RNode) -> Result<Option<Node>, AllocError>
    ensures { IfOk result (λ o. option_map plain o ≡ spec.node_of (form.plain_refutation_node node.now)) }
{
    match node {
        RNode::Leaf(parts) => match parts_of(alloc, parts)? {
            Some(parts) => Ok(Some(Node::Leaf(parts))),
            None => Ok(None),
        },
        RNode::Cut { col, k } => match (short_in(col), number_in(k)) {
            (Some(col), Some(k)) => Ok(Some(Node::Cut { col, k })),
            _ => Ok(None),
        },
        RNode::Cases(count) => Ok(Some(Node::Cases(*count))),
    }
}

fn nodes_of(alloc: Global, nodes: &[RNode]) -> Result<Option<Vec<Node>>, AllocError>
    ensures { IfOk result (λ o. option_map (λ v. plain_nodes v.items) o ≡ all_some (map (λ n. spec.node_of (form.plain_refutation_node n)) nodes.now)) }
{
    let mut named = Vec::with_capacity(alloc, nodes.len())?;
    for node in nodes {
        match node_of(alloc, node)? {
            Some(node) => named.push(node)?,
            None => return Ok(None),
        }
    }
    Ok(Some(named))
}

/// The refutation of the nodes, with the numbers that their numerals stand for. `None` exactly where a row or the column of a cut
/// has no number of 32 bits, or a multiplier or the number of a cut does not fit. An error comes only where memory ran out.
pub fn refutation_of(alloc: Global, nodes: &[RNode]) -> Result<Option<Refutation>, AllocError>
    requires { IsTrue (form.is_refutation (map form.plain_refutation_node nodes.now)) }
    ensures { IfOk result (λ o. o ≡ spec.refutation_of (map form.plain_refutation_node nodes.now)) }
{
    match nodes_of(alloc, nodes)? {
        Some(nodes) => Ok(tree(nodes)),
        None => Ok(None),
    }
}
