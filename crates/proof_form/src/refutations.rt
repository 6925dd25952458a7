//! Refutations as they are written.

ghost use Rattle.std.specs.Prelude.{◌≡◌, ◌++◌, map, reverse, OnOk, IsTrue};
ghost use Rattle.std.specs.List.{list_all, flat_map};
ghost use Rattle.proof_form.specs.Outcomes.{Gives};
ghost use Rattle.proof_form.specs.TreeReading.{with_part, nodes_of};
ghost use Rattle.proof_form.specs.Ties.TreeViews.{part, built};
ghost use Rattle.proof_form.specs.Trees.{is_tree};
ghost use Rattle.proof_form.specs.Refutations as spec;
ghost use Rattle.proof_form.specs.RefutationReading as reading;

use crate::numerals::{Numeral, is_numeral, push_numeral};
use crate::reading::{after, item_follows, more_follow, number_at, number_before, text_at};
use crate::refusal::Refusal;
use crate::trees::{Piece, close, open};
use std::alloc::{AllocError, Global};

/// A node of a refutation. The trees below it stand after it, in order.
#[derive(Drop)]
pub enum RNode {
    /// Numbers of rows with multipliers.
    Leaf(Vec<(Numeral, Numeral)>),
    /// Two trees, for a column at most a number and for the column above it.
    Cut {
        /// The number of the column.
        col: Numeral,
        /// The number.
        k: Numeral,
    },
    /// So many trees, one for each member of the first group.
    Cases(u32),
}

/// Reads a space, a row, a colon and a multiplier.
#[tactic(auto, unfolding(crate::specs::RefutationReading::part_at))]
fn part_at(alloc: Global, bytes: &[u8]) -> Result<((Numeral, Numeral), &[u8]), Refusal>
    ensures { Gives (λ x. (x.0, x.1.now)) result (reading.part_at bytes.now) }
{
    let rest = after(bytes, b" ")?;
    let (row, rest) = number_before(alloc, rest, b":")?;
    let (multiplier, rest) = number_at(alloc, rest)?;
    Ok(((row, multiplier), rest))
}

/// Reads the parts of a leaf.
fn parts_at(alloc: Global, bytes: &[u8]) -> Result<(Vec<(Numeral, Numeral)>, &[u8]), Refusal>
    ensures { Gives (λ x. (x.0.items, x.1.now)) result (reading.parts_at bytes.now) }
{
    let mut parts = Vec::new(alloc);
    let mut rest = bytes;
    for _turn in 0..bytes.len() {
        if !item_follows(rest) {
            return Ok((parts, rest));
        }
        let (part, behind) = part_at(alloc, rest)?;
        parts.push(part)?;
        rest = behind;
    }
    Ok((parts, rest))
}

/// Reads what stands behind `(leaf`, before the end of the leaf.
fn leaf_at(alloc: Global, bytes: &[u8]) -> Result<(Piece<RNode>, &[u8]), Refusal>
    ensures { Gives (λ x. (part spec.plain_refutation_node x.0, x.1.now)) result (reading.leaf_at bytes.now) }
{
    let (parts, rest) = parts_at(alloc, bytes)?;
    Ok((Piece::Opens(RNode::Leaf(parts)), rest))
}

/// Reads what stands behind `(cut `, before the trees of the cut.
fn cut_at(alloc: Global, bytes: &[u8]) -> Result<(Piece<RNode>, &[u8]), Refusal>
    ensures { Gives (λ x. (part spec.plain_refutation_node x.0, x.1.now)) result (reading.cut_at bytes.now) }
{
    let (col, rest) = number_before(alloc, bytes, b" ")?;
    let (k, rest) = number_at(alloc, rest)?;
    Ok((Piece::Opens(RNode::Cut { col, k }), rest))
}

/// Reads a piece of the text of a refutation.
#[tactic(auto, unfolding(crate::specs::RefutationReading::piece_at))]
fn piece_at(alloc: Global, bytes: &[u8]) -> Result<(Piece<RNode>, &[u8]), Refusal>
    ensures { Gives (λ x. (part spec.plain_refutation_node x.0, x.1.now)) result (reading.piece_at bytes.now) }
{
    if let Some(rest) = text_at(bytes, b")") {
        return Ok((Piece::Closes, rest));
    }
    if let Some(rest) = text_at(bytes, b" (leaf") {
        return leaf_at(alloc, rest);
    }
    if let Some(rest) = text_at(bytes, b" (cut ") {
        return cut_at(alloc, rest);
    }
    let rest = after(bytes, b" (cases")?;
    Ok((Piece::Opens(RNode::Cases(0)), rest))
}

/// The node with so many trees behind it.
fn with_parts(node: RNode, count: u32) -> Result<RNode, Refusal>
    ensures { Gives spec.plain_refutation_node result (reading.with_parts (spec.plain_refutation_node node) count) }
{
    match node {
        RNode::Leaf(parts) if count == 0 => Ok(RNode::Leaf(parts)),
        RNode::Cut { col, k } if count == 2 => Ok(RNode::Cut { col, k }),
        RNode::Cases(_) => Ok(RNode::Cases(count)),
        _ => Err(Refusal::Form),
    }
}

/// Reads the pieces that the bytes are.
#[tactic(auto, unfolding(crate::specs::RefutationReading::pieces_of))]
fn pieces_of(alloc: Global, bytes: &[u8]) -> Result<Vec<Piece<RNode>>, Refusal>
    ensures { Gives (λ v. map (part spec.plain_refutation_node) v.items) result (reading.pieces_of bytes.now) }
{
    let mut pieces = Vec::new(alloc);
    let mut rest = bytes;
    for _turn in 0..bytes.len() {
        if !more_follow(rest) {
            return Ok(pieces);
        }
        let (piece, behind) = piece_at(alloc, rest)?;
        pieces.push(piece)?;
        rest = behind;
    }
    if more_follow(rest) {
        return Err(Refusal::Form);
    }
    Ok(pieces)
}

/// Puts a piece in front of those that were put together.
fn add_piece(
    piece: Piece<RNode>,
    counts: &mut Vec<u32>,
    nodes: &mut Vec<RNode>,
) -> Result<(), Refusal>
    ensures { Gives (λ _. built spec.plain_refutation_node counts.new.items nodes.new.items) result
        (with_part reading.with_parts (part spec.plain_refutation_node piece) (built spec.plain_refutation_node counts.old.items nodes.old.items)) }
{
    match piece {
        Piece::Closes => counts.push(0)?,
        Piece::Opens(node) => {
            let count = open(counts)?;
            nodes.push(with_parts(node, count)?)?;
        }
    }
    Ok(())
}

/// The nodes of the tree whose pieces these are.
fn nodes_of(alloc: Global, mut pieces: Vec<Piece<RNode>>) -> Result<Vec<RNode>, Refusal>
    ensures { Gives (λ v. map spec.plain_refutation_node v.items) result
        (nodes_of reading.with_parts (map (part spec.plain_refutation_node) pieces.items)) }
{
    let mut counts = Vec::new(alloc);
    counts.push(0)?;
    let mut nodes = Vec::new(alloc);
    while let Some(piece) = pieces.pop() {
        add_piece(piece, &mut counts, &mut nodes)?;
    }
    if counts.len() != 1 {
        return Err(Refusal::Form);
    }
    nodes.reverse();
    Ok(nodes)
}

/// The nodes of the refutation that the bytes are, with a space before it.
#[tactic(auto, unfolding(crate::specs::RefutationReading::refutation_of))]
pub(crate) fn refutation_of(alloc: Global, bytes: &[u8]) -> Result<Vec<RNode>, Refusal>
    ensures { Gives (λ v. map spec.plain_refutation_node v.items) result (reading.refutation_of bytes.now) }
{
    nodes_of(alloc, pieces_of(alloc, bytes)?)
}

/// Whether both numerals of a part are in the grammar.
fn is_part(part: &(Numeral, Numeral)) -> bool
    ensures { result ≡ spec.is_part part.now }
{
    is_numeral(&part.0) && is_numeral(&part.1)
}

/// Whether each part is in the grammar.
fn are_parts(parts: &[(Numeral, Numeral)]) -> bool
    ensures { result ≡ list_all spec.is_part parts.now }
{
    parts.iter().all(|part| is_part(part))
}

/// Whether the node is in the grammar.
fn is_node(node: &RNode) -> bool
    ensures { result ≡ spec.is_refutation_node (spec.plain_refutation_node node.now) }
{
    match node {
        RNode::Leaf(parts) => !parts.is_empty() && are_parts(parts),
        RNode::Cut { col, k } => is_numeral(col) && is_numeral(k),
        RNode::Cases(count) => {
            let _count = *count;
            true
        }
    }
}

/// How many trees stand behind a node.
fn parts(node: &RNode) -> u32
    ensures { result ≡ spec.refutation_parts (spec.plain_refutation_node node.now) }
{
    match node {
        RNode::Leaf(_) => 0,
        RNode::Cut { .. } => 2,
        RNode::Cases(count) => *count,
    }
}

/// Whether the nodes are one whole tree.
fn is_whole(nodes: &[RNode]) -> bool
    ensures { result ≡ is_tree spec.refutation_parts (map spec.plain_refutation_node nodes.now) }
{
    let mut count: u64 = 0;
    let mut left = nodes.len();
    while left > 0 {
        left -= 1;
        let below = u64::from(parts(&nodes[left]));
        if below > count {
            return false;
        }
        count = count - below + 1;
    }
    count == 1
}

/// Whether each node is in the grammar.
fn are_nodes(nodes: &[RNode]) -> bool
    ensures { result ≡ list_all (λ n. spec.is_refutation_node (spec.plain_refutation_node n)) nodes.now }
{
    nodes.iter().all(|node| is_node(node))
}

/// Whether the nodes are those of a refutation in the grammar.
pub(crate) fn is_refutation(nodes: &[RNode]) -> bool
    ensures { result ≡ spec.is_refutation (map spec.plain_refutation_node nodes.now) }
{
    are_nodes(nodes) && is_whole(nodes)
}

/// Writes a space, a row, a colon and a multiplier.
fn push_part(out: &mut Vec<u8>, part: &(Numeral, Numeral)) -> Result<(), AllocError>
    ensures { OnOk result (out.new.items ≡ out.old.items ++ spec.part_text part.now) }
{
    out.push(b' ')?;
    push_numeral(out, &part.0)?;
    out.push(b':')?;
    push_numeral(out, &part.1)
}

/// Writes the parts of a leaf.
fn push_parts(out: &mut Vec<u8>, parts: &[(Numeral, Numeral)]) -> Result<(), AllocError>
    ensures { OnOk result (out.new.items ≡ out.old.items ++ flat_map spec.part_text parts.now) }
{
    for part in parts {
        push_part(out, part)?;
    }
    Ok(())
}

/// Writes what stands before the parts of a node.
fn push_head(out: &mut Vec<u8>, node: &RNode) -> Result<(), AllocError>
    ensures { OnOk result (out.new.items ≡ out.old.items ++ spec.refutation_head (spec.plain_refutation_node node.now)) }
{
    match node {
        RNode::Leaf(parts) => {
            out.extend_from_slice(b" (leaf")?;
            push_parts(out, parts)
        }
        RNode::Cut { col, k } => {
            out.extend_from_slice(b" (cut ")?;
            push_numeral(out, col)?;
            out.push(b' ')?;
            push_numeral(out, k)
        }
        RNode::Cases(_) => out.extend_from_slice(b" (cases"),
    }
}

/// Writes a refutation, with a space before it.
pub(crate) fn push_refutation(out: &mut Vec<u8>, nodes: &[RNode]) -> Result<(), AllocError>
    requires { IsTrue (is_tree spec.refutation_parts (map spec.plain_refutation_node nodes.now)) }
    ensures { OnOk result (out.new.items ≡ out.old.items ++ spec.refutation_text (map spec.plain_refutation_node nodes.now)) }
{
    let mut outer = Vec::new(*out.allocator());
    let mut left = 1;
    for node in nodes {
        push_head(out, node)?;
        outer.push(left - 1)?;
        left = close(out, parts(node), &mut outer)?;
    }
    Ok(())
}
