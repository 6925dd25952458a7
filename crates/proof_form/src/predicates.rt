//! Predicates as they are written.

ghost use Rattle.std.specs.Prelude.{◌≡◌, ◌++◌, map, take, drop, reverse, OnOk, IsTrue, IfOk, [], ◌∷◌, ◌≤◌};
ghost use Rattle.std.specs.Option.{SomeIff};
ghost use Rattle.std.specs.List.{list_all, flat_map};
ghost use Rattle.proof_form.specs.Outcomes.{Gives};
ghost use Rattle.proof_form.specs.TreeReading.{with_part, nodes_of};
ghost use Rattle.proof_form.specs.Ties.TreeViews.{part, built};
ghost use Rattle.proof_form.specs.Trees.{is_tree};
ghost use Rattle.proof_form.specs.Predicates as spec;
ghost use Rattle.proof_form.specs.PredicateReading as reading;

use crate::numerals::{Numeral, is_numeral, is_zero, push_numeral};
use crate::reading::{
    after, item_follows, more_follow, number_at, number_before, text_at, word_at,
};
use crate::refusal::Refusal;
use crate::spelling::is_column;
use crate::trees::{Piece, close, open};
use boogie_tree::Text;
use std::alloc::{AllocError, Global};

/// A node of a predicate. The predicates below it stand after it, in order.
#[derive(Drop)]
pub enum PNode {
    /// A sum of columns is at most the bound.
    Atom {
        /// The bound.
        bound: Numeral,
        /// Coefficients with columns.
        terms: Vec<(Numeral, Text)>,
    },
    /// So many predicates that all hold.
    And(u32),
    /// So many predicates of which one holds.
    Or(u32),
}

/// `and` and `or` nest at most so deep.
const DEPTH: u32 = 200;

/// Reads a space, a coefficient, a space and a column.
#[tactic(auto, unfolding(crate::specs::PredicateReading::term_at))]
fn term_at(alloc: Global, bytes: &[u8]) -> Result<((Numeral, Text), &[u8]), Refusal>
    ensures { Gives (λ x. (x.0, x.1.now)) result (reading.term_at bytes.now) }
{
    let rest = after(bytes, b" ")?;
    let (coefficient, rest) = number_before(alloc, rest, b" ")?;
    let (column, rest) = word_at(alloc, rest)?;
    Ok(((coefficient, column), rest))
}

/// Reads the terms of an atom.
fn terms_at(alloc: Global, bytes: &[u8]) -> Result<(Vec<(Numeral, Text)>, &[u8]), Refusal>
    ensures { Gives (λ x. (x.0.items, x.1.now)) result (reading.terms_at bytes.now) }
{
    let mut terms = Vec::new(alloc);
    let mut rest = bytes;
    for _turn in 0..bytes.len() {
        if !item_follows(rest) {
            return Ok((terms, rest));
        }
        let (term, behind) = term_at(alloc, rest)?;
        terms.push(term)?;
        rest = behind;
    }
    Ok((terms, rest))
}

/// Reads what stands behind `(le `, before the end of the atom.
fn atom_at(alloc: Global, bytes: &[u8]) -> Result<(Piece<PNode>, &[u8]), Refusal>
    ensures { Gives (λ x. (part spec.plain_predicate_node x.0, x.1.now)) result (reading.atom_at bytes.now) }
{
    let (bound, rest) = number_at(alloc, bytes)?;
    let (terms, rest) = terms_at(alloc, rest)?;
    Ok((Piece::Opens(PNode::Atom { bound, terms }), rest))
}

/// Reads a piece of the text of a predicate.
#[tactic(auto, unfolding(crate::specs::PredicateReading::piece_at))]
fn piece_at(alloc: Global, bytes: &[u8]) -> Result<(Piece<PNode>, &[u8]), Refusal>
    ensures { Gives (λ x. (part spec.plain_predicate_node x.0, x.1.now)) result (reading.piece_at bytes.now) }
{
    if let Some(rest) = text_at(bytes, b")") {
        return Ok((Piece::Closes, rest));
    }
    if let Some(rest) = text_at(bytes, b" (le ") {
        return atom_at(alloc, rest);
    }
    if let Some(rest) = text_at(bytes, b" (and") {
        return Ok((Piece::Opens(PNode::And(0)), rest));
    }
    let rest = after(bytes, b" (or")?;
    Ok((Piece::Opens(PNode::Or(0)), rest))
}

/// The node with so many predicates behind it.
fn with_parts(node: PNode, count: u32) -> Result<PNode, Refusal>
    ensures { Gives spec.plain_predicate_node result (reading.with_parts (spec.plain_predicate_node node) count) }
{
    match node {
        PNode::Atom { bound, terms } if count == 0 => Ok(PNode::Atom { bound, terms }),
        PNode::And(_) => Ok(PNode::And(count)),
        PNode::Or(_) => Ok(PNode::Or(count)),
        _ => Err(Refusal::Form),
    }
}

/// Reads the pieces that the bytes are.
#[tactic(auto, unfolding(crate::specs::PredicateReading::pieces_of))]
fn pieces_of(alloc: Global, bytes: &[u8]) -> Result<Vec<Piece<PNode>>, Refusal>
    ensures { Gives (λ v. map (part spec.plain_predicate_node) v.items) result (reading.pieces_of bytes.now) }
{
    let mut pieces = Vec::new(alloc);
    let mut rest = bytes;
    for _turn in 0..bytes.len() {
        if !more_follow(rest) {
            return Ok(pieces);
        }
        let (piece, behind) = piece_at(alloc, rest)?;
        pieces.push(piece)?;
        rest = behind;
    }
    if more_follow(rest) {
        return Err(Refusal::Form);
    }
    Ok(pieces)
}

/// Puts a piece in front of those that were put together.
fn add_piece(
    piece: Piece<PNode>,
    counts: &mut Vec<u32>,
    nodes: &mut Vec<PNode>,
) -> Result<(), Refusal>
    ensures { Gives (λ _. built spec.plain_predicate_node counts.new.items nodes.new.items) result
        (with_part reading.with_parts (part spec.plain_predicate_node piece) (built spec.plain_predicate_node counts.old.items nodes.old.items)) }
{
    match piece {
        Piece::Closes => counts.push(0)?,
        Piece::Opens(node) => {
            let count = open(counts)?;
            nodes.push(with_parts(node, count)?)?;
        }
    }
    Ok(())
}

/// The nodes of the tree whose pieces these are.
fn nodes_of(alloc: Global, mut pieces: Vec<Piece<PNode>>) -> Result<Vec<PNode>, Refusal>
    ensures { Gives (λ v. map spec.plain_predicate_node v.items) result
        (nodes_of reading.with_parts (map (part spec.plain_predicate_node) pieces.items)) }
{
    let mut counts = Vec::new(alloc);
    counts.push(0)?;
    let mut nodes = Vec::new(alloc);
    while let Some(piece) = pieces.pop() {
        add_piece(piece, &mut counts, &mut nodes)?;
    }
    if counts.len() != 1 {
        return Err(Refusal::Form);
    }
    nodes.reverse();
    Ok(nodes)
}

/// The nodes of the predicate that the bytes are, with a space before it.
#[tactic(auto, unfolding(crate::specs::PredicateReading::predicate_of))]
pub(crate) fn predicate_of(alloc: Global, bytes: &[u8]) -> Result<Vec<PNode>, Refusal>
    ensures { Gives (λ v. map spec.plain_predicate_node v.items) result (reading.predicate_of bytes.now) }
{
    nodes_of(alloc, pieces_of(alloc, bytes)?)
}

/// Whether the term is in the grammar.
fn is_term(term: &(Numeral, Text)) -> bool
    ensures { result ≡ spec.is_term term.now }
{
    is_numeral(&term.0) && !is_zero(&term.0) && is_column(term.1.bytes())
}

/// Whether each term is in the grammar.
fn are_terms(terms: &[(Numeral, Text)]) -> bool
    ensures { result ≡ list_all spec.is_term terms.now }
{
    terms.iter().all(|term| is_term(term))
}

/// Whether an `and` or `or` may have so many parts.
fn is_count(count: u32) -> bool
    ensures { result ≡ spec.is_count count }
{
    count >= 2
}

/// Whether the node is in the grammar.
fn is_node(node: &PNode) -> bool
    ensures { result ≡ spec.is_predicate_node (spec.plain_predicate_node node.now) }
{
    match node {
        PNode::Atom { bound, terms } => {
            is_numeral(bound) && !terms.is_empty() && are_terms(terms)
        }
        PNode::And(count) | PNode::Or(count) => is_count(*count),
    }
}

/// How many predicates stand behind a node.
fn parts(node: &PNode) -> u32
    ensures { result ≡ spec.parts (spec.plain_predicate_node node.now) }
{
    match node {
        PNode::Atom { .. } => 0,
        PNode::And(count) | PNode::Or(count) => *count,
    }
}

/// Whether the nodes are one whole tree.
fn is_whole(nodes: &[PNode]) -> bool
    ensures { result ≡ is_tree spec.parts (map spec.plain_predicate_node nodes.now) }
{
    let mut count: u64 = 0;
    let mut left = nodes.len();
    while left > 0 {
        left -= 1;
        let below = u64::from(parts(&nodes[left]));
        if below > count {
            return false;
        }
        count = count - below + 1;
    }
    count == 1
}

/// Whether each node is in the grammar.
fn are_nodes(nodes: &[PNode]) -> bool
    ensures { result ≡ list_all (λ n. spec.is_predicate_node (spec.plain_predicate_node n)) nodes.now }
{
    nodes.iter().all(|node| is_node(node))
}

/// Takes so many heights away, or all, and answers the highest of them.
fn take_highest(heights: &mut Vec<u32>, count: u32) -> u32
    ensures highest { result ≡ spec.highest (take count (reverse heights.old.items)) }
    ensures others { reverse heights.new.items ≡ drop count (reverse heights.old.items) }
{
    let mut highest = 0;
    for _turn in 0..count {
        match heights.pop() {
            None => return highest,
            Some(height) => highest = height.max(highest),
        }
    }
    highest
}

/// How deep `and` and `or` nest in a node whose parts nest so deep, if that is not too deep.
fn height_of(node: &PNode, below: u32) -> Option<u32>
    ensures { SomeIff result (spec.height_of (spec.plain_predicate_node node.now) (below ∷ []) ≤ 200) (spec.height_of (spec.plain_predicate_node node.now) (below ∷ [])) }
{
    match node {
        PNode::Atom { .. } => Some(0),
        PNode::And(_) | PNode::Or(_) if below < DEPTH => Some(below + 1),
        _ => None,
    }
}

/// Whether `and` and `or` nest nowhere too deep.
fn are_low(alloc: Global, nodes: &[PNode]) -> Result<bool, AllocError>
    ensures { IfOk result (λ r. r ≡ spec.are_low (map spec.plain_predicate_node nodes.now)) }
{
    let mut heights = Vec::new(alloc);
    let mut left = nodes.len();
    while left > 0 {
        left -= 1;
        let node = &nodes[left];
        let below = take_highest(&mut heights, parts(node));
        match height_of(node, below) {
            None => return Ok(false),
            Some(height) => heights.push(height)?,
        }
    }
    Ok(true)
}

/// Whether the nodes are those of a predicate in the grammar.
pub(crate) fn is_predicate(alloc: Global, nodes: &[PNode]) -> Result<bool, AllocError>
    ensures { IfOk result (λ r. r ≡ spec.is_predicate (map spec.plain_predicate_node nodes.now)) }
{
    if !are_nodes(nodes) {
        return Ok(false);
    }
    if !is_whole(nodes) {
        return Ok(false);
    }
    are_low(alloc, nodes)
}

/// Writes a space, a coefficient, a space and a column.
fn push_term(out: &mut Vec<u8>, term: &(Numeral, Text)) -> Result<(), AllocError>
    ensures { OnOk result (out.new.items ≡ out.old.items ++ spec.term_text term.now) }
{
    out.push(b' ')?;
    push_numeral(out, &term.0)?;
    out.push(b' ')?;
    out.extend_from_slice(term.1.bytes())
}

/// Writes the terms of an atom.
fn push_terms(out: &mut Vec<u8>, terms: &[(Numeral, Text)]) -> Result<(), AllocError>
    ensures { OnOk result (out.new.items ≡ out.old.items ++ flat_map spec.term_text terms.now) }
{
    for term in terms {
        push_term(out, term)?;
    }
    Ok(())
}

/// Writes what stands before the parts of a node.
fn push_head(out: &mut Vec<u8>, node: &PNode) -> Result<(), AllocError>
    ensures { OnOk result (out.new.items ≡ out.old.items ++ spec.head (spec.plain_predicate_node node.now)) }
{
    match node {
        PNode::Atom { bound, terms } => {
            out.extend_from_slice(b" (le ")?;
            push_numeral(out, bound)?;
            push_terms(out, terms)
        }
        PNode::And(_) => out.extend_from_slice(b" (and"),
        PNode::Or(_) => out.extend_from_slice(b" (or"),
    }
}

/// Writes a predicate, with a space before it.
pub(crate) fn push_predicate(out: &mut Vec<u8>, nodes: &[PNode]) -> Result<(), AllocError>
    requires { IsTrue (is_tree spec.parts (map spec.plain_predicate_node nodes.now)) }
    ensures { OnOk result (out.new.items ≡ out.old.items ++ spec.predicate_text (map spec.plain_predicate_node nodes.now)) }
{
    let mut outer = Vec::new(*out.allocator());
    let mut left = 1;
    for node in nodes {
        push_head(out, node)?;
        outer.push(left - 1)?;
        left = close(out, parts(node), &mut outer)?;
    }
    Ok(())
}
