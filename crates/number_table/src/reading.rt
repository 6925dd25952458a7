//! Arguments of calls, read from text. What cannot be read counts as 0, or is left out.

use farkas_check::Node;
use frac::{Frac, Past, of};
use lin_rows::{Col, Row, RowFault, RowKind, System, row, system};
use std::alloc::{AllocError, Global};
use table_reading::{keep, value};

/// A count, a column, or the number of a row.
pub(crate) fn small_number(word: &str) -> u32 {
    u32::try_from(number(word)).unwrap_or(0)
}

/// A number: digits, `2^k`, `-2^k`, `(2^k-n)` or `(-2^k+n)`.
pub(crate) fn number(word: &str) -> i128 {
    let bare = word.trim_matches(['(', ')']);
    if let Some(power) = bare.strip_prefix("-2^") {
        above_power(power, '+')
    } else if let Some(power) = bare.strip_prefix("2^") {
        above_power(power, '-').wrapping_neg()
    } else {
        value(bare)
    }
}

/// The number `-2^k+n`, where the text is k, or k, the sign and n.
fn above_power(text: &str, sign: char) -> i128 {
    let (exponent, above) = text.split_once(sign).unwrap_or((text, "0"));
    let exponent = table_reading::number(exponent).min(127);
    (i128::MIN >> (127 - exponent)).wrapping_add(value(above))
}

/// The fraction of a text: a numerator, and a denominator behind a slash if it is not 1.
pub(crate) fn fraction(text: &str) -> Result<Frac, Past> {
    let (numerator, denominator) = text.split_once('/').unwrap_or((text, "1"));
    let denominator = number(denominator);
    if denominator == 0 {
        return Err(Past);
    }
    of(number(numerator), denominator)
}

/// What is read of a system: the systems that are open, the outermost first, and the terms and the kind of a row whose bound is not read.
#[derive(Drop)]
struct Draft {
    open: Vec<System>,
    terms: Vec<(Col, i128)>,
    kind: Option<RowKind>,
}

/// Opens a system without rows and groups.
fn open_system(alloc: Global, open: &mut Vec<System>) -> Result<(), RowFault> {
    keep(open, system(Vec::new(alloc), Vec::new(alloc)))?;
    Ok(())
}

/// Begins a group of the system that is open.
fn begin_group(alloc: Global, open: &mut Vec<System>) -> Result<(), RowFault> {
    if let Some(outer) = open.last_mut() {
        outer.groups.push(Vec::new(alloc))?;
    }
    Ok(())
}

/// Adds a member to the last group of a system.
fn push_member(outer: &mut System, member: System) -> Result<(), RowFault> {
    if let Some(group) = outer.groups.last_mut() {
        keep(group, member)?;
    }
    Ok(())
}

fn end_member(open: &mut Vec<System>) -> Result<(), RowFault> {
    match (open.pop(), open.last_mut()) {
        (Some(member), Some(outer)) => push_member(outer, member),
        _ => Ok(()),
    }
}

fn add_term(terms: &mut Vec<(Col, i128)>, coefficient: &str, column: &str) -> Result<(), RowFault> {
    terms.push((small_number(column), number(coefficient)))?;
    Ok(())
}

fn push_row(open: &mut Vec<System>, row: Row) -> Result<(), RowFault> {
    if let Some(system) = open.last_mut() {
        keep(&mut system.rows, row)?;
    }
    Ok(())
}

/// Ends a row by its bound; before the kind of a row a number stands for no terms.
fn end_row(alloc: Global, draft: &mut Draft, bound: i128) -> Result<(), RowFault> {
    if let Some(kind) = draft.kind.take() {
        push_row(&mut draft.open, row(alloc, &draft.terms, kind, bound)?)?;
        draft.terms.clear();
    }
    Ok(())
}

fn add_number(alloc: Global, draft: &mut Draft, word: &str) -> Result<(), RowFault> {
    match word.split_once('x') {
        Some((coefficient, column)) => add_term(&mut draft.terms, coefficient, column),
        None => end_row(alloc, draft, number(word.trim_end_matches(','))),
    }
}

fn set_kind(draft: &mut Draft, kind: RowKind) -> Result<(), RowFault> {
    draft.kind = Some(kind);
    Ok(())
}

fn add_word(alloc: Global, draft: &mut Draft, word: &str) -> Result<(), RowFault> {
    match word {
        "{" => begin_group(alloc, &mut draft.open),
        "(" => open_system(alloc, &mut draft.open),
        ")" => end_member(&mut draft.open),
        "<=" => set_kind(draft, RowKind::Le),
        "=" => set_kind(draft, RowKind::Eq),
        _ => add_number(alloc, draft, word),
    }
}

fn add_words(alloc: Global, draft: &mut Draft, text: &str) -> Result<(), RowFault> {
    open_system(alloc, &mut draft.open)?;
    for word in text.split_whitespace() {
        add_word(alloc, draft, word)?;
    }
    Ok(())
}

/// The system of a text: rows with commas between them, as `2x0 -3x1 <= 5`, and groups in braces, each member in parentheses.
pub(crate) fn system_of(alloc: Global, text: &str) -> Result<System, RowFault> {
    let mut draft = Draft {
        open: Vec::new(alloc),
        terms: Vec::new(alloc),
        kind: None,
    };
    add_words(alloc, &mut draft, text)?;
    draft.open.pop().ok_or(RowFault::Memory)
}

/// Adds a number and a multiplier to the leaf that is last.
fn add_part(nodes: &mut Vec<Node>, place: &str, multiplier: &str) -> Result<(), AllocError> {
    if let Some(Node::Leaf(parts)) = nodes.last_mut() {
        parts.push((small_number(place), number(multiplier)))?;
    }
    Ok(())
}

/// The node of a word, which is a leaf without parts, cases, or a cut.
fn node_of(alloc: Global, word: &str) -> Node {
    if let Some(members) = word.strip_prefix('A') {
        return Node::Cases(small_number(members));
    }
    match word.split_once("<=") {
        Some((column, k)) => Node::Cut {
            col: small_number(column.trim_start_matches('x')),
            k: number(k),
        },
        None => Node::Leaf(Vec::new(alloc)),
    }
}

fn add_node(alloc: Global, nodes: &mut Vec<Node>, word: &str) -> Result<(), AllocError> {
    match word.split_once(':') {
        Some((place, multiplier)) => add_part(nodes, place, multiplier)?,
        None => nodes.push(node_of(alloc, word))?,
    }
    Ok(())
}

fn add_nodes(alloc: Global, nodes: &mut Vec<Node>, text: &str) -> Result<(), AllocError> {
    for word in text.split_whitespace() {
        add_node(alloc, nodes, word)?;
    }
    Ok(())
}

/// The nodes of a text: `L 0:1 3:-2` is a leaf with its parts, `x1<=2` a cut, and `A3` cases of three members.
pub(crate) fn nodes_of(alloc: Global, text: &str) -> Result<Vec<Node>, AllocError> {
    let mut nodes = Vec::new(alloc);
    add_nodes(alloc, &mut nodes, text)?;
    Ok(nodes)
}
