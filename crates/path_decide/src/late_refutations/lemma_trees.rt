//! Refutations with lemmas.

ghost use Rattle.std.specs.Prelude.{IfOk};
ghost use Rattle.int_decide.specs.Answers.{RefutesWithin};

use crate::late_refutations::chains::chained;
use crate::late_refutations::late_trees::{WORK, late, tight_rows};
use crate::late_refutations::orders::Order;
use crate::late_refutations::searching::{Lemma, Search};
use crate::late_refutations::shrinking::shrunk;
use farkas_check::{Node, Refutation};
use int_decide::accepted;
use lin_rows::{Col, Row, System};
use std::alloc::{AllocError, Global};

/// How many rows may be looked at in the search for lemmas.
const SEARCH_WORK: u64 = 500_000;

/// The returned calls of a word. Nothing is asked of it, and it decides only which refutation is found.
#[derive(Clone, Copy)]
pub struct Calls<'a> {
    /// For each row the number of returned calls in which its letter is.
    pub depths: &'a [u32],
    /// The columns whose bounds may be lemmas, each with the number of rows from which they are to follow, the first ones.
    pub candidates: &'a [(Col, u32)],
    /// Whether the rows of deeper calls are dropped first, for lemmas, too. Else those of all returned calls are, and lemmas are late.
    pub is_by_depth: bool,
}

/// A refutation of the same system, with no more cuts on a branch than `depth`, that cuts at bounds of the candidates which the rows
/// before them imply. So its leaves need not carry the facts of a caller through a call. The rows of returned calls are dropped
/// first, then the others as they stand, and the lemmas last. Where no lemma is used it is the late one.
pub fn lemmas(
    alloc: Global,
    system: &System,
    columns: u32,
    refutation: &Refutation,
    depth: u32,
    calls: Calls,
) -> Result<Refutation, AllocError>
    requires { RefutesWithin depth system.now refutation.now }
    ensures { IfOk result (RefutesWithin depth system.now) }
{
    if let Some(nodes) = lemma_nodes(alloc, system, columns, refutation, calls)? {
        if let Some(found) = accepted(alloc, system, depth, nodes)? {
            return Ok(found);
        }
    }
    late(alloc, system, columns, refutation, depth)
}

/// The rank of a row in so many returned calls.
fn rank_of(depth: u32, is_by_depth: bool) -> u32 {
    let depth = if is_by_depth { depth } else { depth.min(1) };
    (u32::MAX - 1).saturating_sub(depth)
}

/// The nodes of the tree with lemmas; `None` where there are none, it has cases, or a number would not fit.
fn lemma_nodes(
    alloc: Global,
    system: &System,
    columns: u32,
    refutation: &Refutation,
    calls: Calls,
) -> Result<Option<Vec<Node>>, AllocError> {
    if calls.candidates.is_empty() {
        return Ok(None);
    }
    let ranks = ranks_of(alloc, calls)?;
    let (rows, lemmas) = found_lemmas(alloc, system, columns, calls, &ranks)?;
    nodes_by(alloc, columns, refutation, &ranks, rows, &lemmas)
}

/// The ranks of the rows.
fn ranks_of(alloc: Global, calls: Calls) -> Result<Vec<u32>, AllocError> {
    let mut ranks = Vec::with_capacity(alloc, calls.depths.len())?;
    for depth in calls.depths {
        ranks.push(rank_of(*depth, calls.is_by_depth))?;
    }
    Ok(ranks)
}

/// The rows of the system, tightened, and then the lemmas, and what shows these.
fn found_lemmas(
    alloc: Global,
    system: &System,
    columns: u32,
    calls: Calls,
    ranks: &[u32],
) -> Result<(Vec<Row>, Vec<Lemma>), AllocError> {
    let rows = tight_rows(alloc, system)?;
    let ranks: &[u32] = if calls.is_by_depth { ranks } else { &[] };
    let order = numbers_by(alloc, columns, ranks, &rows)?;
    searched(alloc, columns, &order, calls.candidates, rows)
}

/// The numbers of the rows, in the order of these ranks.
fn numbers_by(
    alloc: Global,
    columns: u32,
    ranks: &[u32],
    rows: &[Row],
) -> Result<Vec<u32>, AllocError> {
    let order = Order::new(alloc, rows, columns, ranks)?;
    order.numbers()
}

/// The rows with the lemmas that are found among the candidates, and what shows these.
fn searched(
    alloc: Global,
    columns: u32,
    order: &[u32],
    candidates: &[(Col, u32)],
    rows: Vec<Row>,
) -> Result<(Vec<Row>, Vec<Lemma>), AllocError> {
    let mut search = Search::new(alloc, columns, order, rows, SEARCH_WORK)?;
    search.try_columns(candidates)
}

/// The nodes of the tree with these lemmas, which stand at the end of the rows.
fn nodes_by(
    alloc: Global,
    columns: u32,
    refutation: &Refutation,
    ranks: &[u32],
    rows: Vec<Row>,
    lemmas: &[Lemma],
) -> Result<Option<Vec<Node>>, AllocError> {
    let count = u32::try_from(lemmas.len()).unwrap_or(0);
    let given = u32::try_from(rows.len())
        .unwrap_or(u32::MAX)
        .saturating_sub(count);
    let order = order_by(alloc, columns, ranks, &rows, given)?;
    match shrunk(alloc, columns, rows, count, order, refutation, WORK)? {
        Some(nodes) => chained(alloc, given, lemmas, &nodes),
        None => Ok(None),
    }
}

/// The order of the rows by rank, those from a number on last.
fn order_by(
    alloc: Global,
    columns: u32,
    ranks: &[u32],
    rows: &[Row],
    given: u32,
) -> Result<Order, AllocError> {
    let (ranked, lemmas) = rows.split_at(rows.len().min(given as usize));
    let mut order = Order::new(alloc, ranked, columns, ranks)?;
    order.push_all_last(given, lemmas.len())?;
    Ok(order)
}
