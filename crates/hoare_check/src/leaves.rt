//! Leaves that are known of halves: rows that contradict one another, wherever they stand.

ghost use Rattle.std.specs.Prelude.{◌≡◌, ◌+◌, ◌++◌, ◌<◌, ◌≤◌, [], ◌∷◌, ℕ, List, Some, IfOk, IfSome, map, length};
ghost use Rattle.lin_rows.specs.Rows.{LinearRow};
ghost use Rattle.lin_rows.specs.Combinations.{row_at, Contradicts};
ghost use Rattle.lin_rows.specs.Systems.{rows_of};
ghost use Rattle.lin_rows.specs.Tightening.{tightened};
ghost use Rattle.farkas_check.specs.Nodes.{leaf};
ghost use Rattle.triple_rows.specs.Systems.{PlainSystem, both_systems};
ghost use Rattle.hoare_check.specs.Halves.{IsHalf, IsUncutRefutation, IsCarried};

use crate::counting::plus;
use crate::equality::is_same_row;
use crate::halves::Half;
use farkas_check::{Node, Refutation, tree};
use lin_rows::Row;
use std::alloc::{AllocError, Global};

/// Rows of a system, and of others behind them, that contradict one another.
#[derive(Drop)]
pub(crate) struct Leaf {
    /// The numbers of the rows with their multipliers.
    pub(crate) parts: Vec<(u32, i128)>,
    /// The rows behind those of the system.
    pub(crate) others: Vec<Row>,
}

/// The rows and multipliers of a refutation that is one leaf.
pub(crate) fn leaf_in(
    alloc: Global,
    refutation: &Refutation,
) -> Result<Option<Vec<(u32, i128)>>, AllocError>
    ensures { IfOk result (λ o. IfSome o (λ parts. refutation.now ≡ leaf parts.items ∷ [])) }
{
    match refutation.nodes() {
        [Node::Leaf(parts)] => Ok(Some(Vec::from_slice(alloc, parts)?)),
        _ => Ok(None),
    }
}

/// The tree that is one leaf.
fn tree_of(alloc: Global, parts: Vec<(u32, i128)>) -> Result<Refutation, AllocError>
    ensures { IfOk result (λ nodes. nodes ≡ leaf parts.items ∷ []) }
{
    let mut nodes = Vec::with_capacity(alloc, 1)?;
    nodes.push(Node::Leaf(parts))?;
    match tree(nodes) {
        Some(refutation) => Ok(refutation),
        None => unreachable!(),
    }
}

/// A refutation of the system of two halves, where a leaf is known of one of them that refutes it.
pub(crate) fn by_leaves(
    alloc: Global,
    first: &Half,
    second: &Half,
) -> Result<Option<Refutation>, AllocError>
    ensures { IfOk result (λ o. IfSome o (λ nodes. (n : ℕ) (p q : PlainSystem) → IsHalf n p first.now → IsHalf n q second.now → IsUncutRefutation (both_systems p q) nodes)) }
{
    match &second.leaf {
        Some(leaf) if leaf.others.is_empty() => by_second(alloc, first, second, leaf),
        _ => match &first.leaf {
            Some(leaf) => by_first(alloc, first, second, leaf),
            None => Ok(None),
        },
    }
}

/// The same by a leaf of the second half.
fn by_second(
    alloc: Global,
    first: &Half,
    second: &Half,
    leaf: &Leaf,
) -> Result<Option<Refutation>, AllocError>
    requires alone { leaf.now.others.items ≡ [] }
    requires leaf { second.now.leaf ≡ Some leaf.now }
    ensures { IfOk result (λ o. IfSome o (λ nodes. (n : ℕ) (p q : PlainSystem) → IsHalf n p first.now → IsHalf n q second.now → IsUncutRefutation (both_systems p q) nodes)) }
{
    // Contracts alone speak of it.
    let _second = second;
    let Some(parts) = behind(alloc, &leaf.parts, first.system.rows.len())? else {
        return Ok(None);
    };
    Ok(Some(tree_of(alloc, parts)?))
}

/// The same by a leaf of the first half, whose other rows stand in the second, too.
fn by_first(
    alloc: Global,
    first: &Half,
    second: &Half,
    leaf: &Leaf,
) -> Result<Option<Refutation>, AllocError>
    requires leaf { first.now.leaf ≡ Some leaf.now }
    ensures { IfOk result (λ o. IfSome o (λ nodes. (n : ℕ) (p q : PlainSystem) → IsHalf n p first.now → IsHalf n q second.now → IsUncutRefutation (both_systems p q) nodes)) }
{
    let count = first.system.rows.len();
    let Some(parts) = carried(alloc, &leaf.parts, count, &leaf.others, &second.system.rows)? else {
        return Ok(None);
    };
    Ok(Some(tree_of(alloc, parts)?))
}

/// The same rows, where so many others stand in front of them.
fn behind(
    alloc: Global,
    parts: &[(u32, i128)],
    count: usize,
) -> Result<Option<Vec<(u32, i128)>>, AllocError>
    ensures { IfOk result (λ o. IfSome o (λ moved. moved.items ≡ map (λ part. (count + part.0, part.1)) parts.now)) }
{
    let mut moved = Vec::with_capacity(alloc, parts.len())?;
    for (place, multiplier) in parts {
        let Some(place) = plus(*place, count) else {
            return Ok(None);
        };
        moved.push((place, *multiplier))?;
    }
    Ok(Some(moved))
}

/// The same rows, where others stand behind the first ones, of which there are so many.
fn carried(
    alloc: Global,
    parts: &[(u32, i128)],
    count: usize,
    from: &[Row],
    to: &[Row],
) -> Result<Option<Vec<(u32, i128)>>, AllocError>
    ensures { IfOk result (λ o. IfSome o (λ moved. (front : List LinearRow) → length front ≡ count →
        Contradicts (map tightened (front ++ from.now)) parts.now → Contradicts (map tightened (front ++ to.now)) moved.items)) }
{
    let mut moved = Vec::with_capacity(alloc, parts.len())?;
    let mut next = 0u32;
    for (place, multiplier) in parts {
        let Some(found) = carried_place(*place, count, from, to, next) else {
            return Ok(None);
        };
        let Some(after) = found.checked_add(1) else {
            return Ok(None);
        };
        next = after;
        moved.push((found, *multiplier))?;
    }
    Ok(Some(moved))
}

/// Where a row stands, from a place on, where others stand behind the first ones.
fn carried_place(place: u32, count: usize, from: &[Row], to: &[Row], next: u32) -> Option<u32>
    ensures { IfSome result (λ k. (next ≤ k) × IsCarried count from.now to.now place k) }
{
    let place = place as usize;
    let next = next as usize;
    if place < count {
        return if next <= place {
            u32::try_from(place).ok()
        } else {
            None
        };
    }
    let likely = place - count;
    if likely >= from.len() {
        return None;
    }
    let found = place_of(&from[likely], to, likely, next.saturating_sub(count))?;
    u32::try_from(found.checked_add(count)?).ok()
}

/// The place of a row among others, not before a first one: this one, if it stands there.
fn place_of(row: &Row, rows: &[Row], likely: usize, first: usize) -> Option<usize>
    ensures { IfSome result (λ k. (first ≤ k) × (k < length rows.now) × (row.now ≡ row_at rows.now k)) }
{
    if first <= likely && likely < rows.len() && is_same_row(row, &rows[likely]) {
        return Some(likely);
    }
    for place in first..rows.len() {
        if is_same_row(row, &rows[place]) {
            return Some(place);
        }
    }
    None
}
