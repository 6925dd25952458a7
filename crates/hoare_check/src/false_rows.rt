//! Systems with a row that holds nowhere: that row alone refutes them.

ghost use Rattle.std.specs.Prelude.{◌≡◌, ◌<◌, pos, [], ◌∷◌, IfOk, IfSome, IsTrue, length};
ghost use Rattle.lin_rows.specs.Combinations.{row_at};
ghost use Rattle.lin_rows.specs.Tightening.{never};
ghost use Rattle.farkas_check.specs.Nodes.{leaf};
ghost use Rattle.int_decide.specs.Answers.{RefutesWithin};

use farkas_check::{Node, Refutation, tree};
use lin_rows::{Row, RowKind, System};
use std::alloc::{AllocError, Global};

/// The leaf of the first row `0 <= -1`, where the system has one. A source that is false gives that row, and so does a target that
/// is true, which is denied.
pub(crate) fn leaf_of_false_row(
    alloc: Global,
    system: &System,
) -> Result<Option<Refutation>, AllocError>
    ensures { IfOk result (λ o. IfSome o (RefutesWithin 0 system.now)) }
{
    match false_row(&system.rows) {
        Some(place) => Ok(Some(leaf_of(alloc, place)?)),
        None => Ok(None),
    }
}

/// The tree that is the leaf of this row, taken once.
pub(crate) fn leaf_of(alloc: Global, place: u32) -> Result<Refutation, AllocError>
    ensures { IfOk result (λ nodes. nodes ≡ leaf ((place, pos 1) ∷ []) ∷ []) }
{
    let mut nodes = Vec::with_capacity(alloc, 1)?;
    nodes.push(Node::Leaf(Vec::from_slice(alloc, &[(place, 1)])?))?;
    match tree(nodes) {
        Some(refutation) => Ok(refutation),
        None => unreachable!(),
    }
}

/// The number of the first row `0 <= -1`.
pub(crate) fn false_row(rows: &[Row]) -> Option<u32>
    ensures { IfSome result (λ k. (k < length rows.now) × (row_at rows.now k ≡ never)) }
{
    for place in 0..rows.len() {
        if is_false(&rows[place]) {
            return u32::try_from(place).ok();
        }
    }
    None
}

/// Whether the row is `0 <= -1`.
fn is_false(row: &Row) -> bool
    ensures { IsTrue result → row.now ≡ never }
{
    if !row.terms().is_empty() {
        return false;
    }
    if row.bound() != -1 {
        return false;
    }
    match row.kind() {
        RowKind::Le => true,
        RowKind::Eq => false,
    }
}
