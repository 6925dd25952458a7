//! Late refutations.

ghost use Rattle.std.specs.Prelude.{IfOk};
ghost use Rattle.int_decide.specs.Answers.{RefutesWithin};

use crate::late_refutations::orders::Order;
use crate::late_refutations::shrinking::shrunk;
use farkas_check::{Node, Refutation};
use int_decide::accepted;
use lin_rows::{Row, System, tighten};
use std::alloc::{AllocError, Global};

/// How many rows may be looked at in all trials.
pub(crate) const WORK: u64 = 2_000_000;

/// A refutation of the same system, with no more cuts on a branch than `depth`, that uses late rows where it can: the cuts are
/// kept, and each leaf goes without the first rows, and then without each row that it does not need, the first ones first. Rows of
/// a path ascend by letter, so that facts begin as late as possible. All columns are below `columns`. Where nothing better is
/// found, or the work has to end, it is the given one.
pub fn late(
    alloc: Global,
    system: &System,
    columns: u32,
    refutation: &Refutation,
    depth: u32,
) -> Result<Refutation, AllocError>
    requires { RefutesWithin depth system.now refutation.now }
    ensures { IfOk result (RefutesWithin depth system.now) }
{
    if let Some(nodes) = late_nodes(alloc, system, columns, refutation)? {
        if let Some(found) = accepted(alloc, system, depth, nodes)? {
            return Ok(found);
        }
    }
    refutation.copy()
}

/// The rows of the system, tightened.
pub(crate) fn tight_rows(alloc: Global, system: &System) -> Result<Vec<Row>, AllocError> {
    let mut rows = Vec::with_capacity(alloc, system.rows.len())?;
    for row in &system.rows {
        rows.push(tighten(alloc, row)?)?;
    }
    Ok(rows)
}

/// The nodes of the late tree; `None` where it has cases, or a number would not fit.
fn late_nodes(
    alloc: Global,
    system: &System,
    columns: u32,
    refutation: &Refutation,
) -> Result<Option<Vec<Node>>, AllocError> {
    let rows = tight_rows(alloc, system)?;
    let order = Order::new(alloc, &rows, columns, &[])?;
    shrunk(alloc, columns, rows, 0, order, refutation, WORK)
}
