//! The columns behind the frame at calls of procedures without body.

ghost use Rattle.std.specs.Prelude.{◌≡◌, IfOk};
ghost use Rattle.typed_tree.specs.TypedView.{procedure};
ghost use Rattle.icfg_lower.specs.CallJumps.Ties.ImportView.{IsLayout};

use crate::call_jumps::written::{column_behind, those_in, written_columns};
use std::alloc::{AllocError, Global};
use typed_tree::TProc;

/// The columns behind the frame, and behind its products, at a call without body.
#[derive(Drop)]
pub struct Layout {
    /// The columns that the call writes.
    pub written: Vec<u32>,
    /// The modified globals that are targets, too.
    pub targeted: Vec<u32>,
    /// The number of the first written column.
    pub base: u32,
    /// The number of the first helper column.
    pub helpers: u32,
    /// How many columns there are, with a helper for each modified global that is a target, too.
    pub width: u32,
}

/// The columns at a call with these targets, the first written one of which has the number `base`.
pub fn laid_out(
    alloc: Global,
    base: u32,
    callee: &TProc,
    targets: &[u32],
) -> Result<Layout, AllocError>
    ensures { IfOk result (IsLayout base (procedure callee.now) targets.now) }
{
    let written = written_columns(alloc, callee.modifies.as_slice(), targets)?;
    let targeted = those_in(alloc, targets, callee.modifies.as_slice())?;
    let helpers = column_behind(base, written.len())?;
    let width = column_behind(helpers, targeted.len())?;
    Ok(Layout {
        written,
        targeted,
        base,
        helpers,
        width,
    })
}
