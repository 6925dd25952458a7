//! A new cell.

ghost use Rattle.std.specs.Prelude.{◌≡◌, ◌≤◌, IfOk};
ghost use Rattle.std.specs.Arc.{arc_value};
ghost use Rattle.version_cell.specs.Passes.{newcomer, IsPassOf};

use crate::board::Terms;
use crate::cells::VersionCell;
use crate::passes::Pass;
use atomic_table::Table;
use nwa_base::Nwa;
use race_core::{Evidence, shared};
use std::alloc::{AllocError, Global};
use std::snapshot::Snapshot;
use std::sync::Arc;

/// A cell with an empty history, and its first pass, which has all shares and has seen nothing. There have to be as many shares
/// as there will be passes at one time.
pub fn create<E: Evidence>(
    alloc: Global,
    program: Arc<Nwa>,
    limit: u64,
    shares: u64,
) -> Result<(VersionCell<E>, Pass<E>), AllocError>
    requires limit { (1 ≤ limit) × (limit ≤ 100000) }
    requires shares { 1 ≤ shares }
    ensures cell { IfOk result (λ t. (t.0.program ≡ arc_value program) × (t.0.limit ≡ limit) × (t.0.shares ≡ shares)) }
    ensures pass { IfOk result (λ t. t.1 ≡ newcomer t.0) }
    ensures of_cell { IfOk result (λ t. IsPassOf t.0 t.1) }
{
    let terms = Terms {
        program: Snapshot::of(&*program),
        limit,
        total: shares,
    };
    let mut slots = Vec::with_capacity(alloc, 1)?;
    slots.push_reserved(Some(shared(alloc, program, limit)?));
    match Table::new(alloc, &[0, 0], slots, &terms) {
        Ok((table, seat)) => Ok((VersionCell { table }, Pass { seat })),
        Err(_) => Err(AllocError),
    }
}
