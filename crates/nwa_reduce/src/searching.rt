//! The states to which ways lead.

ghost use Rattle.std.specs.Prelude.{nat_eq, IfOk, OnOk};
ghost use Rattle.nwa_reduce.specs.Ties.Rows.{row_of};
ghost use Rattle.nwa_reduce.specs.Ties.Searching.{IsSearched, Inserts};

use crate::rows::Rows;
use crate::states::States;
use std::alloc::{AllocError, Global};

/// The states to which ways lead from the roots. The steps are grouped by the state from which they lead.
pub fn search(alloc: Global, roots: &[u32], steps: &Rows<u32>) -> Result<States, AllocError>
    ensures { IfOk result (λ s. IsSearched (λ q. row_of steps.now.rows.items q) roots.now s) }
{
    let mut found = States::new(alloc);
    insert_all(&mut found, roots)?;
    let mut place = 0;
    while let Some(state) = found.at(place) {
        insert_all(&mut found, steps.of(state))?;
        place += 1;
    }
    Ok(found)
}

/// Inserts each of the states at the end, unless it stands there already.
fn insert_all(found: &mut States, states: &[u32]) -> Result<(), AllocError>
    ensures { OnOk result (Inserts found.old states.now found.new) }
{
    for &state in states {
        found.insert(state)?;
    }
    Ok(())
}
