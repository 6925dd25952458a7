//! Names for states with one signature.

ghost use Rattle.std.specs.Prelude.{IfOk};
ghost use Rattle.nwa_reduce.specs.Ties.Naming.{IsMerging};

use crate::classing::Classes;
use crate::naming::Names;
use nwa_base::Nwa;
use std::alloc::{AllocError, Global};

/// One name for the states of a class. Twins come into one class.
pub fn class_names(alloc: Global, nwa: &Nwa) -> Result<Names, AllocError>
    ensures { IfOk result (λ n. IsMerging nwa.now n.of.items n.count) }
{
    let mut classes = Classes::new(alloc, nwa)?;
    for state in 0..nwa.states() {
        classes.add(state)?;
    }
    Ok(classes.into_names())
}
