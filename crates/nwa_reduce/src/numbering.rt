//! Names for states of one class, whatever the classes.

ghost use Rattle.std.specs.Prelude.{◌≡◌, ◌≤◌, IfOk, length};
ghost use Rattle.nwa_reduce.specs.Ties.Folding.{IsTotal};

use crate::naming::Names;
use indexmap::IndexSet;
use nwa_base::Nwa;
use std::alloc::{AllocError, Global};

/// One name for the states of a class, in the order in which the classes come first. The states without a class are one class.
pub fn class_numbers(alloc: Global, nwa: &Nwa, classes: &[u32]) -> Result<Names, AllocError>
    ensures { IfOk result (λ n. IsTotal nwa.now n.of.items n.count × (length n.of.items ≡ nwa.now.states)) }
{
    let mut of = Vec::new(alloc);
    let mut found = IndexSet::new(alloc);
    for state in 0..nwa.states() {
        let (place, _) = found.insert_full(class_of(classes, state))?;
        of.push(Some(place as u32))?;
    }
    Ok(Names {
        of,
        count: found.len() as u32,
    })
}

/// The class of a state.
fn class_of(classes: &[u32], state: u32) -> u32 {
    match classes.get(state as usize) {
        Some(&class) => class,
        None => 0,
    }
}
