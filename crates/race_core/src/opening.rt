//! The state before the first event.

ghost use Rattle.std.specs.Prelude.{◌≡◌, ◌≤◌, [], None, IfOk};
ghost use Rattle.std.specs.Arc.{arc_value};

use crate::evidence::Evidence;
use crate::races::Shared;
use nwa_base::Nwa;
use std::alloc::{AllocError, Global};
use std::sync::Arc;

/// The state with an empty history, with the program kept, no end, and room for `limit` entries.
pub fn shared<E: Evidence>(
    alloc: Global,
    program: Arc<Nwa>,
    limit: u64,
) -> Result<Shared<E>, AllocError>
    requires { (1 ≤ limit) × (limit ≤ 100000) }
    ensures { IfOk result (λ s. s ≡ record { program = arc_value program; limit = limit; history = []; kept = arc_value program; end = None }) }
{
    let history = Vec::with_capacity(alloc, limit as usize)?;
    let kept = Arc::try_clone(&program)?;
    Ok(Shared::new(program, limit, history, kept))
}
