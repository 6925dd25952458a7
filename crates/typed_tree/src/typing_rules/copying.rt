//! Parts that say the same, in memory of their own.

ghost use Rattle.std.specs.Prelude.{◌≡◌, map, IfOk};
ghost use Rattle.typed_tree.specs.TypedView as view;

use crate::TProc;
use std::alloc::AllocError;

/// Procedures that say the same, in order.
pub(crate) fn procedures(parts: &Vec<TProc>) -> Result<Vec<TProc>, AllocError>
    ensures { IfOk result (λ copied. map view.procedure copied.items ≡ map view.procedure parts.now.items) }
{
    let mut copied = Vec::with_capacity(*parts.allocator(), parts.len())?;
    for part in parts {
        copied.push(part.copy()?)?;
    }
    Ok(copied)
}
