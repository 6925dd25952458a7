//! The numbers of columns.

ghost use Rattle.std.specs.Prelude.{◌≡◌, ℕ, IfOk};
ghost use Rattle.std.specs.List.{AllByRecursion};
ghost use Rattle.typed_tree.specs.TypingRules.TypedParts.{typed_program};
ghost use Rattle.lowered_graph.specs.LoweredSteps.ProgramFrames.{frame_at};
ghost use Rattle.lowered_graph.specs.LoweredSteps.Edges.{numbers_in};
ghost use Rattle.icfg_lower.specs.ProgramLayout.Layouts.{StandsIn};

use crate::program_layout::Layout;
use boogie_tree::Column;
use std::alloc::{AllocError, Global};

/// The numbers of columns in the frame of every procedure that has them.
pub(crate) fn numbers(
    alloc: Global,
    layout: &Layout<'_>,
    columns: &[Column],
) -> Result<Vec<u32>, AllocError>
    requires { (n : ℕ) × AllByRecursion (StandsIn (frame_at (typed_program layout.now) n)) columns.now }
    ensures { (n : ℕ) → AllByRecursion (StandsIn (frame_at (typed_program layout.now) n)) columns.now →
        IfOk result (λ found. found.items ≡ numbers_in (frame_at (typed_program layout.now) n) columns.now) }
{
    let mut found = Vec::with_capacity(alloc, columns.len())?;
    for column in columns {
        found.push(layout.column(*column))?;
    }
    Ok(found)
}
