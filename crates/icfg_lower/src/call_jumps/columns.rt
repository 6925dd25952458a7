//! A frame whose columns are locals, each by its number.

ghost use Rattle.std.specs.Prelude.{◌≡◌, IfOk};
ghost use Rattle.icfg_lower.specs.CallJumps.Ties.Numbered.{plain, numbered_columns};

use boogie_tree::{Column, Text, Ty, VarInfo};
use letter_acts::Frame;
use std::alloc::{AllocError, Global};

/// A whole number without a name.
fn plain(alloc: Global) -> VarInfo
    ensures { result ≡ plain }
{
    VarInfo {
        name: Text::new(Vec::new(alloc)),
        ty: Ty::Int,
        constant: false,
    }
}

/// The frame of so many columns, of which each is the local with its number.
pub fn numbered_frame(alloc: Global, width: u32) -> Result<Frame, AllocError>
    ensures { IfOk result (λ f. f.columns.items ≡ numbered_columns width) }
{
    let mut columns = Vec::new(alloc);
    for number in 0..width {
        columns.push((Column::Local(number), plain(alloc)))?;
    }
    Ok(Frame { columns })
}
