//! What stands for the parameters of a called procedure.

ghost use Rattle.std.specs.Prelude.{◌≡◌, IfOk, map};
ghost use Rattle.typed_tree.specs.TypedView.{expression};
ghost use Rattle.icfg_lower.specs.CallJumps.Ties.Stands.{stand_of, argument_stand};

use crate::call_jumps::reader::Reader;
use crate::call_jumps::reading::read;
use crate::call_jumps::standing::Standing;
use crate::call_jumps::types::type_in;
use letter_acts::Frame;
use std::alloc::{AllocError, Global};
use typed_tree::TExpr;

/// An argument over numbered columns.
fn standing(alloc: Global, frame: &Frame, arg: &TExpr) -> Result<Standing, AllocError>
    ensures { IfOk result (λ s. stand_of s ≡ argument_stand frame.now.columns.items (expression arg.now)) }
{
    let reader = Reader::Frame(frame);
    Ok(Standing {
        expr: read(alloc, &reader, false, arg)?,
        ty: type_in(frame, false, arg)?,
    })
}

/// The arguments over numbered columns.
pub fn standings(alloc: Global, frame: &Frame, args: &[TExpr]) -> Result<Vec<Standing>, AllocError>
    ensures { IfOk result (λ ss. map stand_of ss.items ≡ map (argument_stand frame.now.columns.items) (map expression args.now)) }
{
    let mut standings = Vec::with_capacity(alloc, args.len())?;
    for arg in args {
        standings.push(standing(alloc, frame, arg)?)?;
    }
    Ok(standings)
}
