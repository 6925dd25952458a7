//! What lists of several conditions are put together from.

ghost use Rattle.std.specs.Prelude.{◌≡◌, true, false, IfOk, IsOk, Err, length};
ghost use Rattle.typed_tree.specs.TypedView.{expression};
ghost use Rattle.cond_jumps.specs.Conjunctions.{Plan, With, is_wide};
ghost use Rattle.cond_jumps.specs.Lists.{path_plan, path_list};
ghost use Rattle.cond_jumps.specs.ListView.{IsPlanList};
ghost use Rattle.cond_jumps.specs.Moving.{IsEvenPlan};

use crate::conj::Conj;
use crate::fault::JumpFault;
use crate::joining::with;
use crate::widths::widths;
use letter_acts::Frame;
use std::alloc::{AllocError, Global};
use typed_tree::TExpr;

/// How many members the list of a condition has. It takes no memory.
pub fn members(frame: &Frame, cond: &TExpr, want: bool) -> Result<u32, JumpFault>
    ensures count { IfOk result (λ n. n ≡ length (path_list frame.now.columns.items (expression cond.now) want)) }
    ensures narrow { IsOk result → is_wide (path_plan frame.now.columns.items (expression cond.now) want) (length frame.now.columns.items) ≡ false }
    ensures too_wide { result ≡ Err JumpFault.TooWide → is_wide (path_plan frame.now.columns.items (expression cond.now) want) (length frame.now.columns.items) ≡ true }
    ensures too_big { result ≡ Err JumpFault.TooBig → ⊥ }
{
    let counts = widths(frame, false, cond, want, false)?;
    Ok(counts.wanted)
}

/// Each conjunction of the first list joined to each of the second, the first outermost. The helpers of both lists are numbered
/// from `base` on, and those of the second come behind those of the first.
pub fn each_with(
    alloc: Global,
    base: u32,
    first: Vec<Conj>,
    second: Vec<Conj>,
) -> Result<Vec<Conj>, AllocError>
    ensures { (p q : Plan) → IsEvenPlan base q → IsPlanList p base first → IsPlanList q base second → IfOk result (IsPlanList (With p q) base) }
{
    let list = with(alloc, base, first.as_slice(), second.as_slice())?;
    Ok(list)
}
