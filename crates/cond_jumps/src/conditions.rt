//! The list of a condition.

ghost use Rattle.std.specs.Prelude.{◌≡◌, true, false, IfOk, IsOk, Err, length};
ghost use Rattle.typed_tree.specs.TypedView.{expression};
ghost use Rattle.cond_jumps.specs.Conjunctions.{is_wide, all_fit};
ghost use Rattle.cond_jumps.specs.Conjs.{conjunctions};
ghost use Rattle.cond_jumps.specs.Lists.{path_plan, path_list};

use crate::conj::Conj;
use crate::fault::JumpFault;
use crate::lists::lists;
use crate::refusal::Refusal;
use crate::widths::widths;
use letter_acts::Frame;
use std::alloc::Global;
use typed_tree::TExpr;

/// The conjunctions of which a state of the frame meets one, and no more, exactly where the condition has the wanted value.
/// Their rows are over the frame, and then the helpers.
pub fn paths(alloc: Global, frame: &Frame, cond: &TExpr, want: bool) -> Result<Vec<Conj>, JumpFault>
    ensures list { IfOk result (λ cs. conjunctions cs.items ≡ path_list frame.now.columns.items (expression cond.now) want) }
    ensures narrow { IsOk result → is_wide (path_plan frame.now.columns.items (expression cond.now) want) (length frame.now.columns.items) ≡ false }
    ensures fits { IsOk result → all_fit (path_plan frame.now.columns.items (expression cond.now) want) (length frame.now.columns.items) ≡ true }

    // `TooWide` goes before `TooBig`.
    ensures too_wide { result ≡ Err JumpFault.TooWide →
        is_wide (path_plan frame.now.columns.items (expression cond.now) want) (length frame.now.columns.items) ≡ true }
    ensures too_big { result ≡ Err JumpFault.TooBig →
        (is_wide (path_plan frame.now.columns.items (expression cond.now) want) (length frame.now.columns.items) ≡ false)
        × (all_fit (path_plan frame.now.columns.items (expression cond.now) want) (length frame.now.columns.items) ≡ false) }
{
    let Ok(base) = u32::try_from(frame.columns.len()) else {
        return Err(JumpFault::Memory);
    };
    let _widths = widths(frame, false, cond, want, false)?;
    match lists(alloc, frame, false, cond, want, false, base) {
        Ok(made) => Ok(made.wanted),
        Err(Refusal::TooBig) => Err(JumpFault::TooBig),
        Err(Refusal::Memory) => Err(JumpFault::Memory),
    }
}
