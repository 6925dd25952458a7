//! Columns that have the values of whole-number expressions.

ghost use Rattle.std.specs.Prelude.{◌≡◌, true, false, IfOk, IsOk, Err, [], ◌∷◌, length};
ghost use Rattle.typed_tree.specs.TypedView.{expression};
ghost use Rattle.cond_jumps.specs.ListView.{IsPlanAnswer};
ghost use Rattle.cond_jumps.specs.Conjunctions.{Just, list_fits};
ghost use Rattle.cond_jumps.specs.Comparisons.{compared, equal};
ghost use Rattle.cond_jumps.specs.Conjs.{conjunction, conjunctions};
ghost use Rattle.cond_jumps.specs.Forms.{column};
ghost use Rattle.cond_jumps.specs.Frames.{frame_environment};
ghost use Rattle.cond_jumps.specs.Paths.{linear};

use crate::comparisons::compared;
use crate::conj::Conj;
use crate::fault::JumpFault;
use crate::linear::linear;
use crate::refusal::Refusal;
use crate::sums::{Sum, later};
use letter_acts::Frame;
use lin_rows::RowKind;
use std::alloc::Global;
use typed_tree::TExpr;

/// The rows with which a column has the value of a whole-number expression over the frame. Their helpers are numbered from
/// `base` on.
pub fn equal_to(
    alloc: Global,
    frame: &Frame,
    number: u32,
    value: &TExpr,
    base: u32,
) -> Result<Conj, JumpFault>
    ensures list { IfOk result (λ c. conjunction c ∷ [] ≡ compared equal (column number) (linear (frame_environment frame.now.columns.items) false (expression value.now)) base) }
    ensures fits { IsOk result → list_fits (compared equal (column number) (linear (frame_environment frame.now.columns.items) false (expression value.now)) base) ≡ true }
    ensures too_wide { result ≡ Err JumpFault.TooWide → ⊥ }
    ensures too_big { result ≡ Err JumpFault.TooBig →
        list_fits (compared equal (column number) (linear (frame_environment frame.now.columns.items) false (expression value.now)) base) ≡ false }
{
    match equation(alloc, frame, number, value, base) {
        Ok(list) => Ok(only(list)),
        Err(Refusal::TooBig) => Err(JumpFault::TooBig),
        Err(Refusal::Memory) => Err(JumpFault::Memory),
    }
}

/// The conjunction of a list of one.
fn only(list: Vec<Conj>) -> Conj
    requires { length list.items ≡ 1 }
    ensures { list.items ≡ result ∷ [] }
{
    let mut list = list;
    match list.pop() {
        Some(conj) => conj,
        None => unreachable!(),
    }
}

/// The list of a column that has the value of a whole-number expression.
pub(crate) fn equation(
    alloc: Global,
    frame: &Frame,
    number: u32,
    value: &TExpr,
    base: u32,
) -> Result<Vec<Conj>, Refusal>
    ensures { IsPlanAnswer (Just (compared equal (column number) (linear (frame_environment frame.now.columns.items) false (expression value.now)))) base result }
{
    let a = Sum::column(alloc, number)?;
    let b = linear(alloc, frame, false, value, later(base, a.helpers)?)?;
    compared(alloc, RowKind::Eq, 0, a, b)
}
