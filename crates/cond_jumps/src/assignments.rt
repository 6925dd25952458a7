//! The list of a parallel assignment.

ghost use Rattle.std.specs.Prelude.{◌≡◌, ◌+◌, ◌≤◌, ◌<◌, ℕ, true, false, IfOk, IsOk, Err, length, map};
ghost use Rattle.typed_tree.specs.TypedView.{expression};
ghost use Rattle.cond_jumps.specs.Conjunctions.{Plan, Just, With, is_wide, all_fit};
ghost use Rattle.cond_jumps.specs.Comparisons.{truth_of_column};
ghost use Rattle.cond_jumps.specs.Conjs.{conjunctions};
ghost use Rattle.cond_jumps.specs.Frames.{frame_environment};
ghost use Rattle.cond_jumps.specs.ListView.{IsPlanList, IsPlanAnswer};
ghost use Rattle.cond_jumps.specs.Lists.{assign_plan, assign_width, assign_list};
ghost use Rattle.cond_jumps.specs.Paths.{is_truth, paths, linear, gets, assigns};
ghost use Rattle.cond_jumps.specs.Ties.WidthView.{IsWidthAnswer};

use crate::comparisons::{always, named};
use crate::conj::Conj;
use crate::equations::equation;
use crate::fault::JumpFault;
use crate::joining::with;
use crate::lists::{is_truth, lists};
use crate::refusal::Refusal;
use crate::sums::{joined, later};
use crate::widths::{width_then, width_with, widths};
use boogie_tree::Column;
use letter_acts::Frame;
use std::alloc::Global;
use typed_tree::TExpr;

/// The list of a column that gets the truth value of a condition.
fn truth_list(
    alloc: Global,
    frame: &Frame,
    value: &TExpr,
    target: u32,
    base: u32,
) -> Result<Vec<Conj>, Refusal>
    requires frame { length frame.now.columns.items ≤ base }
    requires target { target < base }
    ensures { IsPlanAnswer (gets true
        (paths (frame_environment frame.now.columns.items) false (expression value.now))
        (linear (frame_environment frame.now.columns.items) false (expression value.now)) target) base result }
{
    let made = lists(alloc, frame, false, value, true, true, base)?;
    let hit = with_truth(alloc, &made.wanted, target, true, base)?;
    let miss = with_truth(alloc, &made.other, target, false, base)?;
    Ok(joined(hit, miss)?)
}

/// A list, and in each of its conjunctions that the target has the truth value.
fn with_truth(
    alloc: Global,
    list: &Vec<Conj>,
    target: u32,
    want: bool,
    base: u32,
) -> Result<Vec<Conj>, Refusal>
    requires { target < base }
    ensures { (p : Plan) → IsPlanList p base list.now → IsPlanAnswer (With p (Just (truth_of_column target want))) base result }
{
    let truth = named(alloc, target, want)?;
    Ok(with(alloc, base, list.as_slice(), truth.as_slice())?)
}

/// The list of a column that gets the value of an expression.
fn gets_list(
    alloc: Global,
    frame: &Frame,
    value: &TExpr,
    target: u32,
    base: u32,
) -> Result<Vec<Conj>, Refusal>
    requires frame { length frame.now.columns.items ≤ base }
    requires target { target < base }
    ensures { IsPlanAnswer (gets (is_truth (frame_environment frame.now.columns.items) false (expression value.now))
        (paths (frame_environment frame.now.columns.items) false (expression value.now))
        (linear (frame_environment frame.now.columns.items) false (expression value.now)) target) base result }
{
    if is_truth(frame, false, value)? {
        truth_list(alloc, frame, value, target, base)
    } else {
        equation(alloc, frame, target, value, base)
    }
}

/// The list of columns from the first target on that get the values.
fn values_list(
    alloc: Global,
    frame: &Frame,
    values: &[TExpr],
    first: u32,
    base: u32,
) -> Result<Vec<Conj>, Refusal>
    requires frame { length frame.now.columns.items ≤ base }
    requires targets { first + length values.now ≤ base }
    ensures { IsPlanAnswer (assigns (frame_environment frame.now.columns.items) first (map expression values.now)) base result }
{
    let mut all = always(alloc)?;
    let mut place = values.len();
    while 0 < place {
        place -= 1;
        let one = gets_list(alloc, frame, &values[place], first + place as u32, base)?;
        all = with(alloc, base, one.as_slice(), all.as_slice())?;
    }
    Ok(all)
}

/// The members of the list of a column that gets the value of an expression.
fn gets_width(frame: &Frame, value: &TExpr) -> Result<u32, JumpFault>
    ensures { (n target : ℕ) → length frame.now.columns.items ≤ n → target < n →
        IsWidthAnswer (gets (is_truth (frame_environment frame.now.columns.items) false (expression value.now))
        (paths (frame_environment frame.now.columns.items) false (expression value.now))
        (linear (frame_environment frame.now.columns.items) false (expression value.now)) target) n result }
{
    if is_truth(frame, false, value)? {
        truth_width(frame, value)
    } else {
        Ok(1)
    }
}

/// The members of the list of a column that gets the truth value of a condition.
fn truth_width(frame: &Frame, value: &TExpr) -> Result<u32, JumpFault>
    ensures { (n target : ℕ) → length frame.now.columns.items ≤ n → target < n →
        IsWidthAnswer (gets true
        (paths (frame_environment frame.now.columns.items) false (expression value.now))
        (linear (frame_environment frame.now.columns.items) false (expression value.now)) target) n result }
{
    let members = widths(frame, false, value, true, true)?;
    let hit = width_with(members.wanted, 1)?;
    let miss = width_with(members.other, 1)?;
    width_then(hit, miss)
}

/// The members of the list of columns that get the values.
fn values_width(frame: &Frame, values: &[TExpr]) -> Result<u32, JumpFault>
    ensures { (n first : ℕ) → length frame.now.columns.items ≤ n → first + length values.now ≤ n →
        IsWidthAnswer (assigns (frame_environment frame.now.columns.items) first (map expression values.now)) n result }
{
    let mut all = 1;
    let mut place = values.len();
    while 0 < place {
        place -= 1;
        all = width_with(gets_width(frame, &values[place])?, all)?;
    }
    Ok(all)
}

/// The conjunctions of which one, and no more, is met exactly where the new values of the targets are those of a parallel
/// assignment. Their rows are over the frame, then the targets in order, and then the helpers.
pub fn assign(
    alloc: Global,
    frame: &Frame,
    targets: &[Column],
    values: &[TExpr],
) -> Result<Vec<Conj>, JumpFault>
    requires { length targets.now ≡ length values.now }
    ensures list { IfOk result (λ cs. conjunctions cs.items ≡ assign_list frame.now.columns.items (length targets.now) (map expression values.now)) }
    ensures narrow { IsOk result → is_wide (assign_plan frame.now.columns.items (map expression values.now)) (assign_width frame.now.columns.items (length targets.now)) ≡ false }
    ensures fits { IsOk result → all_fit (assign_plan frame.now.columns.items (map expression values.now)) (assign_width frame.now.columns.items (length targets.now)) ≡ true }

    // `TooWide` goes before `TooBig`.
    ensures too_wide { result ≡ Err JumpFault.TooWide →
        is_wide (assign_plan frame.now.columns.items (map expression values.now)) (assign_width frame.now.columns.items (length targets.now)) ≡ true }
    ensures too_big { result ≡ Err JumpFault.TooBig →
        (is_wide (assign_plan frame.now.columns.items (map expression values.now)) (assign_width frame.now.columns.items (length targets.now)) ≡ false)
        × (all_fit (assign_plan frame.now.columns.items (map expression values.now)) (assign_width frame.now.columns.items (length targets.now)) ≡ false) }
{
    let Ok(first) = u32::try_from(frame.columns.len()) else {
        return Err(JumpFault::Memory);
    };
    let Ok(count) = u32::try_from(targets.len()) else {
        return Err(JumpFault::Memory);
    };
    let base = later(first, count)?;
    let _members = values_width(frame, values)?;
    match values_list(alloc, frame, values, first, base) {
        Ok(conjs) => Ok(conjs),
        Err(Refusal::TooBig) => Err(JumpFault::TooBig),
        Err(Refusal::Memory) => Err(JumpFault::Memory),
    }
}
