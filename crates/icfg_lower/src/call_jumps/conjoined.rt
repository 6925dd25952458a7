//! The lists of several conditions together.

ghost use Rattle.std.specs.Prelude.{◌≡◌, ◌*◌, ◌≤◌, true, false, IfOk, IsOk, Err, [], ◌<◌, length, map};
ghost use Rattle.typed_tree.specs.TypedView.{expression};
ghost use Rattle.cond_jumps.specs.Conjunctions.{is_wide, all_fit, listed_plan};
ghost use Rattle.cond_jumps.specs.Conjs.{conjunction, conjunctions};
ghost use Rattle.cond_jumps.specs.ListView.{IsPlanList};
ghost use Rattle.cond_jumps.specs.Frames.{frame_environment};
ghost use Rattle.lowered_graph.specs.LoweredSteps.Edges.{all_hold};
ghost use Rattle.icfg_lower.specs.CallJumps.Ties.Numbered.{numbered_columns};

use crate::call_jumps::columns::numbered_frame;
use cond_jumps::{Conj, JumpFault, each_with, members, paths};
use letter_acts::Frame;
use std::alloc::Global;
use typed_tree::TExpr;

/// The members of two lists together, unless they are more than 4,096.
fn both_members(first: u32, second: u32) -> Result<u32, JumpFault>
    ensures count { IfOk result (λ n. (n ≡ first * second) × (n ≤ 4096)) }
    ensures too_wide { result ≡ Err JumpFault.TooWide → 4096 < first * second }
    ensures too_big { result ≡ Err JumpFault.TooBig → ⊥ }
{
    match first.checked_mul(second) {
        Some(members) if members <= 4096 => Ok(members),
        _ => Err(JumpFault::TooWide),
    }
}

/// How many members the list of all conditions has.
fn all_members(frame: &Frame, conds: &[TExpr]) -> Result<u32, JumpFault>
    ensures narrow { IsOk result → is_wide (all_hold (frame_environment frame.now.columns.items) (map expression conds.now)) (length frame.now.columns.items) ≡ false }
    ensures too_wide { result ≡ Err JumpFault.TooWide → is_wide (all_hold (frame_environment frame.now.columns.items) (map expression conds.now)) (length frame.now.columns.items) ≡ true }
    ensures too_big { result ≡ Err JumpFault.TooBig → ⊥ }
{
    let mut all = 1;
    let mut place = conds.len();
    while 0 < place {
        place -= 1;
        let one = members(frame, &conds[place], true)?;
        all = both_members(one, all)?;
    }
    Ok(all)
}

/// The list of all conditions.
fn all_lists(
    alloc: Global,
    frame: &Frame,
    conds: &[TExpr],
    base: u32,
) -> Result<Vec<Conj>, JumpFault>
    requires { base ≡ length frame.now.columns.items }
    ensures list { IfOk result (λ cs. IsPlanList (all_hold (frame_environment frame.now.columns.items) (map expression conds.now)) base cs) }
    ensures too_wide { result ≡ Err JumpFault.TooWide → is_wide (all_hold (frame_environment frame.now.columns.items) (map expression conds.now)) base ≡ true }
    ensures too_big { result ≡ Err JumpFault.TooBig → all_fit (all_hold (frame_environment frame.now.columns.items) (map expression conds.now)) base ≡ false }
{
    let mut all = vec![in alloc; no_rows(alloc)]?;
    let mut place = conds.len();
    while 0 < place {
        place -= 1;
        let one = paths(alloc, frame, &conds[place], true)?;
        all = each_with(alloc, base, one, all)?;
    }
    Ok(all)
}

/// The conjunction without rows.
fn no_rows(alloc: Global) -> Conj
    ensures { conjunction result ≡ record { rows = []; helpers = 0 } }
{
    Conj {
        rows: Vec::new(alloc),
        helpers: 0,
    }
}

/// The conjunctions of which a state of the frame meets one, and no more, exactly where all of the conditions hold.
fn all_paths(alloc: Global, frame: &Frame, conds: &[TExpr]) -> Result<Vec<Conj>, JumpFault>
    ensures list { IfOk result (λ cs. conjunctions cs.items ≡ listed_plan (all_hold (frame_environment frame.now.columns.items) (map expression conds.now)) (length frame.now.columns.items)) }
    ensures narrow { IsOk result → is_wide (all_hold (frame_environment frame.now.columns.items) (map expression conds.now)) (length frame.now.columns.items) ≡ false }
    ensures fits { IsOk result → all_fit (all_hold (frame_environment frame.now.columns.items) (map expression conds.now)) (length frame.now.columns.items) ≡ true }

    // `TooWide` goes before `TooBig`.
    ensures too_wide { result ≡ Err JumpFault.TooWide → is_wide (all_hold (frame_environment frame.now.columns.items) (map expression conds.now)) (length frame.now.columns.items) ≡ true }
    ensures too_big { result ≡ Err JumpFault.TooBig →
        (is_wide (all_hold (frame_environment frame.now.columns.items) (map expression conds.now)) (length frame.now.columns.items) ≡ false)
        × (all_fit (all_hold (frame_environment frame.now.columns.items) (map expression conds.now)) (length frame.now.columns.items) ≡ false) }
{
    let Ok(base) = u32::try_from(frame.columns.len()) else {
        return Err(JumpFault::Memory);
    };
    let _members = all_members(frame, conds)?;
    all_lists(alloc, frame, conds, base)
}

/// The conjunctions of all conditions over so many numbered columns.
pub fn numbered_paths(alloc: Global, width: u32, conds: &[TExpr]) -> Result<Vec<Conj>, JumpFault>
    ensures list { IfOk result (λ cs. conjunctions cs.items ≡ listed_plan (all_hold (frame_environment (numbered_columns width)) (map expression conds.now)) width) }
    ensures narrow { IsOk result → is_wide (all_hold (frame_environment (numbered_columns width)) (map expression conds.now)) width ≡ false }
    ensures fits { IsOk result → all_fit (all_hold (frame_environment (numbered_columns width)) (map expression conds.now)) width ≡ true }
    ensures too_wide { result ≡ Err JumpFault.TooWide → is_wide (all_hold (frame_environment (numbered_columns width)) (map expression conds.now)) width ≡ true }
    ensures too_big { result ≡ Err JumpFault.TooBig →
        (is_wide (all_hold (frame_environment (numbered_columns width)) (map expression conds.now)) width ≡ false)
        × (all_fit (all_hold (frame_environment (numbered_columns width)) (map expression conds.now)) width ≡ false) }
{
    let frame = numbered_frame(alloc, width)?;
    all_paths(alloc, &frame, conds)
}
