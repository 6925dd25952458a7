ghost use Rattle.std.specs.Prelude.{◌≡◌, ◌↔◌, ℕ, ℤ, IfOk, IsTrue, MatchBool, MatchOption, map};
ghost use Rattle.math_facts.specs.Fits.{Fits};
ghost use Rattle.lin_rows.specs.Combinations.{Multiplies, Contradicts};
ghost use Rattle.lin_rows.specs.Tightening.{tightened};
ghost use Rattle.farkas_check.specs.Ties.Leaves.{MayFollow, CanAdd, AddsPart, AddsRow, RowFits};

use crate::sums::Sum;
use lin_rows::{Row, RowKind, tighten};
use std::alloc::{AllocError, Global};

/// Whether the rows, added up with the multipliers of the parts, say `0 <= c` with `c < 0`, and each multiplier, each
/// product and each running sum fits.
pub(crate) fn contradicts(
    alloc: Global,
    rows: &[Row],
    parts: &[(u32, i128)],
) -> Result<bool, AllocError>
    ensures { IfOk result (λ yes. IsTrue yes ↔ Contradicts rows.now parts.now) }
{
    let mut sum = Sum::new(alloc);
    let mut next = 0;
    for (number, multiplier) in parts {
        let Some(after) = add_part(rows, next, &mut sum, *number, *multiplier)? else {
            return Ok(false);
        };
        next = after;
    }
    Ok(sum.is_contradiction())
}

/// The same of rows that are still to be tightened. Those that no part names stay as they are.
pub(crate) fn contradicts_tightened(
    alloc: Global,
    rows: &[Row],
    parts: &[(u32, i128)],
) -> Result<bool, AllocError>
    ensures { IfOk result (λ yes. IsTrue yes ↔ Contradicts (map tightened rows.now) parts.now) }
{
    let mut sum = Sum::new(alloc);
    let mut next = 0;
    for (number, multiplier) in parts {
        let Some(after) = add_tightened_part(alloc, rows, next, &mut sum, *number, *multiplier)?
        else {
            return Ok(false);
        };
        next = after;
    }
    Ok(sum.is_contradiction())
}

/// Adds one more part to the sum, and says the least number that the row of a later part may have. `None` where the part
/// cannot follow, or a number would not fit.
fn add_part(
    rows: &[Row],
    next: usize,
    sum: &mut Sum,
    number: u32,
    multiplier: i128,
) -> Result<Option<usize>, AllocError>
    ensures { IfOk result (λ o. MatchOption o
        (CanAdd rows.now next sum.old (number, multiplier) → ⊥)
        (λ after. AddsPart rows.now next sum.old (number, multiplier) after sum.new)) }
{
    let place = number as usize;
    if !may_follow(rows, next, place, multiplier) {
        return Ok(None);
    }
    if !sum.add(multiplier, &rows[place])? {
        return Ok(None);
    }
    Ok(Some(place + 1))
}

/// The same of rows that are still to be tightened.
fn add_tightened_part(
    alloc: Global,
    rows: &[Row],
    next: usize,
    sum: &mut Sum,
    number: u32,
    multiplier: i128,
) -> Result<Option<usize>, AllocError>
    ensures { IfOk result (λ o. MatchOption o
        (CanAdd (map tightened rows.now) next sum.old (number, multiplier) → ⊥)
        (λ after. AddsPart (map tightened rows.now) next sum.old (number, multiplier) after sum.new)) }
{
    let place = number as usize;
    if place < next || place >= rows.len() {
        return Ok(None);
    }
    let row = tighten(alloc, &rows[place])?;
    if add_row(sum, &row, multiplier)? {
        Ok(Some(place + 1))
    } else {
        Ok(None)
    }
}

/// Adds so many times a row, where it may be taken so many times and the numbers fit.
fn add_row(sum: &mut Sum, row: &Row, multiplier: i128) -> Result<bool, AllocError>
    ensures { IfOk result (λ yes. MatchBool yes
        (Fits multiplier × Multiplies multiplier row.now.kind × AddsRow sum.old multiplier row.now sum.new)
        (Fits multiplier → Multiplies multiplier row.now.kind → RowFits sum.old multiplier row.now → ⊥)) }
{
    if multiplies(multiplier, row.kind()) {
        sum.add(multiplier, row)
    } else {
        Ok(false)
    }
}

/// Whether a part with this row and this multiplier can follow.
fn may_follow(rows: &[Row], next: usize, place: usize, multiplier: i128) -> bool
    ensures { IsTrue result ↔ MayFollow rows.now next (place, multiplier) }
{
    place >= next && place < rows.len() && multiplies(multiplier, rows[place].kind())
}

/// Whether the multiplier fits, and a row of that kind may be taken so many times.
fn multiplies(multiplier: i128, kind: RowKind) -> bool
    ensures { IsTrue result ↔ (Fits multiplier × Multiplies multiplier kind) }
{
    match kind {
        RowKind::Le => multiplier > 0,
        RowKind::Eq => multiplier != 0 && multiplier != i128::MIN,
    }
}
