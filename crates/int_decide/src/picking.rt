//! An outcome that stands in for that of the elimination: proposed by a simplex, and shown column by column.

ghost use Rattle.std.specs.Prelude.{◌≡◌, [], ◌∷◌, ◌++◌, Ok, List, IfOk, IfSome, OnOk, IsTrue, map};
ghost use Rattle.frac.specs.Fractions.{IsFraction};
ghost use Rattle.lin_rows.specs.Rows.{LinearRow, RowsBelow};
ghost use Rattle.lin_rows.specs.Tightening.{tightened};
ghost use Rattle.farkas_check.specs.Refutes.{at_most, above};
ghost use Rattle.fm_elim.specs.Answers.{outcome_of};
ghost use Rattle.fm_elim.specs.Worth.{IsSolvable};
ghost use Rattle.int_decide.specs.Ties.Alike.{StandsIn};
ghost use Rattle.int_decide.specs.Ties.Picking.{Implies, fixed, IsNearest, IsApart, ArePicked};

use crate::meeting::is_met;
use crate::proposing::pivots_for;
use fm_elim::Elim;
use frac::{Frac, den, floor, num};
use lin_rows::{Col, Row, RowFault, RowKind, add_scaled, copied_rows, negate, row};
use simplex_rows::{Parts, Picked, try_pick};
use std::alloc::{AllocError, Global};

/// What is as good as the outcome of the elimination of the rows, which are tight, where it is proposed and shown: where no
/// rational point meets them, and else up to the first value that is not whole.
pub fn picked_outcome(alloc: Global, rows: &[Row], columns: u32) -> Result<Option<Elim>, AllocError>
    requires below { RowsBelow columns rows.now }
    requires tight { map tightened rows.now ≡ rows.now }
    ensures { IfOk result (λ o. IfSome o (λ e. StandsIn columns rows.now (outcome_of e))) }
{
    let Some(pivots) = pivots_for(rows, columns) else {
        return Ok(None);
    };
    match try_pick(alloc, rows, columns, pivots)? {
        None => Ok(None),
        Some(Picked::Refuted(parts)) => refuted_outcome(alloc, rows, columns, parts),
        Some(Picked::Point { values, shown }) => {
            point_outcome(alloc, rows, columns, values, &shown)
        }
    }
}

/// The multipliers, where they refute the rows, which are tight.
fn refuted_outcome(
    alloc: Global,
    rows: &[Row],
    columns: u32,
    parts: Parts,
) -> Result<Option<Elim>, AllocError>
    requires below { RowsBelow columns rows.now }
    requires tight { map tightened rows.now ≡ rows.now }
    ensures { IfOk result (λ o. IfSome o (λ e. StandsIn columns rows.now (outcome_of e))) }
{
    let held = copied_rows(alloc, rows)?;
    if refutes(alloc, &held, &parts)? {
        Ok(Some(Elim::Refuted(parts)))
    } else {
        Ok(None)
    }
}

/// The point, where it meets the rows, which are tight, and is shown to be picked up to the first value that is not whole.
fn point_outcome(
    alloc: Global,
    rows: &[Row],
    columns: u32,
    values: Vec<Frac>,
    shown: &[Parts],
) -> Result<Option<Elim>, AllocError>
    requires below { RowsBelow columns rows.now }
    requires tight { map tightened rows.now ≡ rows.now }
    ensures { IfOk result (λ o. IfSome o (λ e. StandsIn columns rows.now (outcome_of e))) }
{
    if !is_met(alloc, rows, columns, &values)? {
        return Ok(None);
    }
    let mut held = copied_rows(alloc, rows)?;
    if are_picked(alloc, &mut held, &values, shown)? {
        Ok(Some(Elim::Point(values)))
    } else {
        Ok(None)
    }
}

/// Whether each whole value up to the first that is not whole is shown to be nearest 0, and that one to have no whole number beside
/// it.
fn are_picked(
    alloc: Global,
    rows: &mut Vec<Row>,
    values: &[Frac],
    shown: &[Parts],
) -> Result<bool, AllocError>
    ensures { IfOk result (λ yes. IsTrue yes → ArePicked rows.old.items 0 values.now) }
{
    let mut column: Col = 0;
    let mut left = values;
    while let [value, rest @ ..] = left {
        if den(value) != 1 {
            return is_apart(alloc, rows, column, floor(value), shown);
        }
        if !take_nearest(alloc, rows, column, num(value), shown)? {
            return Ok(false);
        }
        let Some(next) = column.checked_add(1) else {
            return Ok(false);
        };
        column = next;
        left = rest;
    }
    Ok(true)
}

/// Whether the value of a column is shown to be nearest 0. It is fixed then.
fn take_nearest(
    alloc: Global,
    rows: &mut Vec<Row>,
    column: Col,
    value: i128,
    shown: &[Parts],
) -> Result<bool, AllocError>
    ensures { IfOk result (λ yes. IsTrue yes →
        IsNearest rows.old.items column value × (rows.new.items ≡ rows.old.items ++ fixed column value ∷ [])) }
{
    let Some(parts) = shown.get(column as usize) else {
        return Ok(false);
    };
    if value > 0 && !refutes_at_most(alloc, rows, column, value - 1, parts)? {
        return Ok(false);
    }
    if value < 0 && !refutes_above(alloc, rows, column, value, parts)? {
        return Ok(false);
    }
    match known(row(alloc, &[(column, 1)], RowKind::Eq, value))? {
        Some(row) => {
            rows.push(row)?;
            Ok(true)
        }
        None => Ok(false),
    }
}

/// Whether a column is shown to have no value up to k, and none from k + 1 on.
fn is_apart(
    alloc: Global,
    rows: &mut Vec<Row>,
    column: Col,
    k: i128,
    shown: &[Parts],
) -> Result<bool, AllocError>
    ensures { IfOk result (λ yes. IsTrue yes → IsApart rows.old.items column k) }
{
    let Some([below, above]) = shown.get(column as usize..) else {
        return Ok(false);
    };
    if refutes_at_most(alloc, rows, column, k, below)? {
        refutes_above(alloc, rows, column, k, above)
    } else {
        Ok(false)
    }
}

/// Whether the parts refute the rows with `column <= k` at their end.
fn refutes_at_most(
    alloc: Global,
    rows: &mut Vec<Row>,
    column: Col,
    k: i128,
    parts: &Parts,
) -> Result<bool, AllocError>
    ensures refuted { IfOk result (λ yes. IsTrue yes → IsSolvable (rows.old.items ++ at_most column k ∷ []) → ⊥) }
    ensures same { OnOk result (rows.new.items ≡ rows.old.items) }
{
    match known(row(alloc, &[(column, 1)], RowKind::Le, k))? {
        Some(last) => refutes_with(alloc, rows, last, parts),
        None => Ok(false),
    }
}

/// Whether the parts refute the rows with `-column <= -k-1` at their end.
fn refutes_above(
    alloc: Global,
    rows: &mut Vec<Row>,
    column: Col,
    k: i128,
    parts: &Parts,
) -> Result<bool, AllocError>
    ensures refuted { IfOk result (λ yes. IsTrue yes → IsSolvable (rows.old.items ++ above column k ∷ []) → ⊥) }
    ensures same { OnOk result (rows.new.items ≡ rows.old.items) }
{
    let Some(other) = known(row(alloc, &[(column, 1)], RowKind::Le, k))? else {
        return Ok(false);
    };
    match known(negate(alloc, &other))? {
        Some(last) => refutes_with(alloc, rows, last, parts),
        None => Ok(false),
    }
}

/// Whether the parts refute the rows with one more at their end.
fn refutes_with(
    alloc: Global,
    rows: &mut Vec<Row>,
    last: Row,
    parts: &Parts,
) -> Result<bool, AllocError>
    ensures refuted { IfOk result (λ yes. IsTrue yes → IsSolvable (rows.old.items ++ last ∷ []) → ⊥) }
    ensures same { OnOk result (rows.new.items ≡ rows.old.items) }
{
    rows.push(last)?;
    let yes = refutes(alloc, rows, parts)?;
    let _last = rows.pop();
    Ok(yes)
}

/// Whether the parts refute the rows: what they add up to holds nowhere (Farkas, 1902).
fn refutes(alloc: Global, rows: &[Row], parts: &[(u32, i128)]) -> Result<bool, AllocError>
    ensures { IfOk result (λ yes. IsTrue yes → IsSolvable rows.now → ⊥) }
{
    let Some(zero) = nothing(alloc)? else {
        return Ok(false);
    };
    let mut sum = zero;
    for (number, multiplier) in parts {
        let Some(part) = rows.get(*number as usize) else {
            return Ok(false);
        };
        let Some(next) = with_part(alloc, &sum, *multiplier, part)? else {
            return Ok(false);
        };
        sum = next;
    }
    Ok(is_false(&sum))
}

/// The row `0 = 0`.
fn nothing(alloc: Global) -> Result<Option<Row>, AllocError>
    ensures { IfOk result (λ o. IfSome o (λ r. (rows : List LinearRow) → Implies rows r)) }
{
    known(row(alloc, &[], RowKind::Eq, 0))
}

/// The sum with a part, where it may be taken so many times and the numbers fit.
fn with_part(
    alloc: Global,
    sum: &Row,
    multiplier: i128,
    part: &Row,
) -> Result<Option<Row>, AllocError>
    ensures { IfOk result (λ o. IfSome o (λ r.
        (rows : List LinearRow) → Implies rows sum.now → Implies rows part.now → Implies rows r)) }
{
    if multiplier < 0 && part.kind() == RowKind::Le {
        return Ok(None);
    }
    known(add_scaled(alloc, sum, multiplier, part))
}

/// Whether the row has no terms and does not hold.
fn is_false(row: &Row) -> bool
    ensures { IsTrue result → IsSolvable (row.now ∷ []) → ⊥ }
{
    if !row.terms().is_empty() {
        return false;
    }
    match row.kind() {
        RowKind::Le => row.bound() < 0,
        RowKind::Eq => row.bound() != 0,
    }
}

/// The row, where its numbers fit.
fn known(made: Result<Row, RowFault>) -> Result<Option<Row>, AllocError>
    ensures { IfOk result (λ o. IfSome o (λ r. made ≡ Ok r)) }
{
    match made {
        Ok(row) => Ok(Some(row)),
        Err(RowFault::Past) => Ok(None),
        Err(RowFault::Memory) => Err(AllocError),
    }
}
