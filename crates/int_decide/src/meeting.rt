//! Whether a rational point meets rows, over one denominator for all its values.

ghost use Rattle.std.specs.Prelude.{◌≡◌, ◌<ℤ◌, pos, IfOk, IfSome, IsTrue};
ghost use Rattle.std.specs.List.{AllByRecursion};
ghost use Rattle.lin_rows.specs.Points.{point_of};
ghost use Rattle.fm_elim.specs.Slices.{IsPoint};
ghost use Rattle.fm_elim.specs.Worth.{HoldsAt};
ghost use Rattle.int_decide.specs.Ties.Picking.{IsOver, AreOver};

use frac::{Frac, den, num};
use lin_rows::{Row, RowKind, sum_at};
use math_facts::{checked_product, greatest_divisor};
use std::alloc::{AllocError, Global};

/// Whether the point with these values, one for each column, is seen to meet the rows.
pub fn is_met(
    alloc: Global,
    rows: &[Row],
    columns: u32,
    values: &[Frac],
) -> Result<bool, AllocError>
    ensures { IfOk result (λ yes. IsTrue yes → IsPoint columns rows.now values.now) }
{
    if values.len() != columns as usize {
        return Ok(false);
    }
    let Some(denominator) = common_denominator(values) else {
        return Ok(false);
    };
    match numerators_over(alloc, values, denominator)? {
        Some(numerators) => Ok(all_hold(rows, denominator, &numerators)),
        None => Ok(false),
    }
}

/// A number that each denominator divides, where it fits.
fn common_denominator(values: &[Frac]) -> Option<i128>
    ensures { IfSome result (λ d. pos 0 <ℤ d) }
{
    let mut common: i128 = 1;
    for value in values {
        common = common_multiple(common, den(value))?;
    }
    Some(common)
}

/// The least common multiple of two positive numbers.
fn common_multiple(a: i128, b: i128) -> Option<i128>
    ensures { IfSome result (λ d. pos 0 <ℤ d) }
{
    if b == 1 && a > 0 {
        return Some(a);
    }
    let shared = i128::try_from(greatest_divisor(a.unsigned_abs(), b.unsigned_abs())).ok()?;
    let multiple = checked_product(a.checked_div(shared)?, b)?;
    if multiple > 0 { Some(multiple) } else { None }
}

/// The numerators of the values over that denominator.
fn numerators_over(
    alloc: Global,
    values: &[Frac],
    denominator: i128,
) -> Result<Option<Vec<i128>>, AllocError>
    ensures { IfOk result (λ o. IfSome o (λ ps. AreOver denominator values.now ps.items)) }
{
    let mut numerators = Vec::with_capacity(alloc, values.len())?;
    for value in values {
        let Some(numerator) = numerator_over(value, denominator) else {
            return Ok(None);
        };
        numerators.push(numerator)?;
    }
    Ok(Some(numerators))
}

/// The numerator of the value over that denominator, which is its own for most values.
fn numerator_over(value: &Frac, denominator: i128) -> Option<i128>
    ensures { IfSome result (λ p. IsOver denominator value.now p) }
{
    if den(value) == denominator {
        Some(num(value))
    } else {
        multiplied_numerator(value, denominator)
    }
}

/// The numerator of the value over that denominator, by a division.
fn multiplied_numerator(value: &Frac, denominator: i128) -> Option<i128>
    ensures { IfSome result (λ p. IsOver denominator value.now p) }
{
    let times = denominator.checked_div(den(value))?;
    let multiple = checked_product(times, den(value))?;
    let numerator = checked_product(num(value), times)?;
    if multiple == denominator {
        Some(numerator)
    } else {
        None
    }
}

/// Whether all rows hold at the point with these numerators.
fn all_hold(rows: &[Row], denominator: i128, numerators: &[i128]) -> bool
    ensures { IsTrue result → AllByRecursion (HoldsAt denominator (point_of numerators.now)) rows.now }
{
    for row in rows {
        if !holds_over(row, denominator, numerators) {
            return false;
        }
    }
    true
}

/// Whether the row holds at the point with these numerators.
fn holds_over(row: &Row, denominator: i128, numerators: &[i128]) -> bool
    ensures { IsTrue result → HoldsAt denominator (point_of numerators.now) row.now }
{
    let (Some(sum), Some(bound)) = (
        sum_at(row.terms(), numerators),
        checked_product(row.bound(), denominator),
    ) else {
        return false;
    };
    match row.kind() {
        RowKind::Le => sum <= bound,
        RowKind::Eq => sum == bound,
    }
}
