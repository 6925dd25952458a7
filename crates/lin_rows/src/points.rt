ghost use Rattle.std.specs.Prelude.{◌≡◌, ◌↔◌, ℕ, ℤ, pos, ◌<◌, IsTrue, IfOk, OnOk, OnErr, SomeIff, length};
ghost use Rattle.std.specs.List.{AllByRecursion};
ghost use Rattle.math_facts.specs.Terms.{dot, IsBelow};
ghost use Rattle.lin_rows.specs.Rows.{Stands, Holds};
ghost use Rattle.lin_rows.specs.Points.{point_of, DotFits, HasSum, IsSeenToHold};

use crate::numbers::plus_times;
use crate::types::{Col, Past, Row, RowKind};

/// Whether the row holds at the point, which gives the column c the value at its place c. The products of the terms are
/// added up in order; `Past` comes exactly where a product or a running sum does not fit.
pub fn holds(row: &Row, point: &[i128]) -> Result<bool, Past>
    requires { IsBelow (length point.now) row.now.terms }
    ensures value { IfOk result (λ yes. IsTrue yes ↔ Holds (point_of point.now) row.now) }
    ensures fits { OnOk result (DotFits (point_of point.now) (pos 0) row.now.terms) }
    ensures past { OnErr result (DotFits (point_of point.now) (pos 0) row.now.terms → ⊥) }
{
    let Some(sum) = sum_at(row.terms(), point) else {
        return Err(Past);
    };
    Ok(stands(row.kind(), sum, row.bound()))
}

/// Whether all rows are seen to hold at the point, which gives the column c the value at its place c: false too where a column has
/// no value there, or a number does not fit.
pub fn all_hold(rows: &[Row], point: &[i128]) -> bool
    ensures holds { IsTrue result → AllByRecursion (Holds (point_of point.now)) rows.now }
    ensures seen { AllByRecursion (IsSeenToHold point.now) rows.now → IsTrue result }
{
    for row in rows {
        if !is_seen_to_hold(row, point) {
            return false;
        }
    }
    true
}

/// Whether the row is seen to hold at the point.
fn is_seen_to_hold(row: &Row, point: &[i128]) -> bool
    ensures { IsTrue result ↔ IsSeenToHold point.now row.now }
{
    match sum_at(row.terms(), point) {
        Some(sum) => stands(row.kind(), sum, row.bound()),
        None => false,
    }
}

/// The value of the terms at the point, which gives the column c the value at its place c. `None` where a column has no value there,
/// or a product or a running sum would not fit.
pub fn sum_at(terms: &[(Col, i128)], point: &[i128]) -> Option<i128>
    ensures { SomeIff result (HasSum point.now terms.now) (dot (point_of point.now) terms.now) }
{
    let mut sum = 0;
    for (column, coefficient) in terms {
        sum = plus_times(sum, *coefficient, value_at(point, *column)?)?;
    }
    Some(sum)
}

/// The value of a column at the point, where it has one.
fn value_at(point: &[i128], column: Col) -> Option<i128>
    ensures { SomeIff result (column < length point.now) (point_of point.now column) }
{
    if (column as usize) < point.len() {
        Some(point[column as usize])
    } else {
        None
    }
}

/// Whether a sum meets the bound of a row of that kind.
fn stands(kind: RowKind, sum: i128, bound: i128) -> bool
    ensures { IsTrue result ↔ Stands kind sum bound }
{
    match kind {
        RowKind::Le => sum <= bound,
        RowKind::Eq => sum == bound,
    }
}
