ghost use Rattle.std.specs.Prelude.{◌≡◌, ◌↔◌, ℕ, ℤ, pos, ◌<ℤ◌, unsigned_abs, IsTrue, IfOk, OnOk};
ghost use Rattle.std.specs.List.{AllByRecursion};
ghost use Rattle.lin_rows.specs.Rows.{IsCoefficient, IsRow, Holds};
ghost use Rattle.lin_rows.specs.Tightening.{all_divisible, content, divided, tightened};

use crate::types::{Col, Row, RowKind, Terms, copied_terms};
use math_facts::greatest_divisor;
use std::alloc::{AllocError, Global};

/// The row divided by the greatest common divisor of its coefficients, its bound rounded down. An equality whose
/// bound is not divisible becomes `0 <= -1`. It holds at the same whole points (Gomory, 1958).
pub fn tighten(alloc: Global, row: &Row) -> Result<Row, AllocError>
    ensures value { IfOk result (λ r. r ≡ tightened row.now) }
    ensures valid { IfOk result IsRow }
    ensures same_points { OnOk result ((point : ℕ → ℤ) → Holds point row.now ↔ Holds point (tightened row.now)) }
{
    let divisor = content(row.terms());
    if divisor <= 1 {
        let terms = copied_terms(alloc, row.terms())?;
        return Ok(Row::new(terms, row.kind(), row.bound()));
    }
    if row.kind() == RowKind::Eq && row.bound().unsigned_abs() % divisor != 0 {
        return Ok(Row::new(Terms::new(alloc), RowKind::Le, -1));
    }
    let divisor = divisor as i128;
    let terms = divided(alloc, row.terms(), divisor)?;
    Ok(Row::new(terms, row.kind(), row.bound().div_euclid(divisor)))
}

/// Whether the coefficients of a row are seen to have no common divisor, so that the row is its own tightened row.
pub fn is_tight(row: &Row) -> bool
    ensures same { IsTrue result → tightened row.now ≡ row.now }
    ensures valid { IsRow row.now }
{
    content(row.terms()) <= 1
}

/// The greatest number that divides each coefficient; 0 where there is no term.
fn content(terms: &[(Col, i128)]) -> u128
    requires { AllByRecursion IsCoefficient terms.now }
    ensures { result ≡ content terms.now }
{
    let mut divisor = 0;
    for term in terms {
        divisor = greatest_divisor(divisor, term.1.unsigned_abs());
        if divisor == 1 {
            break;
        }
    }
    divisor
}

/// Each coefficient divided.
fn divided(alloc: Global, terms: &[(Col, i128)], divisor: i128) -> Result<Terms, AllocError>
    requires positive { pos 0 <ℤ divisor }
    requires divides { IsTrue (all_divisible (unsigned_abs divisor) terms.now) }
    ensures { IfOk result (λ quotients. quotients.items ≡ divided (unsigned_abs divisor) terms.now) }
{
    let mut quotients = Terms::new(alloc);
    for (column, coefficient) in terms {
        quotients.push((*column, *coefficient / divisor))?;
    }
    Ok(quotients)
}
