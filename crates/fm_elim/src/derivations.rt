//! Rows derived from tightened input rows.

ghost use Rattle.std.specs.Prelude.{◌≡◌, ◌<◌, ◌^◌, OnOk, length};
ghost use Rattle.std.specs.List.{AllByRecursion};
ghost use Rattle.lin_rows.specs.Rows.{IsRow};
ghost use Rattle.lin_rows.specs.Sums.{CanScale};
ghost use Rattle.lin_rows.specs.Tightening.{tightened};
ghost use Rattle.fm_elim.specs.Answers.{Exactly};
ghost use Rattle.fm_elim.specs.Derivations.{input, inputs, nothing_derived, plus_times, PlusTimesFits};

use crate::types::{Derived, ElimFault};
use lin_rows::{Row, RowFault, RowKind, add_scaled, row, tighten};
use std::alloc::{AllocError, Global};

/// `a + m*b`, row and multipliers.
pub fn plus_times(alloc: Global, a: &Derived, m: i128, b: &Derived) -> Result<Derived, ElimFault>
    requires { CanScale m b.now.row.kind }
    ensures { Exactly result (λ r. r ≡ plus_times a.now m b.now) (PlusTimesFits a.now m b.now) }
{
    let row = add_scaled(alloc, a.row(), m, b.row())?;
    let by = add_scaled(alloc, a.by(), m, b.by())?;
    Ok(Derived::new(alloc, row, by)?)
}

/// `0 <= 0`, from no row.
pub fn nothing(alloc: Global) -> Result<Derived, ElimFault>
    ensures { Exactly result (λ r. r ≡ nothing_derived) (Unit {0}) }
{
    let inequality = row(alloc, &[], RowKind::Le, 0)?;
    let by = row(alloc, &[], RowKind::Eq, 0)?;
    Ok(Derived::new(alloc, inequality, by)?)
}

/// The row of that number, tightened, taken once.
fn input(alloc: Global, number: u32, given: &Row) -> Result<Derived, ElimFault>
    ensures value { Exactly result (λ r. r ≡ input number given.now) (Unit {0}) }
    ensures valid { OnOk result (IsRow (tightened given.now)) }
{
    let tight = tighten(alloc, given)?;
    let by = row(alloc, &[(number, 1)], RowKind::Eq, 0)?;
    Ok(Derived::new(alloc, tight, by)?)
}

/// The rows, tightened, with their numbers.
pub fn inputs(alloc: Global, rows: &[Row]) -> Result<Vec<Derived>, ElimFault>
    requires { length rows.now < 2 ^ 32 }
    ensures value { Exactly result (λ list. list.items ≡ inputs 0 rows.now) (Unit {0}) }
    ensures valid { OnOk result (AllByRecursion (λ r. IsRow (tightened r)) rows.now) }
{
    let mut list = Vec::new(alloc);
    let mut number = 0;
    for given in rows {
        list.push(input(alloc, number, given)?)?;
        number += 1;
    }
    Ok(list)
}
