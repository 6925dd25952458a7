//! Trials: whether rows are refuted by one leaf.

use crate::late_refutations::dropping::drop_met;
use crate::late_refutations::lines::{Lines, Step};
use crate::late_refutations::types::{Parts, Stop};
use lin_rows::Row;
use math_facts::{checked_product, greatest_divisor};
use simplex_rows::{Found, try_solve};
use std::alloc::{AllocError, Global};

/// How many pivots the simplex may make for each row.
const PIVOTS: u32 = 10;

/// Multipliers that are to refute the rows that are on, over the columns below a number; `None` where none are found. Equalities
/// that are solved for a column are substituted, rows that can always be met are dropped, and the rest is left to a simplex.
pub(crate) fn refuted(
    alloc: Global,
    rows: &[Row],
    on: &[bool],
    columns: u32,
) -> Result<Option<Parts>, AllocError> {
    match multipliers_of(alloc, rows, on, columns) {
        Ok(parts) => Ok(Some(parts)),
        Err(Stop::Nothing) => Ok(None),
        Err(Stop::Memory(e)) => Err(e),
    }
}

/// The multipliers.
fn multipliers_of(alloc: Global, rows: &[Row], on: &[bool], columns: u32) -> Result<Parts, Stop> {
    let mut multipliers = vec![in alloc; 0i128; rows.len()]?;
    set_multipliers(alloc, rows, on, columns, &mut multipliers)?;
    divide(&mut multipliers);
    parts_of(alloc, &multipliers)
}

/// Sets the multipliers of the rows.
fn set_multipliers(
    alloc: Global,
    rows: &[Row],
    on: &[bool],
    columns: u32,
    multipliers: &mut [i128],
) -> Result<(), Stop> {
    let mut lines = Lines::new(alloc, rows, columns)?;
    refute(alloc, &mut lines, on, columns, multipliers)
}

/// Sets the multipliers that refute the rows that are on.
fn refute(
    alloc: Global,
    lines: &mut Lines,
    on: &[bool],
    columns: u32,
    multipliers: &mut [i128],
) -> Result<(), Stop> {
    lines.add_all(on)?;
    match lines.substitute()? {
        Some(number) => {
            let sign = sign_of(lines, number);
            set_multiplier(multipliers, number, sign);
        }
        None => {
            drop_met(alloc, lines, columns)?;
            solve(alloc, lines, multipliers)?;
        }
    }
    carry_back(multipliers, &lines.steps)
}

/// The multiplier of a row that no point meets.
fn sign_of(lines: &Lines, number: u32) -> i128 {
    match lines.row(number as usize) {
        Some(row) if row.bound() > 0 => -1,
        _ => 1,
    }
}

/// Sets the multiplier of a row.
fn set_multiplier(multipliers: &mut [i128], number: u32, multiplier: i128) {
    if let Some(own) = multipliers.get_mut(number as usize) {
        *own = multiplier;
    }
}

/// Sets the multipliers that refute the rows that are left.
fn solve(alloc: Global, lines: &Lines, multipliers: &mut [i128]) -> Result<(), Stop> {
    let numbers = lines.rest(alloc)?;
    let rest = lines.copies(alloc, &numbers)?;
    solve_rest(alloc, &numbers, &rest, multipliers)
}

/// Sets the multipliers that refute the rows with these numbers.
fn solve_rest(
    alloc: Global,
    numbers: &[u32],
    rest: &[Row],
    multipliers: &mut [i128],
) -> Result<(), Stop> {
    let Ok(count) = u32::try_from(rest.len()) else {
        return Err(Stop::Nothing);
    };
    match try_solve(alloc, rest, 0, count.saturating_mul(PIVOTS))? {
        Some(Found::Refuted(parts)) => {
            set_refuting(numbers, &parts, multipliers);
            Ok(())
        }
        _ => Err(Stop::Nothing),
    }
}

/// Sets the multipliers of rows with these numbers.
fn set_refuting(numbers: &[u32], parts: &[(u32, i128)], multipliers: &mut [i128]) {
    for (place, multiplier) in parts {
        if let Some(number) = numbers.get(*place as usize) {
            set_multiplier(multipliers, *number, *multiplier);
        }
    }
}

/// From multipliers of the rows as they are after the steps to those of the rows before them.
fn carry_back(multipliers: &mut [i128], steps: &[Step]) -> Result<(), Stop> {
    for step in steps.iter().rev() {
        let Some(multiplier) = multipliers.get(step.to as usize) else {
            return Err(Stop::Nothing);
        };
        let Some(product) = checked_product(*multiplier, step.times) else {
            return Err(Stop::Nothing);
        };
        let Some(from) = multipliers.get_mut(step.from as usize) else {
            return Err(Stop::Nothing);
        };
        let Some(sum) = from.checked_add(product) else {
            return Err(Stop::Nothing);
        };
        *from = sum;
    }
    Ok(())
}

/// Divides the multipliers by their greatest common divisor.
fn divide(multipliers: &mut [i128]) {
    let mut divisor = 0;
    for multiplier in multipliers.iter() {
        if *multiplier != 0 {
            divisor = greatest_divisor(divisor, multiplier.unsigned_abs());
        }
        if divisor == 1 {
            return;
        }
    }
    let Ok(divisor) = i128::try_from(divisor) else {
        return;
    };
    if divisor > 1 {
        for multiplier in multipliers {
            *multiplier /= divisor;
        }
    }
}

/// The rows that are taken, with their multipliers.
fn parts_of(alloc: Global, multipliers: &[i128]) -> Result<Parts, Stop> {
    let mut parts = Vec::new(alloc);
    push_parts(&mut parts, multipliers)?;
    Ok(parts)
}

/// Adds the rows that are taken, with their multipliers, at the end.
fn push_parts(parts: &mut Parts, multipliers: &[i128]) -> Result<(), Stop> {
    for (place, multiplier) in multipliers.iter().enumerate() {
        if *multiplier != 0 {
            let Ok(number) = u32::try_from(place) else {
                return Err(Stop::Nothing);
            };
            parts.push((number, *multiplier))?;
        }
    }
    Ok(())
}
