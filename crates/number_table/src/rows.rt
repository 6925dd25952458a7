//! The calls of `lin_rows`.

ghost use Rattle.std.specs.Prelude.{IsTrue};
ghost use Rattle.math_facts.specs.Terms.{IsBelow};

use crate::calls::Call;
use crate::reading::{number, system_of};
use crate::showing::{
    show_number, show_past, show_row, show_row_fault, show_system, show_text, show_truth,
};
use lin_rows::{
    Col, Row, RowFault, RowKind, System, add_scaled, holds, negate, plus_times, tighten,
};
use std::alloc::{AllocError, Global};

/// Shows the answer.
pub(crate) fn show_of(rt: &HostRuntime, call: &Call<'_>) {
    match call.function {
        "plus_times" => show_sum(rt, call),
        "System::copy" => show_copied(rt, call.first),
        _ => show_about(rt, call),
    }
}

/// What may be lent to other threads.
pub(crate) fn shared<T: Send + Sync>(_value: &T) {}

fn show_sum(rt: &HostRuntime, call: &Call<'_>) {
    match plus_times(number(call.first), number(call.second), number(call.third)) {
        Some(sum) => show_number(rt, sum),
        None => show_past(rt),
    }
}

fn copied(alloc: Global, text: &str) -> Result<System, RowFault> {
    let system = system_of(alloc, text)?;
    Ok(system.copy()?)
}

fn show_copied(rt: &HostRuntime, text: &str) {
    match copied(rt.alloc(), text) {
        Ok(copy) => {
            shared(&copy);
            show_system(rt, &copy);
        }
        Err(fault) => show_row_fault(rt, &fault),
    }
}

/// The row of a text.
fn row_of(alloc: Global, text: &str) -> Result<Row, RowFault> {
    let mut system = system_of(alloc, text)?;
    system.rows.pop().ok_or(RowFault::Past)
}

/// Shows the answer about a row.
fn show_about(rt: &HostRuntime, call: &Call<'_>) {
    match row_of(rt.alloc(), call.first) {
        Ok(row) => show_over(rt, &row, call),
        Err(fault) => show_row_fault(rt, &fault),
    }
}

fn show_over(rt: &HostRuntime, row: &Row, call: &Call<'_>) {
    match call.function {
        "row" => show_row(rt, row),
        "holds" => show_held(rt, row, call.second),
        _ => show_made(rt, &made_row(rt.alloc(), row, call)),
    }
}

fn show_made(rt: &HostRuntime, made: &Result<Row, RowFault>) {
    match made {
        Ok(row) => {
            shared(row);
            show_row(rt, row);
        }
        Err(fault) => show_row_fault(rt, fault),
    }
}

fn made_row(alloc: Global, row: &Row, call: &Call<'_>) -> Result<Row, RowFault> {
    match call.function {
        "Row::copy" => Ok(row.copy()?),
        "tighten" => Ok(tighten(alloc, row)?),
        "negate" => negated(alloc, row),
        _ => added(alloc, row, call),
    }
}

/// The negation of an inequality.
fn negated(alloc: Global, row: &Row) -> Result<Row, RowFault> {
    if row.kind() != RowKind::Le {
        return Err(RowFault::Past);
    }
    negate(alloc, row)
}

/// The row, and so often another one.
fn added(alloc: Global, row: &Row, call: &Call<'_>) -> Result<Row, RowFault> {
    let other = row_of(alloc, call.third)?;
    sum_of(alloc, row, number(call.second), &other)
}

/// `a + m*b`, where the kind of b allows the factor.
fn sum_of(alloc: Global, a: &Row, m: i128, b: &Row) -> Result<Row, RowFault> {
    if m < 0 && b.kind() == RowKind::Le {
        return Err(RowFault::Past);
    }
    add_scaled(alloc, a, m, b)
}

/// Whether the terms are over so many columns.
pub(crate) fn are_below(terms: &[(Col, i128)], columns: usize) -> bool
    ensures { IsTrue result → IsBelow columns terms.now }
{
    for term in terms {
        if term.0 as usize >= columns {
            return false;
        }
    }
    true
}

/// Whether a row holds at a point that has a value for each column of it.
fn show_holds(rt: &HostRuntime, row: &Row, point: &[i128]) {
    if !are_below(row.terms(), point.len()) {
        return show_past(rt);
    }
    match holds(row, point) {
        Ok(truth) => show_truth(rt, truth),
        Err(_) => show_past(rt),
    }
}

/// The same of the point of a text, which has a value for each column from 0 on.
fn show_held(rt: &HostRuntime, row: &Row, text: &str) {
    let point: Result<Vec<i128>, AllocError> = text
        .split_whitespace()
        .map(number)
        .collect(rt.alloc());
    match &point {
        Ok(point) => show_holds(rt, row, point),
        Err(AllocError) => show_text(rt, "no memory"),
    }
}
