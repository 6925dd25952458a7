//! Acts of letters as texts, written as they are printed.

use letter_acts::Act;
use lin_rows::{Col, Row, RowFault, RowKind, row};
use std::alloc::{AllocError, Global};
use table_reading::{keep, number, numbers, parted, three, two, value};

/// The column and the coefficient of a term.
fn term(text: &str) -> (Col, i128) {
    let (coefficient, column) = parted(text, "*");
    (number(column), value(coefficient))
}

fn terms(alloc: Global, text: &str) -> Result<Vec<(Col, i128)>, AllocError> {
    text.split_whitespace().map(term).collect(alloc)
}

/// The equation of a text.
fn equation(alloc: Global, text: &str) -> Result<Row, RowFault> {
    let (sum, bound) = parted(text, " = ");
    let terms = terms(alloc, sum)?;
    row(alloc, &terms, RowKind::Eq, value(bound))
}

fn push_rows(alloc: Global, rows: &mut Vec<Row>, text: &str) -> Result<(), RowFault> {
    for part in text.split(';') {
        let part = part.trim();
        if !part.is_empty() {
            keep(rows, equation(alloc, part)?)?;
        }
    }
    Ok(())
}

/// The equations of a text, each with a semicolon behind it.
fn equations(alloc: Global, text: &str) -> Result<Vec<Row>, RowFault> {
    let mut rows = Vec::new(alloc);
    push_rows(alloc, &mut rows, text)?;
    Ok(rows)
}

/// A step inside a procedure with these rows, which a text tells up to its colon.
fn read_inside(alloc: Global, head: &str, rows: Vec<Row>) -> Result<Act, RowFault> {
    let (parts, written) = parted(head, " writes");
    let (proc, helpers) = two(parts);
    match numbers(alloc, written) {
        Ok(written) => Ok(Act::Inside {
            proc,
            written,
            helpers,
            rows,
            coarse: false,
        }),
        Err(_) => Err(RowFault::Memory),
    }
}

/// A call with these rows.
fn read_call(head: &str, rows: Vec<Row>) -> Act {
    let (caller, callee, helpers) = three(head.trim_start_matches("call "));
    Act::Call {
        caller,
        callee,
        helpers,
        rows,
        coarse: false,
    }
}

fn read_back(alloc: Global, text: &str) -> Result<Act, RowFault> {
    let (call, targets) = parted(text, " gives");
    Ok(Act::Back {
        call: number(call),
        targets: numbers(alloc, targets)?,
    })
}

/// The act of a text that has rows.
fn read_ruled(alloc: Global, text: &str) -> Result<Act, RowFault> {
    let (head, listed) = parted(text, ":");
    let rows = equations(alloc, listed)?;
    match head.strip_prefix("in ") {
        Some(head) => read_inside(alloc, head, rows),
        None => Ok(read_call(head, rows)),
    }
}

/// The act of a text.
pub(crate) fn read_act(alloc: Global, text: &str) -> Result<Act, RowFault> {
    match text.strip_prefix("back ") {
        Some(text) => read_back(alloc, text),
        None => read_ruled(alloc, text),
    }
}
