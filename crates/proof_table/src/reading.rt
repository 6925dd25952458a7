//! Rows and their parts, as texts.

use lin_rows::{Row, RowFault, RowKind, row};
use std::alloc::{AllocError, Global};
use table_reading::{keep, number, parted, value};

/// A column and its coefficient, `-1*4`, or a row and its multiplier, `4:-1`.
pub(crate) fn pair(text: &str) -> (u32, i128) {
    if let Some((coefficient, column)) = text.split_once('*') {
        (number(column), value(coefficient))
    } else {
        let (row, multiplier) = parted(text, ":");
        (number(row), value(multiplier))
    }
}

/// Pairs with blanks between them.
pub(crate) fn pairs(alloc: Global, text: &str) -> Result<Vec<(u32, i128)>, AllocError> {
    text.split_whitespace().map(pair).collect(alloc)
}

/// The row of these terms, with a bound behind a blank.
fn row_with(alloc: Global, terms: &str, kind: RowKind, bound: &str) -> Result<Row, RowFault> {
    let terms = pairs(alloc, terms)?;
    row(alloc, &terms, kind, value(bound.trim()))
}

/// A row, `1*3 -1*4 <= 5` or `1*3 = 5`.
pub(crate) fn row_of(alloc: Global, text: &str) -> Result<Row, RowFault> {
    if let Some((terms, bound)) = text.split_once("<=") {
        row_with(alloc, terms, RowKind::Le, bound)
    } else {
        let (terms, bound) = parted(text, "=");
        row_with(alloc, terms, RowKind::Eq, bound)
    }
}

/// Puts the rows of a text, which have semicolons between them, behind rows.
pub(crate) fn push_rows(alloc: Global, rows: &mut Vec<Row>, text: &str) -> Result<(), RowFault> {
    for said in text.split(';') {
        if !said.is_empty() {
            keep(rows, row_of(alloc, said)?)?;
        }
    }
    Ok(())
}
