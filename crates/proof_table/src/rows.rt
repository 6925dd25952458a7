//! Texts, rows and numbers, printed. What cannot be printed is left out: the answers are compared.

use lin_rows::{Row, RowKind};

/// Prints a text.
pub(crate) fn put(rt: &HostRuntime, text: &str) {
    let _ = print!(rt; "{text}");
}

/// Prints a text that is a line.
pub(crate) fn put_line(rt: &HostRuntime, text: &str) {
    let _ = println!(rt; "{text}");
}

/// Prints a number between texts.
pub(crate) fn put_number(rt: &HostRuntime, before: &str, number: u64, behind: &str) {
    let _ = print!(rt; "{before}{number}{behind}");
}

/// Prints a value between texts.
pub(crate) fn put_value(rt: &HostRuntime, before: &str, value: i128, behind: &str) {
    let _ = print!(rt; "{before}{value}{behind}");
}

/// Prints that a question cannot be read, or that memory ran out.
pub(crate) fn put_nothing(rt: &HostRuntime) {
    put_line(rt, "no answer");
}

/// Prints numbers behind a word, and ends the line.
pub(crate) fn show_numbers(rt: &HostRuntime, word: &str, numbers: &[u32]) {
    put(rt, word);
    for number in numbers {
        put_number(rt, " ", u64::from(*number), "");
    }
    put(rt, "\n");
}

/// Prints a row's mark and bound.
pub(crate) fn show_bound(rt: &HostRuntime, row: &Row) {
    let mark = match row.kind() {
        RowKind::Le => "<= ",
        RowKind::Eq => "= ",
    };
    put_value(rt, mark, row.bound(), "");
}

/// Prints a row, and ends the line.
pub(crate) fn show_row(rt: &HostRuntime, row: &Row) {
    for (column, coefficient) in row.terms() {
        put_value(rt, "", *coefficient, "*");
        put_number(rt, "", u64::from(*column), " ");
    }
    show_bound(rt, row);
    put(rt, "\n");
}
