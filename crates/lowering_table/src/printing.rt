//! Pieces of printed lines. What cannot be printed is left out: the answers are compared.

pub(crate) fn show_text(rt: &HostRuntime, text: &str) {
    let _ = print!(rt; "{text}");
}

/// A number behind a text.
pub(crate) fn show_number(rt: &HostRuntime, before: &str, number: u32) {
    let _ = print!(rt; "{before}{number}");
}

/// Numbers with a blank before each.
pub(crate) fn show_numbers(rt: &HostRuntime, numbers: &[u32]) {
    for number in numbers {
        show_number(rt, " ", *number);
    }
}

/// A value of a row or a point behind a text.
pub(crate) fn show_value(rt: &HostRuntime, before: &str, value: i128) {
    let _ = print!(rt; "{before}{value}");
}

/// How many there are behind a text.
pub(crate) fn show_count(rt: &HostRuntime, before: &str, count: usize) {
    let _ = print!(rt; "{before}{count}");
}

/// A text that is a line.
pub(crate) fn show_line(rt: &HostRuntime, text: &str) {
    let _ = println!(rt; "{text}");
}

pub(crate) fn end_line(rt: &HostRuntime) {
    show_text(rt, "\n");
}

/// What is answered where memory ran out.
pub(crate) fn show_no_memory(rt: &HostRuntime) {
    show_line(rt, "no memory");
}
