//! Answers of calls, written as arguments are.

use farkas_check::Node;
use frac::{Frac, den, num};
use lin_rows::{Row, RowFault, RowKind, System};

pub(crate) fn show_text(rt: &HostRuntime, text: &str) {
    let _ = print!(rt; "{text}");
}

/// A place, or a count, between texts.
pub(crate) fn show_place(rt: &HostRuntime, before: &str, place: u32, behind: &str) {
    let _ = print!(rt; "{before}{place}{behind}");
}

/// What a number that would not fit answers.
pub(crate) fn show_past(rt: &HostRuntime) {
    show_text(rt, "past");
}

/// Why there is no row.
pub(crate) fn show_row_fault(rt: &HostRuntime, fault: &RowFault) {
    let name = match fault {
        RowFault::Past => "past",
        RowFault::Memory => "no memory",
    };
    show_text(rt, name);
}

/// Writes a number; a large one that is near a power of two as `(2^k-n)`.
pub(crate) fn show_number(rt: &HostRuntime, number: i128) {
    let magnitude = number.unsigned_abs();
    let power = magnitude.next_power_of_two();
    let below = power - magnitude;
    if magnitude < 1 << 32 || below > 9 {
        let _ = print!(rt; "{number}");
    } else {
        show_power(rt, number < 0, power.ilog2(), below as u32);
    }
}

/// Writes a power of two with this sign, less so much.
fn show_power(rt: &HostRuntime, is_negative: bool, exponent: u32, below: u32) {
    match (is_negative, below) {
        (false, 0) => show_place(rt, "2^", exponent, ""),
        (true, 0) => show_place(rt, "-2^", exponent, ""),
        (false, _) => show_near(rt, "(2^", exponent, "-", below),
        (true, _) => show_near(rt, "(-2^", exponent, "+", below),
    }
}

/// Writes a power of two and what is added to it.
fn show_near(rt: &HostRuntime, before: &str, exponent: u32, sign: &str, below: u32) {
    show_place(rt, before, exponent, sign);
    show_place(rt, "", below, ")");
}

/// Writes a fraction, without a denominator of 1.
pub(crate) fn show_fraction(rt: &HostRuntime, value: &Frac) {
    show_number(rt, num(value));
    if den(value) != 1 {
        show_text(rt, "/");
        show_number(rt, den(value));
    }
}

/// Writes a point with whole values.
pub(crate) fn show_point(rt: &HostRuntime, values: &[i128]) {
    show_text(rt, "point");
    for value in values {
        show_text(rt, " ");
        show_number(rt, *value);
    }
}

/// Writes a point.
pub(crate) fn show_fractions(rt: &HostRuntime, values: &[Frac]) {
    show_text(rt, "point");
    for value in values {
        show_text(rt, " ");
        show_fraction(rt, value);
    }
}

/// Writes the terms of a row.
fn show_terms(rt: &HostRuntime, terms: &[(u32, i128)]) {
    if terms.is_empty() {
        show_text(rt, "0 ");
    }
    for (column, coefficient) in terms {
        show_number(rt, *coefficient);
        show_place(rt, "x", *column, " ");
    }
}

/// Writes a row.
pub(crate) fn show_row(rt: &HostRuntime, row: &Row) {
    show_terms(rt, row.terms());
    let kind = match row.kind() {
        RowKind::Le => "<= ",
        RowKind::Eq => "= ",
    };
    show_text(rt, kind);
    show_number(rt, row.bound());
}

/// Writes rows.
pub(crate) fn show_rows(rt: &HostRuntime, rows: &[Row]) {
    for (place, row) in rows.iter().enumerate() {
        show_text(rt, if place > 0 { ", " } else { "" });
        show_row(rt, row);
    }
}

/// Writes a system.
#[cycle(showing)]
pub(crate) fn show_system(rt: &HostRuntime, system: &System) {
    show_rows(rt, &system.rows);
    for group in &system.groups {
        show_text(rt, " {");
        show_members(rt, group);
        show_text(rt, " }");
    }
}

/// Writes the members of a group.
#[cycle(showing)]
fn show_members(rt: &HostRuntime, members: &Vec<System>) {
    for member in members {
        show_text(rt, " ( ");
        show_system(rt, member);
        show_text(rt, " )");
    }
}

/// Writes a leaf.
pub(crate) fn show_leaf(rt: &HostRuntime, parts: &[(u32, i128)]) {
    show_text(rt, "L");
    for (place, multiplier) in parts {
        show_place(rt, " ", *place, ":");
        show_number(rt, *multiplier);
    }
}

fn show_cut(rt: &HostRuntime, column: u32, k: i128) {
    show_place(rt, "x", column, "<=");
    show_number(rt, k);
}

fn show_node(rt: &HostRuntime, node: &Node) {
    match node {
        Node::Leaf(parts) => show_leaf(rt, parts),
        Node::Cut { col, k } => show_cut(rt, *col, *k),
        Node::Cases(members) => show_place(rt, "A", *members, ""),
    }
}

/// Writes the nodes of a refutation.
pub(crate) fn show_nodes(rt: &HostRuntime, nodes: &[Node]) {
    for (place, node) in nodes.iter().enumerate() {
        show_text(rt, if place > 0 { " " } else { "" });
        show_node(rt, node);
    }
}

/// Writes whether something is so.
pub(crate) fn show_truth(rt: &HostRuntime, truth: bool) {
    show_text(rt, if truth { "true" } else { "false" });
}
