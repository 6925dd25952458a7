//! The calls of `frac`.

use crate::calls::Call;
use crate::reading::fraction;
use crate::showing::{show_fraction, show_number, show_past, show_text};
use frac::{Frac, Past, add, cmp, div, floor, is_whole, mul, num, sub};
use std::cmp::Ordering;

/// Shows the answer.
pub(crate) fn show_of(rt: &HostRuntime, call: &Call<'_>) {
    match fraction(call.first) {
        Ok(a) => show_about(rt, &a, call),
        Err(_) => show_past(rt),
    }
}

fn show_about(rt: &HostRuntime, a: &Frac, call: &Call<'_>) {
    match call.function {
        "of" => show_fraction(rt, a),
        "floor" => show_floor(rt, a),
        _ => show_pair(rt, a, call),
    }
}

fn show_pair(rt: &HostRuntime, a: &Frac, call: &Call<'_>) {
    match fraction(call.second) {
        Ok(b) => show_combined(rt, call.function, a, &b),
        Err(_) => show_past(rt),
    }
}

/// What two fractions are combined to.
fn show_combined(rt: &HostRuntime, function: &str, a: &Frac, b: &Frac) {
    match function {
        "mul" => show_made(rt, &mul(a, b)),
        "div" => show_quotient(rt, a, b),
        "add" => show_made(rt, &add(a, b)),
        "sub" => show_made(rt, &sub(a, b)),
        _ => show_order(rt, &cmp(a, b)),
    }
}

fn show_made(rt: &HostRuntime, made: &Result<Frac, Past>) {
    match made {
        Ok(value) => show_fraction(rt, value),
        Err(_) => show_past(rt),
    }
}

/// The quotient by a fraction that is not 0.
fn show_quotient(rt: &HostRuntime, a: &Frac, b: &Frac) {
    if num(b) == 0 {
        return show_past(rt);
    }
    show_made(rt, &div(a, b));
}

fn show_order(rt: &HostRuntime, order: &Result<Ordering, Past>) {
    show_text(
        rt,
        match order {
            Ok(Ordering::Less) => "Less",
            Ok(Ordering::Equal) => "Equal",
            Ok(Ordering::Greater) => "Greater",
            Err(_) => "past",
        },
    );
}

/// The floor, and whether the fraction is whole.
fn show_floor(rt: &HostRuntime, a: &Frac) {
    show_number(rt, floor(a));
    let kind = if is_whole(a) {
        ", whole"
    } else {
        ", not whole"
    };
    show_text(rt, kind);
}
