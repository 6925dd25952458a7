//! Calls as text: the crate, the function, and its arguments.

use crate::reading::system_of;
use crate::showing::{show_row_fault, show_text};
use crate::{decisions, fractions, refutations, rows};
use lin_rows::System;
use std::alloc::{AllocError, Global};
use table_reading::{first_word, number, parted};

/// A function, and the texts of up to three arguments, which are empty where there are fewer.
#[derive(Clone, Copy)]
pub(crate) struct Call<'a> {
    pub(crate) function: &'a str,
    pub(crate) first: &'a str,
    pub(crate) second: &'a str,
    pub(crate) third: &'a str,
}

/// The first argument, up to a semicolon, and the others.
fn first_argument(arguments: &str) -> (&str, &str) {
    let (first, others) = parted(arguments, ";");
    (first.trim(), others.trim())
}

/// The call of a text: the function, a blank, and the arguments with semicolons between them.
fn call_of(text: &str) -> Call<'_> {
    let (function, arguments) = first_word(text);
    let (first, others) = first_argument(arguments);
    let (second, third) = first_argument(others);
    Call {
        function,
        first,
        second,
        third,
    }
}

/// Writes the words behind a number, so many times.
fn push_repeated(whole: &mut String, repeated: &str) -> Result<(), AllocError> {
    let (times, words) = repeated.split_once(' ').unwrap_or(("1", repeated));
    for _time in 0..number(times) {
        write!(whole, "{words} ")?;
    }
    Ok(())
}

/// Writes a text, and `[n words]` in it as n times the words.
fn expand(whole: &mut String, text: &str) -> Result<(), AllocError> {
    for piece in text.split('[') {
        let (repeated, rest) = piece.split_once(']').unwrap_or(("0 ", piece));
        push_repeated(whole, repeated)?;
        whole.push_str(rest)?;
    }
    Ok(())
}

/// The text with its repeated words.
fn expanded(alloc: Global, text: &str) -> Result<String, AllocError> {
    let mut whole = String::new(alloc);
    expand(&mut whole, text)?;
    Ok(whole)
}

/// Shows the answer of a function about a system.
fn show_over(rt: &HostRuntime, owner: &str, system: &System, call: &Call<'_>) {
    match owner {
        "farkas_check" => refutations::show_over(rt, system, call),
        "fm_elim" | "simplex_rows" => decisions::show_of_rows(rt, &system.rows, call),
        _ => decisions::show_of(rt, system, call),
    }
}

/// Shows the answer of a function whose first argument is a system.
fn show_of_system(rt: &HostRuntime, owner: &str, call: &Call<'_>) {
    match system_of(rt.alloc(), call.first) {
        Ok(system) => show_over(rt, owner, &system, call),
        Err(fault) => show_row_fault(rt, &fault),
    }
}

/// Shows the answer of a function of a crate.
fn show_call(rt: &HostRuntime, owner: &str, call: &Call<'_>) {
    match owner {
        "frac" => fractions::show_of(rt, call),
        "lin_rows" => rows::show_of(rt, call),
        "farkas_check" if call.second.is_empty() => refutations::show_of(rt, call),
        _ => show_of_system(rt, owner, call),
    }
}

fn show_expanded(rt: &HostRuntime, whole: &str) {
    let (owner, text) = parted(whole, "::");
    show_text(rt, " => ");
    show_call(rt, owner, &call_of(text));
}

/// Shows the answer of the call that a line tells.
pub(crate) fn show_answer(rt: &HostRuntime, line: &str) {
    match expanded(rt.alloc(), line) {
        Ok(whole) => show_expanded(rt, &whole),
        Err(_) => show_text(rt, "no memory"),
    }
}
