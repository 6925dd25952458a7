//! The calls of `farkas_check`.

use crate::calls::Call;
use crate::reading::{nodes_of, number, small_number};
use crate::rows::shared;
use crate::showing::{show_nodes, show_place, show_rows, show_text, show_truth};
use farkas_check::{Refutation, Walk, check, tree};
use lin_rows::System;
use std::alloc::{AllocError, Global};

/// Shows the answer about nodes: whether they are a tree, or an equal refutation.
pub(crate) fn show_of(rt: &HostRuntime, call: &Call<'_>) {
    match refutation_of(rt.alloc(), call.first) {
        Ok(Some(_)) if call.function == "tree" => show_truth(rt, true),
        Ok(Some(refutation)) => show_copied(rt, &refutation),
        Ok(None) => show_truth(rt, false),
        Err(_) => show_text(rt, "no memory"),
    }
}

fn refutation_of(alloc: Global, nodes: &str) -> Result<Option<Refutation>, AllocError> {
    match nodes_of(alloc, nodes) {
        Ok(nodes) => Ok(tree(nodes)),
        Err(fault) => Err(fault),
    }
}

/// An equal refutation.
fn show_copied(rt: &HostRuntime, refutation: &Refutation) {
    shared(refutation);
    match refutation.copy() {
        Ok(copy) => show_equal(rt, &copy, refutation),
        Err(_) => show_text(rt, "no memory"),
    }
}

fn show_equal(rt: &HostRuntime, copy: &Refutation, refutation: &Refutation) {
    if copy.nodes() != refutation.nodes() {
        show_text(rt, "not equal: ");
    }
    show_nodes(rt, copy.nodes());
}

/// Shows the answer about a system.
pub(crate) fn show_over(rt: &HostRuntime, system: &System, call: &Call<'_>) {
    match call.function {
        "check" => show_check(rt, system, call.second),
        _ => show_walk(rt, system, call.second),
    }
}

/// Whether the tree refutes the system.
fn show_check(rt: &HostRuntime, system: &System, nodes: &str) {
    match refutation_of(rt.alloc(), nodes) {
        Ok(Some(refutation)) => show_checked(rt, system, &refutation),
        Ok(None) => show_text(rt, "no tree"),
        Err(_) => show_text(rt, "no memory"),
    }
}

fn show_checked(rt: &HostRuntime, system: &System, refutation: &Refutation) {
    match check(rt.alloc(), system, refutation) {
        Ok(truth) => show_truth(rt, truth),
        Err(_) => show_text(rt, "no memory"),
    }
}

/// Takes the steps of a walk through the goals of the system.
fn show_walk(rt: &HostRuntime, system: &System, steps: &str) {
    match Walk::new(rt.alloc(), system) {
        Ok(mut walk) => show_steps(rt, &mut walk, steps),
        Err(_) => show_text(rt, "no memory"),
    }
}

fn show_steps(rt: &HostRuntime, walk: &mut Walk<'_>, steps: &str) {
    for step in steps.split_whitespace() {
        match step {
            "goal" => show_goal(rt, walk),
            "group" => show_group(rt, walk),
            _ => cut(rt, walk, step),
        }
    }
}

/// Takes up a goal: its rows.
fn show_goal(rt: &HostRuntime, walk: &mut Walk<'_>) {
    if matches!(walk.take_goal(), Ok(true)) {
        show_text(rt, "[");
        show_rows(rt, walk.rows());
        show_text(rt, "] ");
    } else {
        show_text(rt, "no goal");
    }
}

fn show_count(rt: &HostRuntime, members: usize) {
    show_place(rt, "", u32::try_from(members).unwrap_or(u32::MAX), " ");
}

/// Opens a group: how many members it has.
fn show_group(rt: &HostRuntime, walk: &mut Walk<'_>) {
    match walk.open_group() {
        Ok(Some(members)) => show_count(rt, members),
        Ok(None) => show_text(rt, "no group "),
        Err(_) => show_text(rt, "no memory"),
    }
}

/// Cuts the goal at hand.
fn cut(rt: &HostRuntime, walk: &mut Walk<'_>, word: &str) {
    let (column, k) = word.split_once("<=").unwrap_or((word, "0"));
    let column = small_number(column.trim_start_matches('x'));
    let k = number(k);
    if k == i128::MIN || k == i128::MAX || walk.open_cut(column, k).is_err() {
        show_text(rt, "no cut");
    }
}
