//! Letters, and the letters of steps.

use crate::acts::read_act;
use crate::graphs::{show_act, show_acts};
use crate::printing::{end_line, show_line, show_no_memory, show_number};
use letter_acts::Act;
use letter_acts::letter_table::{CallEdges, CallStep, InsideStep, Lettered, Table};
use lin_rows::RowFault;
use nwa_base::Letter;
use std::alloc::Global;
use table_reading::{numbered, numbers, parted, three, two};

fn show_copied(rt: &HostRuntime, act: &Act) {
    match act.copy() {
        Ok(copy) => show_act(rt, &copy),
        Err(_) => show_no_memory(rt),
    }
}

/// A copy of the act that a text tells.
pub(crate) fn show_letter(rt: &HostRuntime, text: &str) {
    match read_act(rt.alloc(), text) {
        Ok(act) => show_copied(rt, &act),
        Err(_) => show_line(rt, "no act"),
    }
}

fn add_inside(table: &mut Table, places: &str, step: InsideStep) -> Result<(), RowFault> {
    let (from, to) = two(places);
    Ok(table.add_inside(from, step, to)?)
}

/// The places of a call, of the callee's entry and exit, and of what follows.
fn edges(text: &str) -> CallEdges {
    let (from, others) = numbered(text);
    let (to, exit, after) = three(others);
    CallEdges {
        from,
        to,
        exit,
        after,
    }
}

fn add_call(
    alloc: Global,
    table: &mut Table,
    places: &str,
    step: CallStep,
) -> Result<(), RowFault> {
    let (places, targets) = parted(places, " gives");
    match numbers(alloc, targets) {
        Ok(targets) => Ok(table.add_call(step, targets, edges(places))?),
        Err(_) => Err(RowFault::Memory),
    }
}

/// Adds a step with the places that a text names.
fn add_step(alloc: Global, table: &mut Table, places: &str, act: Act) -> Result<(), RowFault> {
    match act {
        Act::Inside {
            proc,
            written,
            helpers,
            rows,
            coarse,
        } => {
            let step = InsideStep {
                proc,
                written,
                helpers,
                rows,
                coarse,
            };
            add_inside(table, places, step)
        }
        Act::Call {
            caller,
            callee,
            helpers,
            rows,
            coarse,
        } => {
            let step = CallStep {
                caller,
                callee,
                helpers,
                rows,
                coarse,
            };
            add_call(alloc, table, places, step)
        }
        Act::Back { .. } => Ok(()),
    }
}

/// Adds the steps of lines: of each its places, and behind a colon what it does.
fn add_lines(alloc: Global, table: &mut Table, text: &str) -> Result<(), RowFault> {
    for line in text.lines() {
        let (places, step) = parted(line, ": ");
        add_step(alloc, table, places, read_act(alloc, step)?)?;
    }
    Ok(())
}

fn show_letter_of(rt: &HostRuntime, letter: &Letter) {
    let _ = print!(rt; " {letter:?}");
}

fn show_edges(rt: &HostRuntime, edges: &[(u32, Letter, u32)]) {
    for (from, letter, to) in edges {
        show_number(rt, "", *from);
        show_letter_of(rt, letter);
        show_number(rt, " ", *to);
        end_line(rt);
    }
}

fn show_backs(rt: &HostRuntime, edges: &[(u32, u32, Letter, u32)]) {
    for (from, before, letter, to) in edges {
        show_number(rt, "", *from);
        show_number(rt, " ", *before);
        show_letter_of(rt, letter);
        show_number(rt, " ", *to);
        end_line(rt);
    }
}

/// What the table holds at its end: the letters, and the edges of each kind.
fn show_lettered(rt: &HostRuntime, lettered: &Lettered) {
    show_acts(rt, &lettered.acts);
    show_edges(rt, &lettered.insides);
    show_edges(rt, &lettered.calls);
    show_backs(rt, &lettered.backs)
}

/// The letters and edges of steps, a line each.
pub(crate) fn show_table(rt: &HostRuntime, text: &[u8]) {
    let mut table = Table::new(rt.alloc());
    match add_lines(rt.alloc(), &mut table, str::from_utf8(text).unwrap_or("?")) {
        Ok(()) => show_lettered(rt, &table.finish()),
        Err(_) => show_line(rt, "no table"),
    }
}
