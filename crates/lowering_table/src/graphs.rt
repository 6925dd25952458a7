//! An automaton as text: its frames, letters, edges and assertions, a line each.

use crate::printing::{
    end_line, show_count, show_line, show_number, show_numbers, show_text, show_value,
};
use boogie_tree::Column;
use letter_acts::{Act, Frame, Icfg, Site};
use lin_rows::{Row, RowKind};
use nwa_base::{Letter, Nwa};

fn show_row(rt: &HostRuntime, row: &Row) {
    for (column, coefficient) in row.terms() {
        show_value(rt, " ", *coefficient);
        show_number(rt, "*", *column);
    }
    let mark = match row.kind() {
        RowKind::Le => " <= ",
        RowKind::Eq => " = ",
    };
    show_value(rt, mark, row.bound());
    show_text(rt, ";")
}

/// The rows behind a colon, up to the end of the line.
pub(crate) fn show_rows(rt: &HostRuntime, rows: &[Row]) {
    show_text(rt, ":");
    for row in rows {
        show_row(rt, row);
    }
    end_line(rt)
}

/// Whether a letter is coarse, before what it does.
pub(crate) fn show_mark(rt: &HostRuntime, coarse: bool) {
    if coarse {
        show_text(rt, "coarse ");
    }
}

/// What a letter does, as a line.
pub(crate) fn show_act(rt: &HostRuntime, act: &Act) {
    match act {
        Act::Inside {
            proc,
            written,
            helpers,
            rows,
            coarse,
        } => {
            show_mark(rt, *coarse);
            show_number(rt, "in ", *proc);
            show_number(rt, " +", *helpers);
            show_text(rt, " writes");
            show_numbers(rt, written);
            show_rows(rt, rows)
        }
        Act::Call {
            caller,
            callee,
            helpers,
            rows,
            coarse,
        } => {
            show_mark(rt, *coarse);
            show_number(rt, "call ", *caller);
            show_number(rt, " ", *callee);
            show_number(rt, " +", *helpers);
            show_rows(rt, rows)
        }
        Act::Back { call, targets } => {
            show_number(rt, "back ", *call);
            show_text(rt, " gives");
            show_numbers(rt, targets);
            end_line(rt)
        }
    }
}

/// A column by its set and number.
pub(crate) fn show_column(rt: &HostRuntime, column: Column) {
    match column {
        Column::Global(number) => show_number(rt, " g", number),
        Column::Old(number) => show_number(rt, " o", number),
        Column::Local(number) => show_number(rt, " l", number),
    }
}

pub(crate) fn show_frame(rt: &HostRuntime, frame: &Frame) {
    show_text(rt, "frame");
    for (column, _) in &frame.columns {
        show_column(rt, *column);
    }
    end_line(rt)
}

fn show_ends(rt: &HostRuntime, entry: Option<u32>, exit: Option<u32>) {
    show_text(rt, "proc");
    match entry {
        Some(number) => show_number(rt, " entry ", number),
        None => show_text(rt, " no entry"),
    }
    match exit {
        Some(number) => show_number(rt, " exit ", number),
        None => show_text(rt, " no exit"),
    }
    end_line(rt)
}

fn show_procedures(rt: &HostRuntime, graph: &Icfg) {
    for (frame, (entry, exit)) in graph
        .frames()
        .iter()
        .zip(graph.entries().iter().zip(graph.exits()))
    {
        show_frame(rt, frame);
        show_ends(rt, *entry, *exit);
    }
    show_text(rt, "places");
    show_numbers(rt, graph.place_procs());
    end_line(rt)
}

/// The letters by their numbers.
pub(crate) fn show_acts(rt: &HostRuntime, acts: &[Act]) {
    for (number, act) in acts.iter().enumerate() {
        show_count(rt, "", number);
        show_text(rt, " ");
        show_act(rt, act);
    }
}

fn show_edge(rt: &HostRuntime, from: u32, letter: &Letter, to: u32) {
    show_number(rt, "", from);
    show_number(rt, "-", letter.id);
    show_number(rt, "-", to)
}

fn show_insides(rt: &HostRuntime, nwa: &Nwa) {
    for (from, letter, to) in nwa.insides() {
        show_edge(rt, *from, letter, *to);
        show_text(rt, " ");
    }
    end_line(rt)
}

fn show_calls(rt: &HostRuntime, nwa: &Nwa) {
    for (from, letter, to) in nwa.calls() {
        show_text(rt, "call ");
        show_edge(rt, *from, letter, *to);
        end_line(rt);
    }
}

fn show_backs(rt: &HostRuntime, nwa: &Nwa) {
    for (from, before, letter, to) in nwa.backs() {
        show_number(rt, "back ", *from);
        show_text(rt, " ");
        show_edge(rt, *before, letter, *to);
        end_line(rt);
    }
}

fn show_site(rt: &HostRuntime, site: &Site) {
    show_number(rt, "fails ", site.id.number);
    show_number(rt, " line ", site.id.line);
    show_number(rt, " at ", site.place);
    end_line(rt)
}

fn show_sites(rt: &HostRuntime, sites: &[Site]) {
    for site in sites {
        show_site(rt, site);
    }
    show_line(rt, "---")
}

/// An automaton with more letters is counted alone.
const MOST_LETTERS: usize = 200;

fn show_size(rt: &HostRuntime, graph: &Icfg) {
    show_number(rt, "places ", graph.nwa().states());
    show_count(rt, " letters ", graph.acts().len());
    end_line(rt)
}

/// The automaton.
pub(crate) fn show_graph(rt: &HostRuntime, graph: &Icfg) {
    if graph.acts().len() > MOST_LETTERS {
        return show_size(rt, graph);
    }
    show_procedures(rt, graph);
    show_acts(rt, graph.acts());
    show_insides(rt, graph.nwa());
    show_calls(rt, graph.nwa());
    show_backs(rt, graph.nwa());
    show_sites(rt, graph.sites())
}

fn show_names(rt: &HostRuntime, graph: &Icfg) {
    show_text(rt, "names");
    for name in graph.names() {
        show_text(rt, " ");
        show_text(rt, str::from_utf8(name.bytes()).unwrap_or("?"));
    }
    end_line(rt)
}

/// The names of the procedures, the final places, and the automaton.
pub(crate) fn show_whole(rt: &HostRuntime, graph: &Icfg) {
    show_names(rt, graph);
    show_text(rt, "finals");
    show_numbers(rt, graph.nwa().finals());
    end_line(rt);
    show_graph(rt, graph)
}
