//! The parts of a graph as text, and whether they are those of a graph.

use crate::acts::read_act;
use crate::graphs::show_whole;
use crate::printing::{show_line, show_no_memory};
use boogie_tree::{Column, Text, Ty, VarInfo};
use letter_acts::{Act, AssertId, Frame, Icfg, Site, icfg};
use lin_rows::RowFault;
use nwa_base::{Kind, Letter, Nwa, empty};
use std::alloc::Global;
use table_reading::{keep, number, numbered, parted, three, two};

/// The parts but for the automaton.
#[derive(Drop)]
struct Draft {
    acts: Vec<Act>,
    frames: Vec<Frame>,
    names: Vec<Text>,
    place_procs: Vec<u32>,
    entries: Vec<Option<u32>>,
    exits: Vec<Option<u32>>,
    sites: Vec<Site>,
}

fn set_finals(nwa: &mut Nwa, text: &str) -> bool {
    for word in text.split_whitespace() {
        if nwa.set_final(number(word)).is_err() {
            return false;
        }
    }
    true
}

fn add_inside(nwa: &mut Nwa, from: u32, text: &str) -> bool {
    let (id, to) = two(text);
    let letter = Letter {
        id,
        kind: Kind::Inside,
        call: 0,
    };
    nwa.add_inside(from, letter, to).is_ok()
}

fn add_call(nwa: &mut Nwa, from: u32, text: &str) -> bool {
    let (id, call, to) = three(text);
    let letter = Letter {
        id,
        kind: Kind::Call,
        call,
    };
    nwa.add_call(from, letter, to).is_ok()
}

fn add_back(nwa: &mut Nwa, from: u32, text: &str) -> bool {
    let (before, others) = numbered(text);
    let (id, call, to) = three(others);
    let letter = Letter {
        id,
        kind: Kind::Back,
        call,
    };
    nwa.add_back(from, before, letter, to).is_ok()
}

/// Adds an edge: its kind, where it begins, its letter, and where it ends. Behind the letter of a call or a return stands the
/// number that the letter names, and before that of a return the place before the call.
fn add_edge(nwa: &mut Nwa, text: &str) -> bool {
    let (kind, numbers) = parted(text, " ");
    let (from, others) = numbered(numbers);
    match kind {
        "in" => add_inside(nwa, from, others),
        "call" => add_call(nwa, from, others),
        _ => add_back(nwa, from, others),
    }
}

fn push_act(alloc: Global, acts: &mut Vec<Act>, text: &str) -> Result<(), RowFault> {
    keep(acts, read_act(alloc, text)?)?;
    Ok(())
}

/// A column by the letter of its set and its number, as `g0`.
fn column_of(text: &str) -> Column {
    let (set, digits) = text.split_at_checked(1).unwrap_or((text, ""));
    match set {
        "g" => Column::Global(number(digits)),
        "o" => Column::Old(number(digits)),
        _ => Column::Local(number(digits)),
    }
}

fn name_of(alloc: Global, word: &str) -> Result<Text, RowFault> {
    Ok(Text::new(word.as_bytes().to_vec(alloc)?))
}

/// A column, its type, whether it is constant, and its name.
fn push_column(
    alloc: Global,
    columns: &mut Vec<(Column, VarInfo)>,
    text: &str,
) -> Result<(), RowFault> {
    let (column, said) = parted(text, " ");
    let (ty, said) = parted(said, " ");
    let ty = if ty == "int" { Ty::Int } else { Ty::Bool };
    let constant = said.starts_with("constant ");
    let name = name_of(alloc, said.strip_prefix("constant ").unwrap_or(said))?;
    keep(columns, (column_of(column), VarInfo { name, ty, constant }))?;
    Ok(())
}

fn push_columns(
    alloc: Global,
    columns: &mut Vec<(Column, VarInfo)>,
    text: &str,
) -> Result<(), RowFault> {
    for part in text.split(',') {
        push_column(alloc, columns, part.trim())?;
    }
    Ok(())
}

fn push_frame(alloc: Global, frames: &mut Vec<Frame>, text: &str) -> Result<(), RowFault> {
    let mut columns = Vec::new(alloc);
    push_columns(alloc, &mut columns, text)?;
    keep(frames, Frame { columns })?;
    Ok(())
}

fn push_names(alloc: Global, names: &mut Vec<Text>, text: &str) -> Result<(), RowFault> {
    for word in text.split_whitespace() {
        keep(names, name_of(alloc, word)?)?;
    }
    Ok(())
}

fn push_numbers(numbers: &mut Vec<u32>, text: &str) -> Result<(), RowFault> {
    for word in text.split_whitespace() {
        numbers.push(number(word))?;
    }
    Ok(())
}

/// Places, of which a hyphen is none.
fn push_places(places: &mut Vec<Option<u32>>, text: &str) -> Result<(), RowFault> {
    for word in text.split_whitespace() {
        places.push(word.parse::<u32>().ok())?;
    }
    Ok(())
}

/// Assertions: the number of each, its line, and the place at which it fails.
fn push_sites(sites: &mut Vec<Site>, text: &str) -> Result<(), RowFault> {
    for part in text.split(',') {
        let (number, line, place) = three(part.trim());
        let id = AssertId { number, line };
        sites.push(Site { id, place })?;
    }
    Ok(())
}

/// What a line tells a part of, and behind a colon the part.
fn parts_of(line: &str) -> (&str, &str) {
    let (key, text) = parted(line, ": ");
    let (word, _) = parted(key, " ");
    (word, text)
}

/// Adds what the line tells, where it tells a part of the automaton. It is added unless the automaton cannot have it.
fn is_added(nwa: &mut Nwa, line: &str) -> bool {
    let (word, text) = parts_of(line);
    match word {
        "finals" => set_finals(nwa, text),
        "edge" => add_edge(nwa, text),
        _ => true,
    }
}

/// Adds what the line tells, where it tells another part.
fn add_to_draft(alloc: Global, draft: &mut Draft, line: &str) -> Result<(), RowFault> {
    let (word, text) = parts_of(line);
    match word {
        "act" => push_act(alloc, &mut draft.acts, text),
        "frame" => push_frame(alloc, &mut draft.frames, text),
        "names" => push_names(alloc, &mut draft.names, text),
        "places" => push_numbers(&mut draft.place_procs, text),
        "entries" => push_places(&mut draft.entries, text),
        "exits" => push_places(&mut draft.exits, text),
        "sites" => push_sites(&mut draft.sites, text),
        _ => Ok(()),
    }
}

/// What stands before the colon of a line.
fn key_of(line: &str) -> &str {
    parted(line, ": ").0
}

/// The change of the line, if there is one: the part that tells the same otherwise.
fn changed<'a>(line: &'a str, changes: &'a str) -> &'a str {
    for change in changes.split('|') {
        if key_of(change.trim()) == key_of(line) {
            return change.trim();
        }
    }
    line
}

/// Parts of a graph as text, and what is changed in them.
#[derive(Clone, Copy)]
struct Told<'a> {
    parts: &'a str,
    changes: &'a str,
}

fn are_added(nwa: &mut Nwa, told: Told<'_>) -> bool {
    for line in told.parts.lines() {
        if !is_added(nwa, changed(line, told.changes)) {
            return false;
        }
    }
    true
}

/// How many places the automaton has, and where it begins.
fn places(told: Told<'_>) -> (u32, u32) {
    for line in told.parts.lines() {
        let (word, text) = parts_of(changed(line, told.changes));
        if word == "automaton" {
            return two(text);
        }
    }
    (0, 0)
}

/// The automaton that the parts tell.
fn automaton(alloc: Global, told: Told<'_>) -> Option<Nwa> {
    let (states, start) = places(told);
    let mut nwa = empty(alloc, states, start).ok()?;
    if are_added(&mut nwa, told) {
        Some(nwa)
    } else {
        None
    }
}

fn fill_draft(alloc: Global, draft: &mut Draft, told: Told<'_>) -> Result<(), RowFault> {
    for line in told.parts.lines() {
        add_to_draft(alloc, draft, changed(line, told.changes))?;
    }
    Ok(())
}

fn no_parts(alloc: Global) -> Draft {
    Draft {
        acts: Vec::new(alloc),
        frames: Vec::new(alloc),
        names: Vec::new(alloc),
        place_procs: Vec::new(alloc),
        entries: Vec::new(alloc),
        exits: Vec::new(alloc),
        sites: Vec::new(alloc),
    }
}

fn graph_of(nwa: Nwa, draft: Draft) -> Option<Icfg> {
    let Draft {
        acts,
        frames,
        names,
        place_procs,
        entries,
        exits,
        sites,
    } = draft;
    icfg(nwa, acts, frames, names, place_procs, entries, exits, sites)
}

fn show_copy(rt: &HostRuntime, graph: &Icfg) {
    match graph.copy() {
        Ok(copy) => show_whole(rt, &copy),
        Err(_) => show_no_memory(rt),
    }
}

fn show_graph_of(rt: &HostRuntime, graph: &Option<Icfg>, whole: bool) {
    match graph {
        Some(graph) if whole => show_copy(rt, graph),
        Some(_) => show_line(rt, "a graph"),
        None => show_line(rt, "no graph"),
    }
}

fn show_drafted(rt: &HostRuntime, draft: Draft, told: Told<'_>, whole: bool) {
    match automaton(rt.alloc(), told) {
        Some(nwa) => show_graph_of(rt, &graph_of(nwa, draft), whole),
        None => show_line(rt, "no automaton"),
    }
}

/// Whether the parts with the changes are those of a graph, or a copy of that graph.
pub(crate) fn show_parts(rt: &HostRuntime, parts: &[u8], changes: &str, whole: bool) {
    let parts = str::from_utf8(parts).unwrap_or("?");
    let told = Told { parts, changes };
    let mut draft = no_parts(rt.alloc());
    match fill_draft(rt.alloc(), &mut draft, told) {
        Ok(()) => show_drafted(rt, draft, told, whole),
        Err(_) => show_line(rt, "no parts"),
    }
}
