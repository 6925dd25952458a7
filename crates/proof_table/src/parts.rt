//! Graphs as texts, a line for each part:
//!
//! ```text
//! places 0 0 1                      the procedure of each place; the first is the start
//! proc main - 2: g0 int g, l0 bool b    its name, its entry and exit, and its columns: `c` before a type says that it is constant
//! inside 0 1 4 3: 1*6 = 0           the procedure of an inside letter, its helpers, the columns that it writes, and its rows
//! call 0 1 1: 1*6 = 0               the caller of a call letter, its callee, its helpers, and its rows
//! back 1 3                          the call letter of a return letter, and the columns that take its results
//! coarse inside 0 1 4 3: 1*6 = 0    an inside or call letter that is coarse
//! edge 1 | 0 2                      a letter, and the places that its edge leads between, of a return behind the exit that before the call
//! fails 1 2                         the number and line of an assertion, and the place of its failures, which is final
//! ```

use crate::reading::push_rows;
use crate::words::letter;
use boogie_tree::{Column, Text, Ty, VarInfo};
use letter_acts::{Act, AssertId, Frame, Icfg, Site, icfg};
use lin_rows::{Row, RowFault};
use nwa_base::{Kind, Letter, Nwa, NwaFault, empty};
use std::alloc::Global;
use table_reading::{keep, number, numbers, parted, three};

/// The parts of a graph while they are read.
#[derive(Drop)]
struct Parts {
    nwa: Nwa,
    acts: Vec<Act>,
    frames: Vec<Frame>,
    names: Vec<Text>,
    places: Vec<u32>,
    entries: Vec<Option<u32>>,
    exits: Vec<Option<u32>>,
    sites: Vec<Site>,
}

fn text_of(alloc: Global, text: &str) -> Result<Text, RowFault> {
    Ok(Text::new(Vec::from_slice(alloc, text.as_bytes())?))
}

/// A global, `g0`, what a global was at the entry, `o0`, or a local, `l0`.
fn column(text: &str) -> Column {
    let (set, digits) = text.split_at_checked(1).unwrap_or((text, ""));
    match set {
        "g" => Column::Global(number(digits)),
        "o" => Column::Old(number(digits)),
        _ => Column::Local(number(digits)),
    }
}

/// A column and its variable, `g0 int x`; `c` before a type says that it is constant.
fn push_variable(
    alloc: Global,
    columns: &mut Vec<(Column, VarInfo)>,
    text: &str,
) -> Result<(), RowFault> {
    let (place, rest) = parted(text, " ");
    let (ty, name) = parted(rest, " ");
    let constant = ty.starts_with('c');
    let ty = if ty.ends_with("int") {
        Ty::Int
    } else {
        Ty::Bool
    };
    let name = text_of(alloc, name)?;
    keep(columns, (column(place), VarInfo { name, ty, constant }))?;
    Ok(())
}

fn push_variables(
    alloc: Global,
    columns: &mut Vec<(Column, VarInfo)>,
    text: &str,
) -> Result<(), RowFault> {
    for said in text.split(',') {
        push_variable(alloc, columns, said.trim())?;
    }
    Ok(())
}

/// Adds the frame of the columns with commas between them.
fn push_frame(alloc: Global, frames: &mut Vec<Frame>, text: &str) -> Result<(), RowFault> {
    let columns = Vec::new(alloc);
    keep(frames, Frame { columns })?;
    match frames.last_mut() {
        Some(frame) => push_variables(alloc, &mut frame.columns, text),
        None => Ok(()),
    }
}

fn push_name(alloc: Global, names: &mut Vec<Text>, name: &str) -> Result<(), RowFault> {
    keep(names, text_of(alloc, name)?)?;
    Ok(())
}

/// Adds the number of a place, or that there is none, `-`.
fn push_place(places: &mut Vec<Option<u32>>, text: &str) -> Result<(), RowFault> {
    places.push(text.parse::<u32>().ok())?;
    Ok(())
}

/// Adds a procedure: its name, its entry and its exit, and its columns.
fn push_proc(alloc: Global, parts: &mut Parts, said: &str) -> Result<(), RowFault> {
    let (head, columns) = parted(said, ":");
    let (name, places) = parted(head, " ");
    let (entry, exit) = parted(places, " ");
    push_name(alloc, &mut parts.names, name)?;
    push_place(&mut parts.entries, entry)?;
    push_place(&mut parts.exits, exit)?;
    push_frame(alloc, &mut parts.frames, columns)
}

/// What an inside letter does.
fn inside(
    alloc: Global,
    proc: u32,
    helpers: u32,
    written: &[u32],
    rows: Vec<Row>,
) -> Result<Act, RowFault> {
    match written.to_vec(alloc) {
        Ok(written) => Ok(Act::Inside {
            proc,
            written,
            helpers,
            rows,
            coarse: false,
        }),
        Err(_) => Err(RowFault::Memory),
    }
}

/// What a return letter does.
fn back(alloc: Global, call: u32, targets: &[u32]) -> Result<Act, RowFault> {
    let targets = targets.to_vec(alloc)?;
    Ok(Act::Back { call, targets })
}

/// What an inside letter or a call letter does, by whether columns that it writes are said.
fn ruled(alloc: Global, kind: &str, head: &[u32], rows: &str) -> Result<Act, RowFault> {
    let mut made = Vec::new(alloc);
    push_rows(alloc, &mut made, rows)?;
    match head {
        [caller, callee, helpers] if kind == "call" => Ok(Act::Call {
            caller: *caller,
            callee: *callee,
            helpers: *helpers,
            rows: made,
            coarse: false,
        }),
        [proc, helpers, written @ ..] => inside(alloc, *proc, *helpers, written, made),
        _ => Err(RowFault::Past),
    }
}

/// What a letter of this kind does.
fn act(alloc: Global, kind: &str, head: &[u32], rows: &str) -> Result<Act, RowFault> {
    match head {
        [call, targets @ ..] if kind == "back" => back(alloc, *call, targets),
        _ => ruled(alloc, kind, head, rows),
    }
}

/// Adds a letter.
fn push_act(alloc: Global, acts: &mut Vec<Act>, kind: &str, said: &str) -> Result<(), RowFault> {
    let (head, rows) = parted(said, ":");
    let head = numbers(alloc, head)?;
    push_made(acts, act(alloc, kind, &head, rows))
}

/// Marks a letter as coarse.
fn mark(act: &mut Act) {
    match act {
        Act::Inside { coarse, .. } | Act::Call { coarse, .. } => *coarse = true,
        _ => {}
    }
}

/// Marks the last letter as coarse.
fn mark_last(acts: &mut Vec<Act>) {
    if let Some(act) = acts.last_mut() {
        mark(act);
    }
}

/// Adds a coarse letter.
fn push_coarse(alloc: Global, acts: &mut Vec<Act>, said: &str) -> Result<(), RowFault> {
    let (kind, said) = parted(said, " ");
    push_act(alloc, acts, kind, said)?;
    mark_last(acts);
    Ok(())
}

fn push_made(acts: &mut Vec<Act>, made: Result<Act, RowFault>) -> Result<(), RowFault> {
    keep(acts, made?)?;
    Ok(())
}

/// Adds an assertion and the place of its failures, which is final.
fn push_site(parts: &mut Parts, said: &str) -> Result<(), RowFault> {
    let (assertion, line, place) = three(said);
    let id = AssertId {
        number: assertion,
        line,
    };
    if parts.nwa.set_final(place).is_err() {
        return Err(RowFault::Past);
    }
    parts.sites.push(Site { id, place })?;
    Ok(())
}

/// Adds an edge by the letter.
fn add_edge(nwa: &mut Nwa, by: Letter, places: &[u32]) -> Result<(), NwaFault> {
    match (by.kind, places) {
        (Kind::Inside, [from, to]) => nwa.add_inside(*from, by, *to),
        (Kind::Call, [from, to]) => nwa.add_call(*from, by, *to),
        (Kind::Back, [exit, before, to]) => nwa.add_back(*exit, *before, by, *to),
        _ => Err(NwaFault::BadLetter),
    }
}

/// Reads an edge.
fn push_edge(alloc: Global, nwa: &mut Nwa, acts: &[Act], said: &str) -> Result<(), RowFault> {
    let (by, places) = parted(said, " | ");
    let places = numbers(alloc, places)?;
    match add_edge(nwa, letter(acts, number(by)), &places) {
        Ok(()) => Ok(()),
        Err(_) => Err(RowFault::Past),
    }
}

/// Reads a line that is a part.
fn push_part(alloc: Global, parts: &mut Parts, line: &str) -> Result<(), RowFault> {
    let (word, said) = parted(line, " ");
    match word {
        "proc" => push_proc(alloc, parts, said),
        "edge" => push_edge(alloc, &mut parts.nwa, &parts.acts, said),
        "fails" => push_site(parts, said),
        "coarse" => push_coarse(alloc, &mut parts.acts, said),
        _ => push_act(alloc, &mut parts.acts, word, said),
    }
}

fn push_parts(alloc: Global, parts: &mut Parts, lines: &str) -> Result<(), RowFault> {
    for line in lines.lines() {
        push_part(alloc, parts, line)?;
    }
    Ok(())
}

/// The places alone.
fn bare_parts(alloc: Global, nwa: Nwa, places: Vec<u32>) -> Parts {
    Parts {
        nwa,
        acts: Vec::new(alloc),
        frames: Vec::new(alloc),
        names: Vec::new(alloc),
        places,
        entries: Vec::new(alloc),
        exits: Vec::new(alloc),
        sites: Vec::new(alloc),
    }
}

fn joined(parts: Parts) -> Option<Icfg> {
    icfg(
        parts.nwa,
        parts.acts,
        parts.frames,
        parts.names,
        parts.places,
        parts.entries,
        parts.exits,
        parts.sites,
    )
}

/// The graph of the places, and of the parts that the lines are.
fn graph_over(alloc: Global, parts: Parts, lines: &str) -> Option<Icfg> {
    let mut parts = parts;
    match push_parts(alloc, &mut parts, lines) {
        Ok(()) => joined(parts),
        Err(_) => None,
    }
}

/// The graph of these places and lines.
fn graph_of_places(alloc: Global, places: Vec<u32>, lines: &str) -> Option<Icfg> {
    let states = u32::try_from(places.len()).unwrap_or(0);
    match empty(alloc, states, 0) {
        Ok(nwa) => graph_over(alloc, bare_parts(alloc, nwa, places), lines),
        Err(_) => None,
    }
}

/// The graph of the lines, of which the first has the places.
pub(crate) fn made_graph(alloc: Global, text: &str) -> Option<Icfg> {
    let (places, lines) = parted(text, "\n");
    match numbers(alloc, places.trim_start_matches("places ")) {
        Ok(places) => graph_of_places(alloc, places, lines),
        Err(_) => None,
    }
}
