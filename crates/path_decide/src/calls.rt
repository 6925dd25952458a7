//! The returned calls of a word, for the search of lemmas.

use lin_rows::{Col, Row};
use nwa_base::{Kind, Letter};
use path_rows::PathSystem;
use std::alloc::{AllocError, Global};

/// For each row the number of returned calls in which its letter is, and the columns whose bounds may be lemmas, each with the number
/// of rows from which they are to follow.
#[derive(Drop)]
pub(crate) struct ReturnedCalls {
    pub(crate) depths: Vec<u32>,
    pub(crate) candidates: Vec<(Col, u32)>,
}

/// The positions of a call and of its return, counted from 0.
#[derive(Clone, Copy)]
struct Span {
    call: usize,
    back: usize,
}

/// The calls that return, innermost first.
fn spans_of(alloc: Global, letters: &[Letter]) -> Result<Vec<Span>, AllocError> {
    let mut open = Vec::new(alloc);
    let mut spans = Vec::new(alloc);
    for (position, letter) in letters.iter().enumerate() {
        match letter.kind {
            Kind::Inside => {}
            Kind::Call => open.push(position)?,
            Kind::Back => {
                if let Some(call) = open.pop() {
                    spans.push(Span {
                        call,
                        back: position,
                    })?;
                }
            }
        }
    }
    Ok(spans)
}

/// By letter, from 1, the number of returned calls in which it is; 0 for the start.
fn depths_of(alloc: Global, count: usize, spans: &[Span]) -> Result<Vec<u32>, AllocError> {
    let mut kinds = vec![in alloc; Kind::Inside; count]?;
    for span in spans {
        set_kind(&mut kinds, span.call, Kind::Call);
        set_kind(&mut kinds, span.back, Kind::Back);
    }
    depths_along(alloc, &kinds)
}

/// Puts a kind at a place.
fn set_kind(kinds: &mut [Kind], place: usize, kind: Kind) {
    if let Some(at) = kinds.get_mut(place) {
        *at = kind;
    }
}

/// The same by the kinds of letters, of which calls that do not return are inside ones.
fn depths_along(alloc: Global, kinds: &[Kind]) -> Result<Vec<u32>, AllocError> {
    let mut depths = Vec::with_capacity(alloc, kinds.len())?;
    let mut depth = 0u32;
    depths.push(depth)?;
    for kind in kinds {
        depth = match kind {
            Kind::Inside => depth,
            Kind::Call => depth.saturating_add(1),
            Kind::Back => depth.saturating_sub(1),
        };
        depths.push(depth)?;
    }
    Ok(depths)
}

/// How many rows come from letters up to one.
fn rows_up_to(path: &PathSystem, letter: u32) -> usize {
    path.row_at().partition_point(|at| *at <= letter)
}

/// Adds a column, and how many rows come from letters up to that of the column.
fn add_candidate(
    candidates: &mut Vec<(Col, u32)>,
    path: &PathSystem,
    column: Col,
) -> Result<(), AllocError> {
    let Some(letter) = path.column_at().get(column as usize) else {
        return Ok(());
    };
    if let Ok(before) = u32::try_from(rows_up_to(path, *letter)) {
        candidates.push((column, before))?;
    }
    Ok(())
}

/// Adds the columns that the call made and that its rows have: parameters and old values.
fn add_entry(
    candidates: &mut Vec<(Col, u32)>,
    path: &PathSystem,
    call: usize,
) -> Result<(), AllocError> {
    let Ok(letter) = u32::try_from(call.saturating_add(1)) else {
        return Ok(());
    };
    let from = rows_up_to(path, letter.saturating_sub(1));
    for (row, at) in path.system().rows.iter().zip(path.row_at()).skip(from) {
        if *at != letter {
            break;
        }
        add_made(candidates, path, row, letter)?;
    }
    Ok(())
}

/// Adds the columns of a row that a letter made.
fn add_made(
    candidates: &mut Vec<(Col, u32)>,
    path: &PathSystem,
    row: &Row,
    letter: u32,
) -> Result<(), AllocError> {
    for (column, _) in row.terms() {
        if path.column_at().get(*column as usize).copied() == Some(letter) {
            add_candidate(candidates, path, *column)?;
        }
    }
    Ok(())
}

/// Adds the columns that the callee has where it returns.
fn add_exit(
    candidates: &mut Vec<(Col, u32)>,
    path: &PathSystem,
    back: usize,
) -> Result<(), AllocError> {
    if let Some(columns) = path.states().get(back) {
        for column in columns {
            add_candidate(candidates, path, *column)?;
        }
    }
    Ok(())
}

/// Adds these returned calls of a word.
fn add_calls(
    calls: &mut ReturnedCalls,
    alloc: Global,
    path: &PathSystem,
    spans: &[Span],
    with_exits: bool,
) -> Result<(), AllocError> {
    calls.depths.reserve(path.row_at().len())?;
    for span in spans {
        add_entry(&mut calls.candidates, path, span.call)?;
        if with_exits {
            add_exit(&mut calls.candidates, path, span.back)?;
        }
    }
    calls.candidates.sort()?;
    calls.candidates.dedup();
    let by_letter = depths_of(alloc, path.word().letters().len(), spans)?;
    for at in path.row_at() {
        let depth = by_letter.get(*at as usize).copied().unwrap_or(0);
        calls.depths.push(depth)?;
    }
    Ok(())
}

/// The returned calls of a word, with the columns at their entries, and those at their exits where it is said.
pub(crate) fn returned_calls(
    alloc: Global,
    path: &PathSystem,
    with_exits: bool,
) -> Result<ReturnedCalls, AllocError> {
    let spans = spans_of(alloc, path.word().letters())?;
    let mut calls = ReturnedCalls {
        depths: Vec::new(alloc),
        candidates: Vec::new(alloc),
    };
    add_calls(&mut calls, alloc, path, &spans, with_exits)?;
    Ok(calls)
}
