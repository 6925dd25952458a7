//! The texts of annotations.

use crate::rows::{put, put_line, put_nothing, put_number};
use crate::texts::{show_same, text_of};
use proof_form::{Annotation, ProofFault, read_safe, write_safe};
use std::alloc::{AllocError, Global};
use table_reading::{number, parted};

/// Prints whether the annotation is written so.
fn show_written(
    rt: &HostRuntime,
    rounds: u64,
    coarse: &[u32],
    annotation: &Annotation,
    text: &[u8],
) {
    match write_safe(rt.alloc(), rounds, coarse, annotation) {
        Ok(written) => show_same(rt, &written, text),
        Err(_) => put_nothing(rt),
    }
}

fn show_text(rt: &HostRuntime, text: &[u8]) {
    match &read_safe(rt.alloc(), text) {
        Ok((rounds, coarse, annotation)) => show_written(rt, *rounds, coarse, annotation, text),
        Err(fault) => {
            let _ = println!(rt; "{fault}");
        }
    }
}

/// Prints whether a text is read and written back, or which line cannot stand in it.
pub(crate) fn show_annotation(rt: &HostRuntime, text: &str, said: &str) {
    match text_of(rt.alloc(), text, said) {
        Ok(text) => show_text(rt, text.as_bytes()),
        Err(_) => put_nothing(rt),
    }
}

fn push_lines(changed: &mut String, text: &str, number: u64, new: &str) -> Result<(), AllocError> {
    for (line, i) in text.lines().zip(1u64..1_000) {
        changed.push_str(if i == number { new } else { line })?;
        changed.push('\n')?;
    }
    Ok(())
}

/// The text with another line of that number, counted from 1.
fn with_line(alloc: Global, text: &str, number: u64, new: &str) -> Result<String, AllocError> {
    let mut changed = String::new(alloc);
    push_lines(&mut changed, text, number, new)?;
    Ok(changed)
}

/// The number of the first wrong line, which is 0 if there is none.
fn wrong_line(alloc: Global, text: &[u8]) -> Result<u64, AllocError> {
    match &read_safe(alloc, text) {
        Ok(_) => Ok(0),
        Err(ProofFault::Syntax { line }) => Ok(*line),
        Err(ProofFault::Memory) => Err(AllocError),
    }
}

/// The first wrong line of the text with another line of that number.
fn wrong_with(alloc: Global, text: &str, number: u64, new: &str) -> Result<u64, AllocError> {
    let changed = with_line(alloc, text, number, new)?;
    wrong_line(alloc, changed.as_bytes())
}

/// Prints whether a line, which stands between quotes behind its number, can stand in the text in the place of the line of that number.
pub(crate) fn show_line(rt: &HostRuntime, text: &str, said: &str) {
    let (place, quoted) = parted(said, " \"");
    let place = u64::from(number(place));
    let new = quoted.strip_suffix('"').unwrap_or(quoted);
    match wrong_with(rt.alloc(), text, place, new) {
        Ok(wrong) if wrong == place => put_line(rt, "cannot stand"),
        Ok(_) => put_line(rt, "can stand"),
        Err(_) => put_nothing(rt),
    }
}

/// Whether a line can stand alone in an annotation.
fn stands(alloc: Global, line: &str) -> Result<bool, AllocError> {
    let text = format!(in alloc; "safe\nrounds 7\nannotation 1\n{line}\nend\n")?;
    Ok(wrong_line(alloc, text.as_bytes())? == 0)
}

/// Prints whether a line can stand alone, and the lengths at which it is cut off so that it still can.
pub(crate) fn show_cuts(rt: &HostRuntime, line: &str) {
    let whole = stands(rt.alloc(), line).unwrap_or(false);
    put(rt, if whole { "whole true" } else { "whole false" });
    put(rt, "; cut off at");
    for length in 0..line.len() {
        if stands(rt.alloc(), line.get(..length).unwrap_or(line)).unwrap_or(false) {
            put_number(rt, " ", length as u64, "");
        }
    }
    put(rt, "\n");
}
