//! Reads calls of the arithmetic from standard input, a line each, and prints each with its answer behind an arrow. Lines that begin with `#`, and empty ones, are
//! printed as they are. What cannot be read of a call counts as 0, or as nothing, and what cannot be printed is left out: the answers are compared.
#![tactic(auto)]

mod calls;
mod decisions;
mod fractions;
mod reading;
mod refutations;
mod rows;
mod showing;

use crate::calls::show_answer;
use crate::showing::show_text;
use std::io::{self, Read};

/// A line with its answer.
fn show_line(rt: &HostRuntime, line: &str) {
    show_text(rt, line);
    if !line.is_empty() && !line.starts_with('#') {
        show_answer(rt, line);
    }
    show_text(rt, "\n");
}

fn show_lines(rt: &HostRuntime, text: &str) {
    for line in text.lines() {
        show_line(rt, line);
    }
}

fn main(rt: HostRuntime) -> io::Result<()> {
    let mut text = Vec::new(rt.alloc());
    rt.stdin().read_to_end(&mut text)?;
    show_lines(&rt, str::from_utf8(&text).unwrap_or("no text"));
    Ok(())
}
