//! Reads cases from standard input, one after another: programs, or parts of what programs are lowered to. Behind a line of hyphens it prints the automaton of the
//! program, and behind a line that begins with `run` the run that a word of the automaton and a point of the word's rows tell. A line that begins with `#` says what the
//! next cases show, and is printed. A line that begins with a word of `questions` asks something of the text above it, in which `@` stands for the rest of the
//! line; it is printed, and so is the answer. An empty line ends the text of which something is asked.
#![tactic(auto)]

mod acts;
mod callers;
mod calls;
mod graphs;
mod layouts;
mod lists;
mod parts;
mod printing;
mod programs;
mod questions;
mod runs;
mod stand_ins;
mod tables;

use crate::printing::{show_line, show_no_memory};
use crate::programs::{show_program, show_told};
use crate::questions::is_answered;
use std::alloc::AllocError;
use std::io::{self, Read};

/// Puts a line behind the text of a case.
fn push_line(text: &mut Vec<u8>, line: &[u8]) -> Result<(), AllocError> {
    text.extend_from_slice(line)?;
    text.push(b'\n')?;
    Ok(())
}

/// Answers a question about the text of a case, or puts the line behind it.
fn take_told(rt: &HostRuntime, text: &mut Vec<u8>, line: &[u8]) {
    if !is_answered(rt, text.as_slice(), line) && push_line(text, line).is_err() {
        show_no_memory(rt);
    }
}

/// Takes one more line of a case, whose text so far is held.
fn take_line(rt: &HostRuntime, text: &mut Vec<u8>, line: &[u8]) {
    if line == b"---".as_slice() {
        show_program(rt, text.as_slice());
        text.clear();
    } else if line.starts_with(b"run ") {
        show_told(rt, text.as_slice(), line);
        text.clear();
    } else if line.starts_with(b"#") {
        show_line(rt, str::from_utf8(line).unwrap_or("#"));
    } else if line.is_empty() {
        text.clear();
    } else {
        take_told(rt, text, line);
    }
}

fn take_lines(rt: &HostRuntime, input: &[u8]) {
    let mut text = Vec::new(rt.alloc());
    for line in input.split(|byte| *byte == b'\n') {
        take_line(rt, &mut text, line);
    }
}

fn main(rt: HostRuntime) -> io::Result<()> {
    let mut input = Vec::new(rt.alloc());
    rt.stdin().read_to_end(&mut input)?;
    take_lines(&rt, &input);
    Ok(())
}
