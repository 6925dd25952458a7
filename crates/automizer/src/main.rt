//! The program `automizer`.
#![tactic(auto)]

use automizer_top::run;
use outer_io::{FileShelf, StdSink};
use race_workers::NoGate;
use std::alloc::AllocError;
use std::process::ExitCode;
use std::sync::Wait;
use std::thread::Threads;
use text_reports::command_words::{given_words, grow_stack};

/// The status where memory ran out.
const NO_MEMORY: u8 = 6;

/// Runs the program over real files and the standard output, and answers its status.
fn status<R: Threads + Wait + Sync>(threads: &R, rt: &HostRuntime) -> Result<u8, AllocError> {
    grow_stack(rt)?;
    let words = given_words(rt)?;
    let mut shelf = FileShelf::new(rt.clone()?);
    let mut sink = StdSink::new(rt.clone()?);
    let mut closed = Vec::new(rt.alloc());
    Ok(run(
        threads,
        rt.alloc(),
        &words,
        &mut shelf,
        &mut sink,
        &NoGate,
        &mut closed,
    ))
}

fn main(rt: HostRuntime) -> ExitCode {
    ExitCode::from(status(&rt, &rt).unwrap_or(NO_MEMORY))
}
