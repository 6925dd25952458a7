//! The program `explain`.
#![tactic(auto)]

use explain_top::run;
use outer_io::{FileShelf, StdSink};
use std::alloc::AllocError;
use std::process::ExitCode;
use text_reports::command_words::{given_words, grow_stack};

/// The status where memory ran out.
const NO_MEMORY: u8 = 6;

/// Runs the program over real files and the standard output, and answers its status.
fn status(rt: &HostRuntime) -> Result<u8, AllocError> {
    grow_stack(rt)?;
    let words = given_words(rt)?;
    let mut shelf = FileShelf::new(rt.clone()?);
    let mut sink = StdSink::new(rt.clone()?);
    Ok(run(rt.alloc(), &words, &mut shelf, &mut sink))
}

fn main(rt: HostRuntime) -> ExitCode {
    ExitCode::from(status(&rt).unwrap_or(NO_MEMORY))
}
