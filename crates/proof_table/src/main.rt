//! Reads texts and questions about them from standard input, and prints the questions with their answers.
//!
//! A line behind `#` tells what the questions behind it show. A line behind `?` asks. A line behind `!` is a part of what is asked: a
//! node of a refutation, or a predicate. Other lines are a text: a program, a graph (`parts` says how), an annotation or a failure. A
//! text and parts stand for each question until others follow.
#![tactic(auto)]

mod annotations;
mod asking;
mod automata;
mod building;
mod coarse;
mod failures;
mod finding;
mod given;
mod graphs;
mod interpolating;
mod lists;
mod parts;
mod predicates;
mod programs;
mod reading;
mod refutations;
mod replays;
mod rows;
mod stepping;
mod texts;
mod triples;
mod words;

use crate::asking::read_line;
use crate::given::Given;
use std::io::{self, Read};
use std::thread::Threads;

/// Answers the questions of a text.
fn answer_all<R: Threads + Sync>(threads: &R, rt: &HostRuntime, text: &str) {
    let mut given = Given::empty(rt.alloc());
    for line in text.lines() {
        read_line(threads, rt, &mut given, line);
    }
}

fn main(rt: HostRuntime) -> io::Result<()> {
    let mut bytes = Vec::new(rt.alloc());
    rt.stdin().read_to_end(&mut bytes)?;
    answer_all(&rt, &rt, str::from_utf8(&bytes).unwrap_or("?"));
    Ok(())
}
