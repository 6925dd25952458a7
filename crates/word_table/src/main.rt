//! Reads cases from standard input and prints their answers. A case begins with a line `# what it shows`, which is printed again; the
//! other lines are a call each, over the automaton that was made last: its name, and behind a blank what it is called on.
#![tactic(auto)]

mod answers;
mod making;
mod races;
mod readers;
mod sets;
mod texts;
mod words;

use crate::answers::{show_no_memory, show_text};
use nwa_base::{Nwa, empty};
use std::io::{self, Read};
use table_reading::first_word;

/// The answer to a line.
fn show_line(rt: &HostRuntime, nwa: &mut Nwa, line: &str) {
    let (call, said) = first_word(line);
    match call {
        "#" => {
            show_text(rt, line);
            show_text(rt, "\n");
        }
        "ask" => readers::show_all(rt, nwa, said),
        "race" => races::show_race(rt, said),
        "end" => races::show_kind(rt, said),
        "find" => words::show_search(rt, nwa, said),
        "nested" => words::show_nested(rt, nwa, said),
        "words" | "accepts" | "runs" | "steps" | "sets" => words::show_all(rt, nwa, call, said),
        _ => making::show_call(rt, nwa, call, said),
    }
}

fn show_lines(rt: &HostRuntime, nwa: &mut Nwa, text: &str) {
    for line in text.lines() {
        show_line(rt, nwa, line);
    }
}

fn show_all(rt: &HostRuntime, text: &str) {
    match empty(rt.alloc(), 1, 0) {
        Ok(mut nwa) => show_lines(rt, &mut nwa, text),
        Err(_) => show_no_memory(rt, "automaton"),
    }
}

fn main(rt: HostRuntime) -> io::Result<()> {
    let mut text = Vec::new(rt.alloc());
    rt.stdin().read_to_end(&mut text)?;
    show_all(&rt, str::from_utf8(&text).unwrap_or("#"));
    Ok(())
}
