//! Replays of programs.

use crate::programs::program_of;
use crate::rows::{put_nothing, put_number};
use std::alloc::{AllocError, Global};
use table_reading::{parted, value};
use trace_replay::{Choice, Trail, replay};
use typed_tree::typing_rules::Typed;

fn choice(text: &str) -> Choice {
    Choice(value(text))
}

/// The most steps of a run, and behind a bar its values.
fn trail(alloc: Global, said: &str) -> Result<Trail, AllocError> {
    let (steps, values) = parted(said, " |");
    let steps = steps.parse::<u64>().unwrap_or(0);
    match values.split_whitespace().map(choice).collect(alloc) {
        Ok(choices) => Ok(Trail { steps, choices }),
        Err(fault) => Err(fault),
    }
}

fn show_failed(rt: &HostRuntime, number: u32, line: u32) {
    put_number(rt, "assertion ", u64::from(number), "");
    put_number(rt, " line ", u64::from(line), "\n");
}

/// Prints the assertion that fails, or the step at which the run stops, and why.
fn show_run(rt: &HostRuntime, program: &Typed, trail: &Trail) {
    match replay(rt.alloc(), program, trail) {
        Ok(id) => show_failed(rt, id.number, id.line),
        Err(fault) => {
            let _ = println!(rt; "{fault}");
        }
    }
}

fn show_replay_of(rt: &HostRuntime, program: &Typed, said: &str) {
    match trail(rt.alloc(), said) {
        Ok(trail) => show_run(rt, program, &trail),
        Err(_) => put_nothing(rt),
    }
}

/// Prints the end of a run of the program.
pub(crate) fn show_replay(rt: &HostRuntime, text: &str, said: &str) {
    match &program_of(rt.alloc(), text) {
        Some(program) => show_replay_of(rt, program, said),
        None => put_nothing(rt),
    }
}
