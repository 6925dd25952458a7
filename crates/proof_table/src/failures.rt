//! The texts of failures.

ghost use Rattle.std.specs.List.{AllByRecursion};
ghost use Rattle.math_facts.specs.Fits.{Fits};
ghost use Rattle.trace_replay.specs.FailureText.{numbers};

use crate::rows::{put, put_nothing, put_number, put_value};
use crate::texts::{show_same, text_of};
use trace_replay::{Failure, read_failure, write_failure};

/// Prints what a failure tells.
fn show_told(rt: &HostRuntime, failure: &Failure) {
    put_number(rt, "rounds ", failure.rounds, "");
    put_number(rt, " assertion ", u64::from(failure.id.number), "");
    put_number(rt, " line ", u64::from(failure.id.line), "");
    put_number(rt, " steps ", failure.trail.steps, "");
    put_number(rt, " values ", failure.trail.choices.len() as u64, ":");
    for choice in &failure.trail.choices {
        put_value(rt, " ", choice.0, "");
    }
    put(rt, "\n");
}

/// Prints a failure, and whether its text is this one.
fn show_read(rt: &HostRuntime, failure: &Failure, text: &[u8])
    requires { AllByRecursion Fits (numbers failure.now.trail.choices.items) }
{
    show_told(rt, failure);
    match write_failure(rt.alloc(), failure) {
        Ok(written) => show_same(rt, &written, text),
        Err(_) => put_nothing(rt),
    }
}

fn show_text(rt: &HostRuntime, text: &[u8]) {
    match read_failure(rt.alloc(), text) {
        Ok(failure) => show_read(rt, &failure, text),
        Err(fault) => {
            let _ = println!(rt; "{fault}");
        }
    }
}

/// Prints what a text tells of a failure and whether it is written so, or which line cannot stand in it.
pub(crate) fn show_failure(rt: &HostRuntime, said: &str) {
    match text_of(rt.alloc(), "", said) {
        Ok(text) => show_text(rt, text.as_bytes()),
        Err(_) => put_nothing(rt),
    }
}
