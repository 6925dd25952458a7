//! Runs of programs.

ghost use Rattle.boogie_run.specs.RunView.{FitsProgram};

use crate::resolving::resolved;
use crate::texts::{put, put_no_memory};
use boogie_run::{Choice, Config, Moved, Need, RunFault, needs, start, step};
use table_reading::values;
use typed_tree::typing_rules::Typed;

fn show_outcome(rt: &HostRuntime, outcome: &Result<Moved, RunFault>) {
    let _ = match outcome {
        Ok(moved) => println!(rt; " {moved:?}"),
        Err(fault) => println!(rt; " {fault:?}"),
    };
}

/// A point for each step that goes on, and then how the run ends.
fn show_steps<'a>(rt: &HostRuntime, program: &'a Typed, begun: Config<'a>, choices: &[i128])
    requires { FitsProgram program.now begun }
{
    let mut config = begun;
    let mut taken = 0usize;
    for _more in 0..100 {
        let mut choice = None;
        if needs(program, &config) != Need::Nothing {
            choice = choices.get(taken).map(|chosen| Choice(*chosen));
            taken = taken.saturating_add(1);
        }
        let outcome = step(program, &mut config, choice);
        if !matches!(outcome, Ok(Moved::Went)) {
            return show_outcome(rt, &outcome);
        }
        put(rt, ".");
    }
    put(rt, " goes on\n");
}

fn show_run_by(rt: &HostRuntime, program: &Typed, choices: &[i128]) {
    match start(rt.alloc(), program) {
        Ok(begun) => show_steps(rt, program, begun, choices),
        Err(_) => put_no_memory(rt),
    }
}

fn show_run_of(rt: &HostRuntime, program: &Typed, words: &str) {
    match values(rt.alloc(), words) {
        Ok(choices) => show_run_by(rt, program, &choices),
        Err(_) => put_no_memory(rt),
    }
}

/// The run of the program of a text that these choices make.
pub(crate) fn show_run(rt: &HostRuntime, words: &str, text: &str) {
    if let Some(program) = &resolved(rt, "main", text) {
        show_run_of(rt, program, words);
    }
}
