//! Whole programs.

ghost use Rattle.std.specs.Prelude.{IfSome};
ghost use Rattle.boogie_tree.specs.View.{program as tree};
ghost use Rattle.boogie_parse.specs.Spelling.PrintedTokens.{IsSpellableProgram};

use crate::graphs::show_graph;
use crate::printing::{end_line, show_line, show_no_memory, show_number};
use crate::runs::show_run;
use boogie_parse::parse;
use boogie_tree::{Program, Span};
use boogie_types::resolve;
use icfg_lower::{LowerFault, lower};
use table_reading::{numbers, parted, values};
use typed_tree::typing_rules::Typed;

/// The most bytes of a program.
const MOST_BYTES: usize = 1_048_576;

fn parsed(rt: &HostRuntime, text: &[u8]) -> Option<Program>
    ensures { IfSome result (λ p. IsSpellableProgram (tree p)) }
{
    if text.len() > MOST_BYTES {
        show_line(rt, "too long");
        return None;
    }
    match parse(rt.alloc(), text) {
        Ok(program) => Some(program),
        Err(_) => {
            show_line(rt, "no program");
            None
        }
    }
}

fn name_resolved(rt: &HostRuntime, program: Program) -> Option<Typed>
    requires spellable { IsSpellableProgram (tree program) }
{
    match resolve(rt.alloc(), program, "main") {
        Ok(typed) => Some(typed),
        Err(_) => {
            show_line(rt, "ill typed");
            None
        }
    }
}

/// The program of a text; where it is none, that is printed.
pub(crate) fn resolved(rt: &HostRuntime, text: &[u8]) -> Option<Typed> {
    match parsed(rt, text) {
        Some(program) => name_resolved(rt, program),
        None => None,
    }
}

/// Where a statement or a condition cannot be lowered.
fn show_refused(rt: &HostRuntime, why: &str, span: Span) {
    show_number(rt, why, span.line);
    show_number(rt, " ", span.col);
    end_line(rt);
}

fn show_lowered(rt: &HostRuntime, typed: &Typed) {
    match lower(rt.alloc(), typed) {
        Ok(graph) => show_graph(rt, &graph),
        Err(LowerFault::TooWide(span)) => show_refused(rt, "TooWide ", span),
        Err(LowerFault::TooBig(span)) => show_refused(rt, "TooBig ", span),
        Err(LowerFault::Memory) => show_no_memory(rt),
    }
}

/// The automaton of a program, or why it has none.
pub(crate) fn show_program(rt: &HostRuntime, text: &[u8]) {
    if let Some(typed) = &resolved(rt, text) {
        show_lowered(rt, typed);
    }
}

/// The run that letters and a point tell.
fn show_run_at(rt: &HostRuntime, typed: &Typed, letters: &[u32], point: &str) {
    match values(rt.alloc(), point) {
        Ok(point) => show_run(rt, typed, letters, &point),
        Err(_) => show_no_memory(rt),
    }
}

/// The run that a line tells behind its first word: the letters, and behind a colon the point.
fn show_run_of(rt: &HostRuntime, typed: &Typed, line: &str) {
    let (_, said) = parted(line, " ");
    let (letters, point) = parted(said, ":");
    match numbers(rt.alloc(), letters) {
        Ok(letters) => show_run_at(rt, typed, &letters, point),
        Err(_) => show_no_memory(rt),
    }
}

/// The run of a program that a line tells.
pub(crate) fn show_told(rt: &HostRuntime, text: &[u8], line: &[u8]) {
    if let Some(typed) = &resolved(rt, text) {
        show_run_of(rt, typed, str::from_utf8(line).unwrap_or("?"));
    }
}
