//! Programs with their names resolved.

ghost use Rattle.boogie_tree.specs.View.{program as tree};
ghost use Rattle.boogie_parse.specs.Spelling.PrintedTokens.{IsSpellableProgram};

use crate::parsing::parsed;
use crate::rules::show_counts;
use crate::texts::{put, put_bytes, put_number};
use boogie_tree::{Column, Program, Span};
use boogie_types::resolve;
use typed_tree::typing_rules::Typed;
use typed_tree::{TExpr, TExprKind, TProc, TStmt};

/// The typed program that a program is; where it is none, the rule that it breaks is printed.
fn name_resolved(rt: &HostRuntime, entry: &str, program: Program) -> Option<Typed>
    requires spellable { IsSpellableProgram (tree program) }
{
    match resolve(rt.alloc(), program, entry) {
        Ok(typed) => Some(typed),
        Err(fault) => {
            let _ = println!(rt; "{fault:?}");
            None
        }
    }
}

/// The typed program of a text; where it is none, its fault is printed.
pub(crate) fn resolved(rt: &HostRuntime, entry: &str, text: &str) -> Option<Typed> {
    match parsed(rt, text.as_bytes()) {
        Some(program) => name_resolved(rt, entry, program),
        None => None,
    }
}

/// Whether a text is a typed program with that entry, or the rule that it breaks.
pub(crate) fn show_typed(rt: &HostRuntime, entry: &str, text: &str) {
    if resolved(rt, entry, text).is_some() {
        put(rt, "typed\n");
    }
}

fn show_column(rt: &HostRuntime, column: Column) {
    let _ = print!(rt; " {column:?}");
}

fn show_columns(rt: &HostRuntime, columns: &[Column]) {
    for column in columns {
        show_column(rt, *column);
    }
}

/// Arguments, of which those are shown that are variables.
fn show_arguments(rt: &HostRuntime, arguments: &[TExpr]) {
    for argument in arguments {
        match &argument.kind {
            TExprKind::Var(column) => show_column(rt, *column),
            _ => put(rt, " .."),
        }
    }
    put(rt, "\n");
}

fn show_call(rt: &HostRuntime, columns: &[Column], callee: u32, arguments: &[TExpr]) {
    put_number(rt, "call ", u64::from(callee), " gives");
    show_columns(rt, columns);
    put(rt, " takes");
    show_arguments(rt, arguments);
}

fn show_assignment(rt: &HostRuntime, at: Span, columns: &[Column]) {
    put_number(rt, "", u64::from(at.line), ":");
    put_number(rt, "", u64::from(at.col), " assigns to");
    show_columns(rt, columns);
    put(rt, "\n");
}

#[cycle(statements)]
fn show_loop(rt: &HostRuntime, statements: &[TStmt]) {
    put(rt, "while\n");
    show_statements(rt, statements);
    put(rt, "end\n");
}

#[cycle(statements)]
fn show_statements(rt: &HostRuntime, statements: &[TStmt]) {
    for statement in statements {
        match statement {
            TStmt::Assign(at, columns, _) => show_assignment(rt, *at, columns),
            TStmt::Call(_, columns, callee, values) => show_call(rt, columns, *callee, values),
            TStmt::Break(_, level) => put_number(rt, "break ", u64::from(*level), "\n"),
            TStmt::While(_, _, _, inner) => show_loop(rt, inner),
            _ => put(rt, "..\n"),
        }
    }
}

/// A procedure, with the names of its variables.
fn show_procedure(rt: &HostRuntime, procedure: &TProc) {
    put_bytes(rt, procedure.name.bytes());
    put(rt, ":");
    for local in &procedure.locals {
        put(rt, " ");
        put_bytes(rt, local.name.bytes());
    }
    put(rt, "\n");
    if let Some(body) = &procedure.body {
        show_statements(rt, body);
    }
}

/// The typed program of a text with that entry, with numbers in place of names.
pub(crate) fn show_resolved(rt: &HostRuntime, entry: &str, text: &str) {
    if let Some(program) = &resolved(rt, entry, text) {
        show_counts(rt, program);
        for procedure in program.procs() {
            show_procedure(rt, procedure);
        }
    }
}
