//! What is printed of programs, those that no text spells among them.

use crate::parsing::parsed;
use crate::texts::{bytes_of, put, put_bytes, put_no_memory, put_number};
use boogie_tree::{Decl, Expr, ExprKind, Guard, Name, Op, Program, Span, Stmt, Text, print};
use std::alloc::{AllocError, Global};
use std::mem;
use table_reading::{keep, number};

const HERE: Span = Span { line: 1, col: 1 };

/// A value that may go to another thread, and be read by two.
fn shared<T: Send + Sync>(value: &T) -> &T {
    value
}

fn printed(alloc: Global, program: &Program) -> Result<Vec<u8>, AllocError> {
    print(alloc, shared(program))
}

fn show_once(rt: &HostRuntime, program: &Program) {
    match printed(rt.alloc(), program) {
        Ok(bytes) => put_bytes(rt, &bytes),
        Err(_) => put_no_memory(rt),
    }
}

fn show_difference(rt: &HostRuntime, program: &Program, bytes: &[u8]) {
    match printed(rt.alloc(), program) {
        Ok(again) if again.as_slice() == bytes => {}
        _ => put(rt, "It is printed otherwise again.\n"),
    }
}

/// Shows what was printed, and says so where it is printed otherwise again.
fn show_again(rt: &HostRuntime, bytes: &[u8]) {
    put_bytes(rt, bytes);
    match parsed(rt, bytes) {
        Some(program) => show_difference(rt, &program, bytes),
        None => put(rt, "It is not read again.\n"),
    }
}

fn show_twice(rt: &HostRuntime, program: &Program) {
    match printed(rt.alloc(), program) {
        Ok(bytes) => show_again(rt, &bytes),
        Err(_) => put_no_memory(rt),
    }
}

fn show_parsed(rt: &HostRuntime, bytes: &[u8]) {
    if let Some(program) = &parsed(rt, bytes) {
        show_twice(rt, program);
    }
}

/// What is printed of the program of a text, or its fault.
pub(crate) fn show_program(rt: &HostRuntime, text: &str) {
    match bytes_of(rt.alloc(), text) {
        Ok(bytes) => show_parsed(rt, &bytes),
        Err(_) => put_no_memory(rt),
    }
}

fn show_last(rt: &HostRuntime, bytes: &[u8]) {
    let from = bytes.len().saturating_sub(20);
    put(rt, "..");
    put_bytes(rt, bytes.get(from..).unwrap_or(&[]));
}

fn show_end_of(rt: &HostRuntime, program: &Program) {
    match printed(rt.alloc(), program) {
        Ok(bytes) => show_last(rt, &bytes),
        Err(_) => put_no_memory(rt),
    }
}

/// The last 20 bytes of what is printed of the program of a text, or its fault.
pub(crate) fn show_end(rt: &HostRuntime, text: &str) {
    if let Some(program) = &parsed(rt, text.as_bytes()) {
        show_end_of(rt, program);
    }
}

fn implemented(declaration: Decl) -> Decl {
    match declaration {
        Decl::Procedure(procedure) => Decl::Implementation(procedure),
        other => other,
    }
}

fn implement(program: &mut Program, place: usize) -> Result<(), AllocError> {
    if place < program.decls.len() {
        let declaration = program.decls.remove(place);
        program.decls.insert(place, implemented(declaration))?;
    }
    Ok(())
}

/// What is printed of the program of a text where the declaration at a place, counted from 0, is an implementation.
pub(crate) fn show_implementation(rt: &HostRuntime, place: &str, text: &str) {
    if let Some(mut program) = parsed(rt, text.as_bytes()) {
        if implement(&mut program, number(place) as usize).is_ok() {
            show_once(rt, &program);
        }
    }
}

/// Puts statements into a branch.
fn branch(alloc: Global, stmts: &mut Vec<Stmt>) -> Result<(), AllocError> {
    let then = mem::replace(stmts, Vec::new(alloc));
    keep(stmts, Stmt::If(HERE, Guard::Any, then, Vec::new(alloc)))
}

fn branch_often(alloc: Global, stmts: &mut Vec<Stmt>, times: u32) -> Result<(), AllocError> {
    for _time in 0..times {
        branch(alloc, stmts)?;
    }
    Ok(())
}

fn branches(alloc: Global, program: &mut Program, times: u32) -> Result<(), AllocError> {
    match program.decls.last_mut() {
        Some(Decl::Procedure(procedure)) => match &mut procedure.body {
            Some(body) => branch_often(alloc, &mut body.stmts, times),
            None => Ok(()),
        },
        _ => Ok(()),
    }
}

/// Each line, behind the number of its leading blanks.
fn show_indented(rt: &HostRuntime, lines: &str) {
    for line in lines.lines() {
        let rest = line.trim_start_matches(' ');
        put_number(rt, "", line.len().saturating_sub(rest.len()) as u64, " ");
        put(rt, rest);
        put(rt, "\n");
    }
}

/// Each line of what is printed of a program, behind the number of its leading blanks.
fn show_lines(rt: &HostRuntime, program: &Program) {
    match printed(rt.alloc(), program) {
        Ok(bytes) => show_indented(rt, str::from_utf8(&bytes).unwrap_or("?")),
        Err(_) => put_no_memory(rt),
    }
}

/// The lines of what is printed of the program of a text where so many branches are around the statements of the last procedure.
pub(crate) fn show_branches(rt: &HostRuntime, times: &str, text: &str) {
    if let Some(mut program) = parsed(rt, text.as_bytes()) {
        if branches(rt.alloc(), &mut program, number(times)).is_ok() {
            show_lines(rt, &program);
        }
    }
}

fn variable(alloc: Global, word: &str) -> Result<ExprKind, AllocError> {
    let text = Text::new(Vec::from_slice(alloc, word.as_bytes())?);
    Ok(ExprKind::Var(Name { span: HERE, text }))
}

/// A literal, or else a variable.
fn leaf(alloc: Global, word: &str) -> Result<ExprKind, AllocError> {
    match word.parse::<i128>() {
        Ok(n) => Ok(ExprKind::Lit(n)),
        Err(_) => variable(alloc, word),
    }
}

/// The last of the parts, which is taken away.
fn last(parts: &mut Vec<Expr>) -> Expr {
    match parts.pop() {
        Some(part) => part,
        None => Expr {
            span: HERE,
            kind: ExprKind::Lit(0),
        },
    }
}

fn operand(alloc: Global, parts: &mut Vec<Expr>) -> Result<Box<Expr>, AllocError> {
    Ok(Box::new(alloc, last(parts))?)
}

fn operation(alloc: Global, op: Op, parts: &mut Vec<Expr>) -> Result<ExprKind, AllocError> {
    let right = operand(alloc, parts)?;
    match operand(alloc, parts) {
        Ok(left) => Ok(ExprKind::Bin(op, left, right)),
        Err(fault) => Err(fault),
    }
}

fn kind(alloc: Global, parts: &mut Vec<Expr>, word: &str) -> Result<ExprKind, AllocError> {
    match word {
        "-" => operation(alloc, Op::Sub, parts),
        "*" => operation(alloc, Op::Mul, parts),
        "neg" => Ok(ExprKind::Neg(operand(alloc, parts)?)),
        _ => leaf(alloc, word),
    }
}

fn push_words(alloc: Global, parts: &mut Vec<Expr>, postfix: &str) -> Result<(), AllocError> {
    for word in postfix.split_whitespace() {
        let kind = kind(alloc, parts, word)?;
        keep(parts, Expr { span: HERE, kind })?;
    }
    Ok(())
}

/// The expression of a text in postfix notation: `a b -` is `a - b`, and `a neg` is `-a`.
fn expression(alloc: Global, postfix: &str) -> Result<Expr, AllocError> {
    let mut parts = Vec::new(alloc);
    push_words(alloc, &mut parts, postfix)?;
    Ok(last(&mut parts))
}

/// The program whose axiom is the expression of a text.
fn axiom(alloc: Global, postfix: &str) -> Result<Program, AllocError> {
    let mut decls = Vec::new(alloc);
    decls.push(Decl::Axiom(HERE, expression(alloc, postfix)?))?;
    Ok(Program { decls })
}

/// What is printed of an axiom in postfix notation.
pub(crate) fn show_postfix(rt: &HostRuntime, text: &str) {
    match axiom(rt.alloc(), text) {
        Ok(program) => show_once(rt, &program),
        Err(_) => put_no_memory(rt),
    }
}

fn show_copy(rt: &HostRuntime, text: &Text) {
    match text.copy() {
        Ok(copied) => put_bytes(rt, copied.bytes()),
        Err(_) => put_no_memory(rt),
    }
}

/// The bytes of a text, of its copy, and those that it gives back.
fn show_kept(rt: &HostRuntime, kept: Text) {
    put_bytes(rt, kept.bytes());
    put(rt, " ");
    show_copy(rt, &kept);
    put(rt, " ");
    put_bytes(rt, &kept.into_bytes());
    put(rt, "\n");
}

/// The bytes of a text, of its copy, and those that it gives back.
pub(crate) fn show_text(rt: &HostRuntime, text: &str) {
    match Vec::from_slice(rt.alloc(), text.as_bytes()) {
        Ok(bytes) => show_kept(rt, Text::new(bytes)),
        Err(_) => put_no_memory(rt),
    }
}
