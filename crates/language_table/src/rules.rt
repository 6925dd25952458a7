//! The rules of statements and programs, over typed trees that may break them.

use crate::formulas::{column, column_of, literal, push_variables};
use crate::texts::{put, put_no_memory, put_number};
use boogie_tree::{Column, Span, Text, VarInfo};
use std::alloc::{AllocError, Global};
use table_reading::{first_word, keep, number, numbers};
use typed_tree::typing_rules::{Typed, check_typing, typed};
use typed_tree::{TExpr, TExprKind, TGuard, TProc, TStmt};

const HERE: Span = Span { line: 1, col: 1 };

fn columns(alloc: Global, letters: &str) -> Result<Vec<Column>, AllocError> {
    letters.bytes().filter_map(column).collect(alloc)
}

fn push_literals(values: &mut Vec<TExpr>, count: usize) -> Result<(), AllocError> {
    for _more in 0..count {
        keep(values, literal(1))?;
    }
    Ok(())
}

/// As many times the literal 1.
fn literals(alloc: Global, count: usize) -> Result<Vec<TExpr>, AllocError> {
    let mut values = Vec::new(alloc);
    push_literals(&mut values, count)?;
    Ok(values)
}

fn assignment(alloc: Global, letters: &str) -> Result<TStmt, AllocError> {
    let targets = columns(alloc, letters)?;
    match literals(alloc, targets.len()) {
        Ok(values) => Ok(TStmt::Assign(HERE, targets, values)),
        Err(fault) => Err(fault),
    }
}

/// A call with the argument 1, and no target.
fn call(alloc: Global, callee: u32) -> Result<TStmt, AllocError> {
    let values = literals(alloc, 1)?;
    Ok(TStmt::Call(HERE, Vec::new(alloc), callee, values))
}

fn assertion(letter: &str) -> TStmt {
    let kind = TExprKind::Var(column_of(letter).unwrap_or(Column::Global(0)));
    TStmt::Assert(HERE, TExpr { span: HERE, kind })
}

/// A goto to a label, or to none.
fn goto(alloc: Global, label: &str) -> Result<TStmt, AllocError> {
    Ok(TStmt::Goto(HERE, numbers(alloc, label)?))
}

/// The statement of a word: A asserts a column, H chooses columns, S sets columns to 1, C calls a procedure with 1, B leaves loops, G and L are
/// a goto and a label.
fn statement(alloc: Global, word: &str) -> Result<TStmt, AllocError> {
    let (first, rest) = word.split_at_checked(1).unwrap_or((word, ""));
    match first {
        "A" => Ok(assertion(rest)),
        "H" => Ok(TStmt::Havoc(HERE, columns(alloc, rest)?)),
        "S" => assignment(alloc, rest),
        "C" => call(alloc, number(rest)),
        "B" => Ok(TStmt::Break(HERE, number(rest))),
        "G" => goto(alloc, rest),
        _ => Ok(TStmt::Label(number(rest))),
    }
}

/// The branch or loop with these statements.
fn closed(alloc: Global, word: &str, inner: Vec<TStmt>) -> TStmt {
    if word == "loop)" {
        TStmt::While(HERE, TGuard::Any, Vec::new(alloc), inner)
    } else {
        TStmt::If(HERE, TGuard::Any, inner, Vec::new(alloc))
    }
}

/// Puts the statement of a word behind the innermost list.
fn push(alloc: Global, lists: &mut Vec<Vec<TStmt>>, word: &str) -> Result<(), AllocError> {
    match lists.last_mut() {
        Some(list) => keep(list, statement(alloc, word)?),
        None => Ok(()),
    }
}

/// The innermost list, which is taken away.
fn last(alloc: Global, lists: &mut Vec<Vec<TStmt>>) -> Vec<TStmt> {
    match lists.pop() {
        Some(list) => list,
        None => Vec::new(alloc),
    }
}

fn open(alloc: Global, lists: &mut Vec<Vec<TStmt>>) -> Result<(), AllocError> {
    keep(lists, Vec::new(alloc))
}

/// Puts the branch or loop of the innermost list behind the one around it.
fn close(alloc: Global, lists: &mut Vec<Vec<TStmt>>, word: &str) -> Result<(), AllocError> {
    let inner = last(alloc, lists);
    match lists.last_mut() {
        Some(list) => keep(list, closed(alloc, word, inner)),
        None => Ok(()),
    }
}

/// Takes a word into the lists that are open, the innermost last.
fn push_word(alloc: Global, lists: &mut Vec<Vec<TStmt>>, word: &str) -> Result<(), AllocError> {
    if word == "(" {
        open(alloc, lists)
    } else if word.ends_with(')') {
        close(alloc, lists, word)
    } else {
        push(alloc, lists, word)
    }
}

fn push_words(alloc: Global, lists: &mut Vec<Vec<TStmt>>, words: &str) -> Result<(), AllocError> {
    open(alloc, lists)?;
    for word in words.split_whitespace() {
        push_word(alloc, lists, word)?;
    }
    Ok(())
}

/// The statements of words.
fn statements(alloc: Global, words: &str) -> Result<Vec<TStmt>, AllocError> {
    let mut lists = Vec::new(alloc);
    push_words(alloc, &mut lists, words)?;
    Ok(last(alloc, &mut lists))
}

/// The parts of a program.
#[derive(Drop)]
struct Draft {
    globals: Vec<VarInfo>,
    procs: Vec<TProc>,
}

/// A procedure without a name and without a body.
fn unnamed(alloc: Global, results: u32) -> TProc {
    TProc {
        name: Text::new(Vec::new(alloc)),
        params: 1,
        results,
        locals: Vec::new(alloc),
        modifies: Vec::new(alloc),
        specs: Vec::new(alloc),
        body: None,
    }
}

/// Names a procedure, and gives it its variables and what it modifies.
fn set_head(
    alloc: Global,
    made: &mut TProc,
    name: &str,
    locals: &[u8],
    modifies: &[u32],
) -> Result<(), AllocError> {
    made.name = Text::new(Vec::from_slice(alloc, name.as_bytes())?);
    push_variables(alloc, &mut made.locals, locals)?;
    made.modifies.extend_from_slice(modifies)
}

/// Adds a procedure without a body, with a parameter, that modifies one global.
fn declare(
    alloc: Global,
    procs: &mut Vec<TProc>,
    name: &str,
    modified: u32,
) -> Result<(), AllocError> {
    keep(procs, unnamed(alloc, 0))?;
    match procs.last_mut() {
        Some(made) => set_head(alloc, made, name, b"a", &[modified]),
        None => Ok(()),
    }
}

/// Gives a procedure that body, a parameter and a result; it modifies x and p.
fn set_body(alloc: Global, made: &mut TProc, words: &str) -> Result<(), AllocError> {
    made.body = Some(statements(alloc, words)?);
    set_head(alloc, made, "main", b"ar", &[0, 1])
}

/// Adds a procedure with that body.
fn implement(alloc: Global, procs: &mut Vec<TProc>, words: &str) -> Result<(), AllocError> {
    keep(procs, unnamed(alloc, 1))?;
    match procs.last_mut() {
        Some(made) => set_body(alloc, made, words),
        None => Ok(()),
    }
}

fn fill(alloc: Global, draft: &mut Draft, words: &str, name: &str) -> Result<(), AllocError> {
    push_variables(alloc, &mut draft.globals, b"xpcy")?;
    implement(alloc, &mut draft.procs, words)?;
    declare(alloc, &mut draft.procs, name, 0)?;
    declare(alloc, &mut draft.procs, "other", 3)
}

/// The procedure `main` of that body, one of that name that modifies x, and one that modifies y.
fn parts_of(alloc: Global, words: &str, name: &str) -> Result<Draft, AllocError> {
    let mut draft = Draft {
        globals: Vec::new(alloc),
        procs: Vec::new(alloc),
    };
    fill(alloc, &mut draft, words, name)?;
    Ok(draft)
}

fn show_checked(rt: &HostRuntime, draft: &Draft) {
    match check_typing(rt.alloc(), &draft.globals, &[], &draft.procs) {
        Ok(()) => put(rt, "kept\n"),
        Err(fault) => {
            let _ = println!(rt; "{fault:?}");
        }
    }
}

/// Whether a body keeps the rules, or the rule that it breaks.
pub(crate) fn show_rules(rt: &HostRuntime, words: &str) {
    match parts_of(rt.alloc(), words, "f") {
        Ok(draft) => show_checked(rt, &draft),
        Err(_) => put_no_memory(rt),
    }
}

/// How many parts a program has.
pub(crate) fn show_counts(rt: &HostRuntime, program: &Typed) {
    put_number(rt, "globals ", program.globals().len() as u64, "");
    put_number(rt, " axioms ", program.axioms().len() as u64, "");
    put_number(rt, " procedures ", program.procs().len() as u64, "");
    put_number(rt, " entry ", u64::from(program.entry()), "\n");
}

fn show_copy(rt: &HostRuntime, program: &Typed) {
    match program.copy() {
        Ok(copied) => show_counts(rt, &copied),
        Err(_) => put_no_memory(rt),
    }
}

/// Whether these parts make a typed program, with a copy of it that has all its parts.
fn show_typed(rt: &HostRuntime, draft: Draft, entry: u32) {
    let Draft { globals, procs } = draft;
    match &typed(rt.alloc(), globals, Vec::new(rt.alloc()), procs, entry) {
        Ok(Some(program)) => show_copy(rt, program),
        Ok(None) => put(rt, "none\n"),
        Err(_) => put_no_memory(rt),
    }
}

/// Whether the name of the second procedure, the entry and the body make a typed program.
pub(crate) fn show_parts(rt: &HostRuntime, words: &str) {
    let (name, rest) = first_word(words);
    let (entry, words) = first_word(rest);
    match parts_of(rt.alloc(), words, name) {
        Ok(draft) => show_typed(rt, draft, number(entry)),
        Err(_) => put_no_memory(rt),
    }
}
