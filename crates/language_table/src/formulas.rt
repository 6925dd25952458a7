//! The types of typed expressions, and affine forms. An expression in postfix notation may break the typing rules.

ghost use Rattle.std.specs.Prelude.{◌≡◌, true, false, [], IfOk};
ghost use Rattle.typed_tree.specs.TypedView.{expression as seen};
ghost use Rattle.typed_tree.specs.AffineForm.{is_affine, is_linear};
ghost use Rattle.typed_tree.specs.Scope.{is_constant_column};

use crate::texts::{put, put_no_memory};
use boogie_tree::{Column, Op, Span, Text, Ty, VarInfo};
use std::alloc::{AllocError, Global};
use table_reading::{keep, value};
use typed_tree::{
    Affine, AffineFault, Scope, TExpr, TExprKind, TypeFault, affine, expression_type,
};

const HERE: Span = Span { line: 1, col: 1 };

/// The column of a letter: x, p, c and y are globals, a and r locals; z is a global that there is not.
pub(crate) fn column(letter: u8) -> Option<Column> {
    match letter {
        b'x' => Some(Column::Global(0)),
        b'p' => Some(Column::Global(1)),
        b'c' => Some(Column::Global(2)),
        b'y' => Some(Column::Global(3)),
        b'z' => Some(Column::Global(4)),
        b'a' => Some(Column::Local(0)),
        b'r' => Some(Column::Local(1)),
        _ => None,
    }
}

/// The column of a word: a letter, or `x@` for what x had at the entry.
pub(crate) fn column_of(word: &str) -> Option<Column> {
    match word.as_bytes() {
        [letter] => column(*letter),
        [b'x', b'@'] => Some(Column::Old(0)),
        _ => None,
    }
}

/// A variable: p is a truth value and the others are whole numbers, c is a constant and a is a parameter.
fn variable(alloc: Global, letter: u8) -> Result<VarInfo, AllocError> {
    let name = Text::new(Vec::from_slice(alloc, &[letter])?);
    let ty = if letter == b'p' { Ty::Bool } else { Ty::Int };
    let constant = letter == b'c' || letter == b'a';
    Ok(VarInfo { name, ty, constant })
}

pub(crate) fn push_variables(
    alloc: Global,
    variables: &mut Vec<VarInfo>,
    letters: &[u8],
) -> Result<(), AllocError> {
    for letter in letters {
        keep(variables, variable(alloc, *letter)?)?;
    }
    Ok(())
}

pub(crate) fn variables(alloc: Global, letters: &[u8]) -> Result<Vec<VarInfo>, AllocError> {
    let mut variables = Vec::new(alloc);
    push_variables(alloc, &mut variables, letters)?;
    Ok(variables)
}

fn operator(word: &str) -> Option<Op> {
    match word {
        "+" => Some(Op::Add),
        "-" => Some(Op::Sub),
        "*" => Some(Op::Mul),
        "div" => Some(Op::Div),
        "mod" => Some(Op::Mod),
        "<" => Some(Op::Lt),
        "==" => Some(Op::Eq),
        "&&" => Some(Op::And),
        "==>" => Some(Op::Implies),
        "<==>" => Some(Op::Iff),
        _ => None,
    }
}

fn literal_of(word: &str) -> i128 {
    match word {
        "max" => i128::MAX,
        "min" => i128::MIN,
        _ => value(word),
    }
}

/// A truth value or a column, or else a number.
fn leaf(word: &str) -> TExprKind {
    if word == "true" {
        return TExprKind::Truth(true);
    }
    match column_of(word) {
        Some(column) => TExprKind::Var(column),
        None => TExprKind::Lit(literal_of(word)),
    }
}

/// The last of the parts, which is taken away.
fn last(parts: &mut Vec<TExpr>) -> TExpr {
    match parts.pop() {
        Some(part) => part,
        None => literal(0),
    }
}

fn operand(alloc: Global, parts: &mut Vec<TExpr>) -> Result<Box<TExpr>, AllocError> {
    Ok(Box::new(alloc, last(parts))?)
}

fn operation(alloc: Global, op: Op, parts: &mut Vec<TExpr>) -> Result<TExprKind, AllocError> {
    let right = operand(alloc, parts)?;
    match operand(alloc, parts) {
        Ok(left) => Ok(TExprKind::Bin(op, left, right)),
        Err(fault) => Err(fault),
    }
}

/// What a word that takes one operand makes of it.
fn applied(word: &str, operand: Box<TExpr>) -> TExprKind {
    match word {
        "old" => TExprKind::Old(operand),
        "not" => TExprKind::Not(operand),
        _ => TExprKind::Neg(operand),
    }
}

fn kind(alloc: Global, parts: &mut Vec<TExpr>, word: &str) -> Result<TExprKind, AllocError> {
    match operator(word) {
        Some(op) => operation(alloc, op, parts),
        None if matches!(word, "old" | "not" | "neg") => {
            Ok(applied(word, operand(alloc, parts)?))
        }
        None => Ok(leaf(word)),
    }
}

fn push_word(
    alloc: Global,
    parts: &mut Vec<TExpr>,
    word: &str,
    col: u32,
) -> Result<(), AllocError> {
    let kind = kind(alloc, parts, word)?;
    let span = Span { line: 1, col };
    keep(parts, TExpr { span, kind })
}

fn push_words(alloc: Global, parts: &mut Vec<TExpr>, postfix: &str) -> Result<(), AllocError> {
    let mut col = 0u32;
    for word in postfix.split_whitespace() {
        col = col.wrapping_add(1);
        push_word(alloc, parts, word, col)?;
    }
    Ok(())
}

/// The expression in postfix notation. Each part stands in line 1, at the column that is the number of its word.
fn expression(alloc: Global, postfix: &str) -> Result<TExpr, AllocError> {
    let mut parts = Vec::new(alloc);
    push_words(alloc, &mut parts, postfix)?;
    Ok(last(&mut parts))
}

fn show_outcome(rt: &HostRuntime, outcome: &Result<Ty, TypeFault>) {
    let _ = match outcome {
        Ok(ty) => print!(rt; "{ty:?}"),
        Err(fault) => print!(rt; "{fault:?}"),
    };
}

fn show_copied(rt: &HostRuntime, scope: &Scope<'_>, expr: &TExpr) {
    match expr.copy() {
        Ok(copied) => show_outcome(rt, &expression_type(rt.alloc(), scope, &copied)),
        Err(_) => put_no_memory(rt),
    }
}

fn show_both(rt: &HostRuntime, scope: &Scope<'_>, expr: &TExpr) {
    show_outcome(rt, &expression_type(rt.alloc(), scope, expr));
    put(rt, " copied ");
    show_copied(rt, scope, expr);
    put(rt, "\n");
}

fn show_in(rt: &HostRuntime, scope: &Scope<'_>, postfix: &str) {
    match expression(rt.alloc(), postfix) {
        Ok(expr) => show_both(rt, scope, &expr),
        Err(_) => put_no_memory(rt),
    }
}

/// The type in an axiom, or in a body with these local variables.
fn show_in_place(
    rt: &HostRuntime,
    globals: &[VarInfo],
    locals: &[VarInfo],
    place: &str,
    postfix: &str,
) {
    let body = place != "axiom";
    let scope = Scope {
        globals,
        variables: body,
        locals: if body { locals } else { &[] },
        old: body,
    };
    show_in(rt, &scope, postfix);
}

fn show_among(rt: &HostRuntime, globals: &[VarInfo], place: &str, postfix: &str) {
    match variables(rt.alloc(), b"ar") {
        Ok(locals) => show_in_place(rt, globals, &locals, place, postfix),
        Err(_) => put_no_memory(rt),
    }
}

/// The type of an expression in an axiom or in a body, or the fault; and again for its copy.
pub(crate) fn show_type(rt: &HostRuntime, place: &str, postfix: &str) {
    match variables(rt.alloc(), b"xpcy") {
        Ok(globals) => show_among(rt, &globals, place, postfix),
        Err(_) => put_no_memory(rt),
    }
}

pub(crate) fn literal(n: i128) -> TExpr
    ensures { (is_affine (seen result) ≡ true) × (is_linear (is_constant_column []) false (seen result) ≡ true) }
{
    TExpr {
        span: HERE,
        kind: TExprKind::Lit(n),
    }
}

/// The literal times the column.
fn product(alloc: Global, n: i128, column: Column) -> Result<TExpr, AllocError>
    ensures { IfOk result (λ e. (is_affine (seen e) ≡ true) × (is_linear (is_constant_column []) false (seen e) ≡ true)) }
{
    let factor = TExpr {
        span: HERE,
        kind: TExprKind::Lit(n),
    };
    let column = TExpr {
        span: HERE,
        kind: TExprKind::Var(column),
    };
    let kind = TExprKind::Bin(Op::Mul, Box::new(alloc, factor)?, Box::new(alloc, column)?);
    Ok(TExpr { span: HERE, kind })
}

/// A literal, or one times a column, as `2*x`.
fn term(alloc: Global, word: &str) -> Result<TExpr, AllocError>
    ensures { IfOk result (λ e. (is_affine (seen e) ≡ true) × (is_linear (is_constant_column []) false (seen e) ≡ true)) }
{
    match word.split_once('*') {
        Some((n, letter)) => product(
            alloc,
            literal_of(n),
            column_of(letter).unwrap_or(Column::Global(0)),
        ),
        None => Ok(literal(literal_of(word))),
    }
}

fn difference(alloc: Global, a: TExpr, b: TExpr) -> Result<TExpr, AllocError>
    requires { (is_affine (seen a) ≡ true) × (is_linear (is_constant_column []) false (seen a) ≡ true) × (is_affine (seen b) ≡ true) × (is_linear (is_constant_column []) false (seen b) ≡ true) }
    ensures { IfOk result (λ e. (is_affine (seen e) ≡ true) × (is_linear (is_constant_column []) false (seen e) ≡ true)) }
{
    let kind = TExprKind::Bin(Op::Sub, Box::new(alloc, a)?, Box::new(alloc, b)?);
    Ok(TExpr { span: HERE, kind })
}

fn difference_of(alloc: Global, terms: &str) -> Result<TExpr, AllocError>
    ensures { IfOk result (λ e. (is_affine (seen e) ≡ true) × (is_linear (is_constant_column []) false (seen e) ≡ true)) }
{
    let (first, second) = terms.split_once(" - ").unwrap_or((terms, "0"));
    let first = term(alloc, first)?;
    match term(alloc, second) {
        Ok(second) => difference(alloc, first, second),
        Err(fault) => Err(fault),
    }
}

fn show_term(rt: &HostRuntime, column: Column, coefficient: i128) {
    let _ = print!(rt; "{coefficient} {column:?} ");
}

fn show_constant(rt: &HostRuntime, constant: i128) {
    let _ = println!(rt; "{constant}");
}

fn show_affine(rt: &HostRuntime, form: &Affine) {
    for (column, coefficient) in form.terms.as_slice() {
        show_term(rt, *column, *coefficient);
    }
    show_constant(rt, form.constant);
}

fn show_fault(rt: &HostRuntime, fault: &AffineFault) {
    let _ = println!(rt; "{fault:?}");
}

fn show_form_of(rt: &HostRuntime, expr: &TExpr)
    requires { (is_affine (seen expr.now) ≡ true) × (is_linear (is_constant_column []) false (seen expr.now) ≡ true) }
{
    match affine(rt.alloc(), expr) {
        Ok(form) => show_affine(rt, &form),
        Err(fault) => show_fault(rt, &fault),
    }
}

/// The affine form of a difference of two terms.
pub(crate) fn show_form(rt: &HostRuntime, terms: &str) {
    match difference_of(rt.alloc(), terms) {
        Ok(expr) => show_form_of(rt, &expr),
        Err(_) => put_no_memory(rt),
    }
}
