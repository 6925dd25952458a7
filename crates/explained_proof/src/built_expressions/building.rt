//! Expressions of the tree, put together. They stand nowhere in a text.

ghost use Rattle.std.specs.Prelude.{◌≡◌, [], ◌++◌, IfOk, OnOk, map, length};
ghost use Rattle.std.specs.Option.{option_map, option_to_list};
ghost use Rattle.math_facts.specs.Fits.{Fits};
ghost use Rattle.boogie_tree.specs.Apart.{nowhere};
ghost use Rattle.boogie_tree.specs.View as view;
ghost use Rattle.explained_proof.specs.BuiltExpressions.Building as spec;

use boogie_tree::{Expr, ExprKind, Name, Op, Span, Text};
use std::alloc::{AllocError, Global};

/// A chain of so many operands is written in one row; longer ones are cut into groups, so that no expression is deep.
const CHAIN: usize = 16;

/// What is added stands nowhere.
pub const NOWHERE: Span = Span { line: 0, col: 0 };

/// An expression of that kind.
pub fn expression(kind: ExprKind) -> Expr
    ensures { view.expression result ≡ view.kind_view nowhere kind }
{
    Expr {
        span: NOWHERE,
        kind,
    }
}

/// The variable of that name.
pub fn variable(name: Text) -> Expr
    ensures { view.expression result ≡ spec.variable name }
{
    expression(ExprKind::Var(Name {
        span: NOWHERE,
        text: name,
    }))
}

/// A whole number as the parser reads it: one below 0 is a `-` and a literal.
pub fn number(alloc: Global, value: i128) -> Result<Expr, AllocError>
    ensures { Fits value → IfOk result (λ e. view.expression e ≡ spec.number value) }
{
    if value >= 0 {
        return Ok(expression(ExprKind::Lit(value)));
    }
    if value == i128::MIN {
        // (no number that fits)
        return Ok(expression(ExprKind::Lit(value)));
    }
    let literal = expression(ExprKind::Lit(-value));
    Ok(expression(ExprKind::Neg(Box::new(alloc, literal)?)))
}

/// True or false.
pub fn truth(value: bool) -> Expr
    ensures { view.expression result ≡ spec.truth value }
{
    expression(ExprKind::Truth(value))
}

/// The opposite.
pub fn not(alloc: Global, inner: Expr) -> Result<Expr, AllocError>
    ensures { IfOk result (λ e. view.expression e ≡ spec.not_of (view.expression inner)) }
{
    Ok(expression(ExprKind::Not(Box::new(alloc, inner)?)))
}

/// The value at the entry.
pub fn old(alloc: Global, inner: Expr) -> Result<Expr, AllocError>
    ensures { IfOk result (λ e. view.expression e ≡ spec.old_of (view.expression inner)) }
{
    Ok(expression(ExprKind::Old(Box::new(alloc, inner)?)))
}

/// An operation.
pub fn operation(alloc: Global, op: Op, left: Expr, right: Expr) -> Result<Expr, AllocError>
    ensures { IfOk result (λ e. view.expression e ≡ spec.operation op (view.expression left) (view.expression right)) }
{
    let left = Box::new(alloc, left)?;
    let right = Box::new(alloc, right)?;
    Ok(expression(ExprKind::Bin(op, left, right)))
}

/// The operation on what is there and one part more.
fn with_part(alloc: Global, op: Op, whole: Option<Expr>, part: Expr) -> Result<Expr, AllocError>
    ensures { IfOk result (λ e. view.expression e ≡ spec.with_operand op (option_map view.expression whole) (view.expression part)) }
{
    match whole {
        None => Ok(part),
        Some(left) => operation(alloc, op, left, part),
    }
}

/// The operands in a row; none where there are none.
fn in_a_row(alloc: Global, op: Op, parts: Vec<Expr>) -> Result<Option<Expr>, AllocError>
    ensures { IfOk result (λ o. option_map view.expression o ≡ spec.row_of op (map view.expression parts.items)) }
{
    let mut whole = None;
    for part in parts {
        whole = Some(with_part(alloc, op, whole, part)?);
    }
    Ok(whole)
}

/// Puts a group, in a row, behind the groups, and empties it.
fn close(
    alloc: Global,
    op: Op,
    group: &mut Vec<Expr>,
    groups: &mut Vec<Expr>,
) -> Result<(), AllocError>
    ensures emptied { OnOk result (group.new.items ≡ []) }
    ensures closed { OnOk result (map view.expression groups.new.items ≡
        map view.expression groups.old.items ++ option_to_list (spec.row_of op (map view.expression group.old.items))) }
{
    let full = std::mem::replace(group, Vec::new(alloc));
    if let Some(joined) = in_a_row(alloc, op, full)? {
        groups.push(joined)?;
    }
    Ok(())
}

/// The operands in groups, each in a row.
fn in_groups(alloc: Global, op: Op, parts: Vec<Expr>) -> Result<Vec<Expr>, AllocError>
    ensures { IfOk result (λ groups. map view.expression groups.items ≡
        spec.in_groups (length (map view.expression parts.items)) op (map view.expression parts.items)) }
{
    let mut groups = Vec::new(alloc);
    let mut group = Vec::new(alloc);
    for part in parts {
        group.push(part)?;
        if group.len() == CHAIN {
            close(alloc, op, &mut group, &mut groups)?;
        }
    }
    close(alloc, op, &mut group, &mut groups)?;
    Ok(groups)
}

/// The operation on all operands, in order; none where there are none.
pub fn chained(alloc: Global, op: Op, parts: Vec<Expr>) -> Result<Option<Expr>, AllocError>
    ensures { IfOk result (λ o. option_map view.expression o ≡ spec.chained op (map view.expression parts.items)) }
{
    let mut parts = parts;
    while parts.len() > CHAIN {
        parts = in_groups(alloc, op, parts)?;
    }
    in_a_row(alloc, op, parts)
}
