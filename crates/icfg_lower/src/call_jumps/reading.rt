//! Conditions and expressions over numbered columns, by what stands for their columns.

ghost use Rattle.std.specs.Prelude.{◌≡◌, IfOk};
ghost use Rattle.typed_tree.specs.TypedView.{expression};
ghost use Rattle.typed_tree.specs.AffineForm.{read_at};
ghost use Rattle.icfg_lower.specs.CallJumps.Ties.Reading.{is_truth_by, read_by, rebuilt};
ghost use Rattle.icfg_lower.specs.CallJumps.Ties.Stands.{stands_of};

use crate::call_jumps::reader::Reader;
use crate::call_jumps::rebuilding::{binary, division, equality, negation, negative, product};
use crate::call_jumps::types::result_type;
use boogie_tree::{Column, Op, Span, Ty};
use std::alloc::{AllocError, Global};
use typed_tree::{TExpr, TExprKind};

/// The column that is read at the procedure's entry or now.
pub fn read_at(old: bool, column: Column) -> Column
    ensures { result ≡ read_at old column }
{
    match column {
        Column::Global(n) if old => Column::Old(n),
        _ => column,
    }
}

/// Whether an expression that has a type is a truth value.
fn is_truth(reader: &Reader<'_>, old: bool, expr: &TExpr) -> Result<bool, AllocError>
    ensures { IfOk result (λ b. b ≡ is_truth_by (stands_of reader.now) old (expression expr.now)) }
{
    match &expr.kind {
        TExprKind::Lit(_) | TExprKind::Neg(_) => Ok(false),
        TExprKind::Truth(_) | TExprKind::Not(_) => Ok(true),
        TExprKind::Var(column) => {
            let standing = reader.standing(read_at(old, *column))?;
            Ok(matches!(&standing.ty, Some(Ty::Bool)))
        }
        TExprKind::Old(inner) => is_truth(reader, true, inner),
        TExprKind::Bin(op, _, _) => Ok(matches!(result_type(*op), Ty::Bool)),
    }
}

/// An operation on `a` and `b`, for which `x` and `y` stand; `truths` says whether `a` is a truth value.
fn rebuilt(
    alloc: Global,
    span: Span,
    op: Op,
    truths: bool,
    a: &TExpr,
    b: &TExpr,
    x: TExpr,
    y: TExpr,
) -> Result<TExpr, AllocError>
    ensures { IfOk result (λ e. expression e ≡ rebuilt span op truths (expression a.now) (expression b.now) (expression x) (expression y)) }
{
    match op {
        Op::Mul => product(alloc, span, a, b, x, y),
        Op::Div | Op::Mod => division(alloc, span, op, x, b),
        Op::Eq | Op::Ne => equality(alloc, span, op, truths, x, y),
        _ => binary(alloc, span, op, x, y),
    }
}

/// An expression over numbered columns, for one that is read at the procedure's entry or now.
pub fn read(
    alloc: Global,
    reader: &Reader<'_>,
    old: bool,
    expr: &TExpr,
) -> Result<TExpr, AllocError>
    ensures { IfOk result (λ e. expression e ≡ read_by (stands_of reader.now) old (expression expr.now)) }
{
    match &expr.kind {
        TExprKind::Lit(_) | TExprKind::Truth(_) => expr.copy(),
        TExprKind::Var(column) => {
            let standing = reader.standing(read_at(old, *column))?;
            Ok(standing.expr)
        }
        TExprKind::Old(inner) => read(alloc, reader, true, inner),
        TExprKind::Not(inner) => negation(alloc, expr.span, read(alloc, reader, old, inner)?),
        TExprKind::Neg(inner) => negative(alloc, expr.span, read(alloc, reader, old, inner)?),
        TExprKind::Bin(op, left, right) => {
            let truths = is_truth(reader, old, left)?;
            let x = read(alloc, reader, old, left)?;
            let y = read(alloc, reader, old, right)?;
            rebuilt(alloc, expr.span, *op, truths, left, right, x, y)
        }
    }
}
