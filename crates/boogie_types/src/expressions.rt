//! Expressions with their names replaced.

ghost use Rattle.std.specs.Prelude.{◌≡◌, Some, map, IfOk, IfErr};
ghost use Rattle.boogie_tree.specs.View as view;
ghost use Rattle.typed_tree.specs.TypedView as typed;
ghost use Rattle.typed_tree.specs.Scope.{seen};
ghost use Rattle.boogie_types.specs.Naming as naming;
ghost use Rattle.boogie_types.specs.Ties.NamingFaults.{IsExpressionFault};

use crate::names::Names;
use boogie_tree::{Expr, ExprKind};
use std::alloc::Global;
use typed_tree::{TExpr, TExprKind, TypeFault};

/// An expression with its names replaced. A name that means nothing here is unknown.
pub(crate) fn named(alloc: Global, names: &Names<'_, '_>, expr: &Expr) -> Result<TExpr, TypeFault>
    ensures ok { IfOk result (λ t. naming.named (seen names.now.scope) (view.expression expr.now) ≡ Some (typed.expression t)) }
    ensures fault { IfErr result (λ f. IsExpressionFault (seen names.now.scope) (view.expression expr.now) f) }
{
    let span = expr.span;
    let kind = kind_of(alloc, names, expr)?;
    Ok(TExpr { span, kind })
}

/// The same on the heap: a part of an expression.
#[cycle(expressions)]
fn boxed(alloc: Global, names: &Names<'_, '_>, expr: &Expr) -> Result<Box<TExpr>, TypeFault>
    ensures ok { IfOk result (λ t. naming.named (seen names.now.scope) (view.expression expr.now) ≡ Some (typed.expression t.value)) }
    ensures fault { IfErr result (λ f. IsExpressionFault (seen names.now.scope) (view.expression expr.now) f) }
{
    let span = expr.span;
    let kind = kind_of(alloc, names, expr)?;
    Ok(Box::new(alloc, TExpr { span, kind })?)
}

/// What an expression is, with its names replaced. It recurses as deep as expressions are nested.
#[cycle(expressions)]
fn kind_of(alloc: Global, names: &Names<'_, '_>, expr: &Expr) -> Result<TExprKind, TypeFault>
    ensures ok { IfOk result (λ k. naming.named (seen names.now.scope) (view.expression expr.now) ≡ Some (typed.kind_view expr.now.span k)) }
    ensures fault { IfErr result (λ f. IsExpressionFault (seen names.now.scope) (view.expression expr.now) f) }
{
    match &expr.kind {
        ExprKind::Lit(n) => Ok(TExprKind::Lit(*n)),
        ExprKind::Truth(value) => Ok(TExprKind::Truth(*value)),
        ExprKind::Var(name) => match names.column(name.text.bytes()) {
            Some(column) => Ok(TExprKind::Var(column)),
            None => Err(TypeFault::Unknown(expr.span)),
        },
        ExprKind::Old(inner) => Ok(TExprKind::Old(boxed(alloc, names, inner)?)),
        ExprKind::Not(inner) => Ok(TExprKind::Not(boxed(alloc, names, inner)?)),
        ExprKind::Neg(inner) => Ok(TExprKind::Neg(boxed(alloc, names, inner)?)),
        ExprKind::Bin(op, left, right) => {
            let left = boxed(alloc, names, left)?;
            let right = boxed(alloc, names, right)?;
            Ok(TExprKind::Bin(*op, left, right))
        }
    }
}
