//! Conditions of called procedures with literal arguments in the places of their parameters.

ghost use Rattle.std.specs.Prelude.{◌≡◌, true, false, IfOk, map};
ghost use Rattle.std.specs.Option.{is_some};
ghost use Rattle.typed_tree.specs.TypedTree.{Old, Not, Neg, Bin};
ghost use Rattle.typed_tree.specs.TypedView.{expression};
ghost use Rattle.typed_tree.specs.AffineForm.{divisor_of, forms_fit};
ghost use Rattle.typed_tree.specs.Scope.{is_constant_column};
ghost use Rattle.cond_jumps.specs.FreeProducts.FrameLetters.{literal_or, put_in, told_condition};

use crate::free_products::freeing::product_count;
use boogie_tree::{Column, VarInfo};
use std::alloc::{AllocError, Global};
use typed_tree::{AffineFault, TExpr, TExprKind, has_constant_form};

/// Whether an argument is a literal, or one behind a `-`.
fn is_literal(arg: &TExpr) -> bool
    ensures { result ≡ is_some (divisor_of (expression arg.now)) }
{
    match &arg.kind {
        TExprKind::Lit(_) => true,
        TExprKind::Neg(inner) => matches!(&inner.kind, TExprKind::Lit(_)),
        _ => false,
    }
}

/// The literal argument for a parameter; the variable itself where it is no parameter, or its argument no literal.
fn literal_or(args: &[TExpr], column: Column, variable: &TExpr) -> Result<TExpr, AllocError>
    ensures { IfOk result (λ e. expression e ≡ literal_or (map expression args.now) column (expression variable.now)) }
{
    match column {
        Column::Local(n) => match args.get(n as usize) {
            Some(arg) => {
                if is_literal(arg) {
                    arg.copy()
                } else {
                    variable.copy()
                }
            }
            None => variable.copy(),
        },
        _ => variable.copy(),
    }
}

/// The condition with the literal arguments in the places of their parameters.
fn put_in(alloc: Global, args: &[TExpr], expr: &TExpr) -> Result<TExpr, AllocError>
    ensures { IfOk result (λ e. expression e ≡ put_in (map expression args.now) (expression expr.now)) }
{
    let kind = match &expr.kind {
        TExprKind::Lit(_) | TExprKind::Truth(_) => return expr.copy(),
        TExprKind::Var(column) => return literal_or(args, *column, expr),
        TExprKind::Old(inner) => TExprKind::Old(Box::new(alloc, put_in(alloc, args, inner)?)?),
        TExprKind::Not(inner) => TExprKind::Not(Box::new(alloc, put_in(alloc, args, inner)?)?),
        TExprKind::Neg(inner) => TExprKind::Neg(Box::new(alloc, put_in(alloc, args, inner)?)?),
        TExprKind::Bin(op, left, right) => {
            let first = put_in(alloc, args, left)?;
            let second = put_in(alloc, args, right)?;
            TExprKind::Bin(*op, Box::new(alloc, first)?, Box::new(alloc, second)?)
        }
    };
    Ok(TExpr {
        span: expr.span,
        kind,
    })
}

/// The condition of a called procedure as its products are told: with the literal arguments, where it has a free product and the forms
/// then fit. The globals are the program's.
pub fn told_condition(
    alloc: Global,
    globals: &[VarInfo],
    args: &[TExpr],
    cond: &TExpr,
) -> Result<TExpr, AllocError>
    requires { forms_fit (is_constant_column globals.now) false (expression cond.now) ≡ true }
    ensures told { IfOk result (λ e. expression e ≡ told_condition (is_constant_column globals.now) (map expression args.now) (expression cond.now)) }
    ensures fits { IfOk result (λ e. forms_fit (is_constant_column globals.now) false (expression e) ≡ true) }
{
    if product_count(alloc, globals, false, cond)? == 0 {
        return cond.copy();
    }
    let told = put_in(alloc, args, cond)?;
    match has_constant_form(alloc, globals, false, &told) {
        Ok(_) => Ok(told),
        Err(AffineFault::TooBig) => cond.copy(),
        Err(AffineFault::Memory) => Err(AllocError),
    }
}
