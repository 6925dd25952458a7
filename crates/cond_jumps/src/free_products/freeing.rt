//! Expressions with locals in the places of their free products.

ghost use Rattle.std.specs.Prelude.{◌≡◌, ◌+◌, true, false, IfOk, length, map};
ghost use Rattle.std.specs.List.{AllByRecursion};
ghost use Rattle.typed_tree.specs.TypedTree.{Old, Not, Neg, Bin};
ghost use Rattle.typed_tree.specs.TypedView.{expression};
ghost use Rattle.typed_tree.specs.AffineForm.{form, is_constant, forms_fit};
ghost use Rattle.typed_tree.specs.Scope.{is_constant_column};
ghost use Rattle.cond_jumps.specs.FreeProducts.FreeProducts.{is_free, free_products, stand_in, all_free_products};
ghost use Rattle.cond_jumps.specs.FreeProducts.FreedView.{IsFreed, AreFreed};

use crate::later;
use boogie_tree::{Column, Op, Span, VarInfo};
use std::alloc::{AllocError, Global};
use typed_tree::{AffineFault, TExpr, TExprKind, has_constant_form};

/// An expression with locals in the places of its products, and the number of the next local.
#[derive(Drop)]
pub struct FreedExpr {
    pub expr: TExpr,
    pub next: u32,
}

/// Expressions with locals in the places of their products, and the number of the next local.
#[derive(Drop)]
pub struct FreedExprs {
    pub exprs: Vec<TExpr>,
    pub next: u32,
}

/// Whether the form of an expression, each part of which fits, is constant.
fn is_constant(
    alloc: Global,
    globals: &[VarInfo],
    old: bool,
    expr: &TExpr,
) -> Result<bool, AllocError>
    requires { forms_fit (is_constant_column globals.now) old (expression expr.now) ≡ true }
    ensures { IfOk result (λ b. b ≡ is_constant (form (is_constant_column globals.now) old (expression expr.now))) }
{
    match has_constant_form(alloc, globals, old, expr) {
        Ok(constant) => Ok(constant),
        Err(AffineFault::Memory) => Err(AllocError),
        // The forms fit.
        Err(AffineFault::TooBig) => unreachable!(),
    }
}

/// Whether an operation is a product neither factor of which has a constant form.
fn is_free(
    alloc: Global,
    globals: &[VarInfo],
    old: bool,
    op: Op,
    left: &TExpr,
    right: &TExpr,
) -> Result<bool, AllocError>
    requires left { forms_fit (is_constant_column globals.now) old (expression left.now) ≡ true }
    requires right { forms_fit (is_constant_column globals.now) old (expression right.now) ≡ true }
    ensures { IfOk result (λ b. b ≡ is_free (is_constant_column globals.now) old op (expression left.now) (expression right.now)) }
{
    match op {
        Op::Mul => {
            if is_constant(alloc, globals, old, left)? {
                return Ok(false);
            }
            Ok(!is_constant(alloc, globals, old, right)?)
        }
        _ => Ok(false),
    }
}

/// How many free products of an expression stand in no other.
pub fn product_count(
    alloc: Global,
    globals: &[VarInfo],
    old: bool,
    expr: &TExpr,
) -> Result<u32, AllocError>
    requires { forms_fit (is_constant_column globals.now) old (expression expr.now) ≡ true }
    ensures { IfOk result (λ n. n ≡ length (free_products (is_constant_column globals.now) old (expression expr.now))) }
{
    match &expr.kind {
        TExprKind::Lit(_) | TExprKind::Truth(_) | TExprKind::Var(_) => Ok(0),
        TExprKind::Old(inner) => product_count(alloc, globals, true, inner),
        TExprKind::Not(inner) | TExprKind::Neg(inner) => product_count(alloc, globals, old, inner),
        TExprKind::Bin(op, left, right) => {
            if is_free(alloc, globals, old, *op, left, right)? {
                return Ok(1);
            }
            let first = product_count(alloc, globals, old, left)?;
            later(first, product_count(alloc, globals, old, right)?)
        }
    }
}

/// The local of a product, as an atom.
fn stand_in(alloc: Global, span: Span, local: u32) -> Result<FreedExpr, AllocError>
    ensures expr { IfOk result (λ f. expression f.expr ≡ stand_in span local) }
    ensures next { IfOk result (λ f. f.next ≡ local + 1) }
{
    let next = later(local, 1)?;
    let product = TExpr {
        span,
        kind: TExprKind::Var(Column::Local(local)),
    };
    let one = TExpr {
        span,
        kind: TExprKind::Lit(1),
    };
    Ok(FreedExpr {
        expr: TExpr {
            span,
            kind: TExprKind::Bin(Op::Div, Box::new(alloc, product)?, Box::new(alloc, one)?),
        },
        next,
    })
}

/// The value at the procedure's entry.
fn before(alloc: Global, span: Span, inner: FreedExpr) -> Result<FreedExpr, AllocError>
    ensures expr { IfOk result (λ f. expression f.expr ≡ Old span (expression inner.expr)) }
    ensures next { IfOk result (λ f. f.next ≡ inner.next) }
{
    Ok(FreedExpr {
        expr: TExpr {
            span,
            kind: TExprKind::Old(Box::new(alloc, inner.expr)?),
        },
        next: inner.next,
    })
}

/// `!a`.
fn negation(alloc: Global, span: Span, inner: FreedExpr) -> Result<FreedExpr, AllocError>
    ensures expr { IfOk result (λ f. expression f.expr ≡ Not span (expression inner.expr)) }
    ensures next { IfOk result (λ f. f.next ≡ inner.next) }
{
    Ok(FreedExpr {
        expr: TExpr {
            span,
            kind: TExprKind::Not(Box::new(alloc, inner.expr)?),
        },
        next: inner.next,
    })
}

/// `-a`.
fn negative(alloc: Global, span: Span, inner: FreedExpr) -> Result<FreedExpr, AllocError>
    ensures expr { IfOk result (λ f. expression f.expr ≡ Neg span (expression inner.expr)) }
    ensures next { IfOk result (λ f. f.next ≡ inner.next) }
{
    Ok(FreedExpr {
        expr: TExpr {
            span,
            kind: TExprKind::Neg(Box::new(alloc, inner.expr)?),
        },
        next: inner.next,
    })
}

/// An operation on two operands, of which the second was freed last.
fn operation(
    alloc: Global,
    span: Span,
    op: Op,
    first: TExpr,
    second: FreedExpr,
) -> Result<FreedExpr, AllocError>
    ensures expr { IfOk result (λ f. expression f.expr ≡ Bin span op (expression first) (expression second.expr)) }
    ensures next { IfOk result (λ f. f.next ≡ second.next) }
{
    Ok(FreedExpr {
        expr: TExpr {
            span,
            kind: TExprKind::Bin(op, Box::new(alloc, first)?, Box::new(alloc, second.expr)?),
        },
        next: second.next,
    })
}

/// The expression with the locals from number `next` on in the places of its products.
pub fn freed(
    alloc: Global,
    globals: &[VarInfo],
    next: u32,
    old: bool,
    expr: &TExpr,
) -> Result<FreedExpr, AllocError>
    requires { forms_fit (is_constant_column globals.now) old (expression expr.now) ≡ true }
    ensures { IfOk result (IsFreed (is_constant_column globals.now) next old (expression expr.now)) }
{
    match &expr.kind {
        TExprKind::Lit(_) | TExprKind::Truth(_) | TExprKind::Var(_) => Ok(FreedExpr {
            expr: expr.copy()?,
            next,
        }),
        TExprKind::Old(inner) => before(
            alloc,
            expr.span,
            freed(alloc, globals, next, true, inner)?,
        ),
        TExprKind::Not(inner) => negation(
            alloc,
            expr.span,
            freed(alloc, globals, next, old, inner)?,
        ),
        TExprKind::Neg(inner) => negative(
            alloc,
            expr.span,
            freed(alloc, globals, next, old, inner)?,
        ),
        TExprKind::Bin(op, left, right) => {
            if is_free(alloc, globals, old, *op, left, right)? {
                return stand_in(alloc, expr.span, next);
            }
            let first = freed(alloc, globals, next, old, left)?;
            let second = freed(alloc, globals, first.next, old, right)?;
            operation(alloc, expr.span, *op, first.expr, second)
        }
    }
}

/// How many free products of expressions that are read now stand in no other.
pub fn all_count(alloc: Global, globals: &[VarInfo], exprs: &[TExpr]) -> Result<u32, AllocError>
    requires { AllByRecursion (λ e. forms_fit (is_constant_column globals.now) false e ≡ true) (map expression exprs.now) }
    ensures { IfOk result (λ n. n ≡ length (all_free_products (is_constant_column globals.now) (map expression exprs.now))) }
{
    let mut count = 0;
    for expr in exprs {
        count = later(count, product_count(alloc, globals, false, expr)?)?;
    }
    Ok(count)
}

/// The expressions with the locals from number `first` on in the places of their products.
pub fn all_freed(
    alloc: Global,
    globals: &[VarInfo],
    first: u32,
    exprs: &[TExpr],
) -> Result<FreedExprs, AllocError>
    requires { AllByRecursion (λ e. forms_fit (is_constant_column globals.now) false e ≡ true) (map expression exprs.now) }
    ensures { IfOk result (AreFreed (is_constant_column globals.now) first (map expression exprs.now)) }
{
    let mut all = Vec::with_capacity(alloc, exprs.len())?;
    let mut next = first;
    for expr in exprs {
        let one = freed(alloc, globals, next, false, expr)?;
        all.push(one.expr)?;
        next = one.next;
    }
    Ok(FreedExprs { exprs: all, next })
}
