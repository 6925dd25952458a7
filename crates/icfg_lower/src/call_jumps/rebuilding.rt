//! Operations on operands for which other expressions stand.

ghost use Rattle.std.specs.Prelude.{◌≡◌, IfOk, pos};
ghost use Rattle.typed_tree.specs.TypedTree.{Lit, Not, Neg, Bin};
ghost use Rattle.typed_tree.specs.TypedView.{expression};
ghost use Rattle.icfg_lower.specs.CallJumps.Ties.Reading.{constant_part, product, is_divisor_form, division, truth_equality, equality};

use crate::call_jumps::constants::constant_part;
use boogie_tree::{Op, Span};
use std::alloc::{AllocError, Global};
use typed_tree::{TExpr, TExprKind};

/// 0.
pub fn zero(span: Span) -> TExpr
    ensures { expression result ≡ Lit span (pos 0) }
{
    TExpr {
        span,
        kind: TExprKind::Lit(0),
    }
}

/// `-a`.
pub fn negative(alloc: Global, span: Span, a: TExpr) -> Result<TExpr, AllocError>
    ensures { IfOk result (λ e. expression e ≡ Neg span (expression a)) }
{
    Ok(TExpr {
        span,
        kind: TExprKind::Neg(Box::new(alloc, a)?),
    })
}

/// `!a`.
pub fn negation(alloc: Global, span: Span, a: TExpr) -> Result<TExpr, AllocError>
    ensures { IfOk result (λ e. expression e ≡ Not span (expression a)) }
{
    Ok(TExpr {
        span,
        kind: TExprKind::Not(Box::new(alloc, a)?),
    })
}

/// An operation on `a` and `b`.
pub fn binary(alloc: Global, span: Span, op: Op, a: TExpr, b: TExpr) -> Result<TExpr, AllocError>
    ensures { IfOk result (λ e. expression e ≡ Bin span op (expression a) (expression b)) }
{
    Ok(TExpr {
        span,
        kind: TExprKind::Bin(op, Box::new(alloc, a)?, Box::new(alloc, b)?),
    })
}

/// The product of `x` and `y`, which stand for `a` and `b`. A product's value comes from the constants of its factors as they
/// are written, and `x` and `y` may have other ones: with k and l the constants of `a` and `b` it is `(x - k)*l + k*y`.
pub fn product(
    alloc: Global,
    span: Span,
    a: &TExpr,
    b: &TExpr,
    x: TExpr,
    y: TExpr,
) -> Result<TExpr, AllocError>
    ensures { IfOk result (λ e. expression e ≡ product span (expression a.now) (expression b.now) (expression x) (expression y)) }
{
    let rest = with_constant(alloc, span, Op::Sub, x, a)?;
    let first = with_constant(alloc, span, Op::Mul, rest, b)?;
    let second = constant_times(alloc, span, a, y)?;
    binary(alloc, span, Op::Add, first, second)
}

/// An operation on `x` and the constant of `a`.
fn with_constant(
    alloc: Global,
    span: Span,
    op: Op,
    x: TExpr,
    a: &TExpr,
) -> Result<TExpr, AllocError>
    ensures { IfOk result (λ e. expression e ≡ Bin span op (expression x) (constant_part (expression a.now))) }
{
    let constant = constant_part(alloc, a)?;
    binary(alloc, span, op, x, constant)
}

/// `k*y`, where k is the constant of `a`.
fn constant_times(alloc: Global, span: Span, a: &TExpr, y: TExpr) -> Result<TExpr, AllocError>
    ensures { IfOk result (λ e. expression e ≡ Bin span Op.Mul (constant_part (expression a.now)) (expression y)) }
{
    let constant = constant_part(alloc, a)?;
    binary(alloc, span, Op::Mul, constant, y)
}

/// Whether an expression is a divisor: a literal, or one after one `-`.
fn is_divisor(b: &TExpr) -> bool
    ensures { result ≡ is_divisor_form (expression b.now) }
{
    match &b.kind {
        TExprKind::Lit(_) => true,
        TExprKind::Neg(inner) => matches!(&inner.kind, TExprKind::Lit(_)),
        _ => false,
    }
}

/// `x` divided by `b`, or what remains; 0 where `b` is no divisor.
pub fn division(alloc: Global, span: Span, op: Op, x: TExpr, b: &TExpr) -> Result<TExpr, AllocError>
    ensures { IfOk result (λ e. expression e ≡ division span op (expression x) (expression b.now)) }
{
    if is_divisor(b) {
        binary(alloc, span, op, x, b.copy()?)
    } else {
        Ok(zero(span))
    }
}

/// An equality or inequality of `x` and `y`, which are truth values or whole numbers; `0 + x` is a whole number whatever
/// stands in `x`.
pub fn equality(
    alloc: Global,
    span: Span,
    op: Op,
    truths: bool,
    x: TExpr,
    y: TExpr,
) -> Result<TExpr, AllocError>
    ensures { IfOk result (λ e. expression e ≡ equality span op truths (expression x) (expression y)) }
{
    if truths {
        let same = binary(alloc, span, Op::Iff, x, y)?;
        match op {
            Op::Ne => negation(alloc, span, same),
            _ => Ok(same),
        }
    } else {
        let whole = binary(alloc, span, Op::Add, zero(span), x)?;
        binary(alloc, span, op, whole, y)
    }
}
