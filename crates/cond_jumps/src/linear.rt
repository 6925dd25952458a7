//! The sums of whole-number expressions.

ghost use Rattle.std.specs.Prelude.{◌≡◌, true, IfOk, pos, neg_ℤ, unsigned_abs};
ghost use Rattle.boogie_tree.specs.declared.span.Span.{Span};
ghost use Rattle.typed_tree.specs.TypedTree.{Bin};
ghost use Rattle.typed_tree.specs.TypedView.{expression};
ghost use Rattle.typed_tree.specs.AffineForm.{divisor_of, read_at};
ghost use Rattle.cond_jumps.specs.CodeView.{IsDivisorFound, combination, is_combination, is_division};
ghost use Rattle.cond_jumps.specs.Frames.{frame_environment, column_place_in, linear_at};
ghost use Rattle.cond_jumps.specs.Forms.{linear_number};
ghost use Rattle.cond_jumps.specs.LongView.{long};
ghost use Rattle.cond_jumps.specs.Paths.{constant_of, constant_operation, linear};
ghost use Rattle.cond_jumps.specs.Ties.SumView.{sum_of, IsSumAnswer, IsBoxedAnswer, IsPartAnswer};

use crate::columns::place;
use crate::long::Long;
use crate::refusal::Refusal;
use crate::sums::{Divisor, Sum, divide, later, minus, negated, plus, quotient, remainder, times};
use boogie_tree::{Column, Op};
use letter_acts::Frame;
use std::alloc::{AllocError, Global};
use typed_tree::{TExpr, TExprKind};

/// The constant of the affine form of a whole-number expression.
fn constant(alloc: Global, expr: &TExpr) -> Result<Long, AllocError>
    ensures { IfOk result (λ l. long l ≡ constant_of (expression expr.now)) }
{
    match &expr.kind {
        TExprKind::Lit(n) => Long::new(alloc, *n),
        TExprKind::Old(inner) => constant(alloc, inner),
        TExprKind::Neg(inner) => constant(alloc, inner)?.opposite(alloc),
        TExprKind::Bin(op, left, right) => {
            let first = constant(alloc, left)?;
            let second = constant(alloc, right)?;
            constant_operation(alloc, *op, &first, &second)
        }
        _ => Long::new(alloc, 0),
    }
}

/// The constant that an operation makes of those of its operands.
fn constant_operation(
    alloc: Global,
    op: Op,
    first: &Long,
    second: &Long,
) -> Result<Long, AllocError>
    ensures { IfOk result (λ l. long l ≡ constant_operation op (long first.now) (long second.now)) }
{
    match op {
        Op::Add => Long::plus(alloc, first, second),
        Op::Sub => Long::minus(alloc, first, second),
        Op::Mul => Long::times(alloc, second, first),
        _ => Long::new(alloc, 0),
    }
}

/// The magnitude of a literal.
fn magnitude(alloc: Global, n: i128) -> Result<Long, AllocError>
    ensures { IfOk result (λ l. long l ≡ pos (unsigned_abs n)) }
{
    let literal = Long::new(alloc, n)?;
    if n < 0 {
        return literal.opposite(alloc);
    }
    Ok(literal)
}

/// A literal as a divisor.
fn literal(alloc: Global, n: i128) -> Result<Divisor, AllocError>
    ensures value { IfOk result (λ d. long d.value ≡ n) }
    ensures magnitude { IfOk result (λ d. long d.magnitude ≡ pos (unsigned_abs n)) }
{
    Ok(Divisor {
        value: Long::new(alloc, n)?,
        magnitude: magnitude(alloc, n)?,
    })
}

/// A literal after one `-` as a divisor.
fn opposite_literal(alloc: Global, n: i128) -> Result<Divisor, AllocError>
    ensures value { IfOk result (λ d. long d.value ≡ neg_ℤ n) }
    ensures magnitude { IfOk result (λ d. long d.magnitude ≡ pos (unsigned_abs n)) }
{
    let literal = literal(alloc, n)?;
    Ok(Divisor {
        value: literal.value.opposite(alloc)?,
        magnitude: literal.magnitude,
    })
}

/// The divisor that an expression is.
fn divisor(alloc: Global, expr: &TExpr) -> Result<Option<Divisor>, AllocError>
    ensures { IfOk result (λ o. IsDivisorFound (divisor_of (expression expr.now)) o) }
{
    match &expr.kind {
        TExprKind::Lit(n) => Ok(Some(literal(alloc, *n)?)),
        TExprKind::Neg(inner) => match &inner.kind {
            TExprKind::Lit(n) => Ok(Some(opposite_literal(alloc, *n)?)),
            _ => Ok(None),
        },
        _ => Ok(None),
    }
}

/// The column that is read at the procedure's entry or now.
pub fn read_at(old: bool, column: Column) -> Column
    ensures { result ≡ read_at old column }
{
    match column {
        Column::Global(n) if old => Column::Old(n),
        _ => column,
    }
}

/// A sum on the heap.
fn boxed(alloc: Global, sum: Sum) -> Result<Box<Sum>, AllocError>
    ensures { IfOk result (λ s. sum_of s.value ≡ sum_of sum) }
{
    Ok(Box::new(alloc, sum)?)
}

/// The sum that stands for a column of the frame.
fn column_sum(alloc: Global, frame: &Frame, column: Column) -> Result<Box<Sum>, AllocError>
    ensures { IfOk result (λ s. sum_of s.value ≡ linear_at (column_place_in frame.now.columns.items column) 0) }
{
    match place(frame, column)? {
        None => boxed(alloc, Sum::number(alloc, 0)?),
        Some(spot) => boxed(alloc, Sum::column(alloc, spot.number)?),
    }
}

/// `+`, `-` or `*`.
fn is_combination(op: Op) -> bool
    ensures { result ≡ is_combination op }
{
    matches!(op, Op::Add | Op::Sub | Op::Mul)
}

/// `div` or `mod`.
fn is_division(op: Op) -> bool
    ensures { result ≡ is_division op }
{
    matches!(op, Op::Div | Op::Mod)
}

/// A number as a sum.
fn number(alloc: Global, n: i128) -> Result<Box<Sum>, Refusal>
    ensures { IsBoxedAnswer (linear_number n 0) result }
{
    Ok(boxed(alloc, Sum::number(alloc, n)?)?)
}

/// The constants of the affine forms of two operands.
#[derive(Drop)]
struct Constants {
    first: Long,
    second: Long,
}

/// The constants of two operands.
fn constants_of(alloc: Global, left: &TExpr, right: &TExpr) -> Result<Constants, AllocError>
    ensures first { IfOk result (λ c. long c.first ≡ constant_of (expression left.now)) }
    ensures second { IfOk result (λ c. long c.second ≡ constant_of (expression right.now)) }
{
    let first = constant(alloc, left)?;
    let second = constant(alloc, right)?;
    Ok(Constants { first, second })
}

/// The product of the sums of two operands.
fn product(
    alloc: Global,
    left: &TExpr,
    right: &TExpr,
    a: Box<Sum>,
    b: Box<Sum>,
) -> Result<Box<Sum>, AllocError>
    ensures { IfOk result (λ s. sum_of s.value ≡ combination Op.Mul (constant_of (expression left.now)) (constant_of (expression right.now)) (sum_of a.value) (sum_of b.value)) }
{
    let constants = constants_of(alloc, left, right)?;
    times(alloc, &constants.first, &constants.second, a, b)
}

/// The sum, the difference or the product of the sums of two operands.
fn combined(
    alloc: Global,
    op: Op,
    left: &TExpr,
    right: &TExpr,
    a: Box<Sum>,
    b: Box<Sum>,
) -> Result<Box<Sum>, AllocError>
    requires { is_combination op ≡ true }
    ensures { IfOk result (λ s. sum_of s.value ≡ combination op (constant_of (expression left.now)) (constant_of (expression right.now)) (sum_of a.value) (sum_of b.value)) }
{
    match op {
        Op::Add => plus(alloc, a, b),
        Op::Sub => minus(alloc, a, b),
        _ => product(alloc, left, right, a, b),
    }
}

/// A sum divided, or what remains.
fn part_of(alloc: Global, op: Op, k: &Divisor, x: Box<Sum>, next: u32) -> Result<Box<Sum>, Refusal>
    requires { long k.now.magnitude ≡ pos (unsigned_abs (long k.now.value)) }
    ensures { IsPartAnswer op (long k.now.value) (sum_of x.value) next result }
{
    let divided = divide(alloc, k, Box::into_inner(x), next)?;
    match op {
        Op::Div => Ok(boxed(alloc, quotient(alloc, divided)?)?),
        _ => Ok(boxed(alloc, remainder(divided))?),
    }
}

/// The sum of a whole-number expression that is read at the procedure's entry or now, its helpers numbered from `next` on.
pub fn linear(
    alloc: Global,
    frame: &Frame,
    old: bool,
    expr: &TExpr,
    next: u32,
) -> Result<Sum, Refusal>
    ensures { IsSumAnswer (linear (frame_environment frame.now.columns.items) old (expression expr.now) next) result }
{
    let sum = boxed_linear(alloc, frame, old, expr, next)?;
    Ok(Box::into_inner(sum))
}

/// The same sum on the heap, since this recurses as deep as expressions are nested, and a sum is large.
#[cycle(linear)]
fn boxed_linear(
    alloc: Global,
    frame: &Frame,
    old: bool,
    expr: &TExpr,
    next: u32,
) -> Result<Box<Sum>, Refusal>
    ensures { IsBoxedAnswer (linear (frame_environment frame.now.columns.items) old (expression expr.now) next) result }
{
    match &expr.kind {
        TExprKind::Lit(n) => number(alloc, *n),
        TExprKind::Truth(_) => number(alloc, 0),
        TExprKind::Var(column) => Ok(column_sum(alloc, frame, read_at(old, *column))?),
        TExprKind::Old(inner) => boxed_linear(alloc, frame, true, inner, next),
        TExprKind::Not(_) => number(alloc, 0),
        TExprKind::Neg(inner) => {
            let sum = boxed_linear(alloc, frame, old, inner, next)?;
            Ok(negated(alloc, sum)?)
        }
        TExprKind::Bin(op, left, right) => {
            if is_combination(*op) {
                let a = boxed_linear(alloc, frame, old, left, next)?;
                let b = boxed_linear(alloc, frame, old, right, later(next, a.helpers)?)?;
                return Ok(combined(alloc, *op, left, right, a, b)?);
            }
            if !is_division(*op) {
                return number(alloc, 0);
            }
            division(alloc, frame, old, *op, left, right, next)
        }
    }
}

/// An expression divided by a literal, or what remains; 0 where the divisor is no literal.
#[cycle(linear)]
fn division(
    alloc: Global,
    frame: &Frame,
    old: bool,
    op: Op,
    left: &TExpr,
    right: &TExpr,
    next: u32,
) -> Result<Box<Sum>, Refusal>
    requires { is_division op ≡ true }
    ensures { (at : Span) → IsBoxedAnswer (linear (frame_environment frame.now.columns.items) old (Bin at op (expression left.now) (expression right.now)) next) result }
{
    match divisor(alloc, right)? {
        None => number(alloc, 0),
        Some(k) => {
            let x = boxed_linear(alloc, frame, old, left, next)?;
            part_of(alloc, op, &k, x, next)
        }
    }
}
