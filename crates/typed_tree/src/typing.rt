//! The types of expressions, and the rules of their operators.

ghost use Rattle.std.specs.Prelude.{◌≡◌, ◌⊎◌, Bool, true, false, Some, Err, IfOk, IfErr, IsOk, IsErr};
ghost use Rattle.std.specs.Option.{option_copied, option_map};
ghost use Rattle.typed_tree.specs.TypedTree.{Lit, Truth, Var};
ghost use Rattle.typed_tree.specs.TypedView.{expression};
ghost use Rattle.typed_tree.specs.Scope.{seen, variable_at, fixed};
ghost use Rattle.typed_tree.specs.Typing.{type_of, operand_type, result_type, operation_type};
ghost use Rattle.typed_tree.specs.KeptRules.{is_arithmetic, keeps_rules};
ghost use Rattle.typed_tree.specs.BrokenRules.{IsFault};
ghost use Rattle.typed_tree.specs.Ties.FormView.{form_of, IsAnswer, IsNotAnswer, IsNegAnswer, IsOperationAnswer};
ghost use Rattle.typed_tree.specs.AffineForm.{divisor_of, is_divisor};
ghost use Rattle.typed_tree.specs.Divided.{is_divided_operation};
ghost use Rattle.typed_tree.specs.Ties.BrokenOperation.{zero_literal, divisor_fault};

use crate::columns::form_column;
use crate::fault::{AffineFault, TypeFault};
use crate::form::Form;
use crate::operations::{operation, times};
use crate::scope::Scope;
use crate::types::{TExpr, TExprKind};
use boogie_tree::{Column, Op, Span, Ty, VarInfo};
use std::alloc::{AllocError, Global};

/// The type and the form of a part of an expression.
#[derive(Drop)]
struct Part {
    ty: Ty,
    form: Form,
}

/// The type of an expression that keeps the rules: operands first, then the types of the operation, its divisor,
/// and the numbers of its form.
pub fn expression_type(alloc: Global, scope: &Scope<'_>, expr: &TExpr) -> Result<Ty, TypeFault>
    ensures found { IfOk result (λ t. type_of (seen scope.now) (expression expr.now) ≡ Some t) }
    ensures kept { IsOk result → is_arithmetic (fixed (seen scope.now)) false (expression expr.now) ≡ true }
    ensures fault { IfErr result (λ f. IsFault (seen scope.now) (expression expr.now) f) }
    ensures only { IsErr result → (result ≡ Err TypeFault.Memory) ⊎ (keeps_rules (seen scope.now) false (expression expr.now) ≡ false) }
{
    let part = part_of(alloc, scope, false, expr)?;
    Ok(part.ty)
}

/// An expression that is read at the procedure's entry or now. Parts are kept on the heap, since this recurses as deep as expressions
/// are nested, and a part is large.
fn part_of(
    alloc: Global,
    scope: &Scope<'_>,
    old: bool,
    expr: &TExpr,
) -> Result<Box<Part>, TypeFault>
    ensures { IsAnswer (seen scope.now) old (expression expr.now) result }
{
    match &expr.kind {
        TExprKind::Lit(n) => literal(alloc, scope, old, expr.span, n),
        TExprKind::Truth(value) => truth(alloc, scope, old, expr.span, *value),
        TExprKind::Var(column) => variable(alloc, scope, old, expr.span, *column),
        TExprKind::Old(inner) => {
            if scope.old {
                part_of(alloc, scope, true, inner)
            } else {
                Err(TypeFault::Mismatch(expr.span))
            }
        }
        TExprKind::Not(inner) => {
            let part = part_of(alloc, scope, old, inner)?;
            negated(alloc, expr.span, part)
        }
        TExprKind::Neg(inner) => {
            let part = part_of(alloc, scope, old, inner)?;
            opposed(alloc, expr.span, part)
        }
        TExprKind::Bin(op, left, right) => {
            let first = part_of(alloc, scope, old, left)?;
            let second = part_of(alloc, scope, old, right)?;
            combined(alloc, expr.span, *op, first, second, right)
        }
    }
}

/// `!` at that place before a part, which it takes.
fn negated(alloc: Global, at: Span, part: Box<Part>) -> Result<Box<Part>, TypeFault>
    ensures { IsNotAnswer at part.value result }
{
    negation(alloc, at, &part)
}

/// A `-` at that place before a part, which it takes.
fn opposed(alloc: Global, at: Span, part: Box<Part>) -> Result<Box<Part>, TypeFault>
    ensures { IsNegAnswer at part.value result }
{
    opposite(alloc, at, &part)
}

/// An operation at that place on two parts, which it takes.
fn combined(
    alloc: Global,
    at: Span,
    op: Op,
    first: Box<Part>,
    second: Box<Part>,
    right: &TExpr,
) -> Result<Box<Part>, TypeFault>
    ensures { IsOperationAnswer at op (expression right.now) first.value second.value result }
{
    operated(alloc, at, op, &first, &second, right)
}

/// A part on the heap.
fn boxed_part(alloc: Global, ty: Ty, form: Form) -> Result<Box<Part>, AllocError>
    ensures ty { IfOk result (λ p. p.value.ty ≡ ty) }
    ensures form { IfOk result (λ p. p.value.form ≡ form) }
{
    Ok(Box::new(alloc, Part { ty, form })?)
}

/// A truth value.
fn truth(
    alloc: Global,
    scope: &Scope<'_>,
    old: bool,
    at: Span,
    value: bool,
) -> Result<Box<Part>, TypeFault>
    ensures { IsAnswer (seen scope.now) old (Truth at value) result }
{
    Ok(boxed_part(alloc, Ty::Bool, Form::number(alloc, 0))?)
}

/// A number.
fn literal(
    alloc: Global,
    scope: &Scope<'_>,
    old: bool,
    at: Span,
    n: &i128,
) -> Result<Box<Part>, TypeFault>
    ensures { IsAnswer (seen scope.now) old (Lit at n.now) result }
{
    if *n == i128::MIN {
        return Err(TypeFault::TooBig(at));
    }
    Ok(boxed_part(alloc, Ty::Int, Form::number(alloc, *n))?)
}

/// A variable.
fn variable(
    alloc: Global,
    scope: &Scope<'_>,
    old: bool,
    at: Span,
    column: Column,
) -> Result<Box<Part>, TypeFault>
    ensures { IsAnswer (seen scope.now) old (Var at column) result }
{
    let Some(variable) = variable_at(scope, column) else {
        return Err(TypeFault::Unknown(at));
    };
    let form = Form::once(alloc, form_column(scope.globals, old, column))?;
    Ok(boxed_part(alloc, variable.ty, form)?)
}

/// `!` at that place.
fn negation(alloc: Global, at: Span, part: &Part) -> Result<Box<Part>, TypeFault>
    ensures { IsNotAnswer at part.now result }
{
    match part.ty {
        Ty::Int => Err(TypeFault::Mismatch(at)),
        Ty::Bool => Ok(boxed_part(alloc, Ty::Bool, Form::number(alloc, 0))?),
    }
}

/// A `-` before one operand, at that place.
fn opposite(alloc: Global, at: Span, part: &Part) -> Result<Box<Part>, TypeFault>
    ensures { IsNegAnswer at part.now result }
{
    match part.ty {
        Ty::Int => match times(alloc, -1, &part.form) {
            Ok(form) => Ok(boxed_part(alloc, Ty::Int, form)?),
            Err(AffineFault::TooBig) => Err(TypeFault::TooBig(at)),
            Err(AffineFault::Memory) => Err(TypeFault::Memory),
        },
        Ty::Bool => Err(TypeFault::Mismatch(at)),
    }
}

/// An operation at that place, whose second operand may be a divisor.
fn operated(
    alloc: Global,
    at: Span,
    op: Op,
    first: &Part,
    second: &Part,
    right: &TExpr,
) -> Result<Box<Part>, TypeFault>
    ensures { IsOperationAnswer at op (expression right.now) first.now second.now result }
{
    let Some(ty) = operation_type(op, first.ty, second.ty) else {
        return Err(TypeFault::Mismatch(at));
    };
    check_operator(op, right)?;
    match operation(alloc, op, &first.form, &second.form) {
        Ok(form) => Ok(boxed_part(alloc, ty, form)?),
        Err(AffineFault::TooBig) => Err(TypeFault::TooBig(at)),
        Err(AffineFault::Memory) => Err(TypeFault::Memory),
    }
}

/// What stands in a column, where it is seen.
fn variable_at<'a>(scope: &Scope<'a>, column: Column) -> Option<&'a VarInfo>
    ensures { option_copied result ≡ variable_at (seen scope.now) column }
{
    match column {
        Column::Global(n) => {
            let variable = scope.globals.get(n as usize)?;
            if scope.variables || variable.constant {
                Some(variable)
            } else {
                None
            }
        }
        Column::Old(_) => None,
        Column::Local(n) => scope.locals.get(n as usize),
    }
}

/// The type of an operation on operands of these types.
fn operation_type(op: Op, first: Ty, second: Ty) -> Option<Ty>
    ensures { result ≡ operation_type op first second }
{
    let operand = operand_type(op).unwrap_or(first);
    if first == second && first == operand {
        Some(result_type(op))
    } else {
        None
    }
}

/// The type that an operator asks of both operands, or `None` where any two of one type serve.
fn operand_type(op: Op) -> Option<Ty>
    ensures { result ≡ operand_type op }
{
    match op {
        Op::Iff | Op::Implies | Op::And | Op::Or => Some(Ty::Bool),
        Op::Eq | Op::Ne => None,
        _ => Some(Ty::Int),
    }
}

/// The type of what an operator gives.
fn result_type(op: Op) -> Ty
    ensures { result ≡ result_type op }
{
    match op {
        Op::Add | Op::Sub | Op::Mul | Op::Div | Op::Mod => Ty::Int,
        _ => Ty::Bool,
    }
}

/// The rule of an operator with that second operand: a divisor is a literal other than 0.
fn check_operator(op: Op, right: &TExpr) -> Result<(), TypeFault>
    ensures kept { IsOk result → is_divided_operation op (expression right.now) ≡ true }
    ensures broken { IsErr result → is_divided_operation op (expression right.now) ≡ false }
    ensures fault { IfErr result (λ f. f ≡ divisor_fault (zero_literal (expression right.now)) (expression right.now)) }
{
    match op {
        Op::Div | Op::Mod => check_divisor(right),
        _ => Ok(()),
    }
}

/// A divisor is a literal, or a literal after one `-`, and not 0.
fn check_divisor(divisor: &TExpr) -> Result<(), TypeFault>
    ensures kept { IsOk result → is_divisor (divisor_of (expression divisor.now)) ≡ true }
    ensures broken { IsErr result → is_divisor (divisor_of (expression divisor.now)) ≡ false }
    ensures fault { IfErr result (λ f. f ≡ divisor_fault (zero_literal (expression divisor.now)) (expression divisor.now)) }
{
    match zero_literal(divisor) {
        None => Err(TypeFault::NonLinear(divisor.span)),
        Some(true) => Err(TypeFault::ZeroDivisor(divisor.span)),
        Some(false) => Ok(()),
    }
}

/// Whether the literal is 0, where the expression is one or one after a `-`.
#[tactic(auto, using(crate::proofs::Divisors::is_zero_opposite))]
fn zero_literal(expr: &TExpr) -> Option<bool>
    ensures { result ≡ zero_literal (expression expr.now) }
{
    match &expr.kind {
        TExprKind::Lit(n) => Some(*n == 0),
        TExprKind::Neg(inner) => match &inner.kind {
            TExprKind::Lit(n) => Some(*n == 0),
            _ => None,
        },
        _ => None,
    }
}
