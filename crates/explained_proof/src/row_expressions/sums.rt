//! Sums of columns compared with a number, as a person would write them.

ghost use Rattle.std.specs.Prelude.{◌≡◌, ◌++◌, IfOk, map, not};
ghost use Rattle.std.specs.List.{AllByRecursion};
ghost use Rattle.std.specs.Option.{option_map};
ghost use Rattle.math_facts.specs.Fits.{Fits};
ghost use Rattle.lin_rows.specs.Rows.{IsCoefficient};
ghost use Rattle.boogie_tree.specs.View as tree;
ghost use Rattle.explained_proof.specs.BuiltExpressions.Building as built;
ghost use Rattle.explained_proof.specs.RowExpressions.Sums as spec;
ghost use Rattle.explained_proof.specs.RowExpressions.Views as view;

use crate::built_expressions::{chained, number, operation};
use crate::row_expressions::scopes::Scope;
use boogie_tree::{Expr, Op};
use std::alloc::{AllocError, Global};

/// How large the number is.
fn magnitude(value: i128) -> i128
    requires { Fits value }
    ensures value { result ≡ spec.magnitude value }
    ensures fits { Fits result }
{
    if value < 0 { -value } else { value }
}

/// An expression, taken so many times.
fn taken(alloc: Global, times: i128, said: Expr) -> Result<Expr, AllocError>
    requires { Fits times }
    ensures { IfOk result (λ e. tree.expression e ≡ spec.times times (tree.expression said)) }
{
    if times == 1 {
        return Ok(said);
    }
    operation(alloc, Op::Mul, number(alloc, times)?, said)
}

/// A term, by its magnitude; none where the column cannot be said.
fn term_said(
    alloc: Global,
    scope: &Scope<'_>,
    column: u32,
    times: i128,
) -> Result<Option<Expr>, AllocError>
    requires { Fits times }
    ensures { IfOk result (λ o. option_map tree.expression o ≡ spec.term_said (view.scope scope.now) column times) }
{
    match scope.number_said(alloc, column)? {
        Some(said) => Ok(Some(taken(alloc, magnitude(times), said)?)),
        None => Ok(None),
    }
}

/// Whether a term with that coefficient stands on the side of the positive ones, or on the other.
fn is_on(positive: bool, times: i128) -> bool
    ensures { result ≡ spec.is_on positive times }
{
    let above = times > 0;
    if positive { above } else { !above }
}

/// The terms on a side, by their magnitudes; none where a column cannot be said.
fn side(
    alloc: Global,
    scope: &Scope<'_>,
    positive: bool,
    terms: &[(u32, i128)],
) -> Result<Option<Vec<Expr>>, AllocError>
    requires { AllByRecursion IsCoefficient terms.now }
    ensures { IfOk result (λ o. option_map (λ v. map tree.expression v.items) o ≡ spec.side (view.scope scope.now) positive terms.now) }
{
    let mut said = Vec::new(alloc);
    for (column, times) in terms {
        if is_on(positive, *times) {
            match term_said(alloc, scope, *column, *times)? {
                Some(term) => said.push(term)?,
                None => return Ok(None),
            }
        }
    }
    Ok(Some(said))
}

/// Whether the bound stands on the right, beside so many operands there and on the left.
fn stands_right(left: usize, right: usize, bound: i128) -> bool
    ensures { result ≡ spec.stands_right left right bound }
{
    right == 0 || (left != 0 && bound > 0)
}

/// Whether its opposite stands on the left.
fn stands_left(left: usize, right: usize, bound: i128) -> bool
    ensures { result ≡ spec.stands_left left right bound }
{
    right != 0 && (left == 0 || bound < 0)
}

/// The sum of operands and a number behind them, if that stands here; none where there is nothing.
fn with_number(
    alloc: Global,
    here: bool,
    value: i128,
    operands: Vec<Expr>,
) -> Result<Option<Expr>, AllocError>
    requires { Fits value }
    ensures { IfOk result (λ o. option_map tree.expression o ≡ built.chained Op.Add (map tree.expression operands.items ++ spec.number_if here value)) }
{
    let mut operands = operands;
    if here {
        operands.push(number(alloc, value)?)?;
    }
    chained(alloc, Op::Add, operands)
}

/// The operation on two operands, if both are there.
fn related(
    alloc: Global,
    op: Op,
    left: Option<Expr>,
    right: Option<Expr>,
) -> Result<Option<Expr>, AllocError>
    ensures { IfOk result (λ o. option_map tree.expression o ≡ spec.related op (option_map tree.expression left) (option_map tree.expression right)) }
{
    let Some(left) = left else {
        return Ok(None);
    };
    match right {
        Some(right) => Ok(Some(operation(alloc, op, left, right)?)),
        None => Ok(None),
    }
}

/// The comparison of operands with those on the other side and a number.
fn compared(
    alloc: Global,
    op: Op,
    bound: i128,
    left: Vec<Expr>,
    right: Vec<Expr>,
) -> Result<Option<Expr>, AllocError>
    requires { Fits bound }
    ensures { IfOk result (λ o. option_map tree.expression o ≡ spec.compared op bound (map tree.expression left.items) (map tree.expression right.items)) }
{
    let (count, others) = (left.len(), right.len());
    let left = with_number(alloc, stands_left(count, others, bound), -bound, left)?;
    let right = with_number(alloc, stands_right(count, others, bound), bound, right)?;
    related(alloc, op, left, right)
}

/// The comparison of the terms with a number, those with positive coefficients on the left or on the right.
fn comparison(
    alloc: Global,
    scope: &Scope<'_>,
    op: Op,
    positive: bool,
    terms: &[(u32, i128)],
    bound: i128,
) -> Result<Option<Expr>, AllocError>
    requires terms { AllByRecursion IsCoefficient terms.now }
    requires bound { Fits bound }
    ensures { IfOk result (λ o. option_map tree.expression o ≡
        spec.comparison op bound (spec.side (view.scope scope.now) positive terms.now) (spec.side (view.scope scope.now) (not positive) terms.now)) }
{
    let Some(left) = side(alloc, scope, positive, terms)? else {
        return Ok(None);
    };
    match side(alloc, scope, !positive, terms)? {
        Some(right) => compared(alloc, op, bound, left, right),
        None => Ok(None),
    }
}

/// Whether the first term is negative.
fn begins_below(terms: &[(u32, i128)]) -> bool
    ensures { result ≡ spec.begins_below terms.now }
{
    match terms.first() {
        Some((_, times)) => *times < 0,
        None => false,
    }
}

/// Equal, or at most.
fn comparing(equal: bool) -> Op
    ensures { result ≡ spec.comparing equal }
{
    if equal { Op::Eq } else { Op::Le }
}

/// That the terms are at most the bound, or equal to it; none where it cannot be said.
pub(crate) fn sum_said(
    alloc: Global,
    scope: &Scope<'_>,
    equal: bool,
    terms: &[(u32, i128)],
    bound: i128,
) -> Result<Option<Expr>, AllocError>
    requires terms { AllByRecursion IsCoefficient terms.now }
    requires bound { Fits bound }
    ensures { IfOk result (λ o. option_map tree.expression o ≡ spec.sum_said (view.scope scope.now) equal terms.now bound) }
{
    if equal && begins_below(terms) {
        return comparison(alloc, scope, Op::Eq, false, terms, -bound);
    }
    comparison(alloc, scope, comparing(equal), true, terms, bound)
}
