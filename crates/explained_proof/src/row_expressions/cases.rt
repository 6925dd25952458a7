//! Cases of the truth values of boolean columns.

ghost use Rattle.std.specs.Prelude.{◌≡◌, ◌++◌, ◌∷◌, ◌-ℤ◌, IfOk, OnOk, map, drop};
ghost use Rattle.std.specs.Option.{option_map};
ghost use Rattle.boogie_tree.specs.View as tree;
ghost use Rattle.explained_proof.specs.RowExpressions.Cases as spec;
ghost use Rattle.explained_proof.specs.RowExpressions.Views as view;

use crate::built_expressions::{chained, not, operation};
use crate::row_expressions::scopes::Scope;
use boogie_tree::{Expr, ExprKind, Op};
use std::alloc::{AllocError, Global};

/// The case with one truth value more in front.
fn prefixed(alloc: Global, first: bool, case: &Vec<bool>) -> Result<Vec<bool>, AllocError>
    ensures { IfOk result (λ longer. longer.items ≡ first ∷ case.now.items) }
{
    let mut longer = Vec::new(alloc);
    longer.push(first)?;
    longer.extend_from_slice(case)?;
    Ok(longer)
}

/// Adds the cases with one truth value more in front.
fn add_prefixed(
    alloc: Global,
    first: bool,
    cases: &Vec<Vec<bool>>,
    all: &mut Vec<Vec<bool>>,
) -> Result<(), AllocError>
    ensures { OnOk result (map (λ c. c.items) all.new.items ≡ map (λ c. c.items) all.old.items ++ map (λ c. first ∷ c) (map (λ c. c.items) cases.now.items)) }
{
    for case in cases {
        all.push(prefixed(alloc, first, case)?)?;
    }
    Ok(())
}

/// The cases of so many truth values: true first, the last one changing first.
pub(crate) fn cases(alloc: Global, count: usize) -> Result<Vec<Vec<bool>>, AllocError>
    ensures { IfOk result (λ all. map (λ c. c.items) all.items ≡ spec.cases count) }
{
    let mut all = Vec::new(alloc);
    if count == 0 {
        all.push(Vec::new(alloc))?;
        return Ok(all);
    }
    let shorter = cases(alloc, count - 1)?;
    add_prefixed(alloc, true, &shorter, &mut all)?;
    add_prefixed(alloc, false, &shorter, &mut all)?;
    Ok(all)
}

/// The difference of two numbers, if it fits.
fn difference(a: i128, b: i128) -> Option<i128>
    ensures { result ≡ spec.fit (a -ℤ b) }
{
    let left = a.checked_sub(b)?;
    if left != i128::MIN { Some(left) } else { None }
}

/// What is left of a bound behind the coefficients, from a place on, of the columns that are true in a case; none where a number does not fit.
pub(crate) fn rest(truths: &[(u32, i128)], case: &[bool], place: usize, bound: i128) -> Option<i128>
    ensures { result ≡ spec.rest bound (drop place truths.now) (drop place case.now) }
{
    if place >= truths.len() || place >= case.len() {
        return Some(bound);
    }
    if !case[place] {
        return rest(truths, case, place + 1, bound);
    }
    let left = difference(bound, truths[place].1)?;
    rest(truths, case, place + 1, left)
}

/// A boolean column or its negation; none where it cannot be said.
fn condition_said(
    alloc: Global,
    scope: &Scope<'_>,
    column: u32,
    value: bool,
) -> Result<Option<Expr>, AllocError>
    ensures { IfOk result (λ o. option_map tree.expression o ≡ spec.condition_said (view.scope scope.now) column value) }
{
    let Some(said) = scope.said(alloc, column)? else {
        return Ok(None);
    };
    Ok(Some(if value { said } else { not(alloc, said)? }))
}

/// The boolean columns or their negations, as they are in a case; none where one cannot be said.
pub(crate) fn conditions(
    alloc: Global,
    scope: &Scope<'_>,
    truths: &[(u32, i128)],
    case: &[bool],
) -> Result<Option<Vec<Expr>>, AllocError>
    ensures { IfOk result (λ o. option_map (λ v. map tree.expression v.items) o ≡ spec.conditions (view.scope scope.now) truths.now case.now) }
{
    let mut said = Vec::new(alloc);
    for place in 0..truths.len().min(case.len()) {
        match condition_said(alloc, scope, truths[place].0, case[place])? {
            Some(condition) => said.push(condition)?,
            None => return Ok(None),
        }
    }
    Ok(Some(said))
}

/// The conclusion where the conditions hold.
pub(crate) fn implied(
    alloc: Global,
    conditions: Vec<Expr>,
    conclusion: Expr,
) -> Result<Expr, AllocError>
    ensures { IfOk result (λ e. tree.expression e ≡ spec.implied (map tree.expression conditions.items) (tree.expression conclusion)) }
{
    match chained(alloc, Op::And, conditions)? {
        Some(premise) => operation(alloc, Op::Implies, premise, conclusion),
        None => Ok(conclusion),
    }
}

/// The opposite, without a second `!`.
fn opposite_of(alloc: Global, condition: Expr) -> Result<Expr, AllocError>
    ensures { IfOk result (λ e. tree.expression e ≡ spec.opposite_of (tree.expression condition)) }
{
    let span = condition.span;
    match condition.kind {
        ExprKind::Not(inner) => Ok(Box::into_inner(inner)),
        kind => not(alloc, Expr { span, kind }),
    }
}

/// That the conditions do not hold together; none where there are none.
pub(crate) fn excluded(alloc: Global, conditions: Vec<Expr>) -> Result<Option<Expr>, AllocError>
    ensures { IfOk result (λ o. option_map tree.expression o ≡ spec.excluded (map tree.expression conditions.items)) }
{
    let mut conditions = conditions;
    match conditions.pop() {
        Some(last) => {
            let last = opposite_of(alloc, last)?;
            Ok(Some(implied(alloc, conditions, last)?))
        }
        None => Ok(None),
    }
}
