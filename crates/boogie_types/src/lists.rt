//! Lists of expressions, targets and conditions with their names replaced.

ghost use Rattle.std.specs.Prelude.{◌≡◌, true, Some, map, IfOk, IfErr, IsOk};
ghost use Rattle.boogie_types.specs.Ties.Numbers.{named_by, IsTwiceFault};
ghost use Rattle.boogie_types.specs.Resolved.{is_set};
ghost use Rattle.boogie_tree.specs.View as view;
ghost use Rattle.typed_tree.specs.TypedView as typed;
ghost use Rattle.typed_tree.specs.Scope.{seen};
ghost use Rattle.boogie_types.specs.Naming.{each, columns_of, targets_of, named_guard, named_invariant};
ghost use Rattle.boogie_types.specs.Naming as naming;
ghost use Rattle.boogie_types.specs.Ties.NamingFaults.{IsExpressionFault, AreExpressionsFault, IsTargetsFault, IsGuardFault, IsInvariantsFault};

use crate::expressions::named;
use crate::names::Names;
use crate::numbered::Numbered;
use boogie_tree::{Expr, Guard, Inv, Name};
use std::alloc::{AllocError, Global};
use typed_tree::{Column, TExpr, TGuard, TInv, TypeFault};

/// References to names.
fn references(alloc: Global, names: &[Name]) -> Result<Vec<&Name>, AllocError>
    ensures { IfOk result (λ v. named_by v.items ≡ names.now) }
{
    let mut references = Vec::with_capacity(alloc, names.len())?;
    for name in names {
        references.push(name)?;
    }
    Ok(references)
}

/// Tests that no name stands twice among targets; the first that does is the fault.
fn differ(alloc: Global, targets: &[Name]) -> Result<(), TypeFault>
    ensures set { IsOk result → is_set targets.now ≡ true }
    ensures fault { IfErr result (λ f. IsTwiceFault targets.now f) }
{
    // one target needs no map
    if targets.len() < 2 {
        return Ok(());
    }
    let references = references(alloc, targets)?;
    let _numbered = Numbered::new(alloc, references)?;
    Ok(())
}

/// The columns that names mean.
fn columns(alloc: Global, names: &Names<'_, '_>, targets: &[Name]) -> Result<Vec<Column>, TypeFault>
    ensures ok { IfOk result (λ v. columns_of (seen names.now.scope) targets.now ≡ Some v.items) }
    ensures fault { IfErr result (λ f. IsTargetsFault (seen names.now.scope) targets.now f) }
{
    let mut columns = Vec::new(alloc);
    for target in targets {
        match names.column(target.text.bytes()) {
            Some(column) => columns.push(column)?,
            None => return Err(TypeFault::Unknown(target.span)),
        }
    }
    Ok(columns)
}

/// The columns that names of targets mean, of which no two have one name.
pub(crate) fn targets(
    alloc: Global,
    names: &Names<'_, '_>,
    targets: &[Name],
) -> Result<Vec<Column>, TypeFault>
    ensures ok { IfOk result (λ v. targets_of (seen names.now.scope) targets.now ≡ Some v.items) }
    ensures fault { IfErr result (λ f. IsTargetsFault (seen names.now.scope) targets.now f) }
{
    differ(alloc, targets)?;
    columns(alloc, names, targets)
}

/// Expressions with their names replaced.
pub(crate) fn all_named(
    alloc: Global,
    names: &Names<'_, '_>,
    exprs: &[Expr],
) -> Result<Vec<TExpr>, TypeFault>
    ensures ok { IfOk result (λ v. each (naming.named (seen names.now.scope)) (map view.expression exprs.now) ≡ Some (map typed.expression v.items)) }
    ensures fault { IfErr result (λ f. AreExpressionsFault (seen names.now.scope) (map view.expression exprs.now) f) }
{
    let mut values = Vec::new(alloc);
    for expr in exprs {
        let value = named(alloc, names, expr)?;
        values.push(value)?;
    }
    Ok(values)
}

/// A guard with its names replaced.
pub(crate) fn guard(
    alloc: Global,
    names: &Names<'_, '_>,
    guard: &Guard,
) -> Result<TGuard, TypeFault>
    ensures ok { IfOk result (λ g. named_guard (seen names.now.scope) (view.guard guard.now) ≡ Some (typed.guard g)) }
    ensures fault { IfErr result (λ f. IsGuardFault (seen names.now.scope) (view.guard guard.now) f) }
{
    match guard {
        Guard::Any => Ok(TGuard::Any),
        Guard::Cond(cond) => {
            let cond = named(alloc, names, cond)?;
            Ok(TGuard::Cond(cond))
        }
    }
}

/// A condition of a specification or a loop with its names replaced.
pub(crate) fn invariant(
    alloc: Global,
    names: &Names<'_, '_>,
    invariant: &Inv,
) -> Result<TInv, TypeFault>
    ensures ok { IfOk result (λ i. named_invariant (seen names.now.scope) (view.invariant invariant.now) ≡ Some (typed.invariant i)) }
    ensures fault { IfErr result (λ f. IsExpressionFault (seen names.now.scope) (view.invariant invariant.now).cond f) }
{
    let cond = named(alloc, names, &invariant.cond)?;
    Ok(TInv {
        span: invariant.span,
        free: invariant.free,
        cond,
    })
}

/// The invariants of a loop with their names replaced.
pub(crate) fn invariants(
    alloc: Global,
    names: &Names<'_, '_>,
    invariants: &[Inv],
) -> Result<Vec<TInv>, TypeFault>
    ensures ok { IfOk result (λ v. each (named_invariant (seen names.now.scope)) (map view.invariant invariants.now) ≡ Some (map typed.invariant v.items)) }
    ensures fault { IfErr result (λ f. IsInvariantsFault (seen names.now.scope) (map view.invariant invariants.now) f) }
{
    let mut conditions = Vec::new(alloc);
    for each in invariants {
        let condition = invariant(alloc, names, each)?;
        conditions.push(condition)?;
    }
    Ok(conditions)
}
