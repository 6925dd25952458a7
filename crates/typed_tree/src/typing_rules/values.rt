//! Expressions that are to have a type.

ghost use Rattle.std.specs.Prelude.{◌≡◌, map};
ghost use Rattle.std.specs.List.{list_all};
ghost use Rattle.boogie_tree.specs.declared.tree.Ty.TheVariants as types;
ghost use Rattle.typed_tree.specs.KeptRules.{is_right};
ghost use Rattle.typed_tree.specs.Scope.{seen};
ghost use Rattle.typed_tree.specs.TypedView as view;
ghost use Rattle.typed_tree.specs.Typing.{same_type};
ghost use Rattle.typed_tree.specs.TypingRules.Rules.{is_condition, is_guard, is_invariant};
ghost use Rattle.typed_tree.specs.TypingRules.BrokenTyping.{IsValueBroken, IsConditionBroken, IsGuardBroken};
ghost use Rattle.typed_tree.specs.TypingRules.Ties.Judged.{Judges, IsOneBroken, IsInvariantBroken};

use crate::{Scope, TExpr, TGuard, TInv, TypeFault, expression_type};
use boogie_tree::Ty;
use std::alloc::Global;

pub(crate) fn same(a: Ty, b: Ty) -> bool
    ensures { result ≡ same_type a b }
{
    match a {
        Ty::Int => matches!(b, Ty::Int),
        Ty::Bool => matches!(b, Ty::Bool),
    }
}

/// Whether the expression keeps the rules and has the type.
pub(crate) fn value(
    alloc: Global,
    scope: &Scope,
    wanted: Ty,
    expression: &TExpr,
) -> Result<(), TypeFault>
    ensures { Judges result (is_right (seen scope.now) wanted (view.expression expression.now)) (IsValueBroken (seen scope.now) wanted (view.expression expression.now)) }
{
    let found = expression_type(alloc, scope, expression)?;
    if same(wanted, found) {
        Ok(())
    } else {
        Err(TypeFault::Mismatch(expression.span))
    }
}

/// Whether the expression is a condition.
pub(crate) fn condition(alloc: Global, scope: &Scope, expression: &TExpr) -> Result<(), TypeFault>
    ensures { Judges result (is_condition (seen scope.now) (view.expression expression.now)) (IsConditionBroken (seen scope.now) (view.expression expression.now)) }
{
    value(alloc, scope, Ty::Bool, expression)
}

pub(crate) fn guard(alloc: Global, scope: &Scope, guard: &TGuard) -> Result<(), TypeFault>
    ensures { Judges result (is_guard (seen scope.now) (view.guard guard.now)) (IsGuardBroken (seen scope.now) (view.guard guard.now)) }
{
    match guard {
        TGuard::Any => Ok(()),
        TGuard::Cond(expression) => condition(alloc, scope, expression),
    }
}

pub(crate) fn invariants(alloc: Global, scope: &Scope, invariants: &[TInv]) -> Result<(), TypeFault>
    ensures { Judges result (list_all (is_invariant (seen scope.now)) (map view.invariant invariants.now)) (IsOneBroken (map view.invariant invariants.now) (IsInvariantBroken (seen scope.now))) }
{
    for invariant in invariants {
        condition(alloc, scope, &invariant.cond)?;
    }
    Ok(())
}

/// Whether each axiom is a condition.
pub(crate) fn axioms(alloc: Global, scope: &Scope, axioms: &[TExpr]) -> Result<(), TypeFault>
    ensures { Judges result (list_all (is_condition (seen scope.now)) (map view.expression axioms.now)) (IsOneBroken (map view.expression axioms.now) (IsConditionBroken (seen scope.now))) }
{
    for axiom in axioms {
        condition(alloc, scope, axiom)?;
    }
    Ok(())
}
