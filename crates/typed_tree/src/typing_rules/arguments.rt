//! Boolean arguments, which are simple.

ghost use Rattle.std.specs.Prelude.{◌≡◌, map, slice_get};
ghost use Rattle.typed_tree.specs.TypedView as view;
ghost use Rattle.typed_tree.specs.TypingRules.Shape as shape;

use crate::signatures::params;
use crate::{TExpr, TExprKind, TProc, TStmt};
use boogie_tree::{Ty, VarInfo};

/// Whether it is a literal, a variable, or `!` before a variable.
fn is_simple(argument: &TExpr) -> bool
    ensures { result ≡ shape.is_simple (view.expression argument.now) }
{
    match &argument.kind {
        TExprKind::Lit(_) | TExprKind::Truth(_) | TExprKind::Var(_) => true,
        TExprKind::Not(inner) => matches!(&inner.kind, TExprKind::Var(_)),
        TExprKind::Old(_) | TExprKind::Neg(_) | TExprKind::Bin(_, _, _) => false,
    }
}

/// Whether it may be the argument of a parameter of that type.
fn is_argument(wanted: Ty, argument: &TExpr) -> bool
    ensures { result ≡ shape.is_argument wanted (view.expression argument.now) }
{
    match wanted {
        Ty::Int => true,
        Ty::Bool => is_simple(argument),
    }
}

/// Whether the arguments of boolean parameters are simple.
fn are_arguments(params: &[VarInfo], arguments: &[TExpr]) -> bool
    ensures { result ≡ shape.are_arguments params.now (map view.expression arguments.now) }
{
    for (index, param) in params.iter().enumerate() {
        let Some(argument) = arguments.get(index) else {
            return true;
        };
        if !is_argument(param.ty, argument) {
            return false;
        }
    }
    true
}

/// The parameters of the procedure with that number.
fn params_at(procs: &[TProc], callee: u32) -> &[VarInfo]
    ensures { result.now ≡ shape.params_if_any (slice_get (map view.procedure procs.now) callee) }
{
    match procs.get(callee as usize) {
        Some(called) => params(called),
        None => &[],
    }
}

/// Whether the boolean arguments of each call in a statement are simple. It recurses as deep as statements are nested, as dropping one does.
#[cycle(shaped)]
fn is_shaped(procs: &[TProc], shaped: &TStmt) -> bool
    ensures { result ≡ shape.is_shaped (map view.procedure procs.now) (view.statement shaped.now) }
{
    match shaped {
        TStmt::Call(_, _, callee, arguments) => are_arguments(params_at(procs, *callee), arguments),
        TStmt::If(_, _, then, otherwise) => {
            is_shaped_block(procs, then) && is_shaped_block(procs, otherwise)
        }
        TStmt::While(_, _, _, body) => is_shaped_block(procs, body),
        TStmt::Assert(_, _) | TStmt::Assume(_, _) | TStmt::Havoc(_, _) => true,
        TStmt::Assign(_, _, _) | TStmt::Break(_, _) | TStmt::Goto(_, _) => true,
        TStmt::Return(_) | TStmt::Label(_) => true,
    }
}

/// The same of each statement of a list.
#[cycle(shaped)]
pub(crate) fn is_shaped_block(procs: &[TProc], listed: &[TStmt]) -> bool
    ensures { result ≡ shape.is_shaped_block (map view.procedure procs.now) (view.statements listed.now) }
{
    for shaped in listed {
        if !is_shaped(procs, shaped) {
            return false;
        }
    }
    true
}
