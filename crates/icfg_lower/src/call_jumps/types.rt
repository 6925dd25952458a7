//! The types of arguments in the caller's frame.

ghost use Rattle.std.specs.Prelude.{◌≡◌, IfOk};
ghost use Rattle.std.specs.Option.{option_and_then};
ghost use Rattle.typed_tree.specs.TypedView.{expression};
ghost use Rattle.typed_tree.specs.Typing.{only, operand_type, result_type, operation_type};
ghost use Rattle.cond_jumps.specs.Environments.{type_in};
ghost use Rattle.cond_jumps.specs.Frames.{frame_environment};

use crate::call_jumps::reading::read_at;
use boogie_tree::{Column, Op, Ty};
use cond_jumps::place;
use letter_acts::Frame;
use std::alloc::AllocError;
use typed_tree::{TExpr, TExprKind};

/// The type of a column; none where it is not in the frame.
fn column_type(frame: &Frame, column: Column) -> Result<Option<Ty>, AllocError>
    ensures { IfOk result (λ t. t ≡ (frame_environment frame.now.columns.items).type column) }
{
    match place(frame, column)? {
        None => Ok(None),
        Some(spot) => Ok(Some(spot.ty)),
    }
}

/// The type that an operator asks of both operands; none where any two of one type serve.
fn operand_type(op: Op) -> Option<Ty>
    ensures { result ≡ operand_type op }
{
    match op {
        Op::Iff | Op::Implies | Op::And | Op::Or => Some(Ty::Bool),
        Op::Eq | Op::Ne => None,
        _ => Some(Ty::Int),
    }
}

/// The type of what an operator gives.
pub fn result_type(op: Op) -> Ty
    ensures { result ≡ result_type op }
{
    match op {
        Op::Add | Op::Sub | Op::Mul | Op::Div | Op::Mod => Ty::Int,
        _ => Ty::Bool,
    }
}

/// The type of an operation on operands of these types.
fn operation_type(op: Op, a: Ty, b: Ty) -> Option<Ty>
    ensures { result ≡ operation_type op a b }
{
    if a != b {
        return None;
    }
    match operand_type(op) {
        Some(wanted) if wanted != a => None,
        _ => Some(result_type(op)),
    }
}

/// The wanted type, where the operand has it.
fn only(wanted: Ty, found: Option<Ty>) -> Option<Ty>
    ensures { result ≡ option_and_then (only wanted) found }
{
    match found {
        None => None,
        Some(ty) => if ty == wanted { Some(ty) } else { None },
    }
}

/// The type of an expression that is read at the procedure's entry or now; none where the types of its operators are broken.
pub fn type_in(frame: &Frame, old: bool, expr: &TExpr) -> Result<Option<Ty>, AllocError>
    ensures { IfOk result (λ t. t ≡ type_in (frame_environment frame.now.columns.items) old (expression expr.now)) }
{
    match &expr.kind {
        TExprKind::Lit(_) => Ok(Some(Ty::Int)),
        TExprKind::Truth(_) => Ok(Some(Ty::Bool)),
        TExprKind::Var(column) => column_type(frame, read_at(old, *column)),
        TExprKind::Old(inner) => type_in(frame, true, inner),
        TExprKind::Not(inner) => Ok(only(Ty::Bool, type_in(frame, old, inner)?)),
        TExprKind::Neg(inner) => Ok(only(Ty::Int, type_in(frame, old, inner)?)),
        TExprKind::Bin(op, left, right) => {
            let Some(first) = type_in(frame, old, left)? else {
                return Ok(None);
            };
            let Some(second) = type_in(frame, old, right)? else {
                return Ok(None);
            };
            Ok(operation_type(*op, first, second))
        }
    }
}
