ghost use Rattle.std.specs.Prelude.{◌≡◌, IfOk};
ghost use Rattle.typed_tree.specs.TypedView.{expression};
ghost use Rattle.icfg_lower.specs.CallJumps.Ties.Reading.{constant_part};

use crate::call_jumps::rebuilding::{binary, negative, zero};
use boogie_tree::Op;
use std::alloc::{AllocError, Global};
use typed_tree::{TExpr, TExprKind};

/// The constant of the affine form of a whole-number expression, as an expression.
pub fn constant_part(alloc: Global, expr: &TExpr) -> Result<TExpr, AllocError>
    ensures { IfOk result (λ e. expression e ≡ constant_part (expression expr.now)) }
{
    match &expr.kind {
        TExprKind::Lit(n) => Ok(TExpr {
            span: expr.span,
            kind: TExprKind::Lit(*n),
        }),
        TExprKind::Old(inner) => constant_part(alloc, inner),
        TExprKind::Neg(inner) => negative(alloc, expr.span, constant_part(alloc, inner)?),
        TExprKind::Bin(op, left, right) => match op {
            Op::Add | Op::Sub | Op::Mul => {
                let first = constant_part(alloc, left)?;
                let second = constant_part(alloc, right)?;
                binary(alloc, expr.span, *op, first, second)
            }
            _ => Ok(zero(expr.span)),
        },
        _ => Ok(zero(expr.span)),
    }
}
