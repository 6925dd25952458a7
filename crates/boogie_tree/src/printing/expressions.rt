ghost use Rattle.std.specs.Prelude.{◌≡◌, ◌++◌, OnOk};
ghost use Rattle.boogie_tree.specs.Printing.{expression_text, operand_text};
ghost use Rattle.boogie_tree.specs.View as view;

use super::pieces::{append, literal, operator, truth};
use crate::level::Level;
use crate::tree::{Expr, ExprKind};
use std::alloc::AllocError;

/// Puts the expression behind the text.
#[cycle(expressions)]
pub fn expression(out: &mut Vec<u8>, expr: &Expr) -> Result<(), AllocError>
    ensures { OnOk result (out.new.items ≡ out.old.items ++ expression_text (view.expression expr.now)) }
{
    match &expr.kind {
        ExprKind::Lit(n) => literal(out, *n),
        ExprKind::Truth(value) => truth(out, *value),
        ExprKind::Var(name) => append(out, name.text.bytes()),
        ExprKind::Old(inner) => {
            append(out, b"old(")?;
            expression(out, inner)?;
            append(out, b")")
        }
        ExprKind::Not(inner) => {
            append(out, b"!")?;
            operand(out, Level::Unary, inner)
        }
        ExprKind::Neg(inner) => {
            append(out, b"-")?;
            operand(out, Level::Unary, inner)
        }
        ExprKind::Bin(op, left, right) => {
            operand(out, op.level().left(), left)?;
            operator(out, *op)?;
            operand(out, op.level().right(), right)
        }
    }
}

/// Puts an operand where that level is asked for behind the text: in parentheses where it binds less.
#[cycle(expressions)]
fn operand(out: &mut Vec<u8>, asked: Level, expr: &Expr) -> Result<(), AllocError>
    ensures { OnOk result (out.new.items ≡ out.old.items ++ operand_text asked (view.expression expr.now)) }
{
    if asked.may_stand(expr.level()) {
        return expression(out, expr);
    }
    append(out, b"(")?;
    expression(out, expr)?;
    append(out, b")")
}
