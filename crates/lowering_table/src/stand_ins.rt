//! Numbers for which the rules of typing would refuse a sum.

use std::alloc::AllocError;
use typed_tree::typing_rules::Typed;
use typed_tree::{TExpr, TExprKind, TProc, TSpec, TStmt};

/// The literal that stands for the greatest number.
const STAND_IN: i128 = 999;

/// Puts the greatest number in place of each literal that stands for it.
fn enlarge(expression: &mut TExpr) {
    match &mut expression.kind {
        TExprKind::Lit(number) => {
            if *number == STAND_IN {
                *number = i128::MAX;
            }
        }
        TExprKind::Truth(_) | TExprKind::Var(_) => {}
        TExprKind::Old(inner) | TExprKind::Not(inner) | TExprKind::Neg(inner) => enlarge(inner),
        TExprKind::Bin(_, left, right) => {
            enlarge(left);
            enlarge(right);
        }
    }
}

fn enlarge_all(expressions: &mut Vec<TExpr>) {
    for expression in expressions.iter_mut() {
        enlarge(expression);
    }
}

fn enlarge_statement(statement: &mut TStmt) {
    match statement {
        TStmt::Assume(_, condition) => enlarge(condition),
        TStmt::Assign(_, _, values) | TStmt::Call(_, _, _, values) => enlarge_all(values),
        _ => {}
    }
}

fn enlarge_specification(specification: &mut TSpec) {
    match specification {
        TSpec::Requires(claim) | TSpec::Ensures(claim) => enlarge(&mut claim.cond),
    }
}

fn enlarge_procedure(procedure: &mut TProc) {
    for specification in procedure.specs.iter_mut() {
        enlarge_specification(specification);
    }
    if let Some(statements) = &mut procedure.body {
        for statement in statements.iter_mut() {
            enlarge_statement(statement);
        }
    }
}

/// The procedure of that number, with the greatest number in place of each literal that stands for it.
pub(crate) fn enlarged(program: &Typed, number: u32) -> Result<Option<TProc>, AllocError> {
    let Some(procedure) = program.procs().get(number as usize) else {
        return Ok(None);
    };
    let mut copy = procedure.copy()?;
    enlarge_procedure(&mut copy);
    Ok(Some(copy))
}
