ghost use Rattle.std.specs.Prelude.{◌≡◌, ◌++◌, ℕ, suc, [], codes, map, OnOk};
ghost use Rattle.boogie_tree.specs.Printing.{statement_text, block_text, invariants_text, else_text, guard_text, line};
ghost use Rattle.boogie_tree.specs.View as view;

use super::lines::{
    assignment, call, claim_line, condition, guard_line, inside, label, leaving_line, names_line,
    plain_line,
};
use crate::tree::{Guard, Inv, Stmt};
use std::alloc::AllocError;

/// A statement in so many open blocks.
#[cycle(statements)]
fn statement(out: &mut Vec<u8>, depth: usize, statement: &Stmt) -> Result<(), AllocError>
    ensures { OnOk result (out.new.items ≡ out.old.items ++ statement_text depth (view.statement statement.now)) }
{
    match statement {
        Stmt::Assert(_, claim) => claim_line(out, depth, b"assert ", claim),
        Stmt::Assume(_, claim) => claim_line(out, depth, b"assume ", claim),
        Stmt::Havoc(_, names) => names_line(out, depth, b"havoc ", names),
        Stmt::Assign(_, targets, values) => assignment(out, depth, targets, values),
        Stmt::Call(_, targets, callee, arguments) => call(out, depth, targets, callee, arguments),
        Stmt::If(_, guard, then, otherwise) => {
            let inner = inside(depth)?;
            guard_line(out, depth, b"if (", guard, b") {")?;
            block(out, inner, then)?;
            else_line(out, depth, otherwise)?;
            block(out, inner, otherwise)?;
            plain_line(out, depth, b"}")
        }
        Stmt::While(_, guard, invariants, body) => {
            let inner = inside(depth)?;
            loop_head(out, depth, guard, invariants)?;
            block(out, inner, body)?;
            plain_line(out, depth, b"}")
        }
        Stmt::Break(_, label) => leaving_line(out, depth, label),
        Stmt::Goto(_, labels) => names_line(out, depth, b"goto ", labels),
        Stmt::Return(_) => plain_line(out, depth, b"return;"),
        Stmt::Label(name) => label(out, depth, name),
    }
}

/// Statements in so many open blocks.
#[cycle(statements)]
pub(super) fn block(out: &mut Vec<u8>, depth: usize, statements: &[Stmt]) -> Result<(), AllocError>
    ensures { OnOk result (out.new.items ≡ out.old.items ++ block_text depth (view.statements statements.now)) }
{
    for each in statements {
        statement(out, depth, each)?;
    }
    Ok(())
}

/// `} else {`, left out where nothing follows.
fn else_line(out: &mut Vec<u8>, depth: usize, otherwise: &[Stmt]) -> Result<(), AllocError>
    ensures { OnOk result (out.new.items ≡ out.old.items ++ else_text depth (view.statements otherwise.now) []) }
{
    match otherwise {
        [] => Ok(()),
        [_, ..] => plain_line(out, depth, b"} else {"),
    }
}

/// The lines of a loop before its statements.
fn loop_head(
    out: &mut Vec<u8>,
    depth: usize,
    guard: &Guard,
    invariants: &[Inv],
) -> Result<(), AllocError>
    ensures { OnOk result (out.new.items ≡ out.old.items ++ (line depth (codes "while (" ++ guard_text (view.guard guard.now) ++ codes ")") ++ invariants_text (suc depth) (map view.invariant invariants.now) ++ line depth (codes "{"))) }
{
    guard_line(out, depth, b"while (", guard, b")")?;
    invariant_lines(out, inside(depth)?, invariants)?;
    plain_line(out, depth, b"{")
}

fn invariant_lines(out: &mut Vec<u8>, depth: usize, invariants: &[Inv]) -> Result<(), AllocError>
    ensures { OnOk result (out.new.items ≡ out.old.items ++ invariants_text depth (map view.invariant invariants.now)) }
{
    for invariant in invariants {
        condition(out, depth, b"invariant", invariant)?;
    }
    Ok(())
}
