//! The rules of statements.

ghost use Rattle.std.specs.Prelude.{◌≡◌, ◌&&◌, map};
ghost use Rattle.std.specs.List.{list_all};
ghost use Rattle.typed_tree.specs.Scope.{seen};
ghost use Rattle.typed_tree.specs.TypedTree.{Havoc, Assign, Goto, Break};
ghost use Rattle.typed_tree.specs.TypedView as view;
ghost use Rattle.typed_tree.specs.TypingRules.Rules.{values_agree, is_member, is_guard, is_invariant, is_statement, is_block, within, looped};
ghost use Rattle.typed_tree.specs.TypingRules.BrokenTyping.{IsStatementBroken, IsBlockBroken};
ghost use Rattle.typed_tree.specs.TypingRules.Ties.Judged.{Judges, JudgesIn, IsLoopHeadBroken, context, is_head};

use crate::typing_rules::calls::call;
use crate::typing_rules::frame::{Frame, variable};
use crate::typing_rules::targets::targets;
use crate::typing_rules::values::{condition, guard, invariants, value};
use crate::{TExpr, TGuard, TInv, TStmt, TypeFault};
use boogie_tree::{Column, Span};

/// Whether there is one value for each target, of its type.
fn values(frame: &Frame, at: Span, columns: &[Column], values: &[TExpr]) -> Result<(), TypeFault>
    ensures { Judges result (values_agree (seen frame.now.scope) columns.now (map view.expression values.now)) (IsStatementBroken (context frame.now) (Assign at columns.now (map view.expression values.now))) }
{
    if columns.len() != values.len() {
        return Err(TypeFault::Mismatch(at));
    }
    for (index, column) in columns.iter().enumerate() {
        let Some(found) = variable(&frame.scope, *column) else {
            return Err(TypeFault::Unknown(at));
        };
        value(frame.alloc, &frame.scope, found.ty, &values[index])?;
    }
    Ok(())
}

fn assign(frame: &Frame, at: Span, columns: &[Column], assigned: &[TExpr]) -> Result<(), TypeFault>
    ensures { Judges result (is_statement (context frame.now) (Assign at columns.now (map view.expression assigned.now))) (IsStatementBroken (context frame.now) (Assign at columns.now (map view.expression assigned.now))) }
{
    if columns.is_empty() {
        return Err(TypeFault::Mismatch(at));
    }
    targets(frame, at, columns)?;
    values(frame, at, columns, assigned)
}

fn havoc(frame: &Frame, at: Span, columns: &[Column]) -> Result<(), TypeFault>
    ensures { Judges result (is_statement (context frame.now) (Havoc at columns.now)) (IsStatementBroken (context frame.now) (Havoc at columns.now)) }
{
    if columns.is_empty() {
        Err(TypeFault::Mismatch(at))
    } else {
        targets(frame, at, columns)
    }
}

/// Whether a goto there may name the labels.
fn all_named(frame: &Frame, labels: &[u32]) -> bool
    ensures { result ≡ list_all (λ n. is_member n frame.now.labels) labels.now }
{
    for label in labels {
        if !frame.labels.has(*label) {
            return false;
        }
    }
    true
}

fn goto(frame: &Frame, at: Span, labels: &[u32]) -> Result<(), TypeFault>
    ensures { Judges result (is_statement (context frame.now) (Goto at labels.now)) (IsStatementBroken (context frame.now) (Goto at labels.now)) }
{
    if labels.is_empty() {
        return Err(TypeFault::BadGoto(at));
    }
    if all_named(frame, labels) {
        Ok(())
    } else {
        Err(TypeFault::BadGoto(at))
    }
}

fn leave(frame: &Frame, at: Span, further: u32) -> Result<(), TypeFault>
    ensures { Judges result (is_statement (context frame.now) (Break at further)) (IsStatementBroken (context frame.now) (Break at further)) }
{
    if (further as u64) < frame.loops {
        Ok(())
    } else {
        Err(TypeFault::BadGoto(at))
    }
}

fn loop_head(frame: &Frame, decided: &TGuard, conditions: &[TInv]) -> Result<(), TypeFault>
    ensures { Judges result (is_guard (seen frame.now.scope) (view.guard decided.now) && list_all (is_invariant (seen frame.now.scope)) (map view.invariant conditions.now)) (IsLoopHeadBroken (seen frame.now.scope) (view.guard decided.now) (map view.invariant conditions.now)) }
{
    guard(frame.alloc, &frame.scope, decided)?;
    invariants(frame.alloc, &frame.scope, conditions)
}

/// Whether a statement keeps the rules, the lists inside it left out.
fn head(frame: &Frame, statement: &TStmt) -> Result<(), TypeFault>
    ensures { Judges result (is_head (context frame.now) (view.statement statement.now)) (IsStatementBroken (context frame.now) (view.statement statement.now)) }
{
    match statement {
        TStmt::Assert(_, claim) => condition(frame.alloc, &frame.scope, claim),
        TStmt::Assume(_, claim) => condition(frame.alloc, &frame.scope, claim),
        TStmt::Havoc(at, columns) => havoc(frame, *at, columns),
        TStmt::Assign(at, columns, assigned) => assign(frame, *at, columns, assigned),
        TStmt::Call(at, columns, callee, arguments) => call(
            frame, *at, columns, *callee, arguments,
        ),
        TStmt::If(_, decided, _, _) => guard(frame.alloc, &frame.scope, decided),
        TStmt::While(_, decided, conditions, _) => loop_head(frame, decided, conditions),
        TStmt::Break(at, further) => leave(frame, *at, *further),
        TStmt::Goto(at, labels) => goto(frame, *at, labels),
        TStmt::Return(_) | TStmt::Label(_) => Ok(()),
    }
}

/// Whether a statement keeps the rules. It recurses as deep as statements are nested, as dropping one does.
#[cycle(statements)]
fn statement(frame: &mut Frame<'_>, checked: &TStmt) -> Result<(), TypeFault>
    ensures { JudgesIn frame.old frame.new result (is_statement (context frame.old) (view.statement checked.now)) (IsStatementBroken (context frame.old) (view.statement checked.now)) }
{
    head(frame, checked)?;
    match checked {
        TStmt::If(_, _, then, otherwise) => {
            block(frame, then)?;
            block(frame, otherwise)
        }
        TStmt::While(_, _, _, body) => round(frame, body),
        TStmt::Assert(_, _) | TStmt::Assume(_, _) | TStmt::Havoc(_, _) => Ok(()),
        TStmt::Assign(_, _, _) | TStmt::Call(_, _, _, _) | TStmt::Break(_, _) => Ok(()),
        TStmt::Goto(_, _) | TStmt::Return(_) | TStmt::Label(_) => Ok(()),
    }
}

/// Whether the statements of a loop keep the rules.
#[cycle(statements)]
fn round(frame: &mut Frame<'_>, body: &[TStmt]) -> Result<(), TypeFault>
    ensures { JudgesIn frame.old frame.new result (is_block (within (looped (context frame.old)) (view.statements body.now)) (view.statements body.now)) (IsBlockBroken (within (looped (context frame.old)) (view.statements body.now)) (view.statements body.now)) }
{
    let loops = frame.loops;
    let Some(more) = loops.checked_add(1) else {
        return Err(TypeFault::Memory);
    };
    frame.loops = more;
    block(frame, body)?;
    frame.loops = loops;
    Ok(())
}

/// Whether the statements of a list keep the rules.
#[cycle(statements)]
pub(crate) fn block(frame: &mut Frame<'_>, listed: &[TStmt]) -> Result<(), TypeFault>
    ensures { JudgesIn frame.old frame.new result (is_block (within (context frame.old) (view.statements listed.now)) (view.statements listed.now)) (IsBlockBroken (within (context frame.old) (view.statements listed.now)) (view.statements listed.now)) }
{
    let count = frame.labels.count();
    frame.labels.enter(listed)?;
    each(frame, listed)?;
    frame.labels.leave(count);
    Ok(())
}

/// Whether each statement keeps the rules.
#[cycle(statements)]
fn each(frame: &mut Frame<'_>, listed: &[TStmt]) -> Result<(), TypeFault>
    ensures { JudgesIn frame.old frame.new result (is_block (context frame.old) (view.statements listed.now)) (IsBlockBroken (context frame.old) (view.statements listed.now)) }
{
    for checked in listed {
        statement(frame, checked)?;
    }
    Ok(())
}
