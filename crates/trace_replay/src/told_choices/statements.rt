//! What the statements of a body choose, in the order of the text.

ghost use Rattle.std.specs.Prelude.{◌≡◌, ◌++◌, [], map, length, IfOk, OnOk, slice_get};
ghost use Rattle.boogie_run.specs.BoogiePoints.Actions.{ensured_conditions};
ghost use Rattle.typed_tree.specs.TypedView as view;
ghost use Rattle.trace_replay.specs.ToldChoices.Ties.Walks as walks;
ghost use Rattle.trace_replay.specs.ToldChoices.Ties.Views.{plain_kind, plain_kinds};

use crate::told_choices::columns::{column_number, column_numbers};
use crate::told_choices::kinds::{Kind, add, add_silent};
use boogie_run::boogie_points::counts::{demanded, granted};
use boogie_run::boogie_points::procedure_at;
use boogie_tree::{Column, VarInfo};
use std::alloc::AllocError;
use typed_tree::{TExpr, TGuard, TProc, TSpec, TStmt};

/// A value for each of these columns.
fn add_guesses(
    kinds: &mut Vec<Kind>,
    frame: &[(Column, VarInfo)],
    columns: &[Column],
) -> Result<(), AllocError>
    ensures { OnOk result (plain_kinds kinds.new.items ≡ plain_kinds kinds.old.items ++ map (walks.guess frame.now) columns.now) }
{
    for column in columns {
        add(kinds, Kind::Guesses(column_number(frame, *column)))?;
    }
    Ok(())
}

fn guard_kind(guard: &TGuard) -> Kind
    ensures { plain_kind result ≡ walks.guard_kind (view.guard guard.now) }
{
    match guard {
        TGuard::Any => Kind::Picks,
        TGuard::Cond(_) => Kind::Silent,
    }
}

fn goto_kind(labels: &[u32]) -> Kind
    ensures { plain_kind result ≡ walks.goto_kind labels.now }
{
    match labels {
        [] => Kind::Silent,
        [_] => Kind::Silent,
        [_, _, ..] => Kind::Picks,
    }
}

/// A call of a procedure behind its requires.
fn called_kind(
    frame: &[(Column, VarInfo)],
    called: &TProc,
    callee: u32,
    targets: &Vec<Column>,
    args: &[TExpr],
) -> Result<Kind, AllocError>
    ensures { IfOk result (λ k. plain_kind k ≡ walks.called_kind frame.now (view.procedure called.now).body callee targets.now.items (map view.expression args.now)) }
{
    match &called.body {
        Some(_) => Ok(Kind::Enters(args.len())),
        None => {
            let numbers = column_numbers(*targets.allocator(), frame, targets)?;
            Ok(Kind::Imports(callee, numbers))
        }
    }
}

/// A call: the requires that it asserts, and then the call itself.
fn add_call(
    kinds: &mut Vec<Kind>,
    procs: &[TProc],
    frame: &[(Column, VarInfo)],
    callee: u32,
    targets: &Vec<Column>,
    args: &[TExpr],
) -> Result<(), AllocError>
    ensures { OnOk result (plain_kinds kinds.new.items ≡ plain_kinds kinds.old.items ++ walks.call_kinds frame.now (slice_get (map view.procedure procs.now) callee) callee targets.now.items (map view.expression args.now)) }
{
    let Some(called) = procedure_at(procs, callee) else {
        return add(kinds, Kind::Silent);
    };
    add_silent(kinds, demanded(&called.specs))?;
    add(kinds, called_kind(frame, called, callee, targets, args)?)
}

/// A statement. It recurses as deep as statements are nested, as dropping one does.
#[cycle(statements)]
fn add_statement(
    kinds: &mut Vec<Kind>,
    procs: &[TProc],
    frame: &[(Column, VarInfo)],
    statement: &TStmt,
) -> Result<(), AllocError>
    ensures { OnOk result (plain_kinds kinds.new.items ≡ plain_kinds kinds.old.items ++ walks.statement_kinds (map view.procedure procs.now) frame.now (view.statement statement.now)) }
{
    match statement {
        TStmt::Havoc(_, columns) => add_guesses(kinds, frame, columns),
        TStmt::Call(_, targets, callee, args) => {
            add_call(kinds, procs, frame, *callee, targets, args)
        }
        TStmt::If(_, guard, then, otherwise) => {
            add(kinds, guard_kind(guard))?;
            add_block(kinds, procs, frame, then)?;
            add_block(kinds, procs, frame, otherwise)
        }
        TStmt::While(_, guard, conditions, body) => {
            add_silent(kinds, conditions.len())?;
            add(kinds, guard_kind(guard))?;
            add_block(kinds, procs, frame, body)
        }
        TStmt::Goto(_, labels) => add(kinds, goto_kind(labels)),
        TStmt::Label(_) => Ok(()),
        TStmt::Assert(_, _) | TStmt::Assume(_, _) | TStmt::Assign(_, _, _) => add_silent(kinds, 1),
        TStmt::Break(_, _) | TStmt::Return(_) => add_silent(kinds, 1),
    }
}

/// The statements of a list.
#[cycle(statements)]
fn add_block(
    kinds: &mut Vec<Kind>,
    procs: &[TProc],
    frame: &[(Column, VarInfo)],
    listed: &[TStmt],
) -> Result<(), AllocError>
    ensures { OnOk result (plain_kinds kinds.new.items ≡ plain_kinds kinds.old.items ++ walks.block_kinds (map view.procedure procs.now) frame.now (view.statements listed.now)) }
{
    for statement in listed {
        add_statement(kinds, procs, frame, statement)?;
    }
    Ok(())
}

/// How many ensures there are.
pub(crate) fn ensured(specs: &[TSpec]) -> usize
    ensures { result ≡ length (ensured_conditions (map view.specification specs.now)) }
{
    let mut count = 0;
    for said in specs {
        if let TSpec::Ensures(_) = said {
            count += 1;
        }
    }
    count
}

/// A procedure: its free requires, its statements, its ensures and the return, where it has a body.
pub(crate) fn add_procedure(
    kinds: &mut Vec<Kind>,
    procs: &[TProc],
    frame: &[(Column, VarInfo)],
    added: &TProc,
) -> Result<(), AllocError>
    ensures { OnOk result (plain_kinds kinds.new.items ≡ plain_kinds kinds.old.items ++ walks.body_kinds (map view.procedure procs.now) frame.now (view.procedure added.now) (view.procedure added.now).body) }
{
    let Some(body) = &added.body else {
        return Ok(());
    };
    add_silent(kinds, granted(&added.specs))?;
    add_block(kinds, procs, frame, body)?;
    add_silent(kinds, ensured(&added.specs))?;
    add_silent(kinds, 1)
}
