//! Calls against what is called.

ghost use Rattle.std.specs.Prelude.{◌≡◌, map, slice_get, MatchOption, None, Some};
ghost use Rattle.std.specs.List.{list_all};
ghost use Rattle.typed_tree.specs.Scope.{seen};
ghost use Rattle.typed_tree.specs.TypedView as view;
ghost use Rattle.typed_tree.specs.TypedTree.{Call};
ghost use Rattle.typed_tree.specs.TypingRules.Rules.{params_of, results_of, arguments_agree, results_agree, column_has, is_member, is_call, is_statement};
ghost use Rattle.typed_tree.specs.TypingRules.BrokenTyping.{IsCallBroken, IsStatementBroken};
ghost use Rattle.typed_tree.specs.TypingRules.Ties.Judged.{Judges, context};

use crate::signatures::{params, results};
use crate::typing_rules::frame::{Frame, variable};
use crate::typing_rules::targets::targets;
use crate::typing_rules::values::{same, value};
use crate::{TExpr, TProc, TypeFault};
use boogie_tree::{Column, Span, VarInfo};

/// Whether there is one argument for each parameter, of its type.
fn arguments(
    frame: &Frame,
    at: Span,
    called: &TProc,
    columns: &[Column],
    values: &[TExpr],
) -> Result<(), TypeFault>
    ensures { Judges result (arguments_agree (seen frame.now.scope) (params_of (view.procedure called.now)) (map view.expression values.now)) (IsCallBroken (context frame.now) at columns.now (map view.expression values.now) (view.procedure called.now)) }
{
    let params = params(called);
    if params.len() != values.len() {
        return Err(TypeFault::Mismatch(at));
    }
    for (index, param) in params.iter().enumerate() {
        value(frame.alloc, &frame.scope, param.ty, &values[index])?;
    }
    Ok(())
}

/// Whether there is one target for each result, of its type.
fn returned(
    frame: &Frame,
    at: Span,
    called: &TProc,
    columns: &[Column],
    values: &[TExpr],
) -> Result<(), TypeFault>
    ensures { Judges result (results_agree (seen frame.now.scope) (results_of (view.procedure called.now)) columns.now) (IsCallBroken (context frame.now) at columns.now (map view.expression values.now) (view.procedure called.now)) }
{
    let results = results(called);
    if results.len() != columns.len() {
        return Err(TypeFault::Mismatch(at));
    }
    for (index, result) in results.iter().enumerate() {
        if !has(frame, result, columns[index]) {
            return Err(TypeFault::Mismatch(at));
        }
    }
    Ok(())
}

/// Whether the column has the type of the variable.
fn has(frame: &Frame, wanted: &VarInfo, column: Column) -> bool
    ensures { result ≡ column_has (seen frame.now.scope) wanted.now.ty column }
{
    match variable(&frame.scope, column) {
        Some(found) => same(wanted.ty, found.ty),
        None => false,
    }
}

/// Whether the globals are all among those that may be written.
fn modified(
    frame: &Frame,
    at: Span,
    called: &TProc,
    columns: &[Column],
    values: &[TExpr],
) -> Result<(), TypeFault>
    ensures { Judges result (list_all (λ n. is_member n (context frame.now).modifies) (view.procedure called.now).modifies) (IsCallBroken (context frame.now) at columns.now (map view.expression values.now) (view.procedure called.now)) }
{
    if all_listed(frame, &called.modifies) {
        Ok(())
    } else {
        Err(TypeFault::NotModified(at))
    }
}

/// Whether the numbers are all among the globals that may be written.
fn all_listed(frame: &Frame, numbers: &[u32]) -> bool
    ensures { result ≡ list_all (λ n. is_member n frame.now.modifies) numbers.now }
{
    for number in numbers {
        if !frame.modifies.has(*number) {
            return false;
        }
    }
    true
}

/// Whether the arguments and targets agree with what is called, and what it modifies may be written.
fn agreed(
    frame: &Frame,
    at: Span,
    called: &TProc,
    columns: &[Column],
    values: &[TExpr],
) -> Result<(), TypeFault>
    ensures { Judges result (is_call (context frame.now) columns.now (map view.expression values.now) (view.procedure called.now)) (IsCallBroken (context frame.now) at columns.now (map view.expression values.now) (view.procedure called.now)) }
{
    arguments(frame, at, called, columns, values)?;
    returned(frame, at, called, columns, values)?;
    modified(frame, at, called, columns, values)
}

/// The procedure with that number.
fn procedure<'a>(frame: &Frame<'a>, number: u32) -> Option<&'a TProc>
    ensures { MatchOption result (slice_get (context frame.now).procs number ≡ None) (λ p. slice_get (context frame.now).procs number ≡ Some (view.procedure p.now)) }
{
    frame.procs.get(number as usize)
}

/// Whether the call keeps the rules.
pub(crate) fn call(
    frame: &Frame,
    at: Span,
    columns: &[Column],
    callee: u32,
    values: &[TExpr],
) -> Result<(), TypeFault>
    ensures { Judges result (is_statement (context frame.now) (Call at columns.now callee (map view.expression values.now))) (IsStatementBroken (context frame.now) (Call at columns.now callee (map view.expression values.now))) }
{
    let Some(called) = procedure(frame, callee) else {
        return Err(TypeFault::Unknown(at));
    };
    targets(frame, at, columns)?;
    agreed(frame, at, called, columns, values)
}
