//! The shape of a program: what holds of it beside the typing rules.

ghost use Rattle.std.specs.Prelude.{◌≡◌, [], not, map, nat_eq, slice_get, IfOk};
ghost use Rattle.std.specs.List.{list_all};
ghost use Rattle.std.specs.Option.{option_map};
ghost use Rattle.typed_tree.specs.TypedView as view;
ghost use Rattle.typed_tree.specs.TypingRules.Rules.{all_differ, meets};
ghost use Rattle.typed_tree.specs.TypingRules.Shape as shape;
ghost use Rattle.typed_tree.specs.TypingRules.TypedParts.{program_of};

use crate::signatures::{behind_params, params};
use crate::typing_rules::arguments::is_shaped_block;
use crate::typing_rules::label_order::block_labels;
use crate::typing_rules::names::{procedures_named, variables_named};
use crate::typing_rules::numbers::differ;
use crate::{TProc, TStmt};
use boogie_tree::VarInfo;
use std::alloc::{AllocError, Global};

fn all_constant(variables: &[VarInfo]) -> bool
    ensures { result ≡ list_all (λ v. v.constant) variables.now }
{
    for variable in variables {
        if !variable.constant {
            return false;
        }
    }
    true
}

fn none_constant(variables: &[VarInfo]) -> bool
    ensures { result ≡ list_all (λ v. not v.constant) variables.now }
{
    for variable in variables {
        if variable.constant {
            return false;
        }
    }
    true
}

/// Whether the parameters are constant, and no other local is.
fn are_locals(shaped: &TProc) -> bool
    ensures { result ≡ shape.are_locals (view.procedure shaped.now) }
{
    let named = shaped.params as usize + shaped.results as usize;
    named <= shaped.locals.len()
        && all_constant(params(shaped))
        && none_constant(behind_params(shaped))
}

/// Whether there is a global with that number, and it is no constant.
fn is_global(globals: &[VarInfo], number: u32) -> bool
    ensures { result ≡ meets (λ v. not v.constant) (slice_get globals.now number) }
{
    match globals.get(number as usize) {
        Some(global) => !global.constant,
        None => false,
    }
}

fn all_globals(globals: &[VarInfo], numbers: &[u32]) -> bool
    ensures { result ≡ list_all (λ n. meets (λ v. not v.constant) (slice_get globals.now n)) numbers.now }
{
    for number in numbers {
        if !is_global(globals, *number) {
            return false;
        }
    }
    true
}

/// Whether no two of the numbers are the same.
fn numbers_differ(alloc: Global, numbers: &[u32]) -> Result<bool, AllocError>
    ensures { IfOk result (λ b. b ≡ all_differ nat_eq numbers.now) }
{
    let mut wide = Vec::with_capacity(alloc, numbers.len())?;
    for number in numbers {
        wide.push(u64::from(*number))?;
    }
    differ(alloc, &wide)
}

/// Whether the modified globals exist, are no constants, and stand once.
fn are_modified(alloc: Global, globals: &[VarInfo], numbers: &[u32]) -> Result<bool, AllocError>
    ensures { IfOk result (λ b. b ≡ shape.are_modified globals.now numbers.now) }
{
    if all_globals(globals, numbers) {
        numbers_differ(alloc, numbers)
    } else {
        Ok(false)
    }
}

/// Whether the labels of a body count up from 0.
fn counts_up(listed: &[TStmt]) -> bool
    ensures { result ≡ shape.counts_from 0 (shape.block_labels (view.statements listed.now)) }
{
    block_labels(0, listed).is_some()
}

/// Whether the labels count up from 0, and the boolean arguments of each call are simple.
fn is_body_shaped(procs: &[TProc], body: &Option<Vec<TStmt>>) -> bool
    ensures { result ≡ shape.is_body_shaped (map view.procedure procs.now) (option_map (λ b. view.statements b.items) body.now) }
{
    match body {
        None => true,
        Some(listed) => counts_up(listed) && is_shaped_block(procs, listed),
    }
}

/// Whether the locals, the modified globals and the body of a procedure are as they have to be.
fn is_procedure_shaped(
    alloc: Global,
    globals: &[VarInfo],
    procs: &[TProc],
    shaped: &TProc,
) -> Result<bool, AllocError>
    ensures { IfOk result (λ b. b ≡ shape.is_procedure_shaped globals.now (map view.procedure procs.now) (view.procedure shaped.now)) }
{
    if !variables_named(alloc, &shaped.locals)? {
        return Ok(false);
    }
    if !are_modified(alloc, globals, &shaped.modifies)? {
        return Ok(false);
    }
    Ok(are_locals(shaped) && is_body_shaped(procs, &shaped.body))
}

fn procedures_shaped(
    alloc: Global,
    globals: &[VarInfo],
    procs: &[TProc],
) -> Result<bool, AllocError>
    ensures { IfOk result (λ b. b ≡ list_all (shape.is_procedure_shaped globals.now (map view.procedure procs.now)) (map view.procedure procs.now)) }
{
    for shaped in procs {
        if !is_procedure_shaped(alloc, globals, procs, shaped)? {
            return Ok(false);
        }
    }
    Ok(true)
}

/// Whether the names and each procedure are as they have to be.
pub(crate) fn has_shape(
    alloc: Global,
    globals: &[VarInfo],
    procs: &[TProc],
) -> Result<bool, AllocError>
    ensures { IfOk result (λ b. b ≡ shape.has_shape (program_of globals.now [] procs.now)) }
{
    if !variables_named(alloc, globals)? {
        return Ok(false);
    }
    if !procedures_named(alloc, procs)? {
        return Ok(false);
    }
    procedures_shaped(alloc, globals, procs)
}
