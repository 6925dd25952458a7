//! The rules of procedures and programs.

ghost use Rattle.std.specs.Prelude.{◌≡◌, ◌+◌, ◌⊎◌, true, false, map, take, Err, IfOk, IfErr, IsOk, IsErr};
ghost use Rattle.std.specs.List.{list_all};
ghost use Rattle.typed_tree.specs.declared.fault.TypeFault.TheVariants as faults;
ghost use Rattle.typed_tree.specs.Scope.{seen};
ghost use Rattle.typed_tree.specs.Scope as scopes;
ghost use Rattle.typed_tree.specs.TypedView as view;
ghost use Rattle.typed_tree.specs.TypingRules.TypedParts.{program_of};
ghost use Rattle.typed_tree.specs.TypingRules.Rules.{params_of, is_specification, procedure_keeps_rules, is_body_if_any, keeps_typing, context_of};
ghost use Rattle.typed_tree.specs.TypingRules.BrokenTyping.{IsSpecificationBroken, IsProcedureBroken, IsProgramBroken, IsTypingFault};
ghost use Rattle.typed_tree.specs.TypingRules.Ties.Judged.{Judges, IsOneBroken, context};

use crate::signatures::{params, signature};
use crate::typing_rules::frame::Frame;
use crate::typing_rules::labels::Labels;
use crate::typing_rules::numbers::Numbers;
use crate::typing_rules::statements::block;
use crate::typing_rules::values::{axioms, condition};
use crate::{Scope, TExpr, TProc, TSpec, TypeFault};
use boogie_tree::VarInfo;
use std::alloc::{AllocError, Global};

/// Axioms see constants.
fn axiom_scope(globals: &[VarInfo]) -> Scope<'_>
    ensures { seen result ≡ scopes.axiom_scope globals.now }
{
    Scope {
        globals,
        variables: false,
        locals: &[],
        old: false,
    }
}

/// Requires see the parameters.
fn requires_scope<'a>(globals: &'a [VarInfo], checked: &'a TProc) -> Scope<'a>
    ensures { seen result ≡ scopes.requires_scope globals.now (params_of (view.procedure checked.now)) }
{
    Scope {
        globals,
        variables: true,
        locals: params(checked),
        old: false,
    }
}

/// Bodies see all locals, and ensures the first ones. Both may read the past.
fn body_scope<'a>(globals: &'a [VarInfo], locals: &'a [VarInfo]) -> Scope<'a>
    ensures { seen result ≡ scopes.body_scope globals.now locals.now }
{
    Scope {
        globals,
        variables: true,
        locals,
        old: true,
    }
}

/// Ensures see the results too.
fn ensures_scope<'a>(globals: &'a [VarInfo], checked: &'a TProc) -> Scope<'a>
    ensures { seen result ≡ scopes.body_scope globals.now (take (checked.now.params + checked.now.results) checked.now.locals.items) }
{
    body_scope(globals, signature(checked))
}

fn specification(
    alloc: Global,
    globals: &[VarInfo],
    checked: &TProc,
    said: &TSpec,
) -> Result<(), TypeFault>
    ensures { Judges result (is_specification globals.now (view.procedure checked.now) (view.specification said.now)) (IsSpecificationBroken globals.now (view.procedure checked.now) (view.specification said.now)) }
{
    match said {
        TSpec::Requires(required) => {
            condition(alloc, &requires_scope(globals, checked), &required.cond)
        }
        TSpec::Ensures(ensured) => {
            condition(alloc, &ensures_scope(globals, checked), &ensured.cond)
        }
    }
}

fn specifications(alloc: Global, globals: &[VarInfo], checked: &TProc) -> Result<(), TypeFault>
    ensures { Judges result (list_all (is_specification globals.now (view.procedure checked.now)) (map view.specification checked.now.specs.items)) (IsOneBroken (map view.specification checked.now.specs.items) (IsSpecificationBroken globals.now (view.procedure checked.now))) }
{
    for said in &checked.specs {
        specification(alloc, globals, checked, said)?;
    }
    Ok(())
}

/// What the body of the procedure stands under.
fn frame_of<'a>(
    alloc: Global,
    globals: &'a [VarInfo],
    procs: &'a [TProc],
    checked: &'a TProc,
) -> Result<Frame<'a>, AllocError>
    ensures { IfOk result (λ k. context k ≡ context_of globals.now (map view.procedure procs.now) (view.procedure checked.now)) }
{
    Ok(Frame {
        alloc,
        scope: body_scope(globals, &checked.locals),
        procs,
        modifies: Numbers::new(alloc, &checked.modifies)?,
        labels: Labels::none(alloc),
        loops: 0,
    })
}

fn body(
    alloc: Global,
    globals: &[VarInfo],
    procs: &[TProc],
    checked: &TProc,
) -> Result<(), TypeFault>
    ensures { Judges result (is_body_if_any (context_of globals.now (map view.procedure procs.now) (view.procedure checked.now)) (view.procedure checked.now).body) (IsProcedureBroken globals.now (map view.procedure procs.now) (view.procedure checked.now)) }
{
    match &checked.body {
        None => Ok(()),
        Some(listed) => {
            let mut frame = frame_of(alloc, globals, procs, checked)?;
            block(&mut frame, listed)?;
            Ok(())
        }
    }
}

fn procedure(
    alloc: Global,
    globals: &[VarInfo],
    procs: &[TProc],
    checked: &TProc,
) -> Result<(), TypeFault>
    ensures { Judges result (procedure_keeps_rules globals.now (map view.procedure procs.now) (view.procedure checked.now)) (IsProcedureBroken globals.now (map view.procedure procs.now) (view.procedure checked.now)) }
{
    specifications(alloc, globals, checked)?;
    body(alloc, globals, procs, checked)
}

fn procedures(alloc: Global, globals: &[VarInfo], procs: &[TProc]) -> Result<(), TypeFault>
    ensures { Judges result (list_all (procedure_keeps_rules globals.now (map view.procedure procs.now)) (map view.procedure procs.now)) (IsOneBroken (map view.procedure procs.now) (IsProcedureBroken globals.now (map view.procedure procs.now))) }
{
    for checked in procs {
        procedure(alloc, globals, procs, checked)?;
    }
    Ok(())
}

/// Whether the program keeps the rules.
fn program(
    alloc: Global,
    globals: &[VarInfo],
    listed: &[TExpr],
    procs: &[TProc],
) -> Result<(), TypeFault>
    ensures { Judges result (keeps_typing (program_of globals.now listed.now procs.now)) (IsProgramBroken (program_of globals.now listed.now procs.now)) }
{
    axioms(alloc, &axiom_scope(globals), listed)?;
    procedures(alloc, globals, procs)
}

/// Whether the program keeps the typing rules, its entry and its shape left out.
pub fn check_typing(
    alloc: Global,
    globals: &[VarInfo],
    axioms: &[TExpr],
    procs: &[TProc],
) -> Result<(), TypeFault>
    ensures kept { IsOk result → keeps_typing (program_of globals.now axioms.now procs.now) ≡ true }
    ensures fault { IfErr result (λ f. IsTypingFault (program_of globals.now axioms.now procs.now) f) }
    ensures only { IsErr result → (result ≡ Err faults.Memory) ⊎ (keeps_typing (program_of globals.now axioms.now procs.now) ≡ false) }
{
    program(alloc, globals, axioms, procs)
}
