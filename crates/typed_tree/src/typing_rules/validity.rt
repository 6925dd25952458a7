//! Whether the parts of a program are a typed program.

ghost use Rattle.std.specs.Prelude.{◌≡◌, true, false, map, slice_get, IfOk, MatchOption};
ghost use Rattle.typed_tree.specs.TypedView as view;
ghost use Rattle.typed_tree.specs.TypingRules.Rules.{meets, keeps_typing};
ghost use Rattle.typed_tree.specs.TypingRules.TypedParts.{program_of, typed_program};
ghost use Rattle.typed_tree.specs.TypingRules.ValidProgram.{has_body, is_typed, is_valid};

use crate::typing_rules::counts::numbers_fit;
use crate::typing_rules::procedures::check_typing;
use crate::typing_rules::program::Typed;
use crate::typing_rules::shape::has_shape;
use crate::{TExpr, TProc, TypeFault};
use boogie_tree::VarInfo;
use std::alloc::{AllocError, Global};

/// Whether the typing rules of statements and expressions hold.
fn keeps_rules(
    alloc: Global,
    globals: &[VarInfo],
    axioms: &[TExpr],
    procs: &[TProc],
) -> Result<bool, AllocError>
    ensures { IfOk result (λ kept. kept ≡ keeps_typing (program_of globals.now axioms.now procs.now)) }
{
    match check_typing(alloc, globals, axioms, procs) {
        Ok(()) => Ok(true),
        Err(TypeFault::Memory) => Err(AllocError),
        Err(_) => Ok(false),
    }
}

/// Whether the entry is a procedure with a body.
fn has_entry(procs: &[TProc], entry: u32) -> bool
    ensures { result ≡ meets has_body (slice_get (map view.procedure procs.now) entry) }
{
    match procs.get(entry as usize) {
        Some(entered) => entered.body.is_some(),
        None => false,
    }
}

/// Whether the typing rules hold.
fn are_typed(
    alloc: Global,
    globals: &[VarInfo],
    axioms: &[TExpr],
    procs: &[TProc],
    entry: u32,
) -> Result<bool, AllocError>
    ensures { IfOk result (λ b. b ≡ is_typed (typed_program (record { globals = globals.now; axioms = axioms.now; procs = procs.now; entry = entry }))) }
{
    if !has_shape(alloc, globals, procs)? {
        return Ok(false);
    }
    if !keeps_rules(alloc, globals, axioms, procs)? {
        return Ok(false);
    }
    Ok(has_entry(procs, entry))
}

/// Whether the typing rules hold, and numbers fit.
fn are_valid(
    alloc: Global,
    globals: &[VarInfo],
    axioms: &[TExpr],
    procs: &[TProc],
    entry: u32,
) -> Result<bool, AllocError>
    ensures { IfOk result (λ b. b ≡ is_valid (typed_program (record { globals = globals.now; axioms = axioms.now; procs = procs.now; entry = entry }))) }
{
    if are_typed(alloc, globals, axioms, procs, entry)? {
        numbers_fit(alloc, globals, axioms, procs, entry)
    } else {
        Ok(false)
    }
}

/// The typed program of these parts; none where they are no such program.
pub fn typed(
    alloc: Global,
    globals: Vec<VarInfo>,
    axioms: Vec<TExpr>,
    procs: Vec<TProc>,
    entry: u32,
) -> Result<Option<Typed>, AllocError>
    ensures { IfOk result (λ made. MatchOption made (is_valid (typed_program (record { globals = globals.items; axioms = axioms.items; procs = procs.items; entry = entry })) ≡ false)
        (λ program. (program ≡ record { globals = globals.items; axioms = axioms.items; procs = procs.items; entry = entry }) × (is_valid (typed_program program) ≡ true))) }
{
    if are_valid(alloc, &globals, &axioms, &procs, entry)? {
        Ok(Some(Typed::new(globals, axioms, procs, entry)))
    } else {
        Ok(None)
    }
}
