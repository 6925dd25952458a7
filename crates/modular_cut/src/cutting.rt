//! Parts of a typed program.

ghost use Rattle.std.specs.Prelude.{◌≡◌, ◌<◌, ◌++◌, true, [], Err, IsTrue, length, map, slice_get, IfOk, OnOk};
ghost use Rattle.std.specs.List.{list_all, AllByRecursion};
ghost use Rattle.boogie_tree.specs.declared.span.Span as span;
ghost use Rattle.boogie_tree.specs.Names.{is_name};
ghost use Rattle.typed_tree.specs.TypedView as view;
ghost use Rattle.typed_tree.specs.TypingRules.Rules.{meets};
ghost use Rattle.typed_tree.specs.TypingRules.TypedParts.{typed_program};
ghost use Rattle.typed_tree.specs.TypingRules.ValidProgram.{has_body, is_typed, is_valid};
ghost use Rattle.boogie_run.specs.RunRules.Runs.{IsSafe};
ghost use Rattle.modular_cut.specs.Parts as spec;
ghost use Rattle.modular_cut.specs.FreeConditions.{free_spans, IsFirstFree};
ghost use Rattle.modular_cut.specs.View.{plain_part, IsValidPart};
ghost use Rattle.modular_cut.specs.declared.cutting.CutFault.TheVariants as faults;

use crate::free::first_free;
use crate::procedures::cut_procedures;
use boogie_tree::{Span, Text, VarInfo};
use std::alloc::{AllocError, AllocFailed, Global};
use thiserror::Error;
use typed_tree::typing_rules::{Typed, numbers_fit};
use typed_tree::{TExpr, TProc};

/// A procedure with a body, and the program in which its body begins the run and each call is taken by the specification of what it calls.
#[derive(Drop)]
pub struct Part {
    pub name: Text,
    pub program: Typed,
}

/// Why a program was not cut.
#[derive(Debug, Drop, Error)]
pub enum CutFault {
    #[error("a specification or an invariant is free")]
    Free(Span),
    #[error("out of memory")]
    Memory,
}

impl From<AllocError> for CutFault {
    ghost use Rattle.modular_cut.specs.declared.cutting.CutFault.TheVariants.{Memory};

    ghost from_gives = { λ _ e. e ≡ Memory };

    fn from(_e: AllocError) -> CutFault {
        CutFault::Memory
    }
}

impl<T: Drop> From<AllocFailed<T>> for CutFault {
    ghost use Rattle.modular_cut.specs.declared.cutting.CutFault.TheVariants.{Memory};

    ghost from_gives = { λ _ e. e ≡ Memory };

    fn from(_e: AllocFailed<T>) -> CutFault {
        CutFault::Memory
    }
}

/// Equal variables, in order.
fn variables(alloc: Global, all: &[VarInfo]) -> Result<Vec<VarInfo>, AllocError>
    ensures { IfOk result (λ copied. copied.items ≡ all.now) }
{
    let mut copied = Vec::with_capacity(alloc, all.len())?;
    for part in all {
        copied.push(part.copy()?)?;
    }
    Ok(copied)
}

/// Equal expressions, in order.
fn expressions(alloc: Global, all: &[TExpr]) -> Result<Vec<TExpr>, AllocError>
    ensures { IfOk result (λ copied. map view.expression copied.items ≡ map view.expression all.now) }
{
    let mut copied = Vec::with_capacity(alloc, all.len())?;
    for part in all {
        copied.push(part.copy()?)?;
    }
    Ok(copied)
}

/// How many procedures a program has.
fn count(program: &Typed) -> u32
    ensures many { result ≡ length program.now.procs }
    ensures valid { IsTrue (is_valid (typed_program program.now)) }
{
    let _globals = program.globals();
    program.procs().len() as u32
}

/// The program of these pieces. One with a number that does not have 32 bits is refused as one that memory does not hold.
fn assembled(
    alloc: Global,
    globals: Vec<VarInfo>,
    axioms: Vec<TExpr>,
    procs: Vec<TProc>,
    entry: u32,
) -> Result<Typed, AllocError>
    requires typed { is_typed (typed_program (record { globals = globals.items; axioms = axioms.items; procs = procs.items; entry = entry })) ≡ true }
    ensures made { IfOk result (λ made. typed_program made ≡ typed_program (record { globals = globals.items; axioms = axioms.items; procs = procs.items; entry = entry })) }
    ensures valid { IfOk result (λ made. IsTrue (is_valid (typed_program made))) }
{
    if numbers_fit(alloc, &globals, &axioms, &procs, entry)? {
        Ok(Typed::new(globals, axioms, procs, entry))
    } else {
        Err(AllocError)
    }
}

/// The part of that procedure.
fn part_of(alloc: Global, program: &Typed, number: u32) -> Result<Typed, AllocError>
    requires names { list_all (λ p. is_name p.name) (typed_program program.now).procs ≡ true }
    requires entered { meets has_body (slice_get (typed_program program.now).procs number) ≡ true }
    ensures made { IfOk result (λ made. typed_program made ≡ spec.procedure_part (typed_program program.now) number) }
    ensures valid { IfOk result (λ made. IsTrue (is_valid (typed_program made))) }
{
    let globals = variables(alloc, program.globals())?;
    let axioms = expressions(alloc, program.axioms())?;
    let procs = cut_procedures(alloc, program.procs(), number)?;
    assembled(alloc, globals, axioms, procs, number)
}

/// Puts the part of that procedure behind the others, where it has a body.
fn add_part(
    alloc: Global,
    parts: &mut Vec<Part>,
    program: &Typed,
    number: u32,
) -> Result<(), AllocError>
    requires names { list_all (λ p. is_name p.name) (typed_program program.now).procs ≡ true }
    requires within { number < length program.now.procs }
    ensures parts { OnOk result (map plain_part parts.new.items ≡
        map plain_part parts.old.items ++ spec.part_at (typed_program program.now) number (slice_get (typed_program program.now).procs number)) }
    ensures valid { AllByRecursion IsValidPart (map plain_part parts.old.items) → OnOk result (AllByRecursion IsValidPart (map plain_part parts.new.items)) }
{
    let own = &program.procs()[number as usize];
    if own.body.is_some() {
        let name = own.name.copy()?;
        let program = part_of(alloc, program, number)?;
        parts.push(Part { name, program })?;
    }
    Ok(())
}

/// The parts of a program, in order of declaration.
fn parts_of(alloc: Global, program: &Typed) -> Result<Vec<Part>, AllocError>
    requires names { list_all (λ p. is_name p.name) (typed_program program.now).procs ≡ true }
    ensures parts { IfOk result (λ ps. map plain_part ps.items ≡ spec.parts_of (typed_program program.now)) }
    ensures safe { IfOk result (λ ps. AllByRecursion (λ p. IsSafe p.program) (map plain_part ps.items) → IsSafe (typed_program program.now)) }
{
    let mut parts = Vec::new(alloc);
    for number in 0..count(program) {
        add_part(alloc, &mut parts, program, number)?;
    }
    Ok(parts)
}

/// Cuts a program into parts, one for each procedure with a body, in order of declaration. Where each part is safe the program is.
///
/// `Free` comes exactly where some requires, ensures or invariant is free, at the first in text order; an implementation may stand behind
/// other procedures. A part with a number that does not have 32 bits is refused as one that memory does not hold.
pub fn cut(alloc: Global, program: &Typed) -> Result<Vec<Part>, CutFault>
    requires names { list_all (λ p. is_name p.name) (typed_program program.now).procs ≡ true }
    ensures parts { IfOk result (λ ps. map plain_part ps.items ≡ spec.parts_of (typed_program program.now)) }
    ensures none_free { IfOk result (λ ps. free_spans (typed_program program.now) ≡ []) }
    ensures free { (at : span.Span) → result ≡ Err (faults.Free at) → IsFirstFree (typed_program program.now) at }
    ensures safe { IfOk result (λ ps. AllByRecursion (λ p. IsSafe p.program) (map plain_part ps.items) → IsSafe (typed_program program.now)) }
    ensures memory { result ≡ Err faults.Memory → free_spans (typed_program program.now) ≡ [] }
{
    match first_free(program) {
        Some(at) => Err(CutFault::Free(at)),
        None => Ok(parts_of(alloc, program)?),
    }
}
