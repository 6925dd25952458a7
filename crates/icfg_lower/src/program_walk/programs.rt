//! Whole programs.

ghost use Rattle.std.specs.Prelude.{◌≡◌, ◌<◌, ◌^◌, ℕ, Some, length, IsTrue, IsSome, IfOk, OnOk, slice_get};
ghost use Rattle.typed_tree.specs.TypedTree as tree;
ghost use Rattle.typed_tree.specs.TypedView as view;
ghost use Rattle.typed_tree.specs.TypingRules.TypedParts.{typed_program};
ghost use Rattle.typed_tree.specs.TypingRules.ValidProgram.{is_valid};
ghost use Rattle.boogie_run.specs.BoogiePlaces.Places.{located, points_with, places_from};
ghost use Rattle.lowered_graph.specs.LoweredParts.Parts.{Adds, IsWalked, nothing_yet};
ghost use Rattle.icfg_lower.specs.ProgramLayout.Layouts.{marks_of};
ghost use Rattle.icfg_lower.specs.PlaceEdges.WalkedParts.{walked};
ghost use Rattle.icfg_lower.specs.ProgramWalk.Ties.Bounds.{BodyFits};

use crate::label_places::labels_of;
use crate::place_edges::{Here, Lowering};
use crate::program_layout::{Layout, Marks};
use crate::program_walk::bodies::{entry_conditions, exit_conditions};
use crate::program_walk::starting::{begin, start_conditions, start_of};
use crate::program_walk::statements::{Body, Next};
use crate::program_walk::walking::block;
use std::alloc::{AllocError, Global};
use typed_tree::{TProc, TStmt};

/// Where the numbers of a procedure begin.
fn marks_at(layout: &Layout<'_>, proc: u32) -> Marks
    requires { IsSome (slice_get (typed_program layout.now).procs proc) }
    ensures valid { IsTrue (is_valid (typed_program layout.now)) }
    ensures value { (q : tree.TypedProcedure) → slice_get (typed_program layout.now).procs proc ≡ Some q → result ≡ marks_of (typed_program layout.now) (proc, q) }
    ensures fits { (q : tree.TypedProcedure) (whole : tree.TypedBlock) → slice_get (typed_program layout.now).procs proc ≡ Some q → q.body ≡ Some whole →
        BodyFits (typed_program layout.now) proc q whole }
{
    let _program = layout.program();
    layout.marks(proc).unwrap()
}

/// The statements of a procedure, with the conditions around them.
fn body(
    lowering: &mut Lowering<'_>,
    proc: u32,
    listed: &TProc,
    statements: &[TStmt],
) -> Result<(), AllocError>
    requires procedure { slice_get (typed_program lowering.old.parts).procs proc ≡ Some (view.procedure listed.now) }
    requires statements { (view.procedure listed.now).body ≡ Some (view.statements statements.now) }
    ensures program { OnOk result (typed_program lowering.new.parts ≡ typed_program lowering.old.parts) }
    ensures added { OnOk result (Adds (located proc (points_with (typed_program lowering.old.parts) proc (view.procedure listed.now) (view.procedure listed.now).body)) (walked lowering.old) (walked lowering.new)) }
{
    let layout = lowering.layout();
    let alloc = lowering.alloc();
    let marks = marks_at(layout, proc);
    let here = Here {
        proc,
        place: marks.entry,
    };
    let first = Next {
        place: marks.body,
        assertion: marks.first,
    };
    let behind = Next {
        place: marks.exit,
        assertion: marks.behind,
    };
    entry_conditions(lowering, here, &listed.specs)?;
    let shared = Body {
        proc,
        exit: marks.exit,
        labels: labels_of(alloc, layout, proc)?,
    };
    let mut loops = Vec::new(alloc);
    block(lowering, &shared, statements, first, marks.exit, &mut loops)?;
    exit_conditions(lowering, proc, &listed.specs, behind)
}

/// A procedure, if it has a body.
fn procedure(lowering: &mut Lowering<'_>, proc: u32, listed: &TProc) -> Result<(), AllocError>
    requires { slice_get (typed_program lowering.old.parts).procs proc ≡ Some (view.procedure listed.now) }
    ensures program { OnOk result (typed_program lowering.new.parts ≡ typed_program lowering.old.parts) }
    ensures added { OnOk result (Adds (located proc (points_with (typed_program lowering.old.parts) proc (view.procedure listed.now) (view.procedure listed.now).body)) (walked lowering.old) (walked lowering.new)) }
{
    match &listed.body {
        Some(statements) => body(lowering, proc, listed, statements),
        None => Ok(()),
    }
}

/// What a typed program keeps: its entry has a body, and its procedures have numbers of 32 bits.
fn kept(layout: &Layout<'_>)
    ensures entry { (q : tree.TypedProcedure) × (whole : tree.TypedBlock) × (slice_get (typed_program layout.now).procs (typed_program layout.now).entry ≡ Some q) × (q.body ≡ Some whole) }
    ensures procedures { length (typed_program layout.now).procs < 2 ^ 32 }
{
    let _program = layout.program();
}

/// The procedures, one after another.
fn procedures(lowering: &mut Lowering<'_>) -> Result<(), AllocError>
    ensures program { OnOk result (typed_program lowering.new.parts ≡ typed_program lowering.old.parts) }
    ensures added { OnOk result (Adds (places_from (typed_program lowering.old.parts) 0 (typed_program lowering.old.parts).procs) (walked lowering.old) (walked lowering.new)) }
{
    let layout = lowering.layout();
    kept(layout);
    let procs = layout.program().procs();
    for number in 0..procs.len() {
        procedure(lowering, number as u32, &procs[number])?;
    }
    Ok(())
}

/// The start of the program of this layout, and its procedures.
fn whole(lowering: &mut Lowering<'_>, layout: &Layout<'_>) -> Result<(), AllocError>
    requires { lowering.old.parts ≡ layout.now }
    ensures { OnOk result (walked lowering.old ≡ nothing_yet (typed_program layout.now) → IsWalked (typed_program layout.now) (walked lowering.new)) }
{
    kept(layout);
    let start = start_of(layout);
    begin(lowering, start)?;
    start_conditions(lowering, start)?;
    procedures(lowering)
}

/// The start of a program and its procedures are lowered, in the order of the text.
pub fn walk<'a>(alloc: Global, layout: &'a Layout<'a>) -> Result<Lowering<'a>, AllocError>
    ensures { IfOk result (λ w. IsWalked (typed_program layout.now) (walked w)) }
{
    let mut lowering = Lowering::new(alloc, layout);
    whole(&mut lowering, layout)?;
    Ok(lowering)
}
