//! The start of a program: the edge that gives each old column the value of its global, and the conditions that are assumed behind it.

ghost use Rattle.std.specs.Prelude.{◌≡◌, ◌+◌, ◌<◌, ◌≤◌, ◌^◌, false, pos, negsuc, [], ◌∷◌, ◌++◌, map, length, List, IsSome, IfOk, OnOk, nat_lt, slice_get, if◌then◌else◌};
ghost use Rattle.std.specs.Option.{option_map};
ghost use Rattle.typed_tree.specs.TypedTree as tree;
ghost use Rattle.typed_tree.specs.TypedView as view;
ghost use Rattle.typed_tree.specs.TypingRules.Counts.{checked_at_call};
ghost use Rattle.typed_tree.specs.TypingRules.TypedParts.{typed_program};
ghost use Rattle.lin_rows.specs.Sums.{row_of};
ghost use Rattle.lin_rows.specs.declared.types.RowKind.TheVariants.{Eq};
ghost use Rattle.letter_acts.specs.Acts.{inside_act};
ghost use Rattle.letter_acts.specs.Frames.{old_at, olds_of};
ghost use Rattle.letter_acts.specs.LetterTable.Letters.{inside_arc, with_arc};
ghost use Rattle.boogie_run.specs.BoogiePoints.Actions.{plain_conditions};
ghost use Rattle.lowered_graph.specs.LoweredSteps.ProgramFrames.{frame_at};
ghost use Rattle.lowered_graph.specs.Arcs.{entering, entering_rows};
ghost use Rattle.icfg_lower.specs.PlaceEdges.Forms.{FormsFit, SpecificationFits};
ghost use Rattle.icfg_lower.specs.PlaceEdges.WalkedParts.{walked};
ghost use Rattle.icfg_lower.specs.ProgramWalk.Ties.Conditions.{IsStart, StartAdds, OneStarts, SaidStarts, AllStart, Begins};

use crate::place_edges::{Here, Lowering};
use crate::program_layout::Layout;
use crate::program_walk::calls::{plain_requires, procedure_at};
use crate::program_walk::items::assume;
use boogie_tree::{Column, Span};
use letter_acts::Frame;
use letter_acts::letter_table::InsideStep;
use lin_rows::{Row, RowFault, RowKind, row};
use std::alloc::{AllocError, Global};
use typed_tree::{TExpr, TSpec};

/// The procedure at which a run begins, with its first place, and how many conditions are assumed before that.
#[derive(Clone, Copy)]
pub(crate) struct Start {
    pub(crate) proc: u32,
    pub(crate) conditions: u32,
    pub(crate) entry: u32,
}

impl Start {
    ghost use Rattle.std.specs.Prelude.{◌≡◌, ◌+◌, ◌<◌, nat_lt, if◌then◌else◌};

    /// The first place of a run.
    fn first(self) -> u32
        ensures { result ≡ (if nat_lt 0 self.conditions then 1 else self.entry) }
    {
        if self.conditions > 0 { 1 } else { self.entry }
    }

    /// The place behind the condition of that number.
    fn behind(self, number: u32) -> u32
        requires { number < self.conditions }
        ensures { result ≡ (if nat_lt (number + 1) self.conditions then 1 + (number + 1) else self.entry) }
    {
        let next = number + 1;
        if next < self.conditions {
            1 + next
        } else {
            self.entry
        }
    }
}

/// The start of a program.
pub(crate) fn start_of(layout: &Layout<'_>) -> Start
    requires { IsSome (slice_get (typed_program layout.now).procs (typed_program layout.now).entry) }
    ensures { IsStart (typed_program layout.now) result.proc result.conditions result.entry }
{
    let proc = layout.program().entry();
    Start {
        proc,
        conditions: layout.start_conditions(),
        entry: layout.marks(proc).unwrap().entry,
    }
}

/// A column of that number is listed with the column of its global, if it is an old one.
fn add_old(found: &mut Vec<(u32, u32)>, number: u32, column: Column) -> Result<(), AllocError>
    ensures { OnOk result (found.new.items ≡ found.old.items ++ old_at column number []) }
{
    match column {
        Column::Old(global) => found.push((number, global))?,
        Column::Global(_) | Column::Local(_) => (),
    }
    Ok(())
}

/// The old columns of a frame, each with the column of its global.
fn old_columns(alloc: Global, frame: &Frame) -> Result<Vec<(u32, u32)>, AllocError>
    requires { length frame.now.columns.items < 2 ^ 32 }
    ensures { IfOk result (λ found. found.items ≡ olds_of frame.now.columns.items) }
{
    let mut found = Vec::new(alloc);
    for (number, (column, _)) in frame.columns.iter().enumerate() {
        add_old(&mut found, number as u32, *column)?;
    }
    Ok(found)
}

/// The row with which a written column has the value of a global.
fn entering_row(alloc: Global, global: u32, written: u32) -> Result<Row, AllocError>
    ensures { IfOk result (λ made. made ≡ row_of ((global, negsuc 0) ∷ (written, pos 1) ∷ []) Eq (pos 0)) }
{
    match row(alloc, &[(global, -1), (written, 1)], RowKind::Eq, 0) {
        Ok(made) => Ok(made),
        Err(RowFault::Memory) => Err(AllocError),
        Err(RowFault::Past) => unreachable!(),
    }
}

/// The rows with which each old column, written from that column on, has the value of its global.
fn rows_of(alloc: Global, olds: &[(u32, u32)], first: u32) -> Result<Vec<Row>, AllocError>
    ensures { IfOk result (λ rows. rows.items ≡ entering_rows first olds.now) }
{
    let mut rows = Vec::with_capacity(alloc, olds.len())?;
    let mut written = first;
    for old in olds {
        rows.push(entering_row(alloc, old.1, written)?)?;
        let Some(next) = written.checked_add(1) else {
            return Err(AllocError);
        };
        written = next;
    }
    Ok(rows)
}

/// The numbers of the old columns.
fn numbers_of(alloc: Global, olds: &[(u32, u32)]) -> Result<Vec<u32>, AllocError>
    ensures { IfOk result (λ numbers. numbers.items ≡ map (λ o. o.0) olds.now) }
{
    olds.iter().map(|old| old.0).collect(alloc)
}

/// What enters a procedure with that frame.
fn entering_step(alloc: Global, proc: u32, frame: &Frame) -> Result<InsideStep, AllocError>
    ensures act { IfOk result (λ step. inside_act step.proc step.written.items step.helpers step.rows.items ≡ entering proc frame.now.columns.items) }
    ensures exact { IfOk result (λ step. step.coarse ≡ false) }
{
    let Ok(width) = u32::try_from(frame.columns.len()) else {
        return Err(AllocError);
    };
    let olds = old_columns(alloc, frame)?;
    Ok(InsideStep {
        proc,
        written: numbers_of(alloc, &olds)?,
        helpers: 0,
        rows: rows_of(alloc, &olds, width)?,
        coarse: false,
    })
}

/// The edge from the start to the first place of a run.
pub(crate) fn begin(lowering: &mut Lowering<'_>, start: Start) -> Result<(), AllocError>
    requires procedure { IsSome (slice_get (typed_program lowering.old.parts).procs start.proc) }
    requires start { IsStart (typed_program lowering.old.parts) start.proc start.conditions start.entry }
    ensures program { OnOk result (typed_program lowering.new.parts ≡ typed_program lowering.old.parts) }
    ensures begins { OnOk result (Begins (typed_program lowering.old.parts) (walked lowering.old) (walked lowering.new)) }
{
    let frame = lowering.layout().frame(start.proc).unwrap();
    let step = entering_step(lowering.alloc(), start.proc, frame)?;
    lowering.step(0, step, start.first())
}

/// The condition of the start with that number is assumed.
fn start_condition(
    lowering: &mut Lowering<'_>,
    start: Start,
    number: u32,
    span: Span,
    cond: &TExpr,
) -> Result<(), AllocError>
    requires procedure { IsSome (slice_get (typed_program lowering.old.parts).procs start.proc) }
    requires start { IsStart (typed_program lowering.old.parts) start.proc start.conditions start.entry }
    requires number { number < start.conditions }
    requires fit { FormsFit (typed_program lowering.old.parts) (view.expression cond.now) }
    ensures program { OnOk result (typed_program lowering.new.parts ≡ typed_program lowering.old.parts) }
    ensures starts { OnOk result (OneStarts (typed_program lowering.old.parts) number (view.expression cond.now) span (walked lowering.old) (walked lowering.new)) }
{
    let here = Here {
        proc: start.proc,
        place: 1 + number,
    };
    assume(lowering, here, span, cond, start.behind(number))
}

/// The axioms, which stand first among the conditions of the start.
fn axioms(lowering: &mut Lowering<'_>, start: Start) -> Result<u32, AllocError>
    requires procedure { IsSome (slice_get (typed_program lowering.old.parts).procs start.proc) }
    requires start { IsStart (typed_program lowering.old.parts) start.proc start.conditions start.entry }
    ensures program { OnOk result (typed_program lowering.new.parts ≡ typed_program lowering.old.parts) }
    ensures number { IfOk result (λ next. next ≡ length (typed_program lowering.old.parts).axioms) }
    ensures starts { OnOk result (StartAdds (typed_program lowering.old.parts) 0 (length (typed_program lowering.old.parts).axioms) (walked lowering.old) (walked lowering.new)) }
{
    let axioms = lowering.layout().program().axioms();
    let mut number = 0;
    for axiom in axioms {
        start_condition(lowering, start, number, axiom.span, axiom)?;
        number += 1;
    }
    Ok(number)
}

/// A requires of the entry procedure, if it is plain, as the condition of the start with that number. It answers the next number.
fn start_said(
    lowering: &mut Lowering<'_>,
    start: Start,
    number: u32,
    said: &TSpec,
) -> Result<u32, AllocError>
    requires procedure { IsSome (slice_get (typed_program lowering.old.parts).procs start.proc) }
    requires start { IsStart (typed_program lowering.old.parts) start.proc start.conditions start.entry }
    requires number { number + length (plain_conditions (view.specification said.now ∷ [])) ≤ start.conditions }
    requires fit { SpecificationFits (typed_program lowering.old.parts) (view.specification said.now) }
    ensures program { OnOk result (typed_program lowering.new.parts ≡ typed_program lowering.old.parts) }
    ensures number { IfOk result (λ next. next ≡ number + length (plain_conditions (view.specification said.now ∷ []))) }
    ensures starts { OnOk result ((rest : List tree.TypedInvariant) → SaidStarts (typed_program lowering.old.parts) number (plain_conditions (view.specification said.now ∷ [])) rest (walked lowering.old) (walked lowering.new)) }
{
    let Some(condition) = plain_requires(said) else {
        return Ok(number);
    };
    start_condition(lowering, start, number, condition.span, &condition.cond)?;
    Ok(number + 1)
}

/// The plain requires of the entry procedure, from the condition of that number on.
fn entry_requires(lowering: &mut Lowering<'_>, start: Start, first: u32) -> Result<(), AllocError>
    requires procedure { IsSome (slice_get (typed_program lowering.old.parts).procs start.proc) }
    requires start { IsStart (typed_program lowering.old.parts) start.proc start.conditions start.entry }
    requires first { first ≡ length (typed_program lowering.old.parts).axioms }
    ensures program { OnOk result (typed_program lowering.new.parts ≡ typed_program lowering.old.parts) }
    ensures starts { OnOk result (StartAdds (typed_program lowering.old.parts) first (checked_at_call (slice_get (typed_program lowering.old.parts).procs start.proc)) (walked lowering.old) (walked lowering.new)) }
{
    let entered = procedure_at(lowering.layout(), start.proc);
    let mut number = first;
    for said in &entered.specs {
        number = start_said(lowering, start, number, said)?;
    }
    Ok(())
}

/// The conditions of the start, one after another: the axioms, and the plain requires of the entry procedure.
pub(crate) fn start_conditions(lowering: &mut Lowering<'_>, start: Start) -> Result<(), AllocError>
    requires procedure { IsSome (slice_get (typed_program lowering.old.parts).procs start.proc) }
    requires start { IsStart (typed_program lowering.old.parts) start.proc start.conditions start.entry }
    ensures program { OnOk result (typed_program lowering.new.parts ≡ typed_program lowering.old.parts) }
    ensures starts { OnOk result (AllStart (typed_program lowering.old.parts) (walked lowering.old) (walked lowering.new)) }
{
    let first = axioms(lowering, start)?;
    entry_requires(lowering, start, first)
}
