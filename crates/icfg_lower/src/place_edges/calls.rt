//! Edges by calls.

ghost use Rattle.std.specs.Prelude.{◌≡◌, ◌≤◌, ◌∷◌, [], map, length, slice_get, Some, IfOk, IsSome};
ghost use Rattle.std.specs.List.{AllByRecursion};
ghost use Rattle.typed_tree.specs.TypedTree.{TypedProcedure};
ghost use Rattle.typed_tree.specs.TypedView.{expression, procedure};
ghost use Rattle.typed_tree.specs.TypingRules.TypedParts.{typed_program};
ghost use Rattle.boogie_run.specs.Needs.{locals_at};
ghost use Rattle.cond_jumps.specs.FreeProducts.FrameLetters.{passed_letters};
ghost use Rattle.lowered_graph.specs.LoweredSteps.ProgramFrames.{frame_at};
ghost use Rattle.lowered_graph.specs.LoweredSteps.Edges.{call_letters, import_letters, import_written, local_count, numbers_in};
ghost use Rattle.lowered_graph.specs.Items.{call_needed, import_needed, passed_needed};
ghost use Rattle.lowered_graph.specs.LoweredParts.Parts.{Leads};
ghost use Rattle.lowered_graph.specs.LoweredParts.Lists.{list_arcs, demand_arcs, demand_needed, entered_arcs};
ghost use Rattle.icfg_lower.specs.ProgramLayout.Layouts.{StandsIn, marks_of};
ghost use Rattle.icfg_lower.specs.PlaceEdges.Ties.Answered.{IsPassed, IsImported};
ghost use Rattle.icfg_lower.specs.PlaceEdges.Forms.{FormsFit, AllFormsFit, SpecificationsFit};
ghost use Rattle.icfg_lower.specs.PlaceEdges.WalkedParts.{walked};

use crate::call_jumps::{Import, demanded, imported, parameters};
use crate::place_edges::conditions::lead_by;
use crate::place_edges::faults::{NO_TROUBLE, Trouble, either, told};
use crate::place_edges::lowering::{Here, Lowering};
use crate::place_edges::widths::width;
use boogie_tree::{Column, Span};
use cond_jumps::JumpFault;
use cond_jumps::free_products::MarkedConj;
use letter_acts::letter_table::{CallEdges, CallStep};
use std::alloc::AllocError;
use typed_tree::{TExpr, TProc};

/// A call as its statement has it.
#[derive(Clone, Copy)]
pub struct Called<'s> {
    pub span: Span,
    pub targets: &'s [Column],
    pub callee: u32,
    pub args: &'s [TExpr],
}

/// Edges by a requires of the called procedure that has the wanted value.
fn demand_value(
    lowering: &mut Lowering<'_>,
    here: Here,
    args: &[TExpr],
    cond: &TExpr,
    want: bool,
    to: u32,
) -> Result<Trouble, AllocError>
    requires procedure { IsSome (slice_get (typed_program lowering.old.parts).procs here.proc) }
    requires fit_args { AllFormsFit (typed_program lowering.old.parts) (map expression args.now) }
    requires fit { FormsFit (typed_program lowering.old.parts) (expression cond.now) }
    ensures { IfOk result (λ x. Leads
        (list_arcs here.proc here.place [] (passed_letters (frame_at (typed_program lowering.old.parts) here.proc) (local_count (typed_program lowering.old.parts) here.proc) (map expression args.now) (expression cond.now) want) to)
        (passed_needed (frame_at (typed_program lowering.old.parts) here.proc) (local_count (typed_program lowering.old.parts) here.proc) (map expression args.now) (expression cond.now) want ∷ [])
        x.wide x.big (walked lowering.old) (walked lowering.new)) }
{
    let answer = demanded(
        lowering.alloc(),
        lowering.globals(),
        lowering.frame(here.proc),
        lowering.local_count(here.proc),
        args,
        cond,
        want,
    );
    lead_by(lowering, here, &[], answer, to)
}

/// A requires of the called procedure, whose parameters stand for the arguments: to one place where it holds, and to the other where it does not.
pub fn demand(
    lowering: &mut Lowering<'_>,
    here: Here,
    args: &[TExpr],
    cond: &TExpr,
    hit: u32,
    miss: u32,
) -> Result<Trouble, AllocError>
    requires procedure { IsSome (slice_get (typed_program lowering.old.parts).procs here.proc) }
    requires fit_args { AllFormsFit (typed_program lowering.old.parts) (map expression args.now) }
    requires fit { FormsFit (typed_program lowering.old.parts) (expression cond.now) }
    ensures { IfOk result (λ x. Leads
        (demand_arcs (frame_at (typed_program lowering.old.parts) here.proc) (local_count (typed_program lowering.old.parts) here.proc) here.proc here.place (map expression args.now) (expression cond.now) hit miss)
        (demand_needed (frame_at (typed_program lowering.old.parts) here.proc) (local_count (typed_program lowering.old.parts) here.proc) (map expression args.now) (expression cond.now))
        x.wide x.big (walked lowering.old) (walked lowering.new)) }
{
    let first = demand_value(lowering, here, args, cond, true, hit)?;
    let second = demand_value(lowering, here, args, cond, false, miss)?;
    Ok(either(first, second))
}

/// The letter with which the parameters of a called procedure have the values of the arguments.
fn letter_of_call(
    lowering: &Lowering<'_>,
    proc: u32,
    callee: u32,
    args: &[TExpr],
) -> Result<MarkedConj, JumpFault>
    requires procedure { IsSome (slice_get (typed_program lowering.now.parts).procs proc) }
    requires callee { IsSome (slice_get (typed_program lowering.now.parts).procs callee) }
    requires arguments { length args.now ≤ length (locals_at (typed_program lowering.now.parts) callee) }
    requires fit { AllFormsFit (typed_program lowering.now.parts) (map expression args.now) }
    ensures { IsPassed (call_letters (typed_program lowering.now.parts) proc callee (map expression args.now))
        (call_needed (typed_program lowering.now.parts) proc callee (map expression args.now)) result }
{
    let locals = lowering.local_count(proc);
    let callee_width = width(lowering.frame(callee))?;
    parameters(
        lowering.alloc(),
        lowering.globals(),
        lowering.frame(proc),
        locals,
        args,
        lowering.before_locals(),
        callee_width,
    )
}

/// Into a called procedure that has a body, and back from it.
pub fn enter(
    lowering: &mut Lowering<'_>,
    here: Here,
    called: Called<'_>,
    after: u32,
) -> Result<Trouble, AllocError>
    requires procedure { IsSome (slice_get (typed_program lowering.old.parts).procs here.proc) }
    requires callee { IsSome (slice_get (typed_program lowering.old.parts).procs called.callee) }
    requires targets { AllByRecursion (StandsIn (frame_at (typed_program lowering.old.parts) here.proc)) called.targets.now }
    requires arguments { length called.args.now ≤ length (locals_at (typed_program lowering.old.parts) called.callee) }
    requires fit { AllFormsFit (typed_program lowering.old.parts) (map expression called.args.now) }
    ensures { (q : TypedProcedure) → slice_get (typed_program lowering.old.parts).procs called.entry.callee ≡ Some q → IfOk result (λ x. Leads
        (entered_arcs here.proc called.entry.callee here.place
        (marks_of (typed_program lowering.old.parts) (called.entry.callee, q)).entry (marks_of (typed_program lowering.old.parts) (called.entry.callee, q)).returns
        (numbers_in (frame_at (typed_program lowering.old.parts) here.proc) called.entry.targets.now) after
        (call_letters (typed_program lowering.old.parts) here.proc called.entry.callee (map expression called.entry.args.now)))
        (call_needed (typed_program lowering.old.parts) here.proc called.entry.callee (map expression called.entry.args.now) ∷ [])
        x.wide x.big (walked lowering.old) (walked lowering.new)) }
{
    let targets = lowering.columns(called.targets)?;
    let marks = lowering.marks(called.callee);
    match letter_of_call(lowering, here.proc, called.callee, called.args) {
        Ok(passed) => {
            let MarkedConj { conj, coarse } = passed;
            let step = CallStep {
                caller: here.proc,
                callee: called.callee,
                helpers: conj.helpers,
                rows: conj.rows,
                coarse,
            };
            let edges = CallEdges {
                from: here.place,
                to: marks.entry,
                exit: marks.returns,
                after,
            };
            lowering.call(step, targets, edges)?;
            Ok(NO_TROUBLE)
        }
        Err(fault) => told(fault),
    }
}

/// What a called procedure without body may do, with the results in these columns.
fn left(
    lowering: &Lowering<'_>,
    proc: u32,
    args: &[TExpr],
    targets: &[u32],
    callee: &TProc,
) -> Result<Import, JumpFault>
    requires procedure { IsSome (slice_get (typed_program lowering.now.parts).procs proc) }
    requires fit_args { AllFormsFit (typed_program lowering.now.parts) (map expression args.now) }
    requires fit { SpecificationsFit (typed_program lowering.now.parts) (procedure callee.now).specs }
    ensures { IsImported (frame_at (typed_program lowering.now.parts) proc) (local_count (typed_program lowering.now.parts) proc) lowering.now.parts.globals (procedure callee.now) (map expression args.now) targets.now result }
{
    imported(
        lowering.alloc(),
        lowering.globals(),
        lowering.frame(proc),
        lowering.local_count(proc),
        callee,
        args,
        targets,
    )
}

/// By what a called procedure without body may do.
pub fn import(
    lowering: &mut Lowering<'_>,
    here: Here,
    called: Called<'_>,
    callee: &TProc,
    after: u32,
) -> Result<Trouble, AllocError>
    requires procedure { IsSome (slice_get (typed_program lowering.old.parts).procs here.proc) }
    requires targets { AllByRecursion (StandsIn (frame_at (typed_program lowering.old.parts) here.proc)) called.targets.now }
    requires fit_args { AllFormsFit (typed_program lowering.old.parts) (map expression called.args.now) }
    requires fit { SpecificationsFit (typed_program lowering.old.parts) (procedure callee.now).specs }
    ensures { let t = typed_program lowering.old.parts in let ts = numbers_in (frame_at t here.proc) called.entry.targets.now in IfOk result (λ x. Leads
        (list_arcs here.proc here.place (import_written (procedure callee.now).modifies ts)
        (import_letters (frame_at t here.proc) (local_count t here.proc) t.globals (procedure callee.now) (map expression called.entry.args.now) ts) after)
        (import_needed (frame_at t here.proc) (local_count t here.proc) t.globals (Some (procedure callee.now)) (map expression called.entry.args.now) ts)
        x.wide x.big (walked lowering.old) (walked lowering.new)) }
{
    let targets = lowering.columns(called.targets)?;
    match left(lowering, here.proc, called.args, &targets, callee) {
        Ok(made) => {
            let Import { written, conjs } = made;
            lowering.lead(here, &written, conjs, after)?;
            Ok(NO_TROUBLE)
        }
        Err(fault) => told(fault),
    }
}
