//! Items of one place: conditions, assignments and guards, each with its fault.

ghost use Rattle.std.specs.Prelude.{◌≡◌, ◌<◌, ◌≤◌, [], ◌∷◌, map, length, IsSome, OnOk, true, false, slice_get};
ghost use Rattle.std.specs.List.{AllByRecursion};
ghost use Rattle.typed_tree.specs.TypedView as view;
ghost use Rattle.typed_tree.specs.TypingRules.TypedParts.{typed_program};
ghost use Rattle.cond_jumps.specs.FreeProducts.FrameLetters.{path_letters, assign_letters};
ghost use Rattle.lowered_graph.specs.LoweredSteps.ProgramFrames.{frame_at};
ghost use Rattle.lowered_graph.specs.LoweredSteps.Edges.{local_count, numbers_in};
ghost use Rattle.lowered_graph.specs.Items.{path_needed};
ghost use Rattle.lowered_graph.specs.LoweredParts.Lists.{list_arcs, guard_arcs, guard_needed, write_needed};
ghost use Rattle.lowered_graph.specs.LoweredParts.Making.{MakesItem};
ghost use Rattle.lowered_graph.specs.LoweredParts.Items.{checked_sites, checked_arcs, checked_needed};
ghost use Rattle.icfg_lower.specs.ProgramLayout.Layouts.{StandsIn};
ghost use Rattle.icfg_lower.specs.PlaceEdges.Forms.{FormsFit, AllFormsFit, GuardFits};
ghost use Rattle.icfg_lower.specs.PlaceEdges.WalkedParts.{walked};
ghost use Rattle.icfg_lower.specs.ProgramWalk.Ties.Bounds.{IsAssertion};

use crate::place_edges::{Here, Lowering, guard, suppose, test, write};
use boogie_tree::{Column, Span};
use std::alloc::AllocError;
use typed_tree::{TExpr, TGuard, TInv};

/// A condition is assumed.
pub(crate) fn assume(
    lowering: &mut Lowering<'_>,
    here: Here,
    span: Span,
    cond: &TExpr,
    to: u32,
) -> Result<(), AllocError>
    requires procedure { IsSome (slice_get (typed_program lowering.old.parts).procs here.proc) }
    requires fit { FormsFit (typed_program lowering.old.parts) (view.expression cond.now) }
    ensures program { OnOk result (typed_program lowering.new.parts ≡ typed_program lowering.old.parts) }
    ensures item { OnOk result (MakesItem span [] (list_arcs here.proc here.place [] (path_letters (frame_at (typed_program lowering.old.parts) here.proc) (local_count (typed_program lowering.old.parts) here.proc) (view.expression cond.now) true) to)
        (path_needed (frame_at (typed_program lowering.old.parts) here.proc) (local_count (typed_program lowering.old.parts) here.proc) (view.expression cond.now) true ∷ []) (walked lowering.old) (walked lowering.new)) }
{
    let trouble = suppose(lowering, here, cond, to)?;
    lowering.note(span, trouble);
    Ok(())
}

/// A condition is asserted under that number.
pub(crate) fn assert(
    lowering: &mut Lowering<'_>,
    here: Here,
    span: Span,
    cond: &TExpr,
    number: u32,
    to: u32,
) -> Result<(), AllocError>
    requires procedure { IsSome (slice_get (typed_program lowering.old.parts).procs here.proc) }
    requires number { IsAssertion (typed_program lowering.old.parts) false number }
    requires fit { FormsFit (typed_program lowering.old.parts) (view.expression cond.now) }
    ensures program { OnOk result (typed_program lowering.new.parts ≡ typed_program lowering.old.parts) }
    ensures item { OnOk result (MakesItem span (checked_sites (typed_program lowering.old.parts) false number span)
        (checked_arcs (typed_program lowering.old.parts) here.proc here.place false number (view.expression cond.now) to)
        (checked_needed (frame_at (typed_program lowering.old.parts) here.proc) (local_count (typed_program lowering.old.parts) here.proc) false (view.expression cond.now)) (walked lowering.old) (walked lowering.new)) }
{
    lowering.assertion(number, span)?;
    let wrong = lowering.layout().error_place(number);
    let trouble = test(lowering, here, cond, to, wrong)?;
    lowering.note(span, trouble);
    Ok(())
}

/// A condition is asserted under that number or, where it is free, assumed.
pub(crate) fn check(
    lowering: &mut Lowering<'_>,
    here: Here,
    condition: &TInv,
    number: u32,
    to: u32,
) -> Result<(), AllocError>
    requires procedure { IsSome (slice_get (typed_program lowering.old.parts).procs here.proc) }
    requires number { IsAssertion (typed_program lowering.old.parts) condition.now.free number }
    requires fit { FormsFit (typed_program lowering.old.parts) (view.expression condition.now.cond) }
    ensures program { OnOk result (typed_program lowering.new.parts ≡ typed_program lowering.old.parts) }
    ensures item { OnOk result (MakesItem condition.now.span (checked_sites (typed_program lowering.old.parts) condition.now.free number condition.now.span)
        (checked_arcs (typed_program lowering.old.parts) here.proc here.place condition.now.free number (view.expression condition.now.cond) to)
        (checked_needed (frame_at (typed_program lowering.old.parts) here.proc) (local_count (typed_program lowering.old.parts) here.proc) condition.now.free (view.expression condition.now.cond)) (walked lowering.old) (walked lowering.new)) }
{
    if condition.free {
        assume(lowering, here, condition.span, &condition.cond, to)
    } else {
        assert(lowering, here, condition.span, &condition.cond, number, to)
    }
}

/// A guard leads to one place or the other.
pub(crate) fn choose(
    lowering: &mut Lowering<'_>,
    here: Here,
    span: Span,
    chosen: &TGuard,
    hit: u32,
    miss: u32,
) -> Result<(), AllocError>
    requires procedure { IsSome (slice_get (typed_program lowering.old.parts).procs here.proc) }
    requires fit { GuardFits (typed_program lowering.old.parts) (view.guard chosen.now) }
    ensures program { OnOk result (typed_program lowering.new.parts ≡ typed_program lowering.old.parts) }
    ensures item { OnOk result (MakesItem span [] (guard_arcs (frame_at (typed_program lowering.old.parts) here.proc) (local_count (typed_program lowering.old.parts) here.proc) here.proc here.place (view.guard chosen.now) hit miss)
        (guard_needed (frame_at (typed_program lowering.old.parts) here.proc) (local_count (typed_program lowering.old.parts) here.proc) (view.guard chosen.now)) (walked lowering.old) (walked lowering.new)) }
{
    let trouble = guard(lowering, here, chosen, hit, miss)?;
    lowering.note(span, trouble);
    Ok(())
}

/// A parallel assignment.
pub(crate) fn assign(
    lowering: &mut Lowering<'_>,
    here: Here,
    span: Span,
    targets: &[Column],
    values: &[TExpr],
    to: u32,
) -> Result<(), AllocError>
    requires procedure { IsSome (slice_get (typed_program lowering.old.parts).procs here.proc) }
    requires targets { AllByRecursion (StandsIn (frame_at (typed_program lowering.old.parts) here.proc)) targets.now }
    requires each { length targets.now ≡ length values.now }
    requires fit { AllFormsFit (typed_program lowering.old.parts) (map view.expression values.now) }
    ensures program { OnOk result (typed_program lowering.new.parts ≡ typed_program lowering.old.parts) }
    ensures item { OnOk result (MakesItem span [] (list_arcs here.proc here.place (numbers_in (frame_at (typed_program lowering.old.parts) here.proc) targets.now)
        (assign_letters (frame_at (typed_program lowering.old.parts) here.proc) (local_count (typed_program lowering.old.parts) here.proc) (length values.now) (map view.expression values.now)) to)
        (write_needed (frame_at (typed_program lowering.old.parts) here.proc) (local_count (typed_program lowering.old.parts) here.proc) (map view.expression values.now) (length targets.now)) (walked lowering.old) (walked lowering.new)) }
{
    let trouble = write(lowering, here, targets, values, to)?;
    lowering.note(span, trouble);
    Ok(())
}
