//! Edges by conditions and assignments.

ghost use Rattle.std.specs.Prelude.{◌≡◌, true, false, [], ◌∷◌, ◌++◌, map, length, slice_get, IfOk, IsSome, List};
ghost use Rattle.std.specs.List.{AllByRecursion};
ghost use Rattle.typed_tree.specs.TypedView as view;
ghost use Rattle.typed_tree.specs.TypedView.{expression};
ghost use Rattle.typed_tree.specs.TypingRules.TypedParts.{typed_program};
ghost use Rattle.cond_jumps.specs.FreeProducts.FrameLetters.{path_letters, assign_letters};
ghost use Rattle.cond_jumps.specs.FreeProducts.Letters.{MarkedConjunction};
ghost use Rattle.lowered_graph.specs.LoweredSteps.ProgramFrames.{frame_at};
ghost use Rattle.lowered_graph.specs.LoweredSteps.Edges.{local_count, numbers_in};
ghost use Rattle.lowered_graph.specs.Items.{Needed, path_needed};
ghost use Rattle.lowered_graph.specs.LoweredParts.Parts.{Leads};
ghost use Rattle.lowered_graph.specs.LoweredParts.Lists.{list_arcs, skip_arcs, test_arcs, test_needed, guard_arcs, guard_needed, write_needed};
ghost use Rattle.icfg_lower.specs.ProgramLayout.Layouts.{StandsIn};
ghost use Rattle.icfg_lower.specs.PlaceEdges.Ties.Answered.{IsAnswer};
ghost use Rattle.icfg_lower.specs.PlaceEdges.Forms.{FormsFit, AllFormsFit, GuardFits};
ghost use Rattle.icfg_lower.specs.PlaceEdges.WalkedParts.{walked};

use crate::place_edges::faults::{NO_TROUBLE, Trouble, either, told};
use crate::place_edges::lowering::{Here, Lowering};
use boogie_tree::Column;
use cond_jumps::JumpFault;
use cond_jumps::free_products::{MarkedConj, free_assign, free_paths};
use std::alloc::AllocError;
use typed_tree::{TExpr, TGuard};

/// Edges by a list, which write these columns; or what is wrong with the list.
pub(crate) fn lead_by(
    lowering: &mut Lowering<'_>,
    here: Here,
    written: &[u32],
    answer: Result<Vec<MarkedConj>, JumpFault>,
    to: u32,
) -> Result<Trouble, AllocError>
    ensures { (ls : List MarkedConjunction) (k : Needed) → IsAnswer ls k answer →
        IfOk result (λ x. Leads (list_arcs here.proc here.place written.now ls to) (k ∷ []) x.wide x.big (walked lowering.old) (walked lowering.new)) }
{
    match answer {
        Ok(list) => {
            lowering.lead(here, written, list, to)?;
            Ok(NO_TROUBLE)
        }
        Err(fault) => told(fault),
    }
}

/// Edges by a condition that has the wanted value.
fn choose(
    lowering: &mut Lowering<'_>,
    here: Here,
    cond: &TExpr,
    want: bool,
    to: u32,
) -> Result<Trouble, AllocError>
    requires procedure { IsSome (slice_get (typed_program lowering.old.parts).procs here.proc) }
    requires fit { FormsFit (typed_program lowering.old.parts) (expression cond.now) }
    ensures { IfOk result (λ x. Leads
        (list_arcs here.proc here.place [] (path_letters (frame_at (typed_program lowering.old.parts) here.proc) (local_count (typed_program lowering.old.parts) here.proc) (expression cond.now) want) to)
        (path_needed (frame_at (typed_program lowering.old.parts) here.proc) (local_count (typed_program lowering.old.parts) here.proc) (expression cond.now) want ∷ [])
        x.wide x.big (walked lowering.old) (walked lowering.new)) }
{
    let answer = free_paths(
        lowering.alloc(),
        lowering.globals(),
        lowering.frame(here.proc),
        lowering.local_count(here.proc),
        cond,
        want,
    );
    lead_by(lowering, here, &[], answer, to)
}

/// To a place where the condition holds.
pub fn suppose(
    lowering: &mut Lowering<'_>,
    here: Here,
    cond: &TExpr,
    to: u32,
) -> Result<Trouble, AllocError>
    requires procedure { IsSome (slice_get (typed_program lowering.old.parts).procs here.proc) }
    requires fit { FormsFit (typed_program lowering.old.parts) (expression cond.now) }
    ensures { IfOk result (λ x. Leads
        (list_arcs here.proc here.place [] (path_letters (frame_at (typed_program lowering.old.parts) here.proc) (local_count (typed_program lowering.old.parts) here.proc) (expression cond.now) true) to)
        (path_needed (frame_at (typed_program lowering.old.parts) here.proc) (local_count (typed_program lowering.old.parts) here.proc) (expression cond.now) true ∷ [])
        x.wide x.big (walked lowering.old) (walked lowering.new)) }
{
    choose(lowering, here, cond, true, to)
}

/// To one place where the condition holds, and to the other where it does not.
pub fn test(
    lowering: &mut Lowering<'_>,
    here: Here,
    cond: &TExpr,
    hit: u32,
    miss: u32,
) -> Result<Trouble, AllocError>
    requires procedure { IsSome (slice_get (typed_program lowering.old.parts).procs here.proc) }
    requires fit { FormsFit (typed_program lowering.old.parts) (expression cond.now) }
    ensures { IfOk result (λ x. Leads
        (test_arcs (frame_at (typed_program lowering.old.parts) here.proc) (local_count (typed_program lowering.old.parts) here.proc) here.proc here.place (expression cond.now) hit miss)
        (test_needed (frame_at (typed_program lowering.old.parts) here.proc) (local_count (typed_program lowering.old.parts) here.proc) (expression cond.now))
        x.wide x.big (walked lowering.old) (walked lowering.new)) }
{
    let first = choose(lowering, here, cond, true, hit)?;
    let second = choose(lowering, here, cond, false, miss)?;
    Ok(either(first, second))
}

/// To either place, with any values.
#[tactic(auto, using(crate::proofs::PlaceEdges::LeadLemmas::leads_joined))]
fn either_way(
    lowering: &mut Lowering<'_>,
    here: Here,
    hit: u32,
    miss: u32,
) -> Result<Trouble, AllocError>
    ensures { IfOk result (λ x. Leads (skip_arcs here.proc here.place [] hit ++ skip_arcs here.proc here.place [] miss) []
        x.wide x.big (walked lowering.old) (walked lowering.new)) }
{
    lowering.skip(here, &[], hit)?;
    lowering.skip(here, &[], miss)?;
    Ok(NO_TROUBLE)
}

/// Either way where nothing is tested, and else by the condition.
pub fn guard(
    lowering: &mut Lowering<'_>,
    here: Here,
    guard: &TGuard,
    hit: u32,
    miss: u32,
) -> Result<Trouble, AllocError>
    requires procedure { IsSome (slice_get (typed_program lowering.old.parts).procs here.proc) }
    requires fit { GuardFits (typed_program lowering.old.parts) (view.guard guard.now) }
    ensures { IfOk result (λ x. Leads
        (guard_arcs (frame_at (typed_program lowering.old.parts) here.proc) (local_count (typed_program lowering.old.parts) here.proc) here.proc here.place (view.guard guard.now) hit miss)
        (guard_needed (frame_at (typed_program lowering.old.parts) here.proc) (local_count (typed_program lowering.old.parts) here.proc) (view.guard guard.now))
        x.wide x.big (walked lowering.old) (walked lowering.new)) }
{
    match guard {
        TGuard::Any => either_way(lowering, here, hit, miss),
        TGuard::Cond(cond) => test(lowering, here, cond, hit, miss),
    }
}

/// A parallel assignment.
pub fn write(
    lowering: &mut Lowering<'_>,
    here: Here,
    targets: &[Column],
    values: &[TExpr],
    to: u32,
) -> Result<Trouble, AllocError>
    requires procedure { IsSome (slice_get (typed_program lowering.old.parts).procs here.proc) }
    requires targets { AllByRecursion (StandsIn (frame_at (typed_program lowering.old.parts) here.proc)) targets.now }
    requires each { length targets.now ≡ length values.now }
    requires fit { AllFormsFit (typed_program lowering.old.parts) (map expression values.now) }
    ensures { IfOk result (λ x. Leads
        (list_arcs here.proc here.place (numbers_in (frame_at (typed_program lowering.old.parts) here.proc) targets.now)
        (assign_letters (frame_at (typed_program lowering.old.parts) here.proc) (local_count (typed_program lowering.old.parts) here.proc) (length values.now) (map expression values.now)) to)
        (write_needed (frame_at (typed_program lowering.old.parts) here.proc) (local_count (typed_program lowering.old.parts) here.proc) (map expression values.now) (length targets.now))
        x.wide x.big (walked lowering.old) (walked lowering.new)) }
{
    let written = lowering.columns(targets)?;
    let answer = free_assign(
        lowering.alloc(),
        lowering.globals(),
        lowering.frame(here.proc),
        lowering.local_count(here.proc),
        targets,
        values,
    );
    lead_by(lowering, here, &written, answer, to)
}
