//! Guards: of an `if`, and of a loop behind its invariants.

ghost use Rattle.std.specs.Prelude.{◌≡◌, ◌+◌, map, IsSome, IfOk, OnOk, slice_get};
ghost use Rattle.typed_tree.specs.TypedTree as tree;
ghost use Rattle.typed_tree.specs.TypedView as view;
ghost use Rattle.typed_tree.specs.TypingRules.TypedParts.{typed_program};
ghost use Rattle.lowered_graph.specs.LoweredSteps.ProgramFrames.{frame_at};
ghost use Rattle.icfg_lower.specs.PlaceEdges.WalkedParts.{walked};
ghost use Rattle.icfg_lower.specs.ProgramWalk.Ties.Bounds.{StatementFits, BlockFits};
ghost use Rattle.icfg_lower.specs.ProgramWalk.Ties.Walks.{ForkAdds, HeadAdds, IsElse, IsInside};

use crate::place_edges::{Here, Lowering};
use crate::program_walk::items::choose;
use crate::program_walk::statements::{Next, first_place, invariants};
use boogie_tree::Span;
use std::alloc::AllocError;
use typed_tree::{TGuard, TInv, TStmt};

/// A guard, with the place of its keyword in the text.
#[derive(Clone, Copy)]
pub(crate) struct Guarded<'s> {
    pub(crate) span: Span,
    pub(crate) cond: &'s TGuard,
}

/// Where the numbers of the two blocks of an `if` begin.
#[derive(Clone, Copy)]
pub(crate) struct Forked {
    pub(crate) first: Next,
    pub(crate) second: Next,
}

/// The guard of an `if`, with the number of its next assertion and the place behind it.
pub(crate) fn fork(
    lowering: &mut Lowering<'_>,
    here: Here,
    guarded: Guarded<'_>,
    then: &[TStmt],
    otherwise: &[TStmt],
    assertion: u32,
    after: u32,
) -> Result<Forked, AllocError>
    requires procedure { IsSome (slice_get (typed_program lowering.old.parts).procs here.proc) }
    requires fits { StatementFits (typed_program lowering.old.parts) (frame_at (typed_program lowering.old.parts) here.proc)
        (tree.If guarded.span (view.guard guarded.cond.now) (view.statements then.now) (view.statements otherwise.now)) assertion here.place }
    ensures program { OnOk result (typed_program lowering.new.parts ≡ typed_program lowering.old.parts) }
    ensures then_place { IfOk result (λ d. d.first.place ≡ here.place + 1) }
    ensures then_assertion { IfOk result (λ d. d.first.assertion ≡ assertion) }
    ensures else_numbers { IfOk result (λ d. IsElse (typed_program lowering.old.parts).procs (view.statements then.now) assertion here.place d.second.assertion d.second.place) }
    ensures then_fits { IfOk result (λ d. BlockFits (typed_program lowering.old.parts) (frame_at (typed_program lowering.old.parts) here.proc) (view.statements then.now) d.first.assertion d.first.place) }
    ensures else_fits { IfOk result (λ d. BlockFits (typed_program lowering.old.parts) (frame_at (typed_program lowering.old.parts) here.proc) (view.statements otherwise.now) d.second.assertion d.second.place) }
    ensures added { OnOk result (ForkAdds (typed_program lowering.old.parts) here.proc after guarded.entry.span (view.guard guarded.entry.cond.now) (view.statements then.now) (view.statements otherwise.now)
        assertion here.place (walked lowering.old) (walked lowering.new)) }
{
    let first = Next {
        place: here.place + 1,
        assertion,
    };
    let second = first.behind_block(lowering.layout().program().procs(), then);
    let hit = first_place(then, first.place, after);
    let miss = first_place(otherwise, second.place, after);
    choose(lowering, here, guarded.span, guarded.cond, hit, miss)?;
    Ok(Forked { first, second })
}

/// The invariants of a loop and its guard, with the number of its next assertion and the place behind it. It answers where the
/// numbers of its block begin.
pub(crate) fn head(
    lowering: &mut Lowering<'_>,
    here: Here,
    guarded: Guarded<'_>,
    conditions: &[TInv],
    inner: &[TStmt],
    assertion: u32,
    after: u32,
) -> Result<Next, AllocError>
    requires procedure { IsSome (slice_get (typed_program lowering.old.parts).procs here.proc) }
    requires fits { StatementFits (typed_program lowering.old.parts) (frame_at (typed_program lowering.old.parts) here.proc)
        (tree.While guarded.span (view.guard guarded.cond.now) (map view.invariant conditions.now) (view.statements inner.now)) assertion here.place }
    ensures program { OnOk result (typed_program lowering.new.parts ≡ typed_program lowering.old.parts) }
    ensures numbers { IfOk result (λ d. IsInside (map view.invariant conditions.now) assertion here.place d.assertion d.place) }
    ensures fits { IfOk result (λ d. BlockFits (typed_program lowering.old.parts) (frame_at (typed_program lowering.old.parts) here.proc) (view.statements inner.now) d.assertion d.place) }
    ensures added { OnOk result (HeadAdds (typed_program lowering.old.parts) here.proc after guarded.entry.span (view.guard guarded.entry.cond.now) (map view.invariant conditions.now) (view.statements inner.now)
        assertion here.place (walked lowering.old) (walked lowering.new)) }
{
    let number = invariants(lowering, here, conditions, assertion)?;
    let at = Here {
        proc: here.proc,
        place: here.place + conditions.len() as u32,
    };
    let first = Next {
        place: at.place + 1,
        assertion: number,
    };
    let hit = first_place(inner, first.place, here.place);
    choose(lowering, at, guarded.span, guarded.cond, hit, after)?;
    Ok(first)
}
