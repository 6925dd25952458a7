//! Blocks and the statements in them.

ghost use Rattle.std.specs.Prelude.{◌≡◌, ◌≢◌, IsSome, OnOk, slice_get};
ghost use Rattle.std.specs.declared.alloc.Global.{Global};
ghost use Rattle.std.specs.declared.vec.Vec.{Vec};
ghost use Rattle.boogie_tree.specs.declared.span.Span.{Span};
ghost use Rattle.typed_tree.specs.declared.types.TGuard.{TGuard};
ghost use Rattle.typed_tree.specs.declared.types.TInv.{TInv};
ghost use Rattle.typed_tree.specs.declared.types.TStmt.{TStmt};
ghost use Rattle.typed_tree.specs.declared.types.TStmt.TheVariants as code;
ghost use Rattle.typed_tree.specs.TypedView as view;
ghost use Rattle.typed_tree.specs.TypingRules.TypedParts.{typed_program};
ghost use Rattle.lowered_graph.specs.LoweredSteps.ProgramFrames.{frame_at};
ghost use Rattle.icfg_lower.specs.PlaceEdges.WalkedParts.{walked};
ghost use Rattle.icfg_lower.specs.ProgramWalk.Ties.Bounds.{StatementFits, BlockFits};
ghost use Rattle.icfg_lower.specs.ProgramWalk.Ties.Walks.{StatementAdds, BlockAdds};

use crate::label_places::before_last_labels;
use crate::place_edges::{Called, Here, Lowering};
use crate::program_walk::calls::call;
use crate::program_walk::guards::{Guarded, fork, head};
use crate::program_walk::items::{assert, assign, assume};
use crate::program_walk::statements::{Body, Next, behind_loop, chosen, havoc, jump};
use std::alloc::AllocError;
use typed_tree::TStmt;

/// The statements of a block, one after another; the place behind the block is told. It recurses as deep as statements are nested, as
/// dropping one does.
#[cycle(walking)]
pub(crate) fn block(
    lowering: &mut Lowering<'_>,
    body: &Body,
    list: &[TStmt],
    from: Next,
    after: u32,
    loops: &mut Vec<u32>,
) -> Result<(), AllocError>
    requires procedure { IsSome (slice_get (typed_program lowering.old.parts).procs body.now.proc) }
    requires fits { BlockFits (typed_program lowering.old.parts) (frame_at (typed_program lowering.old.parts) body.now.proc) (view.statements list.now) from.assertion from.place }
    ensures program { OnOk result (typed_program lowering.new.parts ≡ typed_program lowering.old.parts) }
    ensures loops { OnOk result (loops.new.items ≡ loops.old.items) }
    ensures added { OnOk result (BlockAdds (typed_program lowering.old.parts) body.now.proc body.now.exit body.now.labels.items loops.old.items after (view.statements list.now) from.assertion from.place
        (walked lowering.old) (walked lowering.new)) }
{
    let before_last = before_last_labels(list);
    let mut here = from;
    for number in 0..list.len() {
        let first = &list[number];
        let behind = here.behind(lowering.layout().program().procs(), first);
        let next = chosen(number + 1 < before_last, behind.place, after);
        statement(lowering, body, first, here, next, loops)?;
        here = behind;
    }
    Ok(())
}

/// A statement in which no others stand, with the place behind it.
fn plain_statement(
    lowering: &mut Lowering<'_>,
    body: &Body,
    first: &TStmt,
    next: Next,
    after: u32,
    loops: &[u32],
) -> Result<(), AllocError>
    requires procedure { IsSome (slice_get (typed_program lowering.old.parts).procs body.now.proc) }
    requires fits { StatementFits (typed_program lowering.old.parts) (frame_at (typed_program lowering.old.parts) body.now.proc) (view.statement first.now) next.assertion next.place }
    requires no_branch { (span : Span) (guard : TGuard) (one other : Vec TStmt Global) → first.now ≢ code.If span guard one other }
    requires no_loop { (span : Span) (guard : TGuard) (conditions : Vec TInv Global) (inner : Vec TStmt Global) → first.now ≢ code.While span guard conditions inner }
    ensures program { OnOk result (typed_program lowering.new.parts ≡ typed_program lowering.old.parts) }
    ensures added { OnOk result (StatementAdds (typed_program lowering.old.parts) body.now.proc body.now.exit body.now.labels.items loops.now after (view.statement first.now) next.assertion next.place
        (walked lowering.old) (walked lowering.new)) }
{
    let here = Here {
        proc: body.proc,
        place: next.place,
    };
    match first {
        TStmt::Assert(span, cond) => assert(lowering, here, *span, cond, next.assertion, after),
        TStmt::Assume(span, cond) => assume(lowering, here, *span, cond, after),
        TStmt::Havoc(_, columns) => havoc(lowering, here, columns, after),
        TStmt::Assign(span, targets, values) => {
            assign(lowering, here, *span, targets, values, after)
        }
        TStmt::Call(span, targets, callee, args) => {
            let called = Called {
                span: *span,
                targets,
                callee: *callee,
                args,
            };
            call(lowering, here, called, next.assertion, after)
        }
        TStmt::Break(_, levels) => {
            let to = behind_loop(loops, body.exit, *levels);
            lowering.skip(here, &[], to)
        }
        TStmt::Goto(_, labels) => jump(lowering, here, body, labels),
        TStmt::Return(_) => lowering.skip(here, &[], body.exit),
        TStmt::Label(_) => Ok(()),
        TStmt::If(_, _, _, _) | TStmt::While(_, _, _, _) => unreachable!(),
    }
}

/// A statement, with the place behind it.
#[cycle(walking)]
fn statement(
    lowering: &mut Lowering<'_>,
    body: &Body,
    first: &TStmt,
    next: Next,
    after: u32,
    loops: &mut Vec<u32>,
) -> Result<(), AllocError>
    requires procedure { IsSome (slice_get (typed_program lowering.old.parts).procs body.now.proc) }
    requires fits { StatementFits (typed_program lowering.old.parts) (frame_at (typed_program lowering.old.parts) body.now.proc) (view.statement first.now) next.assertion next.place }
    ensures program { OnOk result (typed_program lowering.new.parts ≡ typed_program lowering.old.parts) }
    ensures loops { OnOk result (loops.new.items ≡ loops.old.items) }
    ensures added { OnOk result (StatementAdds (typed_program lowering.old.parts) body.now.proc body.now.exit body.now.labels.items loops.old.items after (view.statement first.now) next.assertion next.place
        (walked lowering.old) (walked lowering.new)) }
{
    let here = Here {
        proc: body.proc,
        place: next.place,
    };
    match first {
        TStmt::If(span, cond, then, otherwise) => {
            let guarded = Guarded { span: *span, cond };
            let forked = fork(
                lowering,
                here,
                guarded,
                then,
                otherwise,
                next.assertion,
                after,
            )?;
            block(lowering, body, then, forked.first, after, loops)?;
            block(lowering, body, otherwise, forked.second, after, loops)
        }
        TStmt::While(span, cond, conditions, inner) => {
            let guarded = Guarded { span: *span, cond };
            let first = head(
                lowering,
                here,
                guarded,
                conditions,
                inner,
                next.assertion,
                after,
            )?;
            loops.push(after)?;
            block(lowering, body, inner, first, next.place, loops)?;
            let _left = loops.pop();
            Ok(())
        }
        _ => plain_statement(lowering, body, first, next, after, loops),
    }
}
