//! Where procedures and runs begin.

ghost use Rattle.std.specs.Prelude.{◌≡◌, [], IfOk, slice_get};
ghost use Rattle.typed_tree.specs.TypingRules.TypedParts.{typed_program};
ghost use Rattle.boogie_run.specs.BoogiePoints.Numbered.{numbers_of};
ghost use Rattle.boogie_run.specs.BoogiePoints.Room.{PointHasRoom};
ghost use Rattle.boogie_run.specs.BoogiePoints.Starts.{point_of_call, start_point_of};
ghost use Rattle.boogie_run.specs.BoogiePoints.View.{stage_of, point_of};

use crate::boogie_points::conditions::{procedure_at, start_condition};
use crate::boogie_points::going::enter_body;
use crate::boogie_points::numbers::{Numbers, body_of};
use crate::boogie_points::points::{Point, Stage};
use std::alloc::{AllocError, Global};
use typed_tree::typing_rules::Typed;

/// A point of a stage with no block to do.
fn without_blocks<'a>(alloc: Global, stage: Stage) -> Point<'a>
    ensures { point_of result ≡ record { stage = stage_of stage; todo = []; part = 0 } }
{
    Point {
        stage,
        todo: Vec::new(alloc),
        part: 0,
    }
}

/// Where a called procedure begins.
pub fn entry_point<'a>(
    alloc: Global,
    program: &'a Typed,
    numbers: &Numbers,
    callee: u32,
) -> Result<Point<'a>, AllocError>
    requires { numbers.now ≡ numbers_of (typed_program program.now) }
    ensures point { IfOk result (λ p. point_of p ≡ point_of_call (typed_program program.now) callee (slice_get (typed_program program.now).procs callee)) }
    ensures room { IfOk result (λ p. PointHasRoom (typed_program program.now).procs (point_of p)) }
{
    let mut point = without_blocks(alloc, Stage::Exit);
    let Some(called) = procedure_at(program.procs(), callee) else {
        return Ok(point);
    };
    let Some(body) = body_of(program, numbers, callee) else {
        return Ok(point);
    };
    enter_body(&called.specs, body, &mut point)?;
    Ok(point)
}

/// Where a run begins.
pub fn start_point<'a>(
    alloc: Global,
    program: &'a Typed,
    numbers: &Numbers,
) -> Result<Point<'a>, AllocError>
    requires { numbers.now ≡ numbers_of (typed_program program.now) }
    ensures point { IfOk result (λ p. point_of p ≡ start_point_of (typed_program program.now) (slice_get (typed_program program.now).procs (typed_program program.now).entry)) }
    ensures room { IfOk result (λ p. PointHasRoom (typed_program program.now).procs (point_of p)) }
{
    let entry = program.entry();
    if let Some(entered) = procedure_at(program.procs(), entry) {
        if start_condition(program, &entered.specs, 0).is_some() {
            return Ok(without_blocks(alloc, Stage::Start));
        }
    }
    entry_point(alloc, program, numbers, entry)
}
