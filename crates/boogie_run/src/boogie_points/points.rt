//! Where a frame stands.

ghost use Rattle.std.specs.Prelude.{◌≡◌, map};
ghost use Rattle.typed_tree.specs.TypedView as view;
ghost use Rattle.typed_tree.specs.TypingRules.TypedParts.{typed_program};
ghost use Rattle.boogie_run.specs.BoogiePoints.Points.{settled, past_first, at_exit};
ghost use Rattle.boogie_run.specs.BoogiePoints.Room.{PointHasRoom};
ghost use Rattle.boogie_run.specs.BoogiePoints.Starts.{targets_at};
ghost use Rattle.boogie_run.specs.BoogiePoints.View.{stack_of, point_of};

use crate::boogie_points::blocks::{self, Todo, split, top};
use boogie_tree::Column;
use typed_tree::typing_rules::Typed;
use typed_tree::{TProc, TStmt};

/// The stages of a procedure.
#[derive(Clone, Copy)]
pub enum Stage {
    /// The start of a run: the axioms and the plain requires of the entry.
    Start,
    /// The free requires.
    Entry,
    /// The statements.
    Body,
    /// The ensures, and the return.
    Exit,
}

/// Where a frame stands.
#[derive(Drop)]
pub struct Point<'a> {
    pub(crate) stage: Stage,
    /// The blocks still to do, the innermost last.
    pub(crate) todo: Vec<Todo<'a>>,
    /// How many items of what stands first are done.
    pub(crate) part: usize,
}

/// To the first statement that is still to do, or to the exit.
pub(crate) fn settle(point: &mut Point<'_>)
    ensures { point_of point.new ≡ settled (stack_of point.old.todo.items) }
{
    blocks::settle(&mut point.todo);
    point.part = 0;
    if point.todo.is_empty() {
        point.stage = Stage::Exit;
    } else {
        point.stage = Stage::Body;
    }
}

/// Behind all statements.
pub(crate) fn leave(point: &mut Point<'_>)
    ensures { point_of point.new ≡ at_exit }
{
    point.todo.clear();
    point.part = 0;
    point.stage = Stage::Exit;
}

/// Behind the first statement that is still to do, as behind the call at which a frame stands.
pub fn pass_call(program: &Typed, point: &mut Point<'_>)
    requires room { PointHasRoom (typed_program program.now).procs (point_of point.old) }
    ensures passed { point_of point.new ≡ settled (past_first (typed_program program.now).procs (point_of point.old).todo) }
    ensures room { PointHasRoom (typed_program program.now).procs (point_of point.new) }
{
    blocks::pass(program.procs(), &mut point.todo);
    settle(point);
}

/// The targets of the call at which a frame stands.
pub fn targets<'a>(point: &Point<'a>) -> &'a [Column]
    ensures { result.now ≡ targets_at (point_of point.now).todo }
{
    let Some(here) = top(&point.todo) else {
        return &[];
    };
    match split(here.rest) {
        Some((TStmt::Call(_, columns, _, _), _)) => columns,
        _ => &[],
    }
}
