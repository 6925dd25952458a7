//! Where it goes on from a point.

ghost use Rattle.std.specs.Prelude.{◌≡◌, ◌∷◌, ◌++◌, ◌+◌, ◌<◌, ◌≤◌, ◌^◌, List, [], true, false, map, length, slice_get, IsOk, IsErr, IsTrue};
ghost use Rattle.typed_tree.specs.TypedTree.{TypedProcedure};
ghost use Rattle.typed_tree.specs.TypedView as view;
ghost use Rattle.typed_tree.specs.TypingRules.Counts as count;
ghost use Rattle.typed_tree.specs.TypingRules.TypedParts.{typed_program};
ghost use Rattle.boogie_run.specs.BoogiePoints.Points as stand;
ghost use Rattle.boogie_run.specs.BoogiePoints.Actions as spec;
ghost use Rattle.boogie_run.specs.BoogiePoints.Ties.AtStatement as tell;
ghost use Rattle.boogie_run.specs.BoogiePoints.Ties.AtStatement.{branch_of};
ghost use Rattle.boogie_run.specs.BoogiePoints.Numbered.{numbers_of};
ghost use Rattle.boogie_run.specs.BoogiePoints.Room.{HasRoom, PointHasRoom};
ghost use Rattle.boogie_run.specs.BoogiePoints.Stacks.{without_top};
ghost use Rattle.boogie_run.specs.BoogiePoints.Told.{ways_of};
ghost use Rattle.boogie_run.specs.BoogiePoints.View.{action_view, todo_of, point_of};

use crate::boogie_points::acting::statement_action;
use crate::boogie_points::actions::Action;
use crate::boogie_points::blocks::{Todo, leave_loops, past, push, push_over, split, top};
use crate::boogie_points::conditions::{free_condition, procedure_at, start_condition};
use crate::boogie_points::numbers::{Numbers, body_of, fits};
use crate::boogie_points::points::{Point, Stage, leave, pass_call, settle};
use crate::boogie_points::seeking::{Marks, block_at, else_marks, loop_marks, seek};
use std::alloc::AllocError;
use typed_tree::typing_rules::Typed;
use typed_tree::{TInv, TSpec, TStmt};

/// To the next item of what stands first. No memory holds so many items that their number does not fit.
fn next_item(point: &mut Point<'_>) -> Result<(), AllocError>
    ensures ok { IsOk result → point_of point.new ≡ spec.next_part (point_of point.old) }
    ensures kept { IsErr result → point_of point.new ≡ point_of point.old }
{
    match point.part.checked_add(1) {
        Some(next) => {
            point.part = next;
            Ok(())
        }
        None => Err(AllocError),
    }
}

/// To the beginning of a body: its free requires, or its first statement where there are none.
pub(crate) fn enter_body<'a>(
    specs: &[TSpec],
    body: Todo<'a>,
    point: &mut Point<'a>,
) -> Result<(), AllocError>
    ensures ok { IsOk result → point_of point.new ≡ spec.entry_point (spec.free_conditions (map view.specification specs.now)) (todo_of body.entry) }
    ensures kept { IsErr result → point_of point.new ≡ point_of point.old }
    ensures room { (procs : List TypedProcedure) → HasRoom procs (todo_of body.entry) → PointHasRoom procs (point_of point.old) → PointHasRoom procs (point_of point.new) }
{
    let mut todo = Vec::new(*point.todo.allocator());
    push(&mut todo, body)?;
    point.todo = todo;
    if free_condition(specs, 0).is_none() {
        settle(point);
        return Ok(());
    }
    point.stage = Stage::Entry;
    point.part = 0;
    Ok(())
}

/// On from a condition that is assumed at the start of a run.
fn start_on<'a>(
    program: &'a Typed,
    specs: &'a [TSpec],
    body: Todo<'a>,
    point: &mut Point<'a>,
) -> Result<(), AllocError>
    ensures ok { IsOk result → ways_of (spec.start_action (slice_get (map view.expression program.now.axioms ++ map (λ i. i.cond) (spec.plain_conditions (map view.specification specs.now))) point.old.part) (slice_get (map view.expression program.now.axioms ++ map (λ i. i.cond) (spec.plain_conditions (map view.specification specs.now))) (point.old.part + 1)) (point_of point.old) (spec.entry_point (spec.free_conditions (map view.specification specs.now)) (todo_of body.entry))) ≡ point_of point.new ∷ [] }
    ensures kept { IsErr result → point_of point.new ≡ point_of point.old }
    ensures room { (procs : List TypedProcedure) → HasRoom procs (todo_of body.entry) → PointHasRoom procs (point_of point.old) → PointHasRoom procs (point_of point.new) }
{
    let Some(next) = point.part.checked_add(1) else {
        return Err(AllocError);
    };
    let here = start_condition(program, specs, point.part).is_some();
    if here && start_condition(program, specs, next).is_some() {
        point.part = next;
        return Ok(());
    }
    enter_body(specs, body, point)
}

/// On from a free requires.
fn entry_on(specs: &[TSpec], point: &mut Point<'_>) -> Result<(), AllocError>
    ensures ok { IsOk result → ways_of (spec.entry_action (slice_get (spec.free_conditions (map view.specification specs.now)) point.old.part) (slice_get (spec.free_conditions (map view.specification specs.now)) (point.old.part + 1)) (point_of point.old)) ≡ point_of point.new ∷ [] }
    ensures kept { IsErr result → point_of point.new ≡ point_of point.old }
    ensures room { (procs : List TypedProcedure) → PointHasRoom procs (point_of point.old) → PointHasRoom procs (point_of point.new) }
{
    let Some(next) = point.part.checked_add(1) else {
        return Err(AllocError);
    };
    let here = free_condition(specs, point.part).is_some();
    if here && free_condition(specs, next).is_some() {
        point.part = next;
        return Ok(());
    }
    settle(point);
    Ok(())
}

/// Into a branch of an `if`.
fn branch_on<'a>(
    program: &Typed,
    point: &mut Point<'a>,
    here: Todo<'a>,
    after: Todo<'a>,
    then: &'a [TStmt],
    otherwise: &'a [TStmt],
    way: usize,
) -> Result<(), AllocError>
    requires assertions { here.id + count.block_assertions (typed_program program.now).procs (view.statements then.now) < 2 ^ 32 }
    requires points { here.at + (1 + count.block_points (typed_program program.now).procs (view.statements then.now)) < 2 ^ 32 }
    requires stands { (point_of point.old).todo ≡ todo_of here ∷ without_top (point_of point.old).todo }
    ensures ok { IsOk result → point_of point.new ≡ stand.settled (branch_of (typed_program program.now).procs (view.statements then.now) (view.statements otherwise.now) here.entry.id here.entry.at way ∷ (todo_of after.entry ∷ without_top (point_of point.old).todo)) }
    ensures kept { IsErr result → point_of point.new ≡ point_of point.old }
{
    let (rest, marks) = if way == 0 {
        let marks = Marks {
            of_loop: false,
            id: here.id,
            at: here.at + 1,
        };
        (then, marks)
    } else {
        (
            otherwise,
            else_marks(program.procs(), here.id, here.at, then),
        )
    };
    push_over(&mut point.todo, block_at(rest, marks), after)?;
    settle(point);
    Ok(())
}

/// Into a loop, past it, or on from one of its invariants.
fn loop_on<'a>(
    program: &Typed,
    point: &mut Point<'a>,
    here: Todo<'a>,
    conditions: &[TInv],
    body: &'a [TStmt],
    way: usize,
) -> Result<(), AllocError>
    requires room { PointHasRoom (typed_program program.now).procs (point_of point.old) }
    requires assertions { here.id + count.plain_invariants (map view.invariant conditions.now) < 2 ^ 32 }
    requires points { here.at + (length conditions.now + 1) < 2 ^ 32 }
    ensures item { IsOk result → point.old.part < length conditions.now → point_of point.new ≡ spec.next_part (point_of point.old) }
    ensures inside { IsOk result → length conditions.now ≤ point.old.part → way ≡ 0 → point_of point.new ≡ stand.settled (record { rest = view.statements body.now; of_loop = true; id = here.entry.id + count.plain_invariants (map view.invariant conditions.now); at = here.entry.at + length conditions.now + 1 } ∷ (point_of point.old).todo) }
    ensures behind { IsOk result → length conditions.now ≤ point.old.part → 0 < way → point_of point.new ≡ stand.settled (stand.past_first (typed_program program.now).procs (point_of point.old).todo) }
    ensures kept { IsErr result → point_of point.new ≡ point_of point.old }
{
    if point.part < conditions.len() {
        return next_item(point);
    }
    if way > 0 {
        pass_call(program, point);
        return Ok(());
    }
    let inner = loop_marks(here.id, here.at, conditions);
    push(&mut point.todo, block_at(body, inner))?;
    settle(point);
    Ok(())
}

/// The label of that number.
fn label_at(labels: &[u32], number: usize) -> Option<u32>
    ensures { result ≡ slice_get labels.now number }
{
    labels.get(number).copied()
}

/// To one of the labels of a goto.
fn jump<'a>(
    program: &Typed,
    body: Todo<'a>,
    point: &mut Point<'a>,
    labels: &[u32],
    way: usize,
) -> Result<(), AllocError>
    requires body { HasRoom (typed_program program.now).procs (todo_of body) }
    requires way { way < length (ways_of (spec.one_of (spec.ways_to (typed_program program.now).procs (todo_of body).rest (todo_of body).id (todo_of body).at labels.now))) }
    ensures ok { IsOk result → slice_get (ways_of (spec.one_of (spec.ways_to (typed_program program.now).procs (todo_of body.entry).rest (todo_of body.entry).id (todo_of body.entry).at labels.now))) way ≡ Some (point_of point.new) }
    ensures kept { IsErr result → point_of point.new ≡ point_of point.old }
    ensures room { IsOk result → PointHasRoom (typed_program program.now).procs (point_of point.new) }
{
    let Some(label) = label_at(labels, way) else {
        leave(point);
        return Ok(());
    };
    let mut todo = Vec::new(*point.todo.allocator());
    let marks = Marks {
        of_loop: false,
        id: body.id,
        at: body.at,
    };
    let _found = seek(program.procs(), &mut todo, body.rest, marks, label)?;
    point.todo = todo;
    settle(point);
    Ok(())
}

/// Whether the next part of a call comes behind this one.
fn is_item(action: &Action<'_>) -> bool
    ensures { result ≡ tell.is_item (action_view action.now) }
{
    matches!(
        action,
        Action::Demand { .. } | Action::Keep { .. } | Action::Grant { .. }
    )
}

/// On from one variable of a havoc of so many.
fn havoc_on(program: &Typed, point: &mut Point<'_>, count: usize) -> Result<(), AllocError>
    requires room { PointHasRoom (typed_program program.now).procs (point_of point.old) }
    ensures item { IsOk result → point.old.part + 1 < count → point_of point.new ≡ spec.next_part (point_of point.old) }
    ensures behind { IsOk result → count ≤ point.old.part + 1 → point_of point.new ≡ stand.settled (stand.past_first (typed_program program.now).procs (point_of point.old).todo) }
    ensures kept { IsErr result → point_of point.new ≡ point_of point.old }
    ensures room { PointHasRoom (typed_program program.now).procs (point_of point.new) }
{
    if point.part < count && point.part + 1 < count {
        return next_item(point);
    }
    pass_call(program, point);
    Ok(())
}

/// On from a part of a call.
fn call_on(
    program: &Typed,
    point: &mut Point<'_>,
    statement: &TStmt,
    id: u32,
) -> Result<(), AllocError>
    requires call { id + count.assertions (typed_program program.now).procs (view.statement statement.now) < 2 ^ 32 }
    requires room { PointHasRoom (typed_program program.now).procs (point_of point.old) }
    ensures item { IsOk result → IsTrue (tell.is_item (tell.told_of (typed_program program.now).procs (view.statement statement.now) id point.old.part)) → point_of point.new ≡ spec.next_part (point_of point.old) }
    ensures behind { IsOk result → tell.is_item (tell.told_of (typed_program program.now).procs (view.statement statement.now) id point.old.part) ≡ false → point_of point.new ≡ stand.settled (stand.past_first (typed_program program.now).procs (point_of point.old).todo) }
    ensures kept { IsErr result → point_of point.new ≡ point_of point.old }
    ensures room { PointHasRoom (typed_program program.now).procs (point_of point.new) }
{
    fits(program);
    let action = statement_action(program.procs(), statement, id, point.part);
    if is_item(&action) {
        return next_item(point);
    }
    pass_call(program, point);
    Ok(())
}

/// On from the first statement of a block.
fn statement_on<'a>(
    program: &'a Typed,
    body: Todo<'a>,
    point: &mut Point<'a>,
    here: Todo<'a>,
    statement: &'a TStmt,
    rest: &'a [TStmt],
    way: usize,
) -> Result<(), AllocError>
    requires body { HasRoom (typed_program program.now).procs (todo_of body) }
    requires room { PointHasRoom (typed_program program.now).procs (point_of point.old) }
    requires stands { (point_of point.old).todo ≡ todo_of here ∷ without_top (point_of point.old).todo }
    requires first { here.rest.now ≡ statement.now ∷ rest.now }
    requires way { way < length (ways_of (tell.at_statement (typed_program program.now).procs (todo_of body) (view.statement statement.now) (view.statements rest.now) (todo_of here) (point_of point.old))) }
    ensures ok { IsOk result → slice_get (ways_of (tell.at_statement (typed_program program.now).procs (todo_of body.entry) (view.statement statement.now) (view.statements rest.now) (todo_of here.entry) (point_of point.old))) way ≡ Some (point_of point.new) }
    ensures kept { IsErr result → point_of point.new ≡ point_of point.old }
    ensures room { PointHasRoom (typed_program program.now).procs (point_of point.new) }
{
    match statement {
        TStmt::If(_, _, then, otherwise) => {
            let after = past(program.procs(), here, statement, rest);
            branch_on(program, point, here, after, then, otherwise, way)
        }
        TStmt::While(_, _, conditions, inside) => loop_on(
            program, point, here, conditions, inside, way,
        ),
        TStmt::Break(_, more) => {
            leave_loops(program.procs(), &mut point.todo, *more);
            settle(point);
            Ok(())
        }
        TStmt::Goto(_, labels) => jump(program, body, point, labels, way),
        TStmt::Return(_) => {
            leave(point);
            Ok(())
        }
        TStmt::Havoc(_, columns) => havoc_on(program, point, columns.len()),
        TStmt::Call(_, _, _, _) => call_on(program, point, statement, here.id),
        TStmt::Assert(_, _) | TStmt::Assume(_, _) | TStmt::Assign(_, _, _) | TStmt::Label(_) => {
            pass_call(program, point);
            Ok(())
        }
    }
}

/// On from the first statement that is still to do.
fn body_on<'a>(
    program: &'a Typed,
    body: Todo<'a>,
    point: &mut Point<'a>,
    way: usize,
) -> Result<(), AllocError>
    requires body { HasRoom (typed_program program.now).procs (todo_of body) }
    requires room { PointHasRoom (typed_program program.now).procs (point_of point.old) }
    requires way { way < length (ways_of (spec.body_action (typed_program program.now).procs (todo_of body).rest (todo_of body).id (todo_of body).at (point_of point.old).todo (point_of point.old))) }
    ensures ok { IsOk result → slice_get (ways_of (spec.body_action (typed_program program.now).procs (todo_of body.entry).rest (todo_of body.entry).id (todo_of body.entry).at (point_of point.old).todo (point_of point.old))) way ≡ Some (point_of point.new) }
    ensures kept { IsErr result → point_of point.new ≡ point_of point.old }
    ensures room { PointHasRoom (typed_program program.now).procs (point_of point.new) }
{
    let Some(here) = top(&point.todo) else {
        leave(point);
        return Ok(());
    };
    match split(here.rest) {
        Some((statement, rest)) => statement_on(program, body, point, here, statement, rest, way),
        None => {
            leave(point);
            Ok(())
        }
    }
}

/// Goes on by a way of the action at the point. It is refused for want of memory alone, and then nothing has changed.
pub fn go_on<'a>(
    program: &'a Typed,
    numbers: &Numbers,
    proc: u32,
    point: &mut Point<'a>,
    way: usize,
) -> Result<(), AllocError>
    requires numbers { numbers.now ≡ numbers_of (typed_program program.now) }
    requires room { PointHasRoom (typed_program program.now).procs (point_of point.old) }
    requires way { way < length (ways_of (spec.action_at (typed_program program.now) proc (point_of point.old))) }
    ensures ok { IsOk result → slice_get (ways_of (spec.action_at (typed_program program.now) proc (point_of point.old))) way ≡ Some (point_of point.new) }
    ensures kept { IsErr result → point_of point.new ≡ point_of point.old }
    ensures room { PointHasRoom (typed_program program.now).procs (point_of point.new) }
{
    let Some(found) = procedure_at(program.procs(), proc) else {
        return Ok(());
    };
    let Some(body) = body_of(program, numbers, proc) else {
        return Ok(());
    };
    match point.stage {
        Stage::Start => start_on(program, &found.specs, body, point),
        Stage::Entry => entry_on(&found.specs, point),
        Stage::Body => body_on(program, body, point, way),
        Stage::Exit => next_item(point),
    }
}
