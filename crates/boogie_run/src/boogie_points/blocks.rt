//! The blocks that a frame has still to do.

ghost use Rattle.std.specs.Prelude.{◌≡◌, ◌∷◌, [], ℕ, Bool, List, MatchOption, map, IsOk, IsErr};
ghost use Rattle.std.specs.List.{AllByRecursion};
ghost use Rattle.typed_tree.specs.TypedTree.{TypedProcedure};
ghost use Rattle.typed_tree.specs.TypedView as view;
ghost use Rattle.typed_tree.specs.TypingRules.Counts.{block_assertions, block_points};
ghost use Rattle.boogie_run.specs.BoogiePoints.Points as spec;
ghost use Rattle.boogie_run.specs.BoogiePoints.Room.{HasRoom};
ghost use Rattle.boogie_run.specs.BoogiePoints.Stacks.{with_top, over_top, without_top, is_label, standing, standing_in};
ghost use Rattle.boogie_run.specs.BoogiePoints.View.{todo_of, stack_of};

use crate::boogie_points::counts::{assertions, points};
use std::alloc::AllocError;
use typed_tree::{TProc, TStmt};

/// A block still to do: what is left of it, whether it is the body of a loop, and the numbers of its next assertion and place.
#[derive(Clone, Copy)]
pub(crate) struct Todo<'a> {
    pub(crate) rest: &'a [TStmt],
    pub(crate) of_loop: bool,
    pub(crate) id: u32,
    pub(crate) at: u32,
}

/// The first statement of a list, and the others.
pub(crate) fn split(list: &[TStmt]) -> Option<(&TStmt, &[TStmt])>
    ensures { MatchOption result (list.now ≡ []) (λ r. list.now ≡ r.0.now ∷ r.1.now) }
{
    match list {
        [first, rest @ ..] => Some((first, rest)),
        [] => None,
    }
}

/// The innermost block.
pub(crate) fn top<'a>(todo: &[Todo<'a>]) -> Option<Todo<'a>>
    ensures { MatchOption result (stack_of todo.now ≡ []) (λ t. stack_of todo.now ≡ todo_of t ∷ without_top (stack_of todo.now)) }
{
    todo.last().copied()
}

/// Puts another block in place of the innermost one.
pub(crate) fn put_top<'a>(todo: &mut Vec<Todo<'a>>, last: Todo<'a>)
    ensures { stack_of todo.new.items ≡ with_top (todo_of last.entry) (stack_of todo.old.items) }
{
    let count = todo.len();
    if count > 0 {
        todo[count - 1] = last;
    }
}

/// Leaves the innermost block.
#[tactic(auto, using(crate::proofs::BoogiePoints::StackLaws::stacking))]
pub(crate) fn drop_top(todo: &mut Vec<Todo<'_>>)
    ensures { stack_of todo.new.items ≡ without_top (stack_of todo.old.items) }
{
    let _ = todo.pop();
}

/// Puts a block over another innermost one. Where memory is short, nothing is changed.
pub(crate) fn push_over<'a>(
    todo: &mut Vec<Todo<'a>>,
    inner: Todo<'a>,
    last: Todo<'a>,
) -> Result<(), AllocError>
    ensures ok { IsOk result → stack_of todo.new.items ≡ over_top (todo_of inner.entry) (todo_of last.entry) (stack_of todo.old.items) }
    ensures kept { IsErr result → stack_of todo.new.items ≡ stack_of todo.old.items }
{
    let count = todo.len();
    todo.push(inner)?;
    if count > 0 {
        todo[count - 1] = last;
    }
    Ok(())
}

/// Puts a block over the others.
#[tactic(auto, using(crate::proofs::BoogiePoints::StackLaws::stack_push))]
pub(crate) fn push<'a>(todo: &mut Vec<Todo<'a>>, inner: Todo<'a>) -> Result<(), AllocError>
    ensures ok { IsOk result → stack_of todo.new.items ≡ todo_of inner.entry ∷ stack_of todo.old.items }
    ensures kept { IsErr result → stack_of todo.new.items ≡ stack_of todo.old.items }
{
    todo.push(inner)?;
    Ok(())
}

/// Past the first statement of a block.
pub(crate) fn past<'a>(
    procs: &[TProc],
    here: Todo<'a>,
    first: &TStmt,
    rest: &'a [TStmt],
) -> Todo<'a>
    requires first { here.rest.now ≡ first.now ∷ rest.now }
    requires room { HasRoom (map view.procedure procs.now) (todo_of here) }
    ensures past { todo_of result ≡ spec.past (map view.procedure procs.now) (view.statement first.now) (view.statements rest.now) here.entry.of_loop here.entry.id here.entry.at }
    ensures room { HasRoom (map view.procedure procs.now) (todo_of result) }
{
    Todo {
        rest,
        of_loop: here.of_loop,
        id: here.id + assertions(procs, first),
        at: here.at + points(procs, first),
    }
}

fn is_a_label(statement: &TStmt) -> bool
    ensures { result ≡ is_label (view.statement statement.now) }
{
    matches!(statement, TStmt::Label(_))
}

/// What is left of a block without the labels at its front, which take no step.
fn past_labels(list: &[TStmt]) -> &[TStmt]
    ensures settled { (of_loop : Bool) (id at : ℕ) (under : List spec.Todo) (after : spec.Point) → spec.unless_ended (view.statements list.now) of_loop id at under after ≡ standing_in (view.statements result.now) (record { rest = view.statements result.now; of_loop = of_loop; id = id; at = at }) under after }
    ensures assertions { (procs : List TypedProcedure) → block_assertions procs (view.statements result.now) ≡ block_assertions procs (view.statements list.now) }
    ensures points { (procs : List TypedProcedure) → block_points procs (view.statements result.now) ≡ block_points procs (view.statements list.now) }
{
    let mut rest = list;
    while let Some((first, others)) = split(rest) {
        if !is_a_label(first) {
            return rest;
        }
        rest = others;
    }
    rest
}

/// Goes past the ends of blocks and past labels, to the first statement that is still to do.
pub(crate) fn settle(todo: &mut Vec<Todo<'_>>)
    ensures { spec.settled (stack_of todo.old.items) ≡ standing (stack_of todo.new.items) }
{
    while let Some(last) = top(todo) {
        let rest = past_labels(last.rest);
        if !rest.is_empty() {
            put_top(todo, Todo { rest, ..last });
            return;
        }
        drop_top(todo);
    }
}

/// Goes past the first statement.
pub(crate) fn pass(procs: &[TProc], todo: &mut Vec<Todo<'_>>)
    requires { AllByRecursion (HasRoom (map view.procedure procs.now)) (stack_of todo.old.items) }
    ensures { stack_of todo.new.items ≡ spec.past_first (map view.procedure procs.now) (stack_of todo.old.items) }
{
    let Some(last) = top(todo) else {
        return;
    };
    match split(last.rest) {
        Some((first, rest)) => put_top(todo, past(procs, last, first, rest)),
        None => drop_top(todo),
    }
}

/// Leaves the blocks up to the body of a loop, so many bodies more, and goes past the loop.
pub(crate) fn leave_loops(procs: &[TProc], todo: &mut Vec<Todo<'_>>, more: u32)
    requires { AllByRecursion (HasRoom (map view.procedure procs.now)) (stack_of todo.old.items) }
    ensures { stack_of todo.new.items ≡ spec.broken (map view.procedure procs.now) more (stack_of todo.old.items) }
{
    let mut more = more;
    while let Some(last) = top(todo) {
        drop_top(todo);
        if last.of_loop {
            if more == 0 {
                pass(procs, todo);
                return;
            }
            more -= 1;
        }
    }
}
