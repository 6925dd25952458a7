//! The label to which a goto leads.

ghost use Rattle.std.specs.Prelude.{◌≡◌, ◌∷◌, ◌+◌, ◌<◌, ◌^◌, true, false, map, length, IfOk};
ghost use Rattle.typed_tree.specs.TypedView as view;
ghost use Rattle.typed_tree.specs.TypingRules.Counts as count;
ghost use Rattle.boogie_run.specs.BoogiePoints.Points as spec;
ghost use Rattle.boogie_run.specs.BoogiePoints.Ties.Seeking.{IsFound};
ghost use Rattle.boogie_run.specs.BoogiePoints.View.{todo_of, stack_of};

use crate::boogie_points::blocks::{Todo, drop_top, past, push};
use crate::boogie_points::counts::{
    assertions, block_assertions, block_points, plain_count, points,
};
use std::alloc::AllocError;
use typed_tree::{TInv, TProc, TStmt};

/// Whether a block is the body of a loop, and the numbers of its next assertion and place.
#[derive(Clone, Copy)]
pub(crate) struct Marks {
    pub(crate) of_loop: bool,
    pub(crate) id: u32,
    pub(crate) at: u32,
}

/// A block with these marks.
pub(crate) fn block_at<'a>(rest: &'a [TStmt], marks: Marks) -> Todo<'a>
    ensures { todo_of result ≡ record { rest = view.statements rest.now; of_loop = marks.of_loop; id = marks.id; at = marks.at } }
{
    let Marks { of_loop, id, at } = marks;
    Todo {
        rest,
        of_loop,
        id,
        at,
    }
}

/// Where the statements of an `if` begin for a condition that is false, with the numbers at the `if`.
pub(crate) fn else_marks(procs: &[TProc], id: u32, at: u32, then: &[TStmt]) -> Marks
    requires assertions { id + count.block_assertions (map view.procedure procs.now) (view.statements then.now) < 2 ^ 32 }
    requires points { at + (1 + count.block_points (map view.procedure procs.now) (view.statements then.now)) < 2 ^ 32 }
    ensures { result ≡ record { of_loop = false; id = id + count.block_assertions (map view.procedure procs.now) (view.statements then.now); at = at + 1 + count.block_points (map view.procedure procs.now) (view.statements then.now) } }
{
    Marks {
        of_loop: false,
        id: id + block_assertions(procs, then),
        at: at + 1 + block_points(procs, then),
    }
}

/// Where the statements of a loop begin, with the numbers at the loop.
pub(crate) fn loop_marks(id: u32, at: u32, conditions: &[TInv]) -> Marks
    requires assertions { id + count.plain_invariants (map view.invariant conditions.now) < 2 ^ 32 }
    requires points { at + (length conditions.now + 1) < 2 ^ 32 }
    ensures { result ≡ record { of_loop = true; id = id + count.plain_invariants (map view.invariant conditions.now); at = at + length conditions.now + 1 } }
{
    Marks {
        of_loop: true,
        id: id + plain_count(conditions),
        at: at + conditions.len() as u32 + 1,
    }
}

/// Looks for a label in a block, with the blocks under it. Where it is found the blocks are what is still to do after it, and else they are as before.
#[cycle(seeking)]
pub(crate) fn seek<'a>(
    procs: &[TProc],
    todo: &mut Vec<Todo<'a>>,
    block: &'a [TStmt],
    marks: Marks,
    label: u32,
) -> Result<bool, AllocError>
    requires assertions { marks.id + count.block_assertions (map view.procedure procs.now) (view.statements block.now) < 2 ^ 32 }
    requires points { marks.at + count.block_points (map view.procedure procs.now) (view.statements block.now) < 2 ^ 32 }
    ensures { IfOk result (λ b. IsFound b (spec.found_block (map view.procedure procs.now) label (view.statements block.now) marks.of_loop marks.id marks.at (stack_of todo.old.items)) (stack_of todo.old.items) (stack_of todo.new.items)) }
{
    let mut here = marks;
    for number in 0..block.len() {
        let first = &block[number];
        if seek_in(
            procs,
            todo,
            first,
            &block[number + 1..],
            &block[number..],
            here,
            label,
        )? {
            return Ok(true);
        }
        here = Marks {
            of_loop: here.of_loop,
            id: here.id + assertions(procs, first),
            at: here.at + points(procs, first),
        };
    }
    Ok(false)
}

/// Looks for a label in the first statement of a block.
#[cycle(seeking)]
fn seek_in<'a>(
    procs: &[TProc],
    todo: &mut Vec<Todo<'a>>,
    first: &'a TStmt,
    rest: &'a [TStmt],
    whole: &'a [TStmt],
    marks: Marks,
    label: u32,
) -> Result<bool, AllocError>
    requires whole { whole.now ≡ first.now ∷ rest.now }
    requires assertions { marks.id + count.block_assertions (map view.procedure procs.now) (view.statements whole.now) < 2 ^ 32 }
    requires points { marks.at + count.block_points (map view.procedure procs.now) (view.statements whole.now) < 2 ^ 32 }
    ensures { IfOk result (λ b. IsFound b (spec.found_in (map view.procedure procs.now) label (view.statement first.now) (view.statements rest.now) marks.of_loop marks.id marks.at (stack_of todo.old.items)) (stack_of todo.old.items) (stack_of todo.new.items)) }
{
    let Marks { of_loop, id, at } = marks;
    match first {
        TStmt::Label(number) => {
            if *number != label {
                return Ok(false);
            }
            push(
                todo,
                Todo {
                    rest,
                    of_loop,
                    id,
                    at,
                },
            )?;
            Ok(true)
        }
        TStmt::If(_, _, then, otherwise) => {
            let here = Todo {
                rest: whole,
                of_loop,
                id,
                at,
            };
            let after = past(procs, here, first, rest);
            let inner = Marks {
                of_loop: false,
                id,
                at: at + 1,
            };
            if seek_under(procs, todo, after, then, inner, label)? {
                return Ok(true);
            }
            let inner = else_marks(procs, id, at, then);
            seek_under(procs, todo, after, otherwise, inner, label)
        }
        TStmt::While(_, _, conditions, body) => {
            let here = Todo {
                rest: whole,
                of_loop,
                id,
                at,
            };
            let inner = loop_marks(id, at, conditions);
            seek_under(procs, todo, here, body, inner, label)
        }
        _ => Ok(false),
    }
}

/// Looks for a label in the statements of a block, over one more block.
#[cycle(seeking)]
fn seek_under<'a>(
    procs: &[TProc],
    todo: &mut Vec<Todo<'a>>,
    under: Todo<'a>,
    block: &'a [TStmt],
    marks: Marks,
    label: u32,
) -> Result<bool, AllocError>
    requires assertions { marks.id + count.block_assertions (map view.procedure procs.now) (view.statements block.now) < 2 ^ 32 }
    requires points { marks.at + count.block_points (map view.procedure procs.now) (view.statements block.now) < 2 ^ 32 }
    ensures { IfOk result (λ b. IsFound b (spec.found_block (map view.procedure procs.now) label (view.statements block.now) marks.of_loop marks.id marks.at (todo_of under.entry ∷ stack_of todo.old.items)) (stack_of todo.old.items) (stack_of todo.new.items)) }
{
    push(todo, under)?;
    let found = seek(procs, todo, block, marks, label)?;
    if !found {
        drop_top(todo);
    }
    Ok(found)
}
