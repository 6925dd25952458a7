//! The places to which the labels of a procedure lead.

ghost use Rattle.std.specs.Prelude.{◌≡◌, ◌<◌, ◌+◌, ◌^◌, ◌++◌, map, nat_le, slice_get, if◌then◌else◌, IfOk, OnOk};
ghost use Rattle.std.specs.Option.{option_map, option_and_then};
ghost use Rattle.typed_tree.specs.TypedView as view;
ghost use Rattle.typed_tree.specs.TypingRules.Counts as count;
ghost use Rattle.typed_tree.specs.TypingRules.TypedParts.{typed_program};
ghost use Rattle.icfg_lower.specs.LabelPlaces.Labels.{label_numbers};
ghost use Rattle.icfg_lower.specs.LabelPlaces.Ties.Ways.{places_in, places_of};

use crate::label_places::ends::before_last_labels;
use crate::program_layout::Layout;
use boogie_run::boogie_points::counts::{block_points, points};
use boogie_run::boogie_points::procedure_at;
use std::alloc::{AllocError, Global};
use typed_tree::{TProc, TStmt};

/// The first place of what is left of a block whose first so many statements are done, or else the one behind the block.
fn next_place(done: usize, before_last: usize, next: u32, after: u32) -> u32
    ensures { result ≡ (if nat_le before_last done then after else next) }
{
    if before_last <= done { after } else { next }
}

/// Adds the place to which each label of a block leads, with the first place of the block and the one behind it. It recurses as deep
/// as statements are nested, as dropping one does.
#[cycle(labels)]
fn add_labels(
    procs: &[TProc],
    block: &[TStmt],
    at: u32,
    after: u32,
    found: &mut Vec<u32>,
) -> Result<(), AllocError>
    requires { at + count.block_points (map view.procedure procs.now) (view.statements block.now) < 2 ^ 32 }
    ensures { OnOk result (found.new.items ≡ found.old.items ++ places_of (map view.procedure procs.now) (view.statements block.now) at after) }
{
    let before_last = before_last_labels(block);
    let mut place = at;
    for number in 0..block.len() {
        let first = &block[number];
        let behind = place + points(procs, first);
        let next = next_place(number + 1, before_last, behind, after);
        add_inner(procs, first, place, next, found)?;
        place = behind;
    }
    Ok(())
}

/// Adds those of a statement, with its first place and the one behind it.
#[cycle(labels)]
fn add_inner(
    procs: &[TProc],
    first: &TStmt,
    at: u32,
    next: u32,
    found: &mut Vec<u32>,
) -> Result<(), AllocError>
    requires { at + count.points (map view.procedure procs.now) (view.statement first.now) < 2 ^ 32 }
    ensures { OnOk result (found.new.items ≡ found.old.items ++ places_in (map view.procedure procs.now) (view.statement first.now) at next) }
{
    match first {
        TStmt::Label(_) => Ok(found.push(next)?),
        TStmt::If(_, _, then, otherwise) => {
            add_labels(procs, then, at + 1, next, found)?;
            let second = at + 1 + block_points(procs, then);
            add_labels(procs, otherwise, second, next, found)
        }
        TStmt::While(_, _, conditions, body) => {
            let inner = at + conditions.len() as u32 + 1;
            add_labels(procs, body, inner, at, found)
        }
        TStmt::Assert(_, _) | TStmt::Assume(_, _) | TStmt::Havoc(_, _) => Ok(()),
        TStmt::Assign(_, _, _) | TStmt::Call(_, _, _, _) => Ok(()),
        TStmt::Break(_, _) | TStmt::Goto(_, _) | TStmt::Return(_) => Ok(()),
    }
}

/// The statements of the body of a procedure.
fn statements_of(procs: &[TProc], proc: u32) -> Option<&[TStmt]>
    ensures { option_map (λ b. view.statements b.now) result ≡ option_and_then (λ q. q.body) (slice_get (map view.procedure procs.now) proc) }
{
    let listed = procedure_at(procs, proc)?;
    match &listed.body {
        Some(statements) => Some(statements),
        None => None,
    }
}

/// The place to which each label of a procedure leads, in the order of the text. Where there is no body there are none.
pub fn labels_of(alloc: Global, layout: &Layout<'_>, proc: u32) -> Result<Vec<u32>, AllocError>
    ensures { IfOk result (λ found. found.items ≡ label_numbers (typed_program layout.now) proc) }
{
    let mut found = Vec::new(alloc);
    let procs = layout.program().procs();
    let Some(statements) = statements_of(procs, proc) else {
        return Ok(found);
    };
    let Some(marks) = layout.marks(proc) else {
        return Ok(found);
    };
    add_labels(procs, statements, marks.body, marks.exit, &mut found)?;
    Ok(found)
}
