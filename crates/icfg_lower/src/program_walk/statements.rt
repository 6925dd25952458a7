//! Statements, in the order of the text.

ghost use Rattle.std.specs.Prelude.{◌≡◌, ◌+◌, ◌<◌, ◌^◌, ℕ, List, [], ◌∷◌, map, length, false, if◌then◌else◌, IsSome, IfOk, OnOk, slice_get};
ghost use Rattle.std.specs.List.{AllByRecursion};
ghost use Rattle.boogie_tree.specs.declared.span.Span.{Span};
ghost use Rattle.typed_tree.specs.TypedTree as tree;
ghost use Rattle.typed_tree.specs.TypedView as view;
ghost use Rattle.typed_tree.specs.TypingRules.Counts.{plain_invariants};
ghost use Rattle.typed_tree.specs.TypingRules.TypedParts.{typed_program};
ghost use Rattle.lowered_graph.specs.LoweredSteps.ProgramFrames.{frame_at, column_number};
ghost use Rattle.lowered_graph.specs.LoweredParts.Lists.{skip_arcs};
ghost use Rattle.lowered_graph.specs.LoweredParts.Items.{only_labels, ways_arcs};
ghost use Rattle.lowered_graph.specs.LoweredParts.Parts.{Leads};
ghost use Rattle.icfg_lower.specs.ProgramLayout.Layouts.{StandsIn};
ghost use Rattle.icfg_lower.specs.PlaceEdges.Forms.{InvariantsFit};
ghost use Rattle.icfg_lower.specs.PlaceEdges.WalkedParts.{walked};
ghost use Rattle.icfg_lower.specs.ProgramWalk.Ties.Bounds.{HasNumbers};
ghost use Rattle.icfg_lower.specs.ProgramWalk.Ties.Walks.{behind_loop, label_or_exit, InvariantsAdd, PlainlyAdds, StatementAdds};

use crate::label_places::before_last_labels;
use crate::place_edges::{Here, Lowering};
use crate::program_walk::items::check;
use boogie_run::boogie_points::counts::{assertions, block_assertions, block_points, points};
use boogie_tree::Column;
use std::alloc::AllocError;
use typed_tree::{TInv, TProc, TStmt};

/// What the statements of a body share: its procedure, the place behind them, and where its labels lead.
#[derive(Drop)]
pub(crate) struct Body {
    pub(crate) proc: u32,
    pub(crate) exit: u32,
    pub(crate) labels: Vec<u32>,
}

/// The numbers of the next place and assertion.
#[derive(Clone, Copy)]
pub(crate) struct Next {
    pub(crate) place: u32,
    pub(crate) assertion: u32,
}

impl Next {
    ghost use Rattle.std.specs.Prelude.{◌≡◌, ◌+◌, ◌<◌, ◌^◌, map};
    ghost use Rattle.typed_tree.specs.TypedView as view;
    ghost use Rattle.typed_tree.specs.TypingRules.Counts as count;

    /// Behind a statement.
    pub(crate) fn behind(self, procs: &[TProc], done: &TStmt) -> Next
        requires places { self.place + count.points (map view.procedure procs.now) (view.statement done.now) < 2 ^ 32 }
        requires assertions { self.assertion + count.assertions (map view.procedure procs.now) (view.statement done.now) < 2 ^ 32 }
        ensures place { result.place ≡ self.place + count.points (map view.procedure procs.now) (view.statement done.now) }
        ensures assertion { result.assertion ≡ self.assertion + count.assertions (map view.procedure procs.now) (view.statement done.now) }
    {
        Next {
            place: self.place + points(procs, done),
            assertion: self.assertion + assertions(procs, done),
        }
    }

    /// Behind the statements of a block.
    pub(crate) fn behind_block(self, procs: &[TProc], done: &[TStmt]) -> Next
        requires places { self.place + count.block_points (map view.procedure procs.now) (view.statements done.now) < 2 ^ 32 }
        requires assertions { self.assertion + count.block_assertions (map view.procedure procs.now) (view.statements done.now) < 2 ^ 32 }
        ensures place { result.place ≡ self.place + count.block_points (map view.procedure procs.now) (view.statements done.now) }
        ensures assertion { result.assertion ≡ self.assertion + count.block_assertions (map view.procedure procs.now) (view.statements done.now) }
    {
        Next {
            place: self.place + block_points(procs, done),
            assertion: self.assertion + block_assertions(procs, done),
        }
    }
}

/// One number or the other.
pub(crate) fn chosen(first: bool, one: u32, other: u32) -> u32
    ensures { result ≡ (if first then one else other) }
{
    if first { one } else { other }
}

/// One variable gets any value.
fn guess(lowering: &mut Lowering<'_>, here: Here, column: Column, to: u32) -> Result<(), AllocError>
    requires { StandsIn (frame_at (typed_program lowering.old.parts) here.proc) column }
    ensures program { OnOk result (typed_program lowering.new.parts ≡ typed_program lowering.old.parts) }
    ensures led { OnOk result (Leads (skip_arcs here.proc here.place (column_number (frame_at (typed_program lowering.old.parts) here.proc) column ∷ []) to) [] false false (walked lowering.old) (walked lowering.new)) }
{
    let written = lowering.layout().column(column);
    lowering.skip(here, &[written], to)
}

/// One variable after another gets any value.
pub(crate) fn havoc(
    lowering: &mut Lowering<'_>,
    here: Here,
    columns: &[Column],
    after: u32,
) -> Result<(), AllocError>
    requires targets { AllByRecursion (StandsIn (frame_at (typed_program lowering.old.parts) here.proc)) columns.now }
    requires places { here.place + length columns.now < 2 ^ 32 }
    ensures program { OnOk result (typed_program lowering.new.parts ≡ typed_program lowering.old.parts) }
    ensures added { OnOk result ((span : Span) (id : ℕ) → PlainlyAdds (typed_program lowering.old.parts) here.proc after (tree.Havoc span columns.now) id here.place (walked lowering.old) (walked lowering.new)) }
{
    for number in 0..columns.len() {
        let at = Here {
            proc: here.proc,
            place: here.place + number as u32,
        };
        let to = chosen(number + 1 < columns.len(), at.place + 1, after);
        let column = columns[number];
        guess(lowering, at, column, to)?;
    }
    Ok(())
}

/// The number of the next assertion behind a condition.
pub(crate) fn after_check(condition: &TInv, number: u32) -> u32
    requires { condition.now.free ≡ false → number + 1 < 2 ^ 32 }
    ensures { result ≡ (if condition.now.free then number else number + 1) }
{
    if condition.free { number } else { number + 1 }
}

/// The invariants of a loop, one after another, from this assertion on. It answers the number of the next assertion.
pub(crate) fn invariants(
    lowering: &mut Lowering<'_>,
    here: Here,
    conditions: &[TInv],
    first: u32,
) -> Result<u32, AllocError>
    requires procedure { IsSome (slice_get (typed_program lowering.old.parts).procs here.proc) }
    requires numbers { HasNumbers (typed_program lowering.old.parts) first here.place (plain_invariants (map view.invariant conditions.now)) (length conditions.now) }
    requires fit { InvariantsFit (typed_program lowering.old.parts) (map view.invariant conditions.now) }
    ensures program { OnOk result (typed_program lowering.new.parts ≡ typed_program lowering.old.parts) }
    ensures number { IfOk result (λ n. n ≡ first + plain_invariants (map view.invariant conditions.now)) }
    ensures added { OnOk result (InvariantsAdd (typed_program lowering.old.parts) here.proc (map view.invariant conditions.now) first here.place (walked lowering.old) (walked lowering.new)) }
{
    let mut number = first;
    for done in 0..conditions.len() {
        let at = Here {
            proc: here.proc,
            place: here.place + done as u32,
        };
        let condition = &conditions[done];
        check(lowering, at, condition, number, at.place + 1)?;
        number = after_check(condition, number);
    }
    Ok(number)
}

/// The place behind a loop: the innermost one, which is the last of the list, or so many further out.
pub(crate) fn behind_loop(loops: &[u32], exit: u32, levels: u32) -> u32
    ensures { result ≡ behind_loop loops.now exit levels }
{
    let count = loops.len();
    if (levels as usize) < count {
        loops[count - 1 - levels as usize]
    } else {
        exit
    }
}

/// The place of a label, or else the exit.
fn label_or_exit(labels: &[u32], exit: u32, label: u32) -> u32
    ensures { result ≡ label_or_exit labels.now exit label }
{
    match labels.get(label as usize) {
        Some(place) => *place,
        None => exit,
    }
}

/// An edge to each of these labels.
fn ways(
    lowering: &mut Lowering<'_>,
    here: Here,
    body: &Body,
    labels: &[u32],
) -> Result<(), AllocError>
    ensures program { OnOk result (typed_program lowering.new.parts ≡ typed_program lowering.old.parts) }
    ensures led { OnOk result (Leads (ways_arcs here.proc here.place (map (label_or_exit body.now.labels.items body.now.exit) labels.now)) [] false false (walked lowering.old) (walked lowering.new)) }
{
    for label in labels {
        let to = label_or_exit(&body.labels, body.exit, *label);
        lowering.skip(here, &[], to)?;
    }
    Ok(())
}

/// To each of the labels, or to the exit where there are none.
pub(crate) fn jump(
    lowering: &mut Lowering<'_>,
    here: Here,
    body: &Body,
    labels: &[u32],
) -> Result<(), AllocError>
    requires { here.proc ≡ body.now.proc }
    ensures program { OnOk result (typed_program lowering.new.parts ≡ typed_program lowering.old.parts) }
    ensures added { OnOk result ((span : Span) (id after : ℕ) (loops : List ℕ) →
        StatementAdds (typed_program lowering.old.parts) here.proc body.now.exit body.now.labels.items loops after (tree.Goto span labels.now) id here.place (walked lowering.old) (walked lowering.new)) }
{
    if labels.is_empty() {
        return lowering.skip(here, &[], body.exit);
    }
    ways(lowering, here, body, labels)
}

/// The first place of a block, or else the one behind it, where only labels stand in the block.
pub(crate) fn first_place(list: &[TStmt], first: u32, after: u32) -> u32
    ensures { result ≡ (if only_labels (view.statements list.now) then after else first) }
{
    if before_last_labels(list) == 0 {
        after
    } else {
        first
    }
}
