//! The steps that lines name.

ghost use Rattle.std.specs.Prelude.{◌≡◌, ◌↔◌, IsTrue, MatchOption, slice_get};
ghost use Rattle.proof_names.specs.declared.outlines.NamedStep.{NamedStep};
ghost use Rattle.proof_names.specs.Outlines.{named_place};
ghost use Rattle.proof_names.specs.Naming as spec;
ghost use Rattle.proof_names.specs.Naming.{IsNodeIn, StepIsIn, ReturnIsIn, BackIsIn, IsInScope, NamesStep};

use crate::numbers::{index_in, short_in};
use crate::outlines::{NamedNode, NamedStep};
use letter_acts::{Act, Icfg};
use proof_form::StepLine;

/// The numbers of a step's line.
fn step_of(line: &StepLine) -> Option<NamedStep>
    ensures { result ≡ spec.step_of line.now }
{
    Some(match line {
        StepLine::Step { from, letter, to } => NamedStep::Step {
            from: index_in(from)?,
            letter: short_in(letter)?,
            to: index_in(to)?,
        },
        StepLine::Back {
            exit,
            call,
            letter,
            to,
        } => NamedStep::Back {
            exit: index_in(exit)?,
            call: index_in(call)?,
            letter: short_in(letter)?,
            to: index_in(to)?,
        },
    })
}

/// Whether the node exists and is of the procedure.
fn is_node_in(icfg: &Icfg, nodes: &[NamedNode], proc: u32, number: usize) -> bool
    ensures { IsTrue result ↔ IsNodeIn icfg.now (named_place nodes.now) proc number }
{
    match nodes.get(number) {
        Some(node) => match icfg.place_procs().get(node.place as usize) {
            Some(other) => *other == proc,
            None => false,
        },
        None => false,
    }
}

/// Whether the nodes of a step are of the procedures of its letter, an inside or call letter.
fn step_is_in(icfg: &Icfg, nodes: &[NamedNode], from: usize, letter: u32, to: usize) -> bool
    ensures { IsTrue result ↔ StepIsIn icfg.now (named_place nodes.now) from to (slice_get icfg.now.acts letter) }
{
    match icfg.act(letter) {
        Some(Act::Inside { proc, .. }) => {
            is_node_in(icfg, nodes, *proc, from) && is_node_in(icfg, nodes, *proc, to)
        }
        Some(Act::Call { caller, callee, .. }) => {
            is_node_in(icfg, nodes, *caller, from) && is_node_in(icfg, nodes, *callee, to)
        }
        _ => false,
    }
}

/// The same of a back, by the call letter of its return.
fn return_is_in(
    icfg: &Icfg,
    nodes: &[NamedNode],
    exit: usize,
    before: usize,
    to: usize,
    call: u32,
) -> bool
    ensures { IsTrue result ↔ ReturnIsIn icfg.now (named_place nodes.now) exit before to (slice_get icfg.now.acts call) }
{
    match icfg.act(call) {
        Some(Act::Call { caller, callee, .. }) => {
            is_node_in(icfg, nodes, *callee, exit)
                && is_node_in(icfg, nodes, *caller, before)
                && is_node_in(icfg, nodes, *caller, to)
        }
        _ => false,
    }
}

/// The same of a back, by its return letter.
fn back_is_in(
    icfg: &Icfg,
    nodes: &[NamedNode],
    exit: usize,
    before: usize,
    letter: u32,
    to: usize,
) -> bool
    ensures { IsTrue result ↔ BackIsIn icfg.now (named_place nodes.now) exit before to (slice_get icfg.now.acts letter) }
{
    match icfg.act(letter) {
        Some(Act::Back { call, .. }) => return_is_in(icfg, nodes, exit, before, to, *call),
        _ => false,
    }
}

/// Whether the nodes exist and are of the procedures of the letter, which is of the step's kind.
fn is_in_scope(icfg: &Icfg, nodes: &[NamedNode], step: NamedStep) -> bool
    ensures { IsTrue result ↔ IsInScope icfg.now (named_place nodes.now) step }
{
    match step {
        NamedStep::Step { from, letter, to } => step_is_in(icfg, nodes, from, letter, to),
        NamedStep::Back {
            exit,
            call,
            letter,
            to,
        } => back_is_in(icfg, nodes, exit, call, letter, to),
    }
}

/// The step or back that a line names.
pub(crate) fn step_named(icfg: &Icfg, nodes: &[NamedNode], line: &StepLine) -> Option<NamedStep>
    ensures { MatchOption result
        ((s : NamedStep) → NamesStep icfg.now (named_place nodes.now) line.now s → ⊥)
        (NamesStep icfg.now (named_place nodes.now) line.now) }
{
    let step = step_of(line)?;
    if is_in_scope(icfg, nodes, step) {
        Some(step)
    } else {
        None
    }
}
