//! Whether kinds and scopes of a triple agree with its letter. None of these calls takes memory.

ghost use Rattle.std.specs.Prelude.{◌↔◌, IsTrue, slice_get};
ghost use Rattle.std.specs.List.{AllByRecursion};
ghost use Rattle.letter_acts.specs.Invariant.{alphabet_of};
ghost use Rattle.triple_rows.specs.Predicates.{IsOver, formula_of};
ghost use Rattle.triple_rows.specs.Reading.{NodeIsOver};
ghost use Rattle.triple_rows.specs.Triples.{IsScoped, InsideAgrees, CallAgrees, ReturnAgrees, BackAgrees, Agrees};

use crate::predicates::{Pred, PredNode};
use crate::triples::{Scoped, Triple};
use letter_acts::{Act, Icfg, is_within};

/// Whether the letter has the triple's kind, and the predicates are of its procedures and name columns of their frames alone.
pub fn agrees(icfg: &Icfg, triple: &Triple) -> bool
    ensures { IsTrue result ↔ Agrees (alphabet_of icfg.now) triple.now }
{
    match triple {
        Triple::Inside { from, letter, to } => inside_agrees(icfg, *letter, from, to),
        Triple::Call { from, letter, to } => call_agrees(icfg, *letter, from, to),
        Triple::Back {
            exit,
            before,
            letter,
            to,
        } => back_agrees(icfg, *letter, exit, before, to),
    }
}

fn inside_agrees(icfg: &Icfg, letter: u32, from: &Scoped, to: &Scoped) -> bool
    ensures { IsTrue result ↔ InsideAgrees (alphabet_of icfg.now) (slice_get icfg.now.acts letter) from.now to.now }
{
    match icfg.act(letter) {
        Some(Act::Inside { proc, .. }) => {
            is_scoped(icfg, *proc, from) && is_scoped(icfg, *proc, to)
        }
        _ => false,
    }
}

fn call_agrees(icfg: &Icfg, letter: u32, from: &Scoped, to: &Scoped) -> bool
    ensures { IsTrue result ↔ CallAgrees (alphabet_of icfg.now) (slice_get icfg.now.acts letter) from.now to.now }
{
    match icfg.act(letter) {
        Some(Act::Call { caller, callee, .. }) => {
            is_scoped(icfg, *caller, from) && is_scoped(icfg, *callee, to)
        }
        _ => false,
    }
}

fn back_agrees(icfg: &Icfg, letter: u32, exit: &Scoped, before: &Scoped, to: &Scoped) -> bool
    ensures { IsTrue result ↔ BackAgrees (alphabet_of icfg.now) (slice_get icfg.now.acts letter) exit.now before.now to.now }
{
    match icfg.act(letter) {
        Some(Act::Back { call, .. }) => return_agrees(icfg, *call, exit, before, to),
        _ => false,
    }
}

fn return_agrees(icfg: &Icfg, call: u32, exit: &Scoped, before: &Scoped, to: &Scoped) -> bool
    ensures { IsTrue result ↔ ReturnAgrees (alphabet_of icfg.now) (slice_get icfg.now.acts call) exit.now before.now to.now }
{
    match icfg.act(call) {
        Some(Act::Call { caller, callee, .. }) => {
            is_scoped(icfg, *callee, exit)
                && is_scoped(icfg, *caller, before)
                && is_scoped(icfg, *caller, to)
        }
        _ => false,
    }
}

/// Whether the predicate is of this procedure, which exists, and names columns of its frame alone.
fn is_scoped(icfg: &Icfg, proc: u32, scoped: &Scoped) -> bool
    ensures { IsTrue result ↔ IsScoped (alphabet_of icfg.now) proc scoped.now }
{
    match icfg.frames().get(proc as usize) {
        Some(frame) => scoped.proc == proc && is_over(&scoped.pred, frame.columns.len()),
        None => false,
    }
}

/// Whether the predicate's atoms name columns below the number alone.
pub fn is_over(pred: &Pred, columns: usize) -> bool
    ensures { IsTrue result ↔ IsOver columns (formula_of pred.now) }
{
    nodes_are_over(pred.nodes(), columns)
}

fn nodes_are_over(nodes: &[PredNode], columns: usize) -> bool
    ensures { IsTrue result ↔ AllByRecursion (NodeIsOver columns) nodes.now }
{
    nodes.iter().all(|node| node_is_over(node, columns))
}

fn node_is_over(node: &PredNode, columns: usize) -> bool
    ensures { IsTrue result ↔ NodeIsOver columns node.now }
{
    match node {
        PredNode::Atom(row) => is_within(row, columns),
        PredNode::Truth(_) | PredNode::And(_) | PredNode::Or(_) => true,
    }
}
