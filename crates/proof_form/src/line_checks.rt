//! Which lines are in the grammar.

ghost use Rattle.std.specs.Prelude.{◌≡◌, ◌&&◌, map, IfOk};
ghost use Rattle.std.specs.List.{list_all};
ghost use Rattle.proof_form.specs.Lines as spec;
ghost use Rattle.proof_form.specs.Numerals as numerals;
ghost use Rattle.proof_form.specs.Refutations as refutations;

use crate::lines::{NodeLine, PredLine, StepLine, TripleLine};
use crate::numerals::{Numeral, is_below, is_numeral, is_zero};
use crate::predicates::is_predicate;
use crate::refutations::{RNode, is_refutation};
use boogie_tree::names::is_spelled;
use std::alloc::{AllocError, Global};

/// Whether the line of a predicate is in the grammar.
pub(crate) fn is_pred(alloc: Global, line: &PredLine) -> Result<bool, AllocError>
    ensures { IfOk result (λ r. r ≡ spec.is_pred (spec.pred line.now)) }
{
    if !is_spelled(line.proc.bytes()) {
        return Ok(false);
    }
    is_predicate(alloc, &line.nodes)
}

/// Whether three numerals and a refutation are in the grammar.
fn are_proved(first: &Numeral, second: &Numeral, third: &Numeral, proof: &[RNode]) -> bool
    ensures { result ≡ (numerals.is_numeral first.now && (numerals.is_numeral second.now && (numerals.is_numeral third.now
        && refutations.is_refutation (map refutations.plain_refutation_node proof.now)))) }
{
    is_numeral(first) && is_numeral(second) && is_numeral(third) && is_refutation(proof)
}

/// Whether the line of a triple is in the grammar.
pub(crate) fn is_triple(line: &TripleLine) -> bool
    ensures { result ≡ spec.is_triple (spec.triple line.now) }
{
    match line {
        TripleLine::Inside {
            from,
            letter,
            to,
            proof,
        } => are_proved(from, letter, to, proof),
        TripleLine::Call {
            from,
            letter,
            to,
            proof,
        } => are_proved(from, letter, to, proof),
        TripleLine::Back {
            exit,
            before,
            letter,
            to,
            proof,
        } => is_numeral(exit) && are_proved(before, letter, to, proof),
    }
}

/// Whether the numeral is in the grammar and not that of 0.
fn is_named(numeral: &Numeral) -> bool
    ensures { result ≡ spec.is_named numeral.now }
{
    is_numeral(numeral) && !is_zero(numeral)
}

/// Whether each numeral is in the grammar and not that of 0.
fn are_named(numerals: &[Numeral]) -> bool
    ensures { result ≡ list_all spec.is_named numerals.now }
{
    numerals.iter().all(|numeral| is_named(numeral))
}

/// Whether each is below the next.
fn ascend(numerals: &[Numeral]) -> bool
    ensures { result ≡ spec.ascend numerals.now }
{
    for i in 1..numerals.len() {
        if !is_below(&numerals[i - 1], &numerals[i]) {
            return false;
        }
    }
    true
}

/// Whether the line of a node is in the grammar.
pub(crate) fn is_node(line: &NodeLine) -> bool
    ensures { result ≡ spec.is_node (spec.node line.now) }
{
    is_numeral(&line.place)
        && is_numeral(&line.entry)
        && are_named(&line.preds)
        && ascend(&line.preds)
}

/// Whether three numerals are in the grammar.
fn are_numerals(first: &Numeral, second: &Numeral, third: &Numeral) -> bool
    ensures { result ≡ (numerals.is_numeral first.now && (numerals.is_numeral second.now && numerals.is_numeral third.now)) }
{
    is_numeral(first) && is_numeral(second) && is_numeral(third)
}

/// Whether the line of a step is in the grammar.
pub(crate) fn is_step(line: &StepLine) -> bool
    ensures { result ≡ spec.is_step line.now }
{
    match line {
        StepLine::Step { from, letter, to } => are_numerals(from, letter, to),
        StepLine::Back {
            exit,
            call,
            letter,
            to,
        } => is_numeral(exit) && are_numerals(call, letter, to),
    }
}
