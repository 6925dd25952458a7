//! Lines are written without their ends.

ghost use Rattle.std.specs.Prelude.{◌≡◌, ◌++◌, ◌∷◌, [], map, OnOk, IsTrue};
ghost use Rattle.std.specs.List.{flat_map};
ghost use Rattle.proof_form.specs.Trees.{is_tree};
ghost use Rattle.proof_form.specs.Predicates as predicates;
ghost use Rattle.proof_form.specs.Refutations as refutations;
ghost use Rattle.proof_form.specs.Lines as spec;

use crate::lines::{NodeLine, PredLine, StepLine, TripleLine, push_decimal};
use crate::numerals::{Numeral, push_numeral};
use crate::predicates::push_predicate;
use crate::refutations::{RNode, push_refutation};
use std::alloc::AllocError;

/// Writes a space and a number.
fn push_spaced(out: &mut Vec<u8>, numeral: &Numeral) -> Result<(), AllocError>
    ensures { OnOk result (out.new.items ≡ out.old.items ++ spec.spaced numeral.now) }
{
    out.push(b' ')?;
    push_numeral(out, numeral)
}

/// Writes the line of the predicate with that number.
pub(crate) fn push_pred(out: &mut Vec<u8>, number: u64, line: &PredLine) -> Result<(), AllocError>
    requires { IsTrue (spec.is_pred (spec.pred line.now)) }
    ensures { OnOk result (out.new.items ≡ out.old.items ++ spec.pred_text number (spec.pred line.now)) }
{
    out.extend_from_slice(b"pred ")?;
    push_decimal(out, number)?;
    out.push(b' ')?;
    out.extend_from_slice(line.proc.bytes())?;
    push_predicate(out, &line.nodes)
}

/// Writes a word, three numbers and a refutation.
fn push_proved(
    out: &mut Vec<u8>,
    word: &[u8],
    first: &Numeral,
    second: &Numeral,
    third: &Numeral,
    proof: &[RNode],
) -> Result<(), AllocError>
    requires { IsTrue (is_tree refutations.refutation_parts (map refutations.plain_refutation_node proof.now)) }
    ensures { OnOk result (out.new.items ≡ out.old.items ++ (word.now ++ (spec.spaced first.now ++ (spec.spaced second.now ++ (spec.spaced third.now
        ++ refutations.refutation_text (map refutations.plain_refutation_node proof.now)))))) }
{
    out.extend_from_slice(word)?;
    push_spaced(out, first)?;
    push_spaced(out, second)?;
    push_spaced(out, third)?;
    push_refutation(out, proof)
}

/// Writes the line of a triple.
pub(crate) fn push_triple(out: &mut Vec<u8>, line: &TripleLine) -> Result<(), AllocError>
    requires { IsTrue (spec.is_triple (spec.triple line.now)) }
    ensures { OnOk result (out.new.items ≡ out.old.items ++ spec.triple_text (spec.triple line.now)) }
{
    match line {
        TripleLine::Inside {
            from,
            letter,
            to,
            proof,
        } => push_proved(out, b"triple in", from, letter, to, proof),
        TripleLine::Call {
            from,
            letter,
            to,
            proof,
        } => push_proved(out, b"triple call", from, letter, to, proof),
        TripleLine::Back {
            exit,
            before,
            letter,
            to,
            proof,
        } => {
            out.extend_from_slice(b"triple ret")?;
            push_spaced(out, exit)?;
            push_proved(out, b"", before, letter, to, proof)
        }
    }
}

/// Writes each number behind a space.
fn push_numbers(out: &mut Vec<u8>, numbers: &[Numeral]) -> Result<(), AllocError>
    ensures { OnOk result (out.new.items ≡ out.old.items ++ flat_map spec.spaced numbers.now) }
{
    for number in numbers {
        push_spaced(out, number)?;
    }
    Ok(())
}

/// Writes the line of the node with that number.
pub(crate) fn push_node(out: &mut Vec<u8>, number: u64, line: &NodeLine) -> Result<(), AllocError>
    ensures { OnOk result (out.new.items ≡ out.old.items ++ spec.node_text number (spec.node line.now)) }
{
    out.extend_from_slice(b"node ")?;
    push_decimal(out, number)?;
    push_spaced(out, &line.place)?;
    push_spaced(out, &line.entry)?;
    push_numbers(out, &line.preds)
}

/// Writes three numbers.
fn push_three(
    out: &mut Vec<u8>,
    first: &Numeral,
    second: &Numeral,
    third: &Numeral,
) -> Result<(), AllocError>
    ensures { OnOk result (out.new.items ≡ out.old.items ++ (spec.spaced first.now ++ (spec.spaced second.now ++ spec.spaced third.now))) }
{
    push_spaced(out, first)?;
    push_spaced(out, second)?;
    push_spaced(out, third)
}

/// Writes the line of a step.
pub(crate) fn push_step(out: &mut Vec<u8>, line: &StepLine) -> Result<(), AllocError>
    ensures { OnOk result (out.new.items ≡ out.old.items ++ spec.step_text line.now) }
{
    match line {
        StepLine::Step { from, letter, to } => {
            out.extend_from_slice(b"step")?;
            push_three(out, from, letter, to)
        }
        StepLine::Back {
            exit,
            call,
            letter,
            to,
        } => {
            out.extend_from_slice(b"back")?;
            push_spaced(out, exit)?;
            push_three(out, call, letter, to)
        }
    }
}
