//! The lines of an annotation, without their ends.

ghost use Rattle.std.specs.Prelude.{◌≡◌, ◌++◌, ◌∷◌, [], map, codes, OnOk, IfOk, IsTrue};
ghost use Rattle.std.specs.List.{list_all, flat_map};
ghost use Rattle.std.specs.Fmt.{decimal};
ghost use Rattle.proof_form.specs.Outcomes.{Gives};
ghost use Rattle.proof_form.specs.Lines as spec;
ghost use Rattle.proof_form.specs.LineReading as reading;
ghost use Rattle.proof_form.specs.Reading as bytes;

use crate::numerals::{Numeral, is_below, is_numeral, is_zero, push_numeral};
use crate::predicates::{PNode, is_predicate, predicate_of, push_predicate};
use crate::reading::{after, more_follow, number_at, text_at, word_at};
use crate::refusal::Refusal;
use crate::refutations::{RNode, is_refutation, push_refutation, refutation_of};
use boogie_tree::Text;
use std::alloc::{AllocError, Global};

/// A predicate over the columns of a procedure.
#[derive(Drop)]
pub struct PredLine {
    /// The procedure's name.
    pub proc: Text,
    /// The predicate, as a prefix list.
    pub nodes: Vec<PNode>,
}

/// A triple with its refutation, as a prefix list. Predicates and letters are numbers.
#[derive(Drop)]
pub enum TripleLine {
    /// Of a letter inside a procedure.
    Inside {
        from: Numeral,
        letter: Numeral,
        to: Numeral,
        proof: Vec<RNode>,
    },
    /// Of a call letter.
    Call {
        from: Numeral,
        letter: Numeral,
        to: Numeral,
        proof: Vec<RNode>,
    },
    /// Of a return letter: at the callee's exit, and at the caller before the call.
    Back {
        exit: Numeral,
        before: Numeral,
        letter: Numeral,
        to: Numeral,
        proof: Vec<RNode>,
    },
}

/// A node: its place, its entry node and its predicates, by number.
#[derive(Drop)]
pub struct NodeLine {
    pub place: Numeral,
    pub entry: Numeral,
    pub preds: Vec<Numeral>,
}

/// A step between nodes by a letter, all by number.
#[derive(Drop)]
pub enum StepLine {
    /// By a letter inside a procedure or a call letter.
    Step {
        from: Numeral,
        letter: Numeral,
        to: Numeral,
    },
    /// By a return letter, from the callee's exit and the caller's node before the call.
    Back {
        exit: Numeral,
        call: Numeral,
        letter: Numeral,
        to: Numeral,
    },
}

/// Writes a number in its one way.
pub(crate) fn push_decimal(out: &mut Vec<u8>, number: u64) -> Result<(), AllocError>
    ensures { OnOk result (out.new.items ≡ out.old.items ++ decimal number) }
{
    let text = number.to_string(*out.allocator())?;
    out.extend_from_slice(text.as_bytes())
}

/// What stands before the name of a procedure.
fn pred_front(alloc: Global, number: u64) -> Result<Vec<u8>, AllocError>
    ensures { IfOk result (λ v. v.items ≡ reading.pred_front number) }
{
    let mut front = Vec::from_slice(alloc, b"pred ")?;
    push_decimal(&mut front, number)?;
    front.push(b' ')?;
    Ok(front)
}

/// What stands before the place of a node.
fn node_front(alloc: Global, number: u64) -> Result<Vec<u8>, AllocError>
    ensures { IfOk result (λ v. v.items ≡ reading.node_front number) }
{
    let mut front = Vec::from_slice(alloc, b"node ")?;
    push_decimal(&mut front, number)?;
    Ok(front)
}

/// What stands behind the number of the predicate with that number.
fn behind_pred(alloc: Global, number: u64, line: &[u8]) -> Result<&[u8], Refusal>
    ensures { Gives (λ x. x.now) result (bytes.after (reading.pred_front number) line.now) }
{
    let front = pred_front(alloc, number)?;
    after(line, &front)
}

/// What stands behind the number of the node with that number.
fn behind_node(alloc: Global, number: u64, line: &[u8]) -> Result<&[u8], Refusal>
    ensures { Gives (λ x. x.now) result (bytes.after (reading.node_front number) line.now) }
{
    let front = node_front(alloc, number)?;
    after(line, &front)
}

/// Reads a space and a number.
#[tactic(auto, unfolding(crate::specs::LineReading::next_at))]
fn next_at(alloc: Global, bytes: &[u8]) -> Result<(Numeral, &[u8]), Refusal>
    ensures { Gives (λ x. (x.0, x.1.now)) result (reading.next_at bytes.now) }
{
    let rest = after(bytes, b" ")?;
    Ok(number_at(alloc, rest)?)
}

/// Reads the line of the predicate with that number.
#[tactic(auto, unfolding(crate::specs::LineReading::pred_of))]
pub(crate) fn pred_of(alloc: Global, number: u64, line: &[u8]) -> Result<PredLine, Refusal>
    ensures { Gives spec.pred result (reading.pred_of number line.now) }
{
    let rest = behind_pred(alloc, number, line)?;
    let (proc, rest) = word_at(alloc, rest)?;
    let nodes = predicate_of(alloc, rest)?;
    Ok(PredLine { proc, nodes })
}

/// Reads three numbers.
#[tactic(auto, unfolding(crate::specs::LineReading::three_at))]
fn three_at(alloc: Global, bytes: &[u8]) -> Result<((Numeral, Numeral, Numeral), &[u8]), Refusal>
    ensures { Gives (λ x. (x.0, x.1.now)) result (reading.three_at bytes.now) }
{
    let (first, rest) = next_at(alloc, bytes)?;
    let (second, rest) = next_at(alloc, rest)?;
    let (third, rest) = next_at(alloc, rest)?;
    Ok(((first, second, third), rest))
}

/// Reads what stands behind `triple in`.
#[tactic(auto, unfolding(crate::specs::LineReading::inside_of))]
fn inside_of(alloc: Global, bytes: &[u8]) -> Result<TripleLine, Refusal>
    ensures { Gives spec.triple result (reading.inside_of bytes.now) }
{
    let ((from, letter, to), rest) = three_at(alloc, bytes)?;
    let proof = refutation_of(alloc, rest)?;
    Ok(TripleLine::Inside {
        from,
        letter,
        to,
        proof,
    })
}

/// Reads what stands behind `triple call`.
#[tactic(auto, unfolding(crate::specs::LineReading::call_of))]
fn call_of(alloc: Global, bytes: &[u8]) -> Result<TripleLine, Refusal>
    ensures { Gives spec.triple result (reading.call_of bytes.now) }
{
    let ((from, letter, to), rest) = three_at(alloc, bytes)?;
    let proof = refutation_of(alloc, rest)?;
    Ok(TripleLine::Call {
        from,
        letter,
        to,
        proof,
    })
}

/// Reads what stands behind `triple ret`.
#[tactic(auto, unfolding(crate::specs::LineReading::back_of))]
fn back_of(alloc: Global, bytes: &[u8]) -> Result<TripleLine, Refusal>
    ensures { Gives spec.triple result (reading.back_of bytes.now) }
{
    let (exit, rest) = next_at(alloc, bytes)?;
    let ((before, letter, to), rest) = three_at(alloc, rest)?;
    let proof = refutation_of(alloc, rest)?;
    Ok(TripleLine::Back {
        exit,
        before,
        letter,
        to,
        proof,
    })
}

/// Reads the line of a triple.
#[tactic(auto, unfolding(crate::specs::LineReading::triple_of))]
pub(crate) fn triple_of(alloc: Global, line: &[u8]) -> Result<TripleLine, Refusal>
    ensures { Gives spec.triple result (reading.triple_of line.now) }
{
    if let Some(rest) = text_at(line, b"triple in") {
        return inside_of(alloc, rest);
    }
    if let Some(rest) = text_at(line, b"triple call") {
        return call_of(alloc, rest);
    }
    back_of(alloc, after(line, b"triple ret")?)
}

/// Reads the numbers that the bytes are.
fn numbers_of(alloc: Global, bytes: &[u8]) -> Result<Vec<Numeral>, Refusal>
    ensures { Gives (λ v. v.items) result (reading.numbers_of bytes.now) }
{
    let mut numbers = Vec::new(alloc);
    let mut rest = bytes;
    for _turn in 0..bytes.len() {
        if !more_follow(rest) {
            return Ok(numbers);
        }
        let (number, behind) = next_at(alloc, rest)?;
        numbers.push(number)?;
        rest = behind;
    }
    if more_follow(rest) {
        return Err(Refusal::Form);
    }
    Ok(numbers)
}

/// Reads the line of the node with that number.
#[tactic(auto, unfolding(crate::specs::LineReading::node_of))]
pub(crate) fn node_of(alloc: Global, number: u64, line: &[u8]) -> Result<NodeLine, Refusal>
    ensures { Gives spec.node result (reading.node_of number line.now) }
{
    let rest = behind_node(alloc, number, line)?;
    let (place, rest) = next_at(alloc, rest)?;
    let (entry, rest) = next_at(alloc, rest)?;
    let preds = numbers_of(alloc, rest)?;
    Ok(NodeLine {
        place,
        entry,
        preds,
    })
}

/// Reads what stands behind `step`.
#[tactic(auto, unfolding(crate::specs::LineReading::step_end_of))]
fn step_end_of(alloc: Global, bytes: &[u8]) -> Result<StepLine, Refusal>
    ensures { Gives (λ s. s) result (reading.step_end_of bytes.now) }
{
    let ((from, letter, to), rest) = three_at(alloc, bytes)?;
    if more_follow(rest) {
        return Err(Refusal::Form);
    }
    Ok(StepLine::Step { from, letter, to })
}

/// Reads what stands behind `back`.
#[tactic(auto, unfolding(crate::specs::LineReading::back_end_of))]
fn back_end_of(alloc: Global, bytes: &[u8]) -> Result<StepLine, Refusal>
    ensures { Gives (λ s. s) result (reading.back_end_of bytes.now) }
{
    let (exit, rest) = next_at(alloc, bytes)?;
    let ((call, letter, to), rest) = three_at(alloc, rest)?;
    if more_follow(rest) {
        return Err(Refusal::Form);
    }
    Ok(StepLine::Back {
        exit,
        call,
        letter,
        to,
    })
}

/// Reads the line of a step.
#[tactic(auto, unfolding(crate::specs::LineReading::step_of))]
pub(crate) fn step_of(alloc: Global, line: &[u8]) -> Result<StepLine, Refusal>
    ensures { Gives (λ s. s) result (reading.step_of line.now) }
{
    if let Some(rest) = text_at(line, b"step") {
        return step_end_of(alloc, rest);
    }
    back_end_of(alloc, after(line, b"back")?)
}
