//! What was read of an annotation so far.

ghost use Rattle.std.specs.Prelude.{◌≡◌, ◌+◌, ◌&&◌, length};
ghost use Rattle.proof_form.specs.Outcomes.{Gives};
ghost use Rattle.proof_form.specs.LineReading.{checked};
ghost use Rattle.proof_form.specs.Lines as lines;
ghost use Rattle.proof_form.specs.Standing.{none, no_content};
ghost use Rattle.proof_form.specs.TextReading as spec;

use crate::line_checks::{is_node, is_pred, is_step, is_triple};
use crate::lines::{
    NodeLine, PredLine, StepLine, TripleLine, node_of, pred_of, step_of, triple_of,
};
use crate::refusal::Refusal;
use std::alloc::Global;

/// The lines that were read so far.
#[derive(Drop)]
pub(crate) struct Draft {
    pub preds: Vec<PredLine>,
    pub triples: Vec<TripleLine>,
    pub nodes: Vec<NodeLine>,
    pub steps: Vec<StepLine>,
}

/// The value, if that holds of it.
fn kept<T: Drop>(value: T, holds: bool) -> Result<T, Refusal>
    ensures { Gives (λ x. x) result (checked (λ _. holds) value) }
{
    if holds { Ok(value) } else { Err(Refusal::Form) }
}

/// Reads the line of the predicate with that number, if it is in the grammar.
#[tactic(auto, unfolding(crate::specs::TextReading::checked_pred_of))]
fn checked_pred(alloc: Global, number: u64, line: &[u8]) -> Result<PredLine, Refusal>
    ensures { Gives lines.pred result (spec.checked_pred_of number line.now) }
{
    let pred = pred_of(alloc, number, line)?;
    let holds = is_pred(alloc, &pred)?;
    kept(pred, holds)
}

/// Reads the line of a triple, if it is in the grammar.
#[tactic(auto, unfolding(crate::specs::TextReading::checked_triple_of))]
fn checked_triple(alloc: Global, line: &[u8]) -> Result<TripleLine, Refusal>
    ensures { Gives lines.triple result (spec.checked_triple_of line.now) }
{
    let triple = triple_of(alloc, line)?;
    let holds = is_triple(&triple);
    kept(triple, holds)
}

/// Reads the line of the node with that number, if it is in the grammar.
#[tactic(auto, unfolding(crate::specs::TextReading::checked_node_of))]
fn checked_node(alloc: Global, number: u64, line: &[u8]) -> Result<NodeLine, Refusal>
    ensures { Gives lines.node result (spec.checked_node_of number line.now) }
{
    let node = node_of(alloc, number, line)?;
    let holds = is_node(&node);
    kept(node, holds)
}

/// Reads the line of a step, if it is in the grammar.
#[tactic(auto, unfolding(crate::specs::TextReading::checked_step_of))]
fn checked_step(alloc: Global, line: &[u8]) -> Result<StepLine, Refusal>
    ensures { Gives (λ s. s) result (spec.checked_step_of line.now) }
{
    let step = step_of(alloc, line)?;
    let holds = is_step(&step);
    kept(step, holds)
}

impl Draft {
    /// Nothing was read yet.
    pub fn new(alloc: Global) -> Self
        ensures { spec.content_of result ≡ no_content }
    {
        Draft {
            preds: Vec::new(alloc),
            triples: Vec::new(alloc),
            nodes: Vec::new(alloc),
            steps: Vec::new(alloc),
        }
    }

    fn no_triples(&self) -> bool
        ensures { result ≡ none (spec.content_of self.now).triples }
    {
        self.triples.is_empty()
    }

    fn no_nodes(&self) -> bool
        ensures { result ≡ none (spec.content_of self.now).nodes }
    {
        self.nodes.is_empty()
    }

    fn no_steps(&self) -> bool
        ensures { result ≡ none (spec.content_of self.now).steps }
    {
        self.steps.is_empty()
    }

    /// Whether one more triple may come.
    fn takes_triples(&self) -> bool
        ensures { result ≡ (none (spec.content_of self.now).nodes && none (spec.content_of self.now).steps) }
    {
        self.no_nodes() && self.no_steps()
    }

    /// Whether one more predicate may come.
    fn takes_preds(&self) -> bool
        ensures { result ≡ (none (spec.content_of self.now).triples && (none (spec.content_of self.now).nodes && none (spec.content_of self.now).steps)) }
    {
        self.no_triples() && self.takes_triples()
    }

    /// The number of the next predicate.
    fn next_pred(&self) -> u64
        ensures { result ≡ length (spec.content_of self.now).preds + 2 }
    {
        self.preds.len() as u64 + 2
    }

    /// The number of the next node.
    fn next_node(&self) -> u64
        ensures { result ≡ length (spec.content_of self.now).nodes }
    {
        self.nodes.len() as u64
    }

    #[tactic(auto, unfolding(crate::specs::TextReading::with_pred))]
    fn add_pred(&mut self, alloc: Global, line: &[u8]) -> Result<(), Refusal>
        ensures { Gives (λ _. spec.content_of self.new) result (spec.with_pred (spec.content_of self.old) line.now) }
    {
        if !self.takes_preds() {
            return Err(Refusal::Form);
        }
        let pred = checked_pred(alloc, self.next_pred(), line)?;
        self.preds.push(pred)?;
        Ok(())
    }

    #[tactic(auto, unfolding(crate::specs::TextReading::with_triple))]
    fn add_triple(&mut self, alloc: Global, line: &[u8]) -> Result<(), Refusal>
        ensures { Gives (λ _. spec.content_of self.new) result (spec.with_triple (spec.content_of self.old) line.now) }
    {
        if !self.takes_triples() {
            return Err(Refusal::Form);
        }
        let triple = checked_triple(alloc, line)?;
        self.triples.push(triple)?;
        Ok(())
    }

    #[tactic(auto, unfolding(crate::specs::TextReading::with_node))]
    fn add_node(&mut self, alloc: Global, line: &[u8]) -> Result<(), Refusal>
        ensures { Gives (λ _. spec.content_of self.new) result (spec.with_node (spec.content_of self.old) line.now) }
    {
        if !self.no_steps() {
            return Err(Refusal::Form);
        }
        let node = checked_node(alloc, self.next_node(), line)?;
        self.nodes.push(node)?;
        Ok(())
    }

    #[tactic(auto, unfolding(crate::specs::TextReading::with_step))]
    fn add_step(&mut self, alloc: Global, line: &[u8]) -> Result<(), Refusal>
        ensures { Gives (λ _. spec.content_of self.new) result (spec.with_step (spec.content_of self.old) line.now) }
    {
        let step = checked_step(alloc, line)?;
        self.steps.push(step)?;
        Ok(())
    }

    /// Takes the line, if it can stand behind those that were taken.
    #[tactic(auto, unfolding(crate::specs::TextReading::with_line))]
    pub fn add(&mut self, alloc: Global, line: &[u8]) -> Result<(), Refusal>
        ensures { Gives (λ _. spec.content_of self.new) result (spec.with_line (spec.content_of self.old) line.now) }
    {
        match line {
            [b'p', ..] => self.add_pred(alloc, line),
            [b't', ..] => self.add_triple(alloc, line),
            [b'n', ..] => self.add_node(alloc, line),
            [_, ..] => self.add_step(alloc, line),
            [] => Err(Refusal::Form),
        }
    }
}
