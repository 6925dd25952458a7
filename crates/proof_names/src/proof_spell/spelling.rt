//! The annotation of a draft.

ghost use Rattle.std.specs.Prelude.{Some, IfOk};
ghost use Rattle.std.specs.List.{AllByRecursion};
ghost use Rattle.proof_form.specs.Lines as lines;
ghost use Rattle.proof_names.specs.Items.{Names};
ghost use Rattle.proof_names.specs.Outlines.{Sketch, node};
ghost use Rattle.proof_names.specs.ProofSpell.Correspond.{Correspond};
ghost use Rattle.proof_names.specs.ProofSpell.Drafts.{plain, draft, MayBeNamed, MayBeSpelled, AscendFrom};
ghost use Rattle.proof_names.specs.ProofSpell.Nodes.{HasNumbers};
ghost use Rattle.proof_names.specs.ProofSpell.Spelled.{SpellsPred, SpellsTriple, SpellsNode, SpellsStep, Spells, Outlines};

use crate::proof_spell::drafts::Shown;
use crate::proof_spell::nodes::node_line;
use crate::proof_spell::predicates::pred_line;
use crate::proof_spell::steps::step_line;
use crate::proof_spell::triples::triple_line;
use crate::{NamedNode, NamedStep};
use letter_acts::Icfg;
use proof_form::{Annotation, NodeLine, PredLine, StepLine, TripleLine, annotation};
use std::alloc::{AllocError, Global};
use triple_rows::Scoped;

/// The lines of predicates.
fn pred_lines(alloc: Global, icfg: &Icfg, preds: &[Scoped]) -> Result<Vec<PredLine>, AllocError>
    requires { AllByRecursion (MayBeNamed icfg.now) preds.now }
    ensures { IfOk result (λ v. Correspond (λ line. SpellsPred icfg.now (lines.pred line)) v.items preds.now) }
{
    let mut lines = Vec::with_capacity(alloc, preds.len())?;
    for scoped in preds {
        lines.push(pred_line(alloc, icfg, scoped)?)?;
    }
    Ok(lines)
}

/// The lines of triples.
fn triple_lines(alloc: Global, triples: &[Shown<'_>]) -> Result<Vec<TripleLine>, AllocError>
    requires { AllByRecursion (λ t. AllByRecursion HasNumbers t.proof.now) triples.now }
    ensures { IfOk result (λ v. Correspond (λ line t. SpellsTriple (lines.triple line) (plain t)) v.items triples.now) }
{
    let mut lines = Vec::with_capacity(alloc, triples.len())?;
    for shown in triples {
        lines.push(triple_line(alloc, shown)?)?;
    }
    Ok(lines)
}

/// The lines of nodes.
fn node_lines(alloc: Global, nodes: &[NamedNode]) -> Result<Vec<NodeLine>, AllocError>
    requires { AllByRecursion (λ n. AscendFrom 1 n.preds.items) nodes.now }
    ensures { IfOk result (λ v. Correspond (λ line n. SpellsNode (lines.node line) (node n)) v.items nodes.now) }
{
    let mut lines = Vec::with_capacity(alloc, nodes.len())?;
    for node in nodes {
        lines.push(node_line(alloc, node)?)?;
    }
    Ok(lines)
}

/// The lines of steps.
fn step_lines(alloc: Global, steps: &[NamedStep]) -> Result<Vec<StepLine>, AllocError>
    ensures { IfOk result (λ v. Correspond SpellsStep v.items steps.now) }
{
    let mut lines = Vec::with_capacity(alloc, steps.len())?;
    for step in steps {
        lines.push(step_line(alloc, *step)?)?;
    }
    Ok(lines)
}

/// The annotation of predicates, which have the numbers from 2 on, of triples with their refutations, of nodes, and of steps with
/// backs. Its lines name the same again.
pub fn spell(
    alloc: Global,
    icfg: &Icfg,
    preds: &[Scoped],
    triples: &[Shown<'_>],
    nodes: &[NamedNode],
    steps: &[NamedStep],
) -> Result<Annotation, AllocError>
    requires { MayBeSpelled icfg.now (draft preds.now triples.now nodes.now steps.now) }
    ensures spells { IfOk result (λ a. Spells icfg.now a (draft preds.now triples.now nodes.now steps.now)) }
    ensures names { IfOk result (λ a. (s : Sketch) × Names icfg.now a s × Outlines icfg.now s (draft preds.now triples.now nodes.now steps.now)) }
{
    let preds = pred_lines(alloc, icfg, preds)?;
    let triples = triple_lines(alloc, triples)?;
    let nodes = node_lines(alloc, nodes)?;
    let steps = step_lines(alloc, steps)?;
    match annotation(preds, triples, nodes, steps)? {
        Some(proof) => Ok(proof),
        None => unreachable!(),
    }
}
