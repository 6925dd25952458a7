//! Annotations of given lists.

ghost use Rattle.std.specs.Prelude.{◌≡◌, ◌↔◌, IsTrue, IsSome, IfSome, IfOk, map};
ghost use Rattle.std.specs.List.{list_all};
ghost use Rattle.proof_form.specs.Lines as lines;
ghost use Rattle.proof_form.specs.Annotations.{content, is_annotation};
ghost use Rattle.proof_form.specs.TextReading.{content_of};

use crate::annotations::Annotation;
use crate::drafts::Draft;
use crate::line_checks::{is_node, is_pred, is_step, is_triple};
use crate::lines::{NodeLine, PredLine, StepLine, TripleLine};
use std::alloc::{AllocError, Global};

/// Whether each line of a predicate is in the grammar.
fn are_preds(alloc: Global, preds: &[PredLine]) -> Result<bool, AllocError>
    ensures { IfOk result (λ r. r ≡ list_all lines.is_pred (map lines.pred preds.now)) }
{
    for pred in preds {
        if !is_pred(alloc, pred)? {
            return Ok(false);
        }
    }
    Ok(true)
}

/// Whether each line of a triple is in the grammar.
fn are_triples(triples: &[TripleLine]) -> bool
    ensures { result ≡ list_all lines.is_triple (map lines.triple triples.now) }
{
    for triple in triples {
        if !is_triple(triple) {
            return false;
        }
    }
    true
}

/// Whether each line of a node is in the grammar.
fn are_nodes(nodes: &[NodeLine]) -> bool
    ensures { result ≡ list_all lines.is_node (map lines.node nodes.now) }
{
    for node in nodes {
        if !is_node(node) {
            return false;
        }
    }
    true
}

/// Whether each line of a step is in the grammar.
fn are_steps(steps: &[StepLine]) -> bool
    ensures { result ≡ list_all lines.is_step steps.now }
{
    steps.iter().all(|step| is_step(step))
}

/// Whether each line is in the grammar.
fn is_valid(alloc: Global, draft: &Draft) -> Result<bool, AllocError>
    ensures { IfOk result (λ r. r ≡ is_annotation (content_of draft.now)) }
{
    if !are_preds(alloc, &draft.preds)? {
        return Ok(false);
    }
    Ok(are_triples(&draft.triples) && are_nodes(&draft.nodes) && are_steps(&draft.steps))
}

/// The annotation of these lists, or `None` where a line is not in the grammar.
pub fn annotation(
    preds: Vec<PredLine>,
    triples: Vec<TripleLine>,
    nodes: Vec<NodeLine>,
    steps: Vec<StepLine>,
) -> Result<Option<Annotation>, AllocError>
    ensures when { IfOk result (λ o. IsSome o ↔ IsTrue (is_annotation (content preds.items triples.items nodes.items steps.items))) }
    ensures value { IfOk result (λ o. IfSome o (λ a. a ≡ content preds.items triples.items nodes.items steps.items)) }
{
    let alloc = *preds.allocator();
    let draft = Draft {
        preds,
        triples,
        nodes,
        steps,
    };
    if !is_valid(alloc, &draft)? {
        return Ok(None);
    }
    Ok(Some(Annotation::of_draft(draft)))
}
