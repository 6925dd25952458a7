//! The lean annotation, and its judge.

ghost use Rattle.std.specs.Prelude.{◌≡◌, ◌≤◌, IfOk, IfSome, IsTrue};
ghost use Rattle.proof_form.specs.Annotations.{is_annotation};
ghost use Rattle.proof_check.specs.Proves.{Proves};
ghost use Rattle.proof_build.specs.ProofLean.Leaner.{IsNoLarger, fact_count};

use crate::proof_lean::classes::classes_of;
use crate::proof_lean::covers::{covered_moves, covers_of};
use crate::proof_lean::drafts::{Draft, draft_of};
use crate::proof_lean::facts::with_facts;
use crate::proof_lean::joining::{joined_moves, joined_nodes};
use crate::proof_lean::needs::needed;
use crate::proof_lean::reaching::{moves_within, ranks_of};
use crate::proof_lean::spelling::spelled;
use letter_acts::Icfg;
use proof_check::{Reject, check};
use proof_form::Annotation;
use proof_names::{NameFault, Outline, outline};
use std::alloc::{AllocError, Global};

/// Leaves each node the predicates that are needed there.
fn keep_needed(alloc: Global, draft: &mut Draft) -> Result<(), AllocError> {
    let facts = needed(alloc, draft)?;
    draft.nodes = with_facts(alloc, &draft.nodes, &facts)?;
    Ok(())
}

/// Puts the first of the nodes with one number in place of all of them, and the nodes in the order of the numbers.
fn renumber(alloc: Global, draft: &mut Draft, numbers: &[usize]) -> Result<(), AllocError> {
    draft.nodes = joined_nodes(alloc, &draft.nodes, numbers)?;
    draft.moves = joined_moves(alloc, &draft.moves, numbers)?;
    Ok(())
}

/// Puts one node in place of nodes that are alike.
fn join(alloc: Global, draft: &mut Draft) -> Result<(), AllocError> {
    let classes = classes_of(alloc, draft)?;
    renumber(alloc, draft, &classes)
}

/// Takes away the moves of nodes in whose place others stand.
fn cover(alloc: Global, draft: &mut Draft) -> Result<(), AllocError> {
    let covers = covers_of(alloc, &draft.nodes)?;
    draft.moves = covered_moves(alloc, &draft.moves, &covers)?;
    Ok(())
}

/// Takes away the nodes that no moves reach.
fn keep_reached(alloc: Global, draft: &mut Draft) -> Result<(), AllocError> {
    let ranks = ranks_of(alloc, draft.nodes.len(), &draft.moves)?;
    draft.moves = moves_within(alloc, &draft.moves, &ranks)?;
    renumber(alloc, draft, &ranks)
}

/// Takes away what the proof does not need.
fn lessen(alloc: Global, draft: &mut Draft) -> Result<(), AllocError> {
    keep_needed(alloc, draft)?;
    join(alloc, draft)?;
    cover(alloc, draft)?;
    keep_reached(alloc, draft)
}

/// What is left of an annotation that names this.
fn lessened(
    alloc: Global,
    given: &Annotation,
    outline: Outline,
) -> Result<Option<Annotation>, AllocError> {
    let mut draft = draft_of(alloc, outline)?;
    lessen(alloc, &mut draft)?;
    spelled(alloc, given, &draft)
}

/// What is left of an annotation, if it names what there is.
fn proposed(
    alloc: Global,
    icfg: &Icfg,
    given: &Annotation,
) -> Result<Option<Annotation>, AllocError> {
    match outline(alloc, icfg, given) {
        Ok(outline) => lessened(alloc, given, outline),
        Err(NameFault::At(_)) => Ok(None),
        Err(NameFault::Memory) => Err(AllocError),
    }
}

/// How many predicates the nodes of an annotation have together, if that is a number of 64 bits.
fn fact_count(annotation: &Annotation) -> Option<usize>
    ensures { IfSome result (λ n. n ≡ fact_count annotation.now) }
{
    let nodes = annotation.nodes();
    let mut count = 0usize;
    for node in nodes {
        count = count.checked_add(node.preds.len())?;
    }
    Some(count)
}

/// Whether an annotation has no more predicates at its nodes than another.
fn has_no_more_facts(other: &Annotation, annotation: &Annotation) -> bool
    ensures { IsTrue result → fact_count annotation.now ≤ fact_count other.now }
{
    match (fact_count(annotation), fact_count(other)) {
        (Some(count), Some(others)) => count <= others,
        _ => false,
    }
}

/// Whether an annotation has no more predicates, triples, nodes, predicates at nodes, and steps than another.
fn is_no_larger(other: &Annotation, annotation: &Annotation) -> bool
    ensures { IsTrue result → IsNoLarger other.now annotation.now }
{
    annotation.preds().len() <= other.preds().len()
        && annotation.triples().len() <= other.triples().len()
        && annotation.nodes().len() <= other.nodes().len()
        && annotation.steps().len() <= other.steps().len()
        && has_no_more_facts(other, annotation)
}

/// Whether an annotation proves the graph and is no larger than another.
fn is_better(
    alloc: Global,
    icfg: &Icfg,
    given: &Annotation,
    proposal: &Annotation,
) -> Result<bool, AllocError>
    ensures { IfOk result (λ better. IsTrue better → Proves icfg.now proposal.now × IsNoLarger given.now proposal.now) }
{
    if !is_no_larger(given, proposal) {
        return Ok(false);
    }
    match check(alloc, icfg, proposal) {
        Ok(()) => Ok(true),
        Err(Reject::At { .. }) => Ok(false),
        Err(Reject::Memory) => Err(AllocError),
    }
}

/// A lean annotation that proves the graph and is no larger than the given one, if what is left of that is one.
fn leaner(alloc: Global, icfg: &Icfg, given: &Annotation) -> Result<Option<Annotation>, AllocError>
    ensures { IfOk result (λ o. IfSome o (λ a. Proves icfg.now a × IsNoLarger given.now a)) }
{
    let Some(proposal) = proposed(alloc, icfg, given)? else {
        return Ok(None);
    };
    if !is_better(alloc, icfg, given, &proposal)? {
        return Ok(None);
    }
    Ok(Some(proposal))
}

/// The annotation with what its proof needs and nothing else: each node has the predicates on which false rests where it holds, nodes that are alike
/// are one, a node in whose place another with fewer predicates can stand is gone, and so are predicates and triples that nothing uses. What comes of this is judged by `check`, and is promised no more than that says:
/// where it is not accepted, the annotation stays as it was.
pub fn lean(alloc: Global, icfg: &Icfg, given: Annotation) -> Result<Annotation, AllocError>
    requires { Proves icfg.now given }
    ensures proves { IfOk result (Proves icfg.now) }
    ensures lines { IfOk result (λ a. IsTrue (is_annotation a)) }
    ensures no_larger { IfOk result (IsNoLarger given) }
{
    let _lines = given.preds();
    match leaner(alloc, icfg, &given)? {
        Some(proposal) => {
            let _proposed = proposal.preds();
            Ok(proposal)
        }
        None => Ok(given),
    }
}
