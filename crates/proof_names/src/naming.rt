//! What all lines of an annotation name.

ghost use Rattle.std.specs.Prelude.{◌≡◌, ◌+◌, ℕ, Err, Some, map, IsTrue, IfOk, IfErr, slice_get};
ghost use Rattle.std.specs.List.{list_all};
ghost use Rattle.triple_rows.specs.declared.triples.Scoped.{Scoped};
ghost use Rattle.proof_form.specs.declared.lines.StepLine.{StepLine};
ghost use Rattle.proof_form.specs.Lines as form;
ghost use Rattle.proof_names.specs.declared.outlines.NamedTriple.{NamedTriple};
ghost use Rattle.proof_names.specs.declared.outlines.NamedStep.{NamedStep};
ghost use Rattle.proof_names.specs.Pairs.{ArePaired, IsAt};
ghost use Rattle.proof_names.specs.Predicates as spec;
ghost use Rattle.proof_names.specs.Outlines.{OutlineNode, node, named_place, sketch};
ghost use Rattle.proof_names.specs.Naming.{NamesTriple, NamesNode, NamesStep};
ghost use Rattle.proof_names.specs.Items.{IsFirstUnnamed, Names};

use crate::fault::NameFault;
use crate::nodes::node_named;
use crate::outlines::{NamedNode, NamedStep, NamedTriple, Outline};
use crate::predicates::pred_named;
use crate::steps::step_named;
use crate::triples::triple_named;
use letter_acts::Icfg;
use proof_form::{Annotation, NodeLine, PredLine, StepLine, TripleLine};
use std::alloc::Global;
use triple_rows::Scoped;

/// The fault of the line at a place behind the first of its kind. Items that 64 bits do not count are more than memory holds.
fn unnamed(first: u64, place: usize) -> NameFault
    ensures { (i : ℕ) → result ≡ NameFault.At i → i ≡ first + place }
{
    match first.checked_add(place as u64) {
        Some(item) => NameFault::At(item),
        None => NameFault::Memory,
    }
}

/// The number of the item behind so many.
fn item_after(first: u64, count: usize) -> Result<u64, NameFault>
    ensures ok { IfOk result (λ i. i ≡ first + count) }
    ensures err { IfErr result (λ e. e ≡ NameFault.Memory) }
{
    match first.checked_add(count as u64) {
        Some(item) => Ok(item),
        None => Err(NameFault::Memory),
    }
}

/// The predicates that lines name.
fn preds_named(alloc: Global, icfg: &Icfg, lines: &[PredLine]) -> Result<Vec<Scoped>, NameFault>
    requires { IsTrue (list_all form.is_pred (map form.pred lines.now)) }
    ensures ok { IfOk result (λ v. ArePaired (λ k line s. spec.pred_named icfg.now line ≡ Some s) (map form.pred lines.now) v.items) }
    ensures at { (i : ℕ) → result ≡ Err (NameFault.At i) → IsAt (λ k line (s : Scoped). spec.pred_named icfg.now line ≡ Some s) (map form.pred lines.now) 0 i }
{
    let mut preds = Vec::with_capacity(alloc, lines.len())?;
    for (k, line) in lines.iter().enumerate() {
        match pred_named(alloc, icfg, line)? {
            Some(pred) => preds.push(pred)?,
            None => return Err(unnamed(0, k)),
        }
    }
    Ok(preds)
}

/// The triples that lines name.
fn triples_named(
    alloc: Global,
    icfg: &Icfg,
    preds: &[Scoped],
    lines: &[TripleLine],
    first: u64,
) -> Result<Vec<NamedTriple>, NameFault>
    requires { IsTrue (list_all form.is_triple (map form.triple lines.now)) }
    ensures ok { IfOk result (λ v. ArePaired (λ k line t. NamesTriple icfg.now (slice_get preds.now) line t) (map form.triple lines.now) v.items) }
    ensures at { (i : ℕ) → result ≡ Err (NameFault.At i) →
        IsAt (λ k line t. NamesTriple icfg.now (slice_get preds.now) line t) (map form.triple lines.now) first i }
{
    let mut triples = Vec::with_capacity(alloc, lines.len())?;
    for (k, line) in lines.iter().enumerate() {
        match triple_named(alloc, icfg, preds, line)? {
            Some(triple) => triples.push(triple)?,
            None => return Err(unnamed(first, k)),
        }
    }
    Ok(triples)
}

/// The nodes that lines name.
fn nodes_named(
    alloc: Global,
    icfg: &Icfg,
    preds: &[Scoped],
    lines: &[NodeLine],
    first: u64,
) -> Result<Vec<NamedNode>, NameFault>
    ensures ok { IfOk result (λ v. ArePaired (NamesNode icfg.now (slice_get preds.now) (map form.node lines.now)) (map form.node lines.now) (map node v.items)) }
    ensures at { (i : ℕ) → result ≡ Err (NameFault.At i) →
        IsAt (NamesNode icfg.now (slice_get preds.now) (map form.node lines.now)) (map form.node lines.now) first i }
{
    let mut nodes = Vec::with_capacity(alloc, lines.len())?;
    for (n, line) in lines.iter().enumerate() {
        match node_named(alloc, icfg, preds, lines, n, line)? {
            Some(node) => nodes.push(node)?,
            None => return Err(unnamed(first, n)),
        }
    }
    Ok(nodes)
}

/// The steps that lines name.
fn steps_named(
    alloc: Global,
    icfg: &Icfg,
    nodes: &[NamedNode],
    lines: &[StepLine],
    first: u64,
) -> Result<Vec<NamedStep>, NameFault>
    ensures ok { IfOk result (λ v. ArePaired (λ k line t. NamesStep icfg.now (named_place nodes.now) line t) lines.now v.items) }
    ensures at { (i : ℕ) → result ≡ Err (NameFault.At i) →
        IsAt (λ k line t. NamesStep icfg.now (named_place nodes.now) line t) lines.now first i }
{
    let mut steps = Vec::with_capacity(alloc, lines.len())?;
    for (k, line) in lines.iter().enumerate() {
        match step_named(icfg, nodes, line) {
            Some(step) => steps.push(step)?,
            None => return Err(unnamed(first, k)),
        }
    }
    Ok(steps)
}

/// What the lines of an annotation name. `At` comes with the first line that names what does not exist, or what is of another
/// scope or kind, or a number that does not fit.
pub fn outline(alloc: Global, icfg: &Icfg, proof: &Annotation) -> Result<Outline, NameFault>
    ensures ok { IfOk result (λ o. Names icfg.now proof.now (sketch o)) }
    ensures at { (i : ℕ) → result ≡ Err (NameFault.At i) → IsFirstUnnamed icfg.now proof.now i }
{
    let preds = preds_named(alloc, icfg, proof.preds())?;
    let first_triple = proof.preds().len() as u64;
    let triples = triples_named(alloc, icfg, &preds, proof.triples(), first_triple)?;
    let first_node = item_after(first_triple, proof.triples().len())?;
    let nodes = nodes_named(alloc, icfg, &preds, proof.nodes(), first_node)?;
    let first_step = item_after(first_node, proof.nodes().len())?;
    let steps = steps_named(alloc, icfg, &nodes, proof.steps(), first_step)?;
    Ok(Outline {
        triples,
        nodes,
        steps,
    })
}
