//! The triples that lines name.

ghost use Rattle.std.specs.Prelude.{◌≡◌, ◌≤◌, ◌^◌, Some, map, length, IsTrue, IfOk, MatchOption, slice_get};
ghost use Rattle.letter_acts.specs.Invariant.{alphabet_of, written_by, BackIsActedFrom};
ghost use Rattle.proof_form.specs.Lines as lines;
ghost use Rattle.proof_form.specs.Refutations as form;
ghost use Rattle.triple_rows.specs.Triples.{truth_of};
ghost use Rattle.proof_names.specs.declared.outlines.NamedTriple.{NamedTriple};
ghost use Rattle.letter_acts.specs.Widths.{back_width};
ghost use Rattle.proof_names.specs.Naming as spec;
ghost use Rattle.proof_names.specs.Naming.{NamesTriple};
ghost use Rattle.proof_names.specs.Refutations.{refutation_of};
ghost use Rattle.proof_names.specs.Scopes.{call_scopes, back_scopes};

use crate::numbers::{index_in, short_in};
use crate::outlines::{Listed, NamedTriple};
use crate::refutations::{is_named, refutation_of};
use boogie_tree::{Column, VarInfo};
use letter_acts::{Act, Icfg, count_local_targets, count_variables};
use proof_form::{RNode, TripleLine};
use std::alloc::{AllocError, Global};
use triple_rows::{PredNode, Scoped, Triple, agrees, pred};

/// The predicate that is true or false in a procedure.
fn truth(alloc: Global, proc: u32, value: bool) -> Result<Option<Scoped>, AllocError>
    ensures { IfOk result (λ o. o ≡ Some (truth_of proc value)) }
{
    let mut nodes = Vec::new(alloc);
    nodes.push(PredNode::Truth(value))?;
    match pred(nodes) {
        Some(pred) => Ok(Some(Scoped { proc, pred })),
        None => Ok(None),
    }
}

/// The predicate with this number, for a letter of the procedure.
fn scoped_at(
    alloc: Global,
    preds: &[Scoped],
    proc: u32,
    number: usize,
) -> Result<Option<Scoped>, AllocError>
    ensures { IfOk result (λ o. o ≡ spec.scoped_at (slice_get preds.now) proc number) }
{
    if number < 2 {
        return truth(alloc, proc, number == 0);
    }
    match preds.get(number - 2) {
        Some(scoped) => Ok(Some(scoped.copy()?)),
        None => Ok(None),
    }
}

/// The numbers of a triple's line.
fn listed_of(line: &TripleLine) -> Option<Listed>
    ensures { result ≡ spec.listed_of (lines.triple line.now) }
{
    Some(match line {
        TripleLine::Inside {
            from,
            letter,
            to,
            ..
        } => Listed::Inside {
            from: index_in(from)?,
            letter: short_in(letter)?,
            to: index_in(to)?,
        },
        TripleLine::Call {
            from,
            letter,
            to,
            ..
        } => Listed::Call {
            from: index_in(from)?,
            letter: short_in(letter)?,
            to: index_in(to)?,
        },
        TripleLine::Back {
            exit,
            before,
            letter,
            to,
            ..
        } => Listed::Back {
            exit: index_in(exit)?,
            before: index_in(before)?,
            letter: short_in(letter)?,
            to: index_in(to)?,
        },
    })
}

fn proof_in(line: &TripleLine) -> &[RNode]
    ensures { map form.plain_refutation_node result.now ≡ spec.proof_in (lines.triple line.now) }
{
    match line {
        TripleLine::Inside { proof, .. }
        | TripleLine::Call { proof, .. }
        | TripleLine::Back { proof, .. } => proof.as_slice(),
    }
}

/// The triple with these numbers of an inside letter.
fn inside_at(
    alloc: Global,
    icfg: &Icfg,
    preds: &[Scoped],
    from: usize,
    letter: u32,
    to: usize,
) -> Result<Option<Triple>, AllocError>
    ensures { IfOk result (λ o. o ≡ spec.inside_at (slice_get preds.now) from letter to (slice_get icfg.now.acts letter)) }
{
    let Some(Act::Inside { proc, .. }) = icfg.act(letter) else {
        return Ok(None);
    };
    let Some(from) = scoped_at(alloc, preds, *proc, from)? else {
        return Ok(None);
    };
    match scoped_at(alloc, preds, *proc, to)? {
        Some(to) => Ok(Some(Triple::Inside { from, letter, to })),
        None => Ok(None),
    }
}

/// The triple with these numbers of a call letter.
fn call_at(
    alloc: Global,
    icfg: &Icfg,
    preds: &[Scoped],
    from: usize,
    letter: u32,
    to: usize,
) -> Result<Option<Triple>, AllocError>
    ensures { IfOk result (λ o. o ≡ spec.call_at (slice_get preds.now) from letter to (slice_get icfg.now.acts letter)) }
{
    let Some(Act::Call { caller, callee, .. }) = icfg.act(letter) else {
        return Ok(None);
    };
    let Some(from) = scoped_at(alloc, preds, *caller, from)? else {
        return Ok(None);
    };
    match scoped_at(alloc, preds, *callee, to)? {
        Some(to) => Ok(Some(Triple::Call { from, letter, to })),
        None => Ok(None),
    }
}

/// The caller and the callee of a call letter.
fn call_scopes(icfg: &Icfg, letter: u32) -> Option<(u32, u32)>
    ensures { result ≡ call_scopes (slice_get icfg.now.acts letter) }
{
    match icfg.act(letter) {
        Some(Act::Call { caller, callee, .. }) => Some((*caller, *callee)),
        _ => None,
    }
}

/// The caller and the callee of a return letter.
fn back_scopes(icfg: &Icfg, letter: u32) -> Option<(u32, u32)>
    ensures { result ≡ back_scopes icfg.now.acts (slice_get icfg.now.acts letter) }
{
    match icfg.act(letter) {
        Some(Act::Back { call, .. }) => call_scopes(icfg, *call),
        _ => None,
    }
}

/// The triple with these numbers of a return letter.
fn back_at(
    alloc: Global,
    icfg: &Icfg,
    preds: &[Scoped],
    exit: usize,
    before: usize,
    letter: u32,
    to: usize,
) -> Result<Option<Triple>, AllocError>
    ensures { IfOk result (λ o. o ≡ spec.back_at icfg.now.acts (slice_get preds.now) exit before letter to (slice_get icfg.now.acts letter)) }
{
    let Some((caller, callee)) = back_scopes(icfg, letter) else {
        return Ok(None);
    };
    let Some(exit) = scoped_at(alloc, preds, callee, exit)? else {
        return Ok(None);
    };
    let Some(before) = scoped_at(alloc, preds, caller, before)? else {
        return Ok(None);
    };
    match scoped_at(alloc, preds, caller, to)? {
        Some(to) => Ok(Some(Triple::Back {
            exit,
            before,
            letter,
            to,
        })),
        None => Ok(None),
    }
}

/// The triple with these numbers: 0 and 1 for true and false, k + 2 for predicate k. `None` where a predicate or the letter does not
/// exist, or the letter is of another kind.
pub fn triple_at(
    alloc: Global,
    icfg: &Icfg,
    preds: &[Scoped],
    listed: Listed,
) -> Result<Option<Triple>, AllocError>
    ensures { IfOk result (λ o. o ≡ spec.triple_at icfg.now.acts (slice_get preds.now) listed) }
{
    match listed {
        Listed::Inside { from, letter, to } => inside_at(alloc, icfg, preds, from, letter, to),
        Listed::Call { from, letter, to } => call_at(alloc, icfg, preds, from, letter, to),
        Listed::Back {
            exit,
            before,
            letter,
            to,
        } => back_at(alloc, icfg, preds, exit, before, letter, to),
    }
}

/// How many columns a return writes in the frame of its caller.
fn written_count(frame: &[(Column, VarInfo)], targets: &[u32]) -> usize
    requires { length (written_by frame.now targets.now) ≤ 2 ^ 32 }
    ensures { result ≡ length (written_by frame.now targets.now) }
{
    count_variables(frame) + count_local_targets(frame, targets)
}

/// How many columns the system of a return has, by its call letter and its targets.
fn return_width(icfg: &Icfg, call: u32, targets: &[u32]) -> usize
    requires { BackIsActedFrom (alphabet_of icfg.now) targets.now (slice_get icfg.now.acts call) }
    ensures { result ≡ back_width (alphabet_of icfg.now) targets.now (slice_get icfg.now.acts call) }
{
    match icfg.act(call) {
        Some(
            Act::Call {
                caller,
                callee,
                helpers,
                ..
            },
        ) => {
            let frame = icfg.columns(*caller);
            icfg.columns(*callee).len()
                + frame.len()
                + written_count(frame, targets)
                + *helpers as usize
        }
        _ => 0,
    }
}

/// How many columns the system of a triple with this letter has.
fn width(icfg: &Icfg, letter: u32) -> usize
    ensures { result ≡ spec.width (alphabet_of icfg.now) (slice_get icfg.now.acts letter) }
{
    match icfg.act(letter) {
        Some(
            Act::Inside {
                proc,
                written,
                helpers,
                ..
            },
        ) => icfg.columns(*proc).len() + written.len() + *helpers as usize,
        Some(
            Act::Call {
                caller,
                callee,
                helpers,
                ..
            },
        ) => icfg.columns(*caller).len() + icfg.columns(*callee).len() + *helpers as usize,
        Some(Act::Back { call, targets }) => return_width(icfg, *call, targets),
        None => 0,
    }
}

fn letter_in(listed: Listed) -> u32
    ensures { result ≡ spec.letter_in listed }
{
    match listed {
        Listed::Inside { letter, .. } | Listed::Call { letter, .. } | Listed::Back { letter, .. } =>
            letter,
    }
}

/// The triple with the refutation of the nodes.
fn with_proof(
    alloc: Global,
    listed: Listed,
    triple: Triple,
    nodes: &[RNode],
) -> Result<NamedTriple, AllocError>
    requires { IsTrue (form.is_refutation (map form.plain_refutation_node nodes.now)) }
    ensures { IfOk result (λ t. t ≡ record { listed = listed; triple = triple; proof = refutation_of (map form.plain_refutation_node nodes.now) }) }
{
    let proof = refutation_of(alloc, nodes)?;
    Ok(NamedTriple {
        listed,
        triple,
        proof,
    })
}

/// The triple that a line names.
pub(crate) fn triple_named(
    alloc: Global,
    icfg: &Icfg,
    preds: &[Scoped],
    line: &TripleLine,
) -> Result<Option<NamedTriple>, AllocError>
    requires { IsTrue (lines.is_triple (lines.triple line.now)) }
    ensures { IfOk result (λ o. MatchOption o
        ((t : NamedTriple) → NamesTriple icfg.now (slice_get preds.now) (lines.triple line.now) t → ⊥)
        (NamesTriple icfg.now (slice_get preds.now) (lines.triple line.now))) }
{
    let Some(listed) = listed_of(line) else {
        return Ok(None);
    };
    let nodes = proof_in(line);
    if !is_named(width(icfg, letter_in(listed)), nodes) {
        return Ok(None);
    }
    let Some(triple) = triple_at(alloc, icfg, preds, listed)? else {
        return Ok(None);
    };
    if !agrees(icfg, &triple) {
        return Ok(None);
    }
    Ok(Some(with_proof(alloc, listed, triple, nodes)?))
}
