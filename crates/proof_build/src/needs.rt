//! The triples that the steps of an unwinding need: for each predicate of the end of a step one.

ghost use Rattle.std.specs.Prelude.{◌≡◌, ℕ, ◌↔◌, IsTrue, IfOk, OnOk, MatchOption, if◌then◌else◌};
ghost use Rattle.nwa_base.specs.Members.{Member};
ghost use Rattle.proof_build.specs.ProofUnwind.Unwindings.{node_at};
ghost use Rattle.proof_build.specs.ProofUnwind.Spots.{nodes_of};
ghost use Rattle.proof_build.specs.Ties.Needs.{inside_numbers, call_numbers, IsAmong, Leads, BackLeads, NotesAll, NotesBacks, NotesSteps, NotesBackSteps, AreNeeded};

use crate::noted::Noted;
use crate::proof_unwind::{Spot, Unwound, spot_at};
use nwa_base::{Letter, Nwa};
use proof_names::Listed;
use std::alloc::{AllocError, Global};

/// The predicates of a node.
fn preds_at(nodes: &[Spot], number: u32) -> &[u32]
    ensures { result.now ≡ (node_at (nodes_of nodes.now) number).preds }
{
    match spot_at(nodes, number) {
        Some(spot) => spot.preds.as_slice(),
        None => &[],
    }
}

/// Whether an edge by the letter leads from the source to the target: a call edge, or an inside edge.
fn leads(union: &Nwa, is_call: bool, source: u32, letter: Letter, target: u32) -> bool
    ensures { IsTrue result ↔ Member (if is_call then union.now.calls else union.now.insides) (source, letter, target) }
{
    if is_call {
        union.has_call(source, letter, target)
    } else {
        union.has_inside(source, letter, target)
    }
}

/// True, or the first of the predicates before the letter, from which an edge leads to the target.
fn source(union: &Nwa, is_call: bool, before: &[u32], letter: Letter, target: u32) -> Option<u32>
    ensures { MatchOption result (Leads (if is_call then union.now.calls else union.now.insides) before.now letter target → ⊥) (λ q. Member (if is_call then union.now.calls else union.now.insides) (q, letter, target) × IsAmong before.now q) }
{
    if leads(union, is_call, 0, letter, target) {
        return Some(0);
    }
    for &source in before {
        if leads(union, is_call, source, letter, target) {
            return Some(source);
        }
    }
    None
}

/// True, or the first of the predicates before the call, with which a return edge leads from the exit's to the target.
fn before_call(union: &Nwa, exit: u32, before: &[u32], letter: Letter, target: u32) -> Option<u32>
    ensures { MatchOption result ((p : ℕ) → Member union.now.backs (exit, p, letter, target) → IsAmong before.now p → ⊥) (λ p. Member union.now.backs (exit, p, letter, target) × IsAmong before.now p) }
{
    if union.has_back(exit, 0, letter, target) {
        return Some(0);
    }
    for &source in before {
        if union.has_back(exit, source, letter, target) {
            return Some(source);
        }
    }
    None
}

/// Predicates of the exit and before the call, or true, from which a return edge leads to the target.
fn back_sources(
    union: &Nwa,
    exits: &[u32],
    before: &[u32],
    letter: Letter,
    target: u32,
) -> Option<(u32, u32)>
    ensures { MatchOption result (BackLeads union.now.backs exits.now before.now letter target → ⊥) (λ s. Member union.now.backs (s.0, s.1, letter, target) × IsAmong exits.now s.0 × IsAmong before.now s.1) }
{
    if let Some(source) = before_call(union, 0, before, letter, target) {
        return Some((0, source));
    }
    for &exit in exits {
        if let Some(source) = before_call(union, exit, before, letter, target) {
            return Some((exit, source));
        }
    }
    None
}

/// The numbers of a triple of a call letter, or of an inside letter.
fn listed_by(is_call: bool, source: u32, letter: Letter, target: u32) -> Listed
    ensures { result ≡ (if is_call then call_numbers else inside_numbers) source letter.id target }
{
    let (from, letter, to) = (source as usize, letter.id, target as usize);
    if is_call {
        Listed::Call { from, letter, to }
    } else {
        Listed::Inside { from, letter, to }
    }
}

/// Notes what the predicates after a call letter or an inside letter need.
fn note_after(
    noted: &mut Noted,
    union: &Nwa,
    is_call: bool,
    before: &[u32],
    letter: Letter,
    after: &[u32],
) -> Result<(), AllocError>
    ensures { OnOk result (NotesAll (if is_call then union.now.calls else union.now.insides) (if is_call then call_numbers else inside_numbers) before.now letter after.now noted.old noted.new) }
{
    for &target in after {
        if let Some(source) = source(union, is_call, before, letter, target) {
            noted.insert(listed_by(is_call, source, letter, target))?;
        }
    }
    Ok(())
}

/// Notes what the predicates after a return need.
fn note_back(
    noted: &mut Noted,
    union: &Nwa,
    exits: &[u32],
    before: &[u32],
    letter: Letter,
    after: &[u32],
) -> Result<(), AllocError>
    ensures { OnOk result (NotesBacks union.now.backs exits.now before.now letter after.now noted.old noted.new) }
{
    for &target in after {
        if let Some((exit, source)) = back_sources(union, exits, before, letter, target) {
            noted.insert(Listed::Back {
                exit: exit as usize,
                before: source as usize,
                letter: letter.id,
                to: target as usize,
            })?;
        }
    }
    Ok(())
}

/// Notes what steps by call letters or by inside letters need.
fn note_steps(
    noted: &mut Noted,
    union: &Nwa,
    is_call: bool,
    nodes: &[Spot],
    steps: &[(u32, Letter, u32)],
) -> Result<(), AllocError>
    ensures { OnOk result (NotesSteps (if is_call then union.now.calls else union.now.insides) (if is_call then call_numbers else inside_numbers) (nodes_of nodes.now) steps.now noted.old noted.new) }
{
    for &step in steps {
        let before = preds_at(nodes, step.0);
        let after = preds_at(nodes, step.2);
        note_after(noted, union, is_call, before, step.1, after)?;
    }
    Ok(())
}

/// Notes what backs need.
fn note_backs(
    noted: &mut Noted,
    union: &Nwa,
    nodes: &[Spot],
    steps: &[(u32, u32, Letter, u32)],
) -> Result<(), AllocError>
    ensures { OnOk result (NotesBackSteps union.now.backs (nodes_of nodes.now) steps.now noted.old noted.new) }
{
    for &step in steps {
        let exits = preds_at(nodes, step.0);
        let before = preds_at(nodes, step.1);
        let after = preds_at(nodes, step.3);
        note_back(noted, union, exits, before, step.2, after)?;
    }
    Ok(())
}

/// The numbers of the triples that the steps need.
pub(crate) fn needed_by(alloc: Global, union: &Nwa, unwound: &Unwound) -> Result<Noted, AllocError>
    ensures { IfOk result (AreNeeded union.now (nodes_of unwound.now.nodes.items) unwound.now.steps) }
{
    let mut noted = Noted::new(alloc);
    note_steps(
        &mut noted,
        union,
        false,
        &unwound.nodes,
        unwound.steps.insides(),
    )?;
    note_steps(
        &mut noted,
        union,
        true,
        &unwound.nodes,
        unwound.steps.calls(),
    )?;
    note_backs(&mut noted, union, &unwound.nodes, unwound.steps.backs())?;
    Ok(noted)
}
