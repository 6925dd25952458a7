//! The six checks, in their order.

ghost use Rattle.std.specs.Prelude.{◌≡◌, ℕ, Err, List, IfOk, OnOk, IfSome, IsTrue};
ghost use Rattle.nwa_base.specs.declared.letters.Letter.{Letter};
ghost use Rattle.nwa_base.specs.Acceptance.{Accepts};
ghost use Rattle.letter_acts.specs.Feasible.{IsFeasible};
ghost use Rattle.letter_acts.specs.Invariant.{alphabet_of};
ghost use Rattle.letter_acts.specs.Kept.{Keeps};
ghost use Rattle.proof_form.specs.Annotations.{is_annotation};
ghost use Rattle.proof_names.specs.Outlines.{sketch};
ghost use Rattle.proof_names.specs.Items.{Names, first_node, first_step};
ghost use Rattle.proof_check.specs.declared.rejects.RejectCause.{RejectCause};
ghost use Rattle.proof_check.specs.Proves.{Proves};
ghost use Rattle.proof_check.specs.Checks.{IsFirst, IsRefusal, IsOutcome, AreOutcomes, PassesIn};

use crate::covering::first_uncovered;
use crate::places::{first_open_error, has_start};
use crate::plan::Plan;
use crate::refuting::first_bad_triple;
use crate::rejects::{Reject, RejectCause};
use crate::sound::first_bad_step;
use letter_acts::Icfg;
use proof_form::Annotation;
use proof_names::{NameFault, Outline, outline};
use std::alloc::Global;

/// The refusal of the item at a place behind the first of its kind. Items that 64 bits do not count are more than memory holds.
fn at(first: Option<u64>, place: usize, cause: RejectCause) -> Reject
    ensures { IsRefusal first place cause result }
{
    match first {
        Some(first) => match first.checked_add(place as u64) {
            Some(item) => Reject::At { item, cause },
            None => Reject::Memory,
        },
        None => Reject::Memory,
    }
}

/// The number of the first node among the items, if 64 bits count them.
fn first_node(proof: &Annotation) -> Option<u64>
    ensures { IfSome result (λ n. n ≡ first_node proof.now) }
{
    (proof.preds().len() as u64).checked_add(proof.triples().len() as u64)
}

/// The number of the first step among the items.
fn first_step(proof: &Annotation) -> Option<u64>
    ensures { IfSome result (λ n. n ≡ first_step proof.now) }
{
    match first_node(proof) {
        Some(first) => first.checked_add(proof.nodes().len() as u64),
        None => None,
    }
}

/// The check of the triples.
fn check_triples(
    alloc: Global,
    icfg: &Icfg,
    proof: &Annotation,
    outline: &Outline,
) -> Result<(), Reject>
    requires { Names icfg.now proof.now (sketch outline.now) }
    ensures outcome { IsOutcome (PassesIn icfg.now proof.now (sketch outline.now) RejectCause.BadTriple) RejectCause.BadTriple result }
    ensures valid { IsTrue (is_annotation proof.now) }
{
    let first = proof.preds().len() as u64;
    let bad = first_bad_triple(alloc, icfg, &outline.triples)?;
    match bad {
        Some(k) => Err(at(Some(first), k, RejectCause::BadTriple)),
        None => Ok(()),
    }
}

/// The check of the start.
fn check_start(icfg: &Icfg, proof: &Annotation, outline: &Outline) -> Result<(), Reject>
    ensures { IsOutcome (PassesIn icfg.now proof.now (sketch outline.now) RejectCause.NoStart) RejectCause.NoStart result }
{
    if has_start(&outline.nodes) {
        Ok(())
    } else {
        Err(at(first_step(proof), proof.steps().len(), RejectCause::NoStart))
    }
}

/// The check of the nodes at error places.
fn check_errors(icfg: &Icfg, proof: &Annotation, outline: &Outline) -> Result<(), Reject>
    requires { Names icfg.now proof.now (sketch outline.now) }
    ensures outcome { IsOutcome (PassesIn icfg.now proof.now (sketch outline.now) RejectCause.OpenError) RejectCause.OpenError result }
    ensures valid { Keeps icfg.now }
{
    match first_open_error(icfg.nwa(), &outline.nodes) {
        Some(n) => Err(at(first_node(proof), n, RejectCause::OpenError)),
        None => Ok(()),
    }
}

/// The check of the steps and backs.
fn check_steps(icfg: &Icfg, proof: &Annotation, plan: &Plan<'_>) -> Result<(), Reject>
    requires { Names icfg.now proof.now plan.now }
    ensures { IsOutcome (PassesIn icfg.now proof.now plan.now RejectCause.BadStep) RejectCause.BadStep result }
{
    match first_bad_step(icfg, plan) {
        Some(k) => Err(at(first_step(proof), k, RejectCause::BadStep)),
        None => Ok(()),
    }
}

/// The check that no step and no back is missing.
fn check_covering(icfg: &Icfg, proof: &Annotation, plan: &Plan<'_>) -> Result<(), Reject>
    requires { Names icfg.now proof.now plan.now }
    ensures { IsOutcome (PassesIn icfg.now proof.now plan.now RejectCause.MissingStep) RejectCause.MissingStep result }
{
    match first_uncovered(icfg, plan) {
        Some(n) => Err(at(first_node(proof), n, RejectCause::MissingStep)),
        None => Ok(()),
    }
}

/// The checks that go by the plan, behind the others, which pass.
fn check_plan(icfg: &Icfg, proof: &Annotation, plan: &Plan<'_>) -> Result<(), Reject>
    requires names { Names icfg.now proof.now plan.now }
    requires triples { (item : ℕ) → PassesIn icfg.now proof.now plan.now RejectCause.BadTriple item }
    requires start { (item : ℕ) → PassesIn icfg.now proof.now plan.now RejectCause.NoStart item }
    requires errors { (item : ℕ) → PassesIn icfg.now proof.now plan.now RejectCause.OpenError item }
    ensures { AreOutcomes icfg.now proof.now plan.now result }
{
    check_steps(icfg, proof, plan)?;
    check_covering(icfg, proof, plan)
}

/// The checks of what the lines name.
fn check_outline(
    alloc: Global,
    icfg: &Icfg,
    proof: &Annotation,
    outline: &Outline,
) -> Result<(), Reject>
    requires { Names icfg.now proof.now (sketch outline.now) }
    ensures outcome { AreOutcomes icfg.now proof.now (sketch outline.now) result }
    ensures infeasible { OnOk result ((w : List Letter) → Accepts icfg.now.automaton w → IsFeasible (alphabet_of icfg.now) w → ⊥) }
{
    check_triples(alloc, icfg, proof, outline)?;
    check_start(icfg, proof, outline)?;
    check_errors(icfg, proof, outline)?;
    let plan = Plan::new(alloc, outline)?;
    check_plan(icfg, proof, &plan)
}

/// Checks an annotation as `check` does, and answers what its lines name.
pub fn named_proof(alloc: Global, icfg: &Icfg, proof: &Annotation) -> Result<Outline, Reject>
    ensures named { IfOk result (λ o. Names icfg.now proof.now (sketch o)) }
    ensures proves { OnOk result (Proves icfg.now proof.now) }
    ensures accepts { Proves icfg.now proof.now → (item : ℕ) (cause : RejectCause) → result ≡ Err (Reject.At item cause) → ⊥ }
    ensures first { (item : ℕ) (cause : RejectCause) → result ≡ Err (Reject.At item cause) → IsFirst icfg.now proof.now item cause }
    ensures infeasible { OnOk result ((w : List Letter) → Accepts icfg.now.automaton w → IsFeasible (alphabet_of icfg.now) w → ⊥) }
{
    match outline(alloc, icfg, proof) {
        Ok(outline) => {
            check_outline(alloc, icfg, proof, &outline)?;
            Ok(outline)
        }
        Err(NameFault::At(item)) => Err(Reject::At {
            item,
            cause: RejectCause::BadName,
        }),
        Err(NameFault::Memory) => Err(Reject::Memory),
    }
}

/// Checks an annotation of the graph. `Ok` comes exactly where it proves the graph, want of memory apart; then no word that the
/// automaton accepts is feasible. `At` names the first check that fails, at its first item.
pub fn check(alloc: Global, icfg: &Icfg, proof: &Annotation) -> Result<(), Reject>
    ensures proves { OnOk result (Proves icfg.now proof.now) }
    ensures accepts { Proves icfg.now proof.now → (item : ℕ) (cause : RejectCause) → result ≡ Err (Reject.At item cause) → ⊥ }
    ensures first { (item : ℕ) (cause : RejectCause) → result ≡ Err (Reject.At item cause) → IsFirst icfg.now proof.now item cause }
    ensures infeasible { OnOk result ((w : List Letter) → Accepts icfg.now.automaton w → IsFeasible (alphabet_of icfg.now) w → ⊥) }
{
    named_proof(alloc, icfg, proof)?;
    Ok(())
}
