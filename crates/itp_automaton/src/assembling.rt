//! The automaton of states and proofs.

ghost use Rattle.std.specs.Prelude.{◌≡◌, ◌↔◌, ◌<◌, ℕ, Bool, Some, true, false, [], ◌∷◌, IsTrue, IfOk, IfSome, IsSome, OnOk, MatchBool, length, slice_get};
ghost use Rattle.std.specs.List.{AllByRecursion};
ghost use Rattle.nwa_base.specs.Members.{Member};
ghost use Rattle.letter_acts.specs.Invariant.{IsPlaceOf, alphabet_of};
ghost use Rattle.letter_acts.specs.Kept.{Keeps};
ghost use Rattle.triple_rows.specs.declared.predicates.PredNode.TheVariants.{Truth};
ghost use Rattle.hoare_check.specs.Decided.{IsProofFor};
ghost use Rattle.triple_rows.specs.Triples.{truth_of};
ghost use Rattle.itp_automaton.specs.Settling.{NamesStates};
ghost use Rattle.itp_automaton.specs.Certified.{IsCertified};
ghost use Rattle.itp_automaton.specs.Ties.Edges.{MarksFalse, IsBuilt};

use crate::automata::Certified;
use crate::edges::{add_edge, added};
use crate::finding::Predicates;
use crate::states::{state_number, truth};
use letter_acts::Icfg;
use nwa_base::{Nwa, empty};
use std::alloc::{AllocError, Global};
use triple_rows::{PredNode, Proof, Scoped};

/// The state that is true of the procedure in which the graph starts.
fn start_of(alloc: Global, icfg: &Icfg, states: &Predicates) -> Result<u32, AllocError>
    requires { (p : ℕ) (b : Bool) → p < length icfg.now.frames → Member states.now (truth_of p b) }
    ensures valid { OnOk result (Keeps icfg.now) }
    ensures start { IfOk result (λ q. (p : ℕ) × IsPlaceOf icfg.now.place_procs p 0 × (slice_get states.now q ≡ Some (truth_of p true))) }
{
    prove!(icfg.nwa().start() < icfg.nwa().states());
    let Some(proc) = icfg.place_procs().first() else {
        unreachable!()
    };
    match state_number(states, &truth(alloc, *proc, true)?)? {
        Some(q) => Ok(q),
        None => unreachable!(),
    }
}

/// Whether the predicate is false.
pub(crate) fn is_false(pred: &Scoped) -> bool
    ensures { IsTrue result ↔ (pred.now.pred ≡ Truth false ∷ []) }
{
    matches!(pred.pred.nodes(), [PredNode::Truth(false)])
}

/// Makes a state final, where it is false.
fn mark(nwa: &mut Nwa, q: u32, state: &Scoped) -> Result<(), AllocError>
    requires { q < nwa.old.states }
    ensures { OnOk result (MarksFalse state.now q nwa.old nwa.new) }
{
    if !is_false(state) {
        return Ok(());
    }
    added(nwa.set_final(q))?;
    Ok(())
}

/// The automaton of the states, with its start and final states, without edges.
fn begun(alloc: Global, icfg: &Icfg, states: &Predicates) -> Result<Nwa, AllocError>
    requires { (p : ℕ) (b : Bool) → p < length icfg.now.frames → Member states.now (truth_of p b) }
    ensures valid { OnOk result (Keeps icfg.now) }
    ensures built { IfOk result (λ m. IsBuilt icfg.now states.now [] m) }
{
    let start = start_of(alloc, icfg, states)?;
    let list = states.as_slice();
    let Ok(count) = u32::try_from(list.len()) else {
        return Err(AllocError);
    };
    let mut nwa = added(empty(alloc, count, start))?;
    for q in 0..count {
        mark(&mut nwa, q, &list[q as usize])?;
    }
    Ok(nwa)
}

/// Adds the edges of the proofs; false where one names a predicate that is no state.
fn add_edges(
    icfg: &Icfg,
    states: &Predicates,
    nwa: &mut Nwa,
    proofs: &[Proof],
) -> Result<bool, AllocError>
    requires proofs { AllByRecursion (IsProofFor (alphabet_of icfg.now)) proofs.now }
    requires begun { IsBuilt icfg.now states.now [] nwa.old }
    ensures { IfOk result (λ all. MatchBool all
        (IsBuilt icfg.now states.now proofs.now nwa.new)
        (AllByRecursion (λ p. NamesStates states.now p.triple) proofs.now → ⊥)) }
{
    for proof in proofs {
        if !add_edge(icfg, states, nwa, proof.triple())? {
            return Ok(false);
        }
    }
    Ok(true)
}

/// The edges of the proofs over the states, with the start and final ones. `None` exactly where one of them names a predicate
/// that is no state.
fn nwa_of(
    alloc: Global,
    icfg: &Icfg,
    states: &Predicates,
    proofs: &[Proof],
) -> Result<Option<Nwa>, AllocError>
    requires truths { (p : ℕ) (b : Bool) → p < length icfg.now.frames → Member states.now (truth_of p b) }
    requires proofs { AllByRecursion (IsProofFor (alphabet_of icfg.now)) proofs.now }
    ensures valid { OnOk result (Keeps icfg.now) }
    ensures found { IfOk result (λ o. IsSome o ↔ AllByRecursion (λ p. NamesStates states.now p.triple) proofs.now) }
    ensures built { IfOk result (λ o. IfSome o (IsBuilt icfg.now states.now proofs.now)) }
{
    let mut nwa = begun(alloc, icfg, states)?;
    if add_edges(icfg, states, &mut nwa, proofs)? {
        Ok(Some(nwa))
    } else {
        Ok(None)
    }
}

/// The automaton of the states whose edges are those of the proofs, which are for the graph. `None` exactly where one of them
/// names a predicate that is no state.
pub(crate) fn assembled(
    alloc: Global,
    icfg: &Icfg,
    states: Predicates,
    proofs: Vec<Proof>,
) -> Result<Option<Certified>, AllocError>
    requires truths { (p : ℕ) (b : Bool) → p < length icfg.now.frames → Member states (truth_of p b) }
    requires proofs { AllByRecursion (IsProofFor (alphabet_of icfg.now)) proofs.items }
    ensures found { IfOk result (λ o. IsSome o ↔ AllByRecursion (λ p. NamesStates states p.triple) proofs.items) }
    ensures certified { IfOk result (λ o. IfSome o (IsCertified (alphabet_of icfg.now))) }
    ensures preds { IfOk result (λ o. IfSome o (λ c. c.preds ≡ states)) }
    ensures proofs { IfOk result (λ o. IfSome o (λ c. c.proofs ≡ proofs.items)) }
    ensures built { IfOk result (λ o. IfSome o (λ c. IsBuilt icfg.now states proofs.items c.automaton)) }
{
    match nwa_of(alloc, icfg, &states, &proofs)? {
        Some(nwa) => Ok(Some(Certified::new(states.into_vec(), proofs, nwa))),
        None => Ok(None),
    }
}
