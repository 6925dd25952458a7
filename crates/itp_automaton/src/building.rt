//! The saturated automaton of a word's predicates.

ghost use Rattle.std.specs.Prelude.{◌≡◌, IfOk};
ghost use Rattle.std.specs.List.{AllByRecursion};
ghost use Rattle.nwa_base.specs.Acceptance.{Accepts};
ghost use Rattle.letter_acts.specs.Invariant.{alphabet_of};
ghost use Rattle.letter_acts.specs.Kept.{Keeps};
ghost use Rattle.hoare_check.specs.Decided.{IsProofFor};
ghost use Rattle.itp_automaton.specs.Certified.{IsCertified};
ghost use Rattle.itp_automaton.specs.Saturated.{IsSaturated};
ghost use Rattle.itp_automaton.specs.Making.{HasStates};
ghost use Rattle.itp_automaton.specs.Words.{AreAlong};

use crate::automata::Certified;
use crate::faults::BuildFault;
use crate::saturating::saturate;
use letter_acts::Icfg;
use nested_itp::Interpolants;
use nwa_base::Word;
use std::alloc::{AllocError, Global};
use std::thread::Threads;
use triple_rows::{Proof, Scoped};

/// Equal predicates.
fn copied_preds(alloc: Global, preds: &[Scoped]) -> Result<Vec<Scoped>, AllocError>
    ensures { IfOk result (λ copies. copies.items ≡ preds.now) }
{
    let mut copies = Vec::with_capacity(alloc, preds.len())?;
    for pred in preds {
        copies.push(pred.copy()?)?;
    }
    Ok(copies)
}

/// An equal proof.
fn copied_proof(known: &Proof) -> Result<Proof, AllocError>
    ensures { IfOk result (λ copy. copy ≡ known.now) }
{
    let triple = known.triple().copy()?;
    let refutation = known.refutation().copy()?;
    Ok(Proof::new(triple, refutation))
}

/// Equal proofs.
fn copied_proofs(alloc: Global, proofs: &[Proof]) -> Result<Vec<Proof>, AllocError>
    ensures { IfOk result (λ copies. copies.items ≡ proofs.now) }
{
    let mut copies = Vec::with_capacity(alloc, proofs.len())?;
    for known in proofs {
        copies.push(copied_proof(known)?)?;
    }
    Ok(copies)
}

/// The saturated automaton over the predicates along a word of the graph, true and false, which accepts the word. `proofs` are
/// those of the triples between the predicates.
fn build_along<R: Threads + Sync>(
    rt: &R,
    alloc: Global,
    icfg: &Icfg,
    word: &Word,
    preds: &[Scoped],
    proofs: &[Proof],
) -> Result<Certified, BuildFault>
    requires accepted { Accepts icfg.now.automaton word.now }
    requires along { AreAlong icfg.now word.now preds.now proofs.now }
    ensures accepts { IfOk result (λ c. Accepts c.automaton word.now) }
    ensures certified { IfOk result (IsCertified (alphabet_of icfg.now)) }
    ensures saturated { IfOk result (IsSaturated (alphabet_of icfg.now)) }
    ensures states { IfOk result (HasStates icfg.now preds.now) }
{
    // Contracts alone speak of these.
    let (_graph, _word) = (icfg.nwa(), word);
    let states = copied_preds(alloc, preds)?;
    let known = copied_proofs(alloc, proofs)?;
    Ok(saturate(rt, alloc, icfg, states, known)?)
}

/// The saturated automaton over the interpolants of a word, true and false, which accepts the word.
pub fn build<R: Threads + Sync>(
    rt: &R,
    alloc: Global,
    icfg: &Icfg,
    word: &Word,
    itp: &Interpolants,
) -> Result<Certified, BuildFault>
    requires accepted { Accepts icfg.now.automaton word.now }
    requires along { AreAlong icfg.now word.now itp.now.preds itp.now.proofs }
    ensures accepts { IfOk result (λ c. Accepts c.automaton word.now) }
    ensures certified { IfOk result (IsCertified (alphabet_of icfg.now)) }
    ensures saturated { IfOk result (IsSaturated (alphabet_of icfg.now)) }
    ensures states { IfOk result (HasStates icfg.now itp.now.preds) }
{
    build_along(rt, alloc, icfg, word, itp.preds(), itp.proofs())
}
