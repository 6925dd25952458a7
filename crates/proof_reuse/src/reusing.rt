//! The automaton of an earlier annotation.

ghost use Rattle.std.specs.Prelude.{ℕ, List, [], IfOk, length};
ghost use Rattle.std.specs.List.{AllByRecursion};
ghost use Rattle.letter_acts.specs.Invariant.{alphabet_of};
ghost use Rattle.triple_rows.specs.declared.triples.Triple.{Triple};
ghost use Rattle.hoare_check.specs.Decided.{RefutesUncut};
ghost use Rattle.itp_automaton.specs.Certified.{IsCertified};
ghost use Rattle.itp_automaton.specs.Making.{HasStates, HasEdge};
ghost use Rattle.proof_reuse.specs.Found.{found_preds};
ghost use Rattle.proof_reuse.specs.Candidates.{IsCandidate};
ghost use Rattle.proof_reuse.specs.Ties.Choices.{IsTakenFrom};
ghost use Rattle.proof_reuse.specs.Ties.Settling.{IsSettling};

use crate::settling::settle_all;
use crate::taking::taken_from;
use itp_automaton::{Certified, certified};
use letter_acts::Icfg;
use proof_form::Annotation;
use std::alloc::{AllocError, Global};
use std::mem::replace;
use std::thread::Threads;
use triple_rows::{Proof, Scoped};

/// The predicates of an earlier annotation that are found, and the proofs of its candidates.
fn settled<R: Threads + Sync>(
    rt: &R,
    alloc: Global,
    icfg: &Icfg,
    old: &Annotation,
) -> Result<(Vec<Scoped>, Vec<Proof>), AllocError>
    ensures { IfOk result (λ r. (insides : List (ℕ × ℕ)) × (calls : List (ℕ × ℕ)) × (backs : List (ℕ × ℕ × ℕ)) × IsTakenFrom icfg.now old.now (record { preds = r.0.items; insides = insides; calls = calls; backs = backs }) × IsSettling icfg.now old.now (length icfg.now.acts) [] r.1.items) }
{
    let mut earlier = taken_from(alloc, icfg, old)?;
    let proofs = settle_all(rt, alloc, icfg, &earlier);
    let preds = replace(&mut earlier.preds, Vec::new(alloc));
    drop(earlier);
    Ok((preds, proofs?))
}

/// The automaton of the candidates of an earlier annotation that hold in this program. Its states are true and false of each
/// procedure and the predicates that are found again. Its edges are candidates, among them each that Decide refutes without
/// cuts within the numbers that fit. Where it asks for too much, by `limits.rt`, it is want of memory.
pub fn reuse<R: Threads + Sync>(
    rt: &R,
    alloc: Global,
    icfg: &Icfg,
    old: &Annotation,
) -> Result<Certified, AllocError>
    ensures certified { IfOk result (IsCertified (alphabet_of icfg.now)) }
    ensures states { IfOk result (HasStates icfg.now (found_preds icfg.now old.now)) }
    ensures candidates { IfOk result (λ c. AllByRecursion (λ p. IsCandidate icfg.now old.now p.triple) c.proofs) }
    ensures all { IfOk result (λ c. (x : Triple) → IsCandidate icfg.now old.now x → RefutesUncut (alphabet_of icfg.now) x →
        HasEdge (alphabet_of icfg.now) c.preds c.automaton x) }
{
    let (preds, proofs) = settled(rt, alloc, icfg, old)?;
    match certified(alloc, icfg, preds, proofs)? {
        Some(certified) => Ok(certified),
        None => unreachable!(),
    }
}
