//! The triples of proofs, by the numbers of their predicates.

ghost use Rattle.std.specs.Prelude.{ℕ, [], ◌∷◌, IfOk, MatchOption, map};
ghost use Rattle.triple_rows.specs.declared.triples.Triple.TheVariants as triples;
ghost use Rattle.proof_names.specs.ProofSpell.Drafts.{plain};
ghost use Rattle.proof_build.specs.Numbering.{IsNumberOf};
ghost use Rattle.proof_build.specs.Ties.Listing.{AreItsNumbers, IsFirst, AreNumbersOf, AreNeededOnce, Shows, AreTriplesOf};

use crate::noted::Noted;
use crate::numbers::number_of;
use itp_automaton::{Certified, Predicates};
use proof_names::Listed;
use proof_names::proof_spell::Shown;
use std::alloc::{AllocError, Global};
use triple_rows::{Proof, Scoped, Triple};

/// The numbers of two predicates, if both have numbers.
fn both(
    preds: &Predicates,
    first: &Scoped,
    second: &Scoped,
) -> Result<Option<(usize, usize)>, AllocError>
    ensures { IfOk result (λ o. MatchOption o ((q r : ℕ) → IsNumberOf preds.now first.now q → IsNumberOf preds.now second.now r → ⊥) (λ n. IsNumberOf preds.now first.now n.0 × IsNumberOf preds.now second.now n.1)) }
{
    let (Some(first), Some(second)) = (number_of(preds, first)?, number_of(preds, second)?) else {
        return Ok(None);
    };
    Ok(Some((first as usize, second as usize)))
}

/// The numbers of a triple, if its predicates have numbers.
fn listed(preds: &Predicates, triple: &Triple) -> Result<Option<Listed>, AllocError>
    ensures { IfOk result (AreItsNumbers preds.now triple.now) }
{
    match triple {
        Triple::Inside { from, letter, to } => {
            let Some((from, to)) = both(preds, from, to)? else {
                return Ok(None);
            };
            let letter = *letter;
            Ok(Some(Listed::Inside { from, letter, to }))
        }
        Triple::Call { from, letter, to } => {
            let Some((from, to)) = both(preds, from, to)? else {
                return Ok(None);
            };
            let letter = *letter;
            Ok(Some(Listed::Call { from, letter, to }))
        }
        Triple::Back {
            exit,
            before,
            letter,
            to,
        } => listed_back(preds, exit, before, *letter, to),
    }
}

/// The numbers of a return triple, if its predicates have numbers.
fn listed_back(
    preds: &Predicates,
    exit: &Scoped,
    before: &Scoped,
    letter: u32,
    to: &Scoped,
) -> Result<Option<Listed>, AllocError>
    ensures { IfOk result (AreItsNumbers preds.now (triples.Back exit.now before.now letter to.now)) }
{
    let Some((exit, before)) = both(preds, exit, before)? else {
        return Ok(None);
    };
    let Some(to) = number_of(preds, to)? else {
        return Ok(None);
    };
    Ok(Some(Listed::Back {
        exit,
        before,
        letter,
        to: to as usize,
    }))
}

/// Whether the numbers are needed and were not seen; they are seen from now on.
fn is_first(needed: &Noted, seen: &mut Noted, listed: Listed) -> Result<bool, AllocError>
    ensures { IfOk result (λ first. IsFirst needed.now seen.old listed first seen.new) }
{
    if !needed.contains(listed) {
        return Ok(false);
    }
    seen.insert(listed)
}

/// The triples and that of the proof with its refutation, if it is needed and not there yet.
fn with_proof<'a>(
    preds: &Predicates,
    needed: &Noted,
    seen: &mut Noted,
    mut triples: Vec<Shown<'a>>,
    proof: &'a Proof,
) -> Result<Vec<Shown<'a>>, AllocError>
    requires { AreNumbersOf needed.now seen.old (map plain triples.items) }
    ensures shows { IfOk result (λ v. Shows preds.now needed.now (proof.now ∷ []) (map plain triples.entry.items) (map plain v.items)) }
    ensures numbers { IfOk result (λ v. AreNumbersOf needed.now seen.new (map plain v.items)) }
{
    let Some(listed) = listed(preds, proof.triple())? else {
        return Ok(triples);
    };
    if !is_first(needed, seen, listed)? {
        return Ok(triples);
    }
    triples.push(Shown {
        listed,
        proof: proof.refutation(),
    })?;
    Ok(triples)
}

/// The triples and those of the proofs that are needed and not there yet, each with its refutation.
fn with_proofs<'a>(
    preds: &Predicates,
    needed: &Noted,
    seen: &mut Noted,
    mut triples: Vec<Shown<'a>>,
    proofs: &'a [Proof],
) -> Result<Vec<Shown<'a>>, AllocError>
    requires { AreNumbersOf needed.now seen.old (map plain triples.items) }
    ensures shows { IfOk result (λ v. Shows preds.now needed.now proofs.now (map plain triples.entry.items) (map plain v.items)) }
    ensures numbers { IfOk result (λ v. AreNumbersOf needed.now seen.new (map plain v.items)) }
{
    for proof in proofs {
        triples = with_proof(preds, needed, seen, triples, proof)?;
    }
    Ok(triples)
}

/// The triples of the proofs that are needed, each once.
pub(crate) fn triples_of<'a>(
    alloc: Global,
    preds: &Predicates,
    needed: &Noted,
    automata: &[&'a Certified],
) -> Result<Vec<Shown<'a>>, AllocError>
    ensures triples { IfOk result (λ v. AreTriplesOf preds.now (map (λ c. c.now) automata.now) needed.now (map plain v.items)) }
    ensures once { IfOk result (λ v. AreNeededOnce needed.now (map plain v.items)) }
{
    let mut seen = Noted::new(alloc);
    let mut triples = Vec::new(alloc);
    for automaton in automata {
        triples = with_proofs(preds, needed, &mut seen, triples, automaton.proofs())?;
    }
    Ok(triples)
}
