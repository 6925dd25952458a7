//! The check of the triples.

ghost use Rattle.std.specs.Prelude.{◌≡◌, ◌↔◌, ◌<◌, ℕ, Some, IsTrue, IfOk, slice_get};
ghost use Rattle.letter_acts.specs.Invariant.{alphabet_of};
ghost use Rattle.triple_rows.specs.Triples.{Agrees, IsRefuted};
ghost use Rattle.proof_names.specs.declared.outlines.NamedTriple.{NamedTriple};
ghost use Rattle.proof_check.specs.Proves.{IsShown};
ghost use Rattle.proof_check.specs.Ties.Firsts.{IsFirstOf};

use farkas_check::{Refutation, check};
use letter_acts::Icfg;
use lin_rows::RowFault;
use proof_names::NamedTriple;
use std::alloc::{AllocError, Global};
use triple_rows::{Triple, systems_of};

/// Whether all numbers of the triple's system fit, and the refutation refutes it.
fn is_refuted(
    alloc: Global,
    icfg: &Icfg,
    triple: &Triple,
    proof: &Refutation,
) -> Result<bool, AllocError>
    requires { Agrees (alphabet_of icfg.now) triple.now }
    ensures { IfOk result (λ yes. IsTrue yes ↔ IsRefuted (alphabet_of icfg.now) triple.now proof.now) }
{
    match systems_of(alloc, icfg, triple) {
        Ok(system) => check(alloc, &system, proof),
        Err(RowFault::Past) => Ok(false),
        Err(RowFault::Memory) => Err(AllocError),
    }
}

/// Whether there is a refutation that refutes the triple.
fn is_shown(alloc: Global, icfg: &Icfg, triple: &NamedTriple) -> Result<bool, AllocError>
    requires { Agrees (alphabet_of icfg.now) triple.now.triple }
    ensures { IfOk result (λ yes. IsTrue yes ↔ IsShown icfg.now triple.now) }
{
    match &triple.proof {
        Some(proof) => is_refuted(alloc, icfg, &triple.triple, proof),
        None => Ok(false),
    }
}

/// The first triple whose refutation does not refute its system.
pub fn first_bad_triple(
    alloc: Global,
    icfg: &Icfg,
    triples: &[NamedTriple],
) -> Result<Option<usize>, AllocError>
    requires { (k : ℕ) (t : NamedTriple) → slice_get triples.now k ≡ Some t → Agrees (alphabet_of icfg.now) t.triple }
    ensures { IfOk result (IsFirstOf (λ k t. IsShown icfg.now t) triples.now) }
{
    for k in 0..triples.len() {
        if !is_shown(alloc, icfg, &triples[k])? {
            return Ok(Some(k));
        }
    }
    Ok(None)
}
