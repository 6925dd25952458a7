ghost use Rattle.std.specs.Prelude.{◌≡◌, ◌↔◌, false, IsTrue, IsSome, IfOk, IfSome};
ghost use Rattle.letter_acts.specs.Invariant.{alphabet_of};
ghost use Rattle.triple_rows.specs.Systems.{PlainFits};
ghost use Rattle.triple_rows.specs.Triples.{Agrees, IsValid, IsRefuted, IsUnrefuted, system_of};

use crate::proofs::Proof;
use crate::systems::systems_of;
use crate::triples::Triple;
use farkas_check::{Refutation, check};
use letter_acts::Icfg;
use lin_rows::RowFault;
use std::alloc::{AllocError, Global};

/// The proof of a triple whose kind and scopes agree with its letter. `None` exactly where its system has a number that does
/// not fit, or the refutation does not refute it.
pub fn proof(
    alloc: Global,
    icfg: &Icfg,
    triple: Triple,
    refutation: Refutation,
) -> Result<Option<Proof>, AllocError>
    requires { Agrees (alphabet_of icfg.now) triple }
    ensures found { IfOk result (λ o. IsSome o ↔ IsRefuted (alphabet_of icfg.now) triple refutation) }
    ensures missed { IfOk result (λ o. o ≡ None → PlainFits (system_of (alphabet_of icfg.now) triple) → IsUnrefuted (alphabet_of icfg.now) triple refutation) }
    ensures value { IfOk result (λ o. IfSome o (λ p. p ≡ record { triple = triple; refutation = refutation })) }
    ensures valid { IfOk result (λ o. IsSome o → IsValid (alphabet_of icfg.now) triple) }
{
    if is_refuted(alloc, icfg, &triple, &refutation)? {
        Ok(Some(Proof::new(triple, refutation)))
    } else {
        Ok(None)
    }
}

/// Whether all numbers of the triple's system fit, and the refutation refutes it.
fn is_refuted(
    alloc: Global,
    icfg: &Icfg,
    triple: &Triple,
    refutation: &Refutation,
) -> Result<bool, AllocError>
    requires { Agrees (alphabet_of icfg.now) triple.now }
    ensures exact { IfOk result (λ yes. IsTrue yes ↔ IsRefuted (alphabet_of icfg.now) triple.now refutation.now) }
    ensures missed { IfOk result (λ yes. yes ≡ false → PlainFits (system_of (alphabet_of icfg.now) triple.now) → IsUnrefuted (alphabet_of icfg.now) triple.now refutation.now) }
    ensures valid { IfOk result (λ yes. IsTrue yes → IsValid (alphabet_of icfg.now) triple.now) }
{
    let system = match systems_of(alloc, icfg, triple) {
        Ok(system) => system,
        Err(RowFault::Past) => return Ok(false),
        Err(RowFault::Memory) => return Err(AllocError),
    };
    check(alloc, &system, refutation)
}
