//! Which triples have proofs already.

ghost use Rattle.std.specs.Prelude.{◌≡◌, IsTrue, length};
ghost use Rattle.itp_automaton.specs.Settling.{IsListed, IsWithin, letter_in, triple_from};

use crate::equality::{is_back, is_call, is_inside};
use crate::sources::Source;
use std::alloc::{AllocError, Global};
use triple_rows::{Proof, Scoped, Triple};

/// The number of a triple's letter.
fn letter_in(triple: &Triple) -> u32
    ensures { result ≡ letter_in triple.now }
{
    match triple {
        Triple::Inside { letter, .. } | Triple::Call { letter, .. } | Triple::Back { letter, .. } =>
            *letter,
    }
}

/// The places of the proofs by the letters of their triples, of letters below the count. Which they are, `is_listed` tries.
pub(crate) fn by_letter(
    alloc: Global,
    count: u32,
    proofs: &[Proof],
) -> Result<Vec<Vec<usize>>, AllocError> {
    let mut places = Vec::with_capacity(alloc, count as usize)?;
    for _letter in 0..count {
        places.push(Vec::new(alloc))?;
    }
    for (place, proof) in proofs.iter().enumerate() {
        if let Some(listed) = places.get_mut(letter_in(proof.triple()) as usize) {
            listed.push(place)?;
        }
    }
    Ok(places)
}

/// Whether the triple is that from a source by a letter to a target.
fn is_triple_from(
    triple: &Triple,
    states: &[Scoped],
    source: Source,
    letter: u32,
    after: &Scoped,
) -> bool
    requires { IsWithin (length states.now) source }
    ensures { IsTrue result → triple_from states.now source letter after.now ≡ triple.now }
{
    match source {
        Source::Inside(q) => is_inside(triple, &states[q], letter, after),
        Source::Call(q) => is_call(triple, &states[q], letter, after),
        Source::Back(q, p) => is_back(triple, &states[q], &states[p], letter, after),
    }
}

/// Whether the proof at this place is of the triple.
fn is_proof_of(
    proofs: &[Proof],
    place: usize,
    states: &[Scoped],
    source: Source,
    letter: u32,
    after: &Scoped,
) -> bool
    requires { IsWithin (length states.now) source }
    ensures { IsTrue result → IsListed proofs.now (triple_from states.now source letter after.now) }
{
    if place >= proofs.len() {
        return false;
    }
    let proof = &proofs[place];
    is_triple_from(proof.triple(), states, source, letter, after)
}

/// Whether one of the proofs at these places is of the triple from a source by a letter to a target.
pub(crate) fn is_listed(
    proofs: &[Proof],
    places: &[usize],
    states: &[Scoped],
    source: Source,
    letter: u32,
    after: &Scoped,
) -> bool
    requires { IsWithin (length states.now) source }
    ensures { IsTrue result → IsListed proofs.now (triple_from states.now source letter after.now) }
{
    for place in places {
        if is_proof_of(proofs, *place, states, source, letter, after) {
            return true;
        }
    }
    false
}

/// The places of the proofs by a letter.
pub(crate) fn places_of(listed: &Vec<Vec<usize>>, letter: u32) -> &[usize] {
    match listed.get(letter as usize) {
        Some(places) => places.as_slice(),
        None => &[],
    }
}
