//! Edges between states, one for each proved triple.

ghost use Rattle.std.specs.Prelude.{◌≡◌, ◌<◌, Err, Ok, Some, true, false, IfOk, MatchBool, length};
ghost use Rattle.letter_acts.specs.Invariant.{alphabet_of};
ghost use Rattle.triple_rows.specs.declared.triples.Triple.TheVariants as triples;
ghost use Rattle.triple_rows.specs.Triples.{Agrees};
ghost use Rattle.itp_automaton.specs.Settling.{NamesStates};
ghost use Rattle.itp_automaton.specs.Ties.Edges.{AddsInside, AddsCall, AddsBack, AddsEdge};

use crate::finding::Predicates;
use crate::letters::letter_at;
use crate::states::state_number;
use letter_acts::Icfg;
use nwa_base::{Nwa, NwaFault};
use std::alloc::AllocError;
use triple_rows::{Scoped, Triple};

/// What an automaton answers where its states are there and each letter has its kind.
pub(crate) fn added<T: Drop>(answer: Result<T, NwaFault>) -> Result<T, AllocError>
    requires state { answer ≡ Err NwaFault.BadState → ⊥ }
    requires letter { answer ≡ Err NwaFault.BadLetter → ⊥ }
    ensures { IfOk result (λ value. answer ≡ Ok value) }
{
    match answer {
        Ok(value) => Ok(value),
        Err(NwaFault::Memory) => Err(AllocError),
        Err(NwaFault::BadState | NwaFault::BadLetter) => unreachable!(),
    }
}

/// Adds the edge of an inside triple; false where it names a predicate that is no state.
fn add_inside(
    icfg: &Icfg,
    states: &Predicates,
    nwa: &mut Nwa,
    letter: u32,
    before: &Scoped,
    after: &Scoped,
) -> Result<bool, AllocError>
    requires agrees { Agrees (alphabet_of icfg.now) (triples.Inside before.now letter after.now) }
    requires states { nwa.old.states ≡ length states.now }
    ensures { IfOk result (λ found. MatchBool found
        (AddsInside (alphabet_of icfg.now) states.now before.now letter after.now nwa.old nwa.new)
        ((NamesStates states.now (triples.Inside before.now letter after.now) → ⊥) × (nwa.new ≡ nwa.old))) }
{
    let Some(q) = state_number(states, before)? else {
        return Ok(false);
    };
    let Some(e) = state_number(states, after)? else {
        return Ok(false);
    };
    added(nwa.add_inside(q, letter_at(icfg, letter), e))?;
    Ok(true)
}

/// Adds the edge of a call triple; false where it names a predicate that is no state.
fn add_call(
    icfg: &Icfg,
    states: &Predicates,
    nwa: &mut Nwa,
    letter: u32,
    before: &Scoped,
    after: &Scoped,
) -> Result<bool, AllocError>
    requires agrees { Agrees (alphabet_of icfg.now) (triples.Call before.now letter after.now) }
    requires states { nwa.old.states ≡ length states.now }
    ensures { IfOk result (λ found. MatchBool found
        (AddsCall (alphabet_of icfg.now) states.now before.now letter after.now nwa.old nwa.new)
        ((NamesStates states.now (triples.Call before.now letter after.now) → ⊥) × (nwa.new ≡ nwa.old))) }
{
    let Some(q) = state_number(states, before)? else {
        return Ok(false);
    };
    let Some(e) = state_number(states, after)? else {
        return Ok(false);
    };
    added(nwa.add_call(q, letter_at(icfg, letter), e))?;
    Ok(true)
}

/// Adds the edge of a return triple; false where it names a predicate that is no state.
fn add_back(
    icfg: &Icfg,
    states: &Predicates,
    nwa: &mut Nwa,
    letter: u32,
    exit: &Scoped,
    before: &Scoped,
    after: &Scoped,
) -> Result<bool, AllocError>
    requires agrees { Agrees (alphabet_of icfg.now) (triples.Back exit.now before.now letter after.now) }
    requires states { nwa.old.states ≡ length states.now }
    ensures { IfOk result (λ found. MatchBool found
        (AddsBack (alphabet_of icfg.now) states.now exit.now before.now letter after.now nwa.old nwa.new)
        ((NamesStates states.now (triples.Back exit.now before.now letter after.now) → ⊥) × (nwa.new ≡ nwa.old))) }
{
    let Some(q) = state_number(states, exit)? else {
        return Ok(false);
    };
    let Some(p) = state_number(states, before)? else {
        return Ok(false);
    };
    let Some(e) = state_number(states, after)? else {
        return Ok(false);
    };
    added(nwa.add_back(q, p, letter_at(icfg, letter), e))?;
    Ok(true)
}

/// Adds the edge of a triple that agrees with its letter; false where it names a predicate that is no state.
pub(crate) fn add_edge(
    icfg: &Icfg,
    states: &Predicates,
    nwa: &mut Nwa,
    triple: &Triple,
) -> Result<bool, AllocError>
    requires agrees { Agrees (alphabet_of icfg.now) triple.now }
    requires states { nwa.old.states ≡ length states.now }
    ensures { IfOk result (λ found. MatchBool found
        (AddsEdge (alphabet_of icfg.now) states.now triple.now nwa.old nwa.new)
        ((NamesStates states.now triple.now → ⊥) × (nwa.new ≡ nwa.old))) }
{
    match triple {
        Triple::Inside { from, letter, to } => add_inside(icfg, states, nwa, *letter, from, to),
        Triple::Call { from, letter, to } => add_call(icfg, states, nwa, *letter, from, to),
        Triple::Back {
            exit,
            before,
            letter,
            to,
        } => add_back(icfg, states, nwa, *letter, exit, before, to),
    }
}
