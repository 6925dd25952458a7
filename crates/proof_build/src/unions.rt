//! The automaton over the numbers of predicates.

ghost use Rattle.std.specs.Prelude.{◌≡◌, ℕ, ◌+◌, ◌<◌, ◌++◌, Some, [], IfOk, OnOk, length, map};
ghost use Rattle.std.specs.List.{AllByRecursion, filter_map};
ghost use Rattle.nwa_base.specs.declared.letters.Kind.TheVariants.{Inside, Call, Back};
ghost use Rattle.proof_build.specs.Numbering.{number_at};
ghost use Rattle.proof_build.specs.Ties.Unions.{numbered, numbered_back, with_edges, IsUnionOf};

use crate::numbers::{at, numbers_of};
use crate::proof_unwind::added;
use itp_automaton::{Certified, Predicates};
use nwa_base::{Letter, Nwa, empty};
use std::alloc::{AllocError, Global};

/// The edge between the numbers of its states, if they have numbers.
fn by_number(numbers: &[Option<u32>], edge: (u32, Letter, u32)) -> Option<(u32, Letter, u32)>
    ensures { result ≡ numbered (number_at numbers.now) edge }
{
    let (from, to) = (at(numbers, edge.0)?, at(numbers, edge.2)?);
    Some((from, edge.1, to))
}

/// The return edge between the numbers of its states, if they have numbers.
fn back_by_number(
    numbers: &[Option<u32>],
    edge: (u32, u32, Letter, u32),
) -> Option<(u32, u32, Letter, u32)>
    ensures { result ≡ numbered_back (number_at numbers.now) edge }
{
    let (exit, before) = (at(numbers, edge.0)?, at(numbers, edge.1)?);
    let to = at(numbers, edge.3)?;
    Some((exit, before, edge.2, to))
}

/// Adds inside edges by number.
fn add_insides(
    union: &mut Nwa,
    numbers: &[Option<u32>],
    edges: &[(u32, Letter, u32)],
) -> Result<(), AllocError>
    requires within { (q k : ℕ) → number_at numbers.now q ≡ Some k → k < union.old.states }
    requires kinds { AllByRecursion (λ e. e.1.kind ≡ Inside) edges.now }
    ensures { OnOk result (union.new ≡ record union.old { insides = union.old.insides ++ filter_map (numbered (number_at numbers.now)) edges.now }) }
{
    for &edge in edges {
        if let Some((from, letter, to)) = by_number(numbers, edge) {
            added(union.add_inside(from, letter, to))?;
        }
    }
    Ok(())
}

/// Adds call edges by number.
fn add_calls(
    union: &mut Nwa,
    numbers: &[Option<u32>],
    edges: &[(u32, Letter, u32)],
) -> Result<(), AllocError>
    requires within { (q k : ℕ) → number_at numbers.now q ≡ Some k → k < union.old.states }
    requires kinds { AllByRecursion (λ e. e.1.kind ≡ Call) edges.now }
    ensures { OnOk result (union.new ≡ record union.old { calls = union.old.calls ++ filter_map (numbered (number_at numbers.now)) edges.now }) }
{
    for &edge in edges {
        if let Some((from, letter, to)) = by_number(numbers, edge) {
            added(union.add_call(from, letter, to))?;
        }
    }
    Ok(())
}

/// Adds return edges by number.
fn add_backs(
    union: &mut Nwa,
    numbers: &[Option<u32>],
    edges: &[(u32, u32, Letter, u32)],
) -> Result<(), AllocError>
    requires within { (q k : ℕ) → number_at numbers.now q ≡ Some k → k < union.old.states }
    requires kinds { AllByRecursion (λ e. e.2.kind ≡ Back) edges.now }
    ensures { OnOk result (union.new ≡ record union.old { backs = union.old.backs ++ filter_map (numbered_back (number_at numbers.now)) edges.now }) }
{
    for &edge in edges {
        if let Some((exit, before, letter, to)) = back_by_number(numbers, edge) {
            added(union.add_back(exit, before, letter, to))?;
        }
    }
    Ok(())
}

/// Adds the edges of an automaton by number.
fn add_edges(union: &mut Nwa, numbers: &[Option<u32>], automaton: &Nwa) -> Result<(), AllocError>
    requires { (q k : ℕ) → number_at numbers.now q ≡ Some k → k < union.old.states }
    ensures { OnOk result (union.new ≡ with_edges (number_at numbers.now) automaton.now union.old) }
{
    prove!(automaton.start() < automaton.states());
    add_insides(union, numbers, automaton.insides())?;
    add_calls(union, numbers, automaton.calls())?;
    add_backs(union, numbers, automaton.backs())
}

/// The states for so many listed predicates, true and false: it starts with true, and false is final.
fn begun(alloc: Global, preds: &Predicates) -> Result<Nwa, AllocError>
    ensures union { IfOk result (IsUnionOf preds.now []) }
    ensures states { IfOk result (λ u. u.states ≡ 2 + length preds.now) }
{
    let states = match u32::try_from(preds.as_slice().len()) {
        Ok(count) if count < u32::MAX - 1 => count + 2,
        _ => return Err(AllocError),
    };
    let mut union = added(empty(alloc, states, 0))?;
    let Ok(()) = added(union.set_final(1)) else {
        drop(union);
        return Err(AllocError);
    };
    Ok(union)
}

/// The union of the automata, with the edges between states that have numbers.
pub(crate) fn union_of(
    alloc: Global,
    preds: &Predicates,
    automata: &[&Certified],
) -> Result<Nwa, AllocError>
    ensures { IfOk result (IsUnionOf preds.now (map (λ c. c.now) automata.now)) }
{
    let mut union = begun(alloc, preds)?;
    let Ok(()) = add_automata(alloc, preds, automata, &mut union) else {
        drop(union);
        return Err(AllocError);
    };
    Ok(union)
}

/// Adds the edges of the automata between states that have numbers.
fn add_automata(
    alloc: Global,
    preds: &Predicates,
    automata: &[&Certified],
    union: &mut Nwa,
) -> Result<(), AllocError>
    requires union { IsUnionOf preds.now [] union.old }
    requires states { union.old.states ≡ 2 + length preds.now }
    ensures { OnOk result (IsUnionOf preds.now (map (λ c. c.now) automata.now) union.new) }
{
    for automaton in automata {
        let numbers = numbers_of(alloc, preds, automaton.preds())?;
        add_edges(union, &numbers, automaton.nwa())?;
    }
    Ok(())
}
