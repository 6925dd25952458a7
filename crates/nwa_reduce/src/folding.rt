//! Whether an image accepts no more than its automaton, where states of different calls have one name.

ghost use Rattle.std.specs.Prelude.{◌≡◌, ◌<◌, ℕ, Some, IsTrue, length};
ghost use Rattle.nwa_base.specs.declared.letters.Letter.{Letter};
ghost use Rattle.nwa_base.specs.Members.{Member};
ghost use Rattle.nwa_reduce.specs.Ties.Naming.{named};
ghost use Rattle.nwa_reduce.specs.Ties.Levels.{AreJoins, Returns};
ghost use Rattle.nwa_reduce.specs.Ties.Folding.{IsFolding, IsCopy, IsStateCopy, IsJoinCopy, LeadsToName, ReturnsToName};

use crate::joining::returns;
use crate::naming::Names;
use nwa_base::{Letter, Nwa};

/// Whether each state has what the image has at its name.
pub fn is_folding(nwa: &Nwa, names: &Names, image: &Nwa, joins: &[(u32, u32)]) -> bool
    requires joins { AreJoins nwa.now joins.now }
    requires long { length names.now.of.items ≡ nwa.now.states }
    ensures { IsTrue result → IsFolding nwa.now (named names.now.of.items) image.now }
{
    if !states_are_copies(nwa, names, image) {
        return false;
    }
    joins_are_copies(nwa, names, image, joins)
}

/// Whether states are final, have edges by inside letters and calls, and are left by returns, where the image is so at their names.
fn states_are_copies(nwa: &Nwa, names: &Names, image: &Nwa) -> bool
    ensures { IsTrue result → (q : ℕ) → q < nwa.now.states → IsStateCopy nwa.now (named names.now.of.items) image.now q }
{
    for state in 0..nwa.states() {
        if !state_is_copy(nwa, names, image, state) {
            return false;
        }
    }
    true
}

fn state_is_copy(nwa: &Nwa, names: &Names, image: &Nwa, state: u32) -> bool
    ensures { IsTrue result → IsStateCopy nwa.now (named names.now.of.items) image.now state }
{
    let Some(name) = names.name(state) else {
        return false;
    };
    if !goes_with(image.is_final(name), nwa.is_final(state)) {
        return false;
    }
    if !goes_with(returns(image, name), returns(nwa, state)) {
        return false;
    }
    if !has_insides(nwa, names, state, image.insides_leaving(name)) {
        return false;
    }
    has_calls(nwa, names, state, image.calls_leaving(name))
}

/// Whether the second holds where the first does.
fn goes_with(first: bool, second: bool) -> bool
    ensures { IsTrue result → IsTrue first → IsTrue second }
{
    !first || second
}

/// Whether a state has an edge by the inside letter of each edge, to a state of that name.
fn has_insides(nwa: &Nwa, names: &Names, state: u32, edges: &[(u32, Letter, u32)]) -> bool
    ensures { IsTrue result → (e : ℕ × Letter × ℕ) → Member edges.now e → LeadsToName nwa.now.insides (named names.now.of.items) state e.1 e.2 }
{
    for &(_, letter, end) in edges {
        if !is_name_of_any(names, end, nwa.inside_ends(state, letter)) {
            return false;
        }
    }
    true
}

/// The same by calls.
fn has_calls(nwa: &Nwa, names: &Names, state: u32, edges: &[(u32, Letter, u32)]) -> bool
    ensures { IsTrue result → (e : ℕ × Letter × ℕ) → Member edges.now e → LeadsToName nwa.now.calls (named names.now.of.items) state e.1 e.2 }
{
    for &(_, letter, end) in edges {
        if !is_name_of_any(names, end, nwa.call_ends(state, letter)) {
            return false;
        }
    }
    true
}

/// Whether return edges lead between the states of each pair as the image's do between their names.
fn joins_are_copies(nwa: &Nwa, names: &Names, image: &Nwa, joins: &[(u32, u32)]) -> bool
    ensures { IsTrue result → (x : ℕ × ℕ) → Member joins.now x → IsJoinCopy nwa.now (named names.now.of.items) image.now x.0 x.1 }
{
    for &(before, exit) in joins {
        if !join_is_copy(nwa, names, image, before, exit) {
            return false;
        }
    }
    true
}

fn join_is_copy(nwa: &Nwa, names: &Names, image: &Nwa, before: u32, exit: u32) -> bool
    ensures { IsTrue result → IsJoinCopy nwa.now (named names.now.of.items) image.now before exit }
{
    let Some(name) = names.name(exit) else {
        return true;
    };
    let Some(outer) = names.name(before) else {
        return true;
    };
    has_backs(nwa, names, before, exit, image.backs_between(name, outer))
}

/// Whether a state has an edge by the return of each edge, to a state of that name.
fn has_backs(
    nwa: &Nwa,
    names: &Names,
    before: u32,
    exit: u32,
    edges: &[(u32, u32, Letter, u32)],
) -> bool
    ensures { IsTrue result → (e : ℕ × ℕ × Letter × ℕ) → Member edges.now e → ReturnsToName nwa.now.backs (named names.now.of.items) exit before e.2 e.3 }
{
    for &(_, _, letter, end) in edges {
        if !is_name_of_any(names, end, nwa.back_ends(exit, before, letter)) {
            return false;
        }
    }
    true
}

/// Whether a number is the name of one of the states.
fn is_name_of_any(names: &Names, name: u32, states: &[u32]) -> bool
    ensures { IsTrue result → (e : ℕ) × Member states.now e × (named names.now.of.items e ≡ Some name) }
{
    for &state in states {
        if is_name(names, name, state) {
            return true;
        }
    }
    false
}

/// Whether a number is the name of a state.
fn is_name(names: &Names, name: u32, state: u32) -> bool
    ensures { IsTrue result → named names.now.of.items state ≡ Some name }
{
    match names.name(state) {
        Some(known) => known == name,
        None => false,
    }
}
