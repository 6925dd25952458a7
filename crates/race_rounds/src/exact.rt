//! Kept words without coarse letters.

ghost use Rattle.std.specs.Prelude.{◌≡◌, ◌++◌, IfOk, OnOk};
ghost use Rattle.letter_acts.specs.Invariant.{mark_at};
ghost use Rattle.race_rounds.specs.Ties.Exact.{exact_edges, exact_backs, exact_part, IsExactFound};

use letter_acts::Icfg;
use nwa_base::{Letter, Nwa, NwaFault, empty};
use nwa_emptiness::{Found, find};
use std::alloc::{AllocError, Global};

/// Whether the letter is coarse.
fn is_coarse(icfg: &Icfg, letter: Letter) -> bool
    ensures { result ≡ mark_at icfg.now letter.id }
{
    match icfg.acts().get(letter.id as usize) {
        Some(act) => act.is_coarse(),
        None => false,
    }
}

/// Adds the final states of an automaton.
fn add_finals(nwa: &Nwa, exact: &mut Nwa) -> Result<(), NwaFault>
    ensures { OnOk result (exact.new ≡ record exact.old { finals = exact.old.finals ++ nwa.now.finals }) }
{
    for &last in nwa.finals() {
        exact.set_final(last)?;
    }
    Ok(())
}

/// Adds those of an automaton's edges by inside letters that are by no coarse letter.
fn add_insides(icfg: &Icfg, nwa: &Nwa, exact: &mut Nwa) -> Result<(), NwaFault>
    ensures { OnOk result (exact.new ≡ record exact.old { insides = exact.old.insides ++ exact_edges icfg.now nwa.now.insides }) }
{
    for &(from, letter, to) in nwa.insides() {
        if !is_coarse(icfg, letter) {
            exact.add_inside(from, letter, to)?;
        }
    }
    Ok(())
}

/// The same by calls.
fn add_calls(icfg: &Icfg, nwa: &Nwa, exact: &mut Nwa) -> Result<(), NwaFault>
    ensures { OnOk result (exact.new ≡ record exact.old { calls = exact.old.calls ++ exact_edges icfg.now nwa.now.calls }) }
{
    for &(from, letter, to) in nwa.calls() {
        if !is_coarse(icfg, letter) {
            exact.add_call(from, letter, to)?;
        }
    }
    Ok(())
}

/// The same by returns.
fn add_backs(icfg: &Icfg, nwa: &Nwa, exact: &mut Nwa) -> Result<(), NwaFault>
    ensures { OnOk result (exact.new ≡ record exact.old { backs = exact.old.backs ++ exact_backs icfg.now nwa.now.backs }) }
{
    for &(from, before, letter, to) in nwa.backs() {
        if !is_coarse(icfg, letter) {
            exact.add_back(from, before, letter, to)?;
        }
    }
    Ok(())
}

/// Adds the final states of an automaton, and those of its edges that are by no coarse letter.
fn add_exact(icfg: &Icfg, nwa: &Nwa, exact: &mut Nwa) -> Result<(), NwaFault>
    ensures { OnOk result (exact.new ≡ record exact.old { finals = exact.old.finals ++ nwa.now.finals; insides = exact.old.insides ++ exact_edges icfg.now nwa.now.insides; calls = exact.old.calls ++ exact_edges icfg.now nwa.now.calls; backs = exact.old.backs ++ exact_backs icfg.now nwa.now.backs }) }
{
    add_finals(nwa, exact)?;
    add_insides(icfg, nwa, exact)?;
    add_calls(icfg, nwa, exact)?;
    add_backs(icfg, nwa, exact)
}

/// The automaton without its edges by coarse letters.
fn without_coarse(alloc: Global, icfg: &Icfg, nwa: &Nwa) -> Result<Nwa, NwaFault>
    ensures { IfOk result (λ m. m ≡ exact_part icfg.now nwa.now) }
{
    let mut exact = empty(alloc, nwa.states(), nwa.start())?;
    add_exact(icfg, nwa, &mut exact)?;
    Ok(exact)
}

/// A word of the automaton that has no coarse letter, or that it accepts none.
pub(crate) fn exact_word(
    alloc: Global,
    icfg: &Icfg,
    nwa: &Nwa,
    order: u32,
) -> Result<Found, AllocError>
    ensures { IfOk result (IsExactFound icfg.now nwa.now) }
{
    match without_coarse(alloc, icfg, nwa) {
        Ok(exact) => find(alloc, &exact, order),
        // the edges of an automaton lead between its states, by letters of their kinds
        Err(NwaFault::Memory | NwaFault::BadState | NwaFault::BadLetter) => Err(AllocError),
    }
}
