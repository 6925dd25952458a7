//! Whether letters make a lasso of a graph.

ghost use Rattle.std.specs.Prelude.{◌≡◌, ◌↔◌, ◌∷◌, [], map, slice_get, IsTrue, IfOk, OnOk, IfErr};
ghost use Rattle.std.specs.List.{AllByRecursion};
ghost use Rattle.rank_lasso.specs.LassoTurns.Turns.{inside_letter, StaysIn};
ghost use Rattle.rank_lasso.specs.LassoRanks.Lassos.{plain_lasso, entry_proc, AreOfEntry, IsLassoOf, IsNoLassoBy};
ghost use Rattle.rank_lasso.specs.LassoRanks.Ties.Walks.{IsWalkOf, ComesBack};

use crate::lasso_ranks::lassos::{Lasso, LassoFault};
use letter_acts::{Act, Icfg};
use nwa_base::{Kind, Letter, Nwa, Pair, on_inside};
use std::alloc::{AllocError, Global};

/// Whether the letters make a lasso of the graph: inside letters of the procedure of place 0, by whose edges the stem leads
/// from there to a place, and the loop from that place back to it. It walks from all ends of the stem at once.
///
/// # Errors
///
/// The line is that of a lasso's text: 2 for the stem, 3 for the loop. `BadName` comes exactly where a letter is no inside letter
/// of that procedure, at the first such line. Otherwise `BadStep` comes exactly where the stem leads nowhere, or the loop from
/// no end of the stem back to it. `Syntax` does not come, `Memory` where memory ran out.
pub fn placed(alloc: Global, icfg: &Icfg, lasso: &Lasso) -> Result<(), LassoFault>
    ensures lasso { OnOk result (IsLassoOf icfg.now (plain_lasso lasso.now)) }
    ensures fault { IfErr result (IsNoLassoBy icfg.now (plain_lasso lasso.now)) }
{
    if !are_of_entry(icfg, &lasso.stem) {
        return Err(LassoFault::BadName { line: 2 });
    }
    if !are_of_entry(icfg, &lasso.turn) {
        return Err(LassoFault::BadName { line: 3 });
    }
    has_way(alloc, icfg, lasso)
}

/// The procedure of place 0.
pub(crate) fn entry_proc(icfg: &Icfg) -> u32
    ensures { result ≡ entry_proc icfg.now }
{
    icfg.place_procs().first().copied().unwrap_or(0)
}

/// Whether all are inside letters of the procedure of place 0.
fn are_of_entry(icfg: &Icfg, letters: &[u32]) -> bool
    ensures { IsTrue result ↔ AreOfEntry icfg.now letters.now }
{
    let proc = entry_proc(icfg);
    letters
        .iter()
        .all(|letter| is_inside_of(icfg, proc, *letter))
}

/// Whether it is an inside letter of the procedure.
fn is_inside_of(icfg: &Icfg, proc: u32, letter: u32) -> bool
    ensures { IsTrue result ↔ StaysIn proc (slice_get icfg.now.acts letter) }
{
    match icfg.act(letter) {
        Some(Act::Inside { proc: own, .. }) => *own == proc,
        Some(Act::Call { .. }) | Some(Act::Back { .. }) | None => false,
    }
}

/// Whether edges by the letters of the stem lead somewhere, and from there by those of the loop back.
fn has_way(alloc: Global, icfg: &Icfg, lasso: &Lasso) -> Result<(), LassoFault>
    requires stem { AreOfEntry icfg.now lasso.now.stem.items }
    requires turn { AreOfEntry icfg.now lasso.now.turn.items }
    ensures lasso { OnOk result (IsLassoOf icfg.now (plain_lasso lasso.now)) }
    ensures fault { IfErr result (IsNoLassoBy icfg.now (plain_lasso lasso.now)) }
{
    let nwa = icfg.nwa();
    let ends = ends_of_stem(alloc, nwa, &lasso.stem)?;
    let places = ends.as_slice();
    if is_none(places) {
        return Err(LassoFault::BadStep { line: 2 });
    }
    if comes_back(alloc, nwa, places, &lasso.turn)? {
        Ok(())
    } else {
        Err(LassoFault::BadStep { line: 3 })
    }
}

/// Whether there is no pair.
fn is_none(pairs: &[Pair]) -> bool
    ensures { IsTrue result ↔ (pairs.now ≡ []) }
{
    pairs.is_empty()
}

/// The places to which the letters lead from place 0, each in a pair with that.
fn ends_of_stem(alloc: Global, nwa: &Nwa, stem: &[u32]) -> Result<Vec<Pair>, AllocError>
    ensures { IfOk result (λ t. IsWalkOf nwa.now stem.now ((0, 0) ∷ []) t.items) }
{
    let mut start = Vec::new(alloc);
    start.push((0, 0))?;
    walked(alloc, nwa, start, stem)
}

/// Whether the letters lead from the second place of some pair back to it. Walks from all of them at once, each under its own number.
fn comes_back(alloc: Global, nwa: &Nwa, ends: &[Pair], turn: &[u32]) -> Result<bool, AllocError>
    ensures { IfOk result (λ yes. IsTrue yes ↔ ComesBack nwa.now turn.now ends.now) }
{
    let heads = heads_of(alloc, ends)?;
    let round = walked(alloc, nwa, heads, turn)?;
    Ok(!all_end_elsewhere(&round))
}

/// Each second place in a pair with itself.
fn heads_of(alloc: Global, ends: &[Pair]) -> Result<Vec<Pair>, AllocError>
    ensures { IfOk result (λ v. v.items ≡ map (λ p. (p.1, p.1)) ends.now) }
{
    ends.iter().map(|pair| (pair.1, pair.1)).collect(alloc)
}

/// Whether no pair ends at the place that it began at.
fn all_end_elsewhere(pairs: &[Pair]) -> bool
    ensures { IsTrue result ↔ AllByRecursion (λ p. p.0 ≡ p.1 → ⊥) pairs.now }
{
    pairs.iter().all(|pair| pair.0 != pair.1)
}

/// Where the letters lead from a set of pairs.
fn walked(
    alloc: Global,
    nwa: &Nwa,
    set: Vec<Pair>,
    letters: &[u32],
) -> Result<Vec<Pair>, AllocError>
    ensures { IfOk result (λ t. IsWalkOf nwa.now letters.now set.items t.items) }
{
    let mut now = set;
    for letter in letters {
        now = on_inside(alloc, nwa, &now, inside_letter(*letter))?;
    }
    Ok(now)
}

/// The inside letter of that number.
fn inside_letter(number: u32) -> Letter
    ensures { result ≡ inside_letter number }
{
    Letter {
        id: number,
        kind: Kind::Inside,
        call: 0,
    }
}
