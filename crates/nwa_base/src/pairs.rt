//! Sets of pairs of states, and where letters lead from them.

ghost use Rattle.std.specs.Prelude.{◌≡◌, ◌↔◌, ℕ, ◌++◌, IsTrue, IfOk, OnOk};
ghost use Rattle.std.specs.HashMap.{get};
ghost use Rattle.nwa_base.specs.Groups.{grouped};
ghost use Rattle.nwa_base.specs.Members.{Member, SameMembers};
ghost use Rattle.nwa_base.specs.Edges.{ends, back_ends};
ghost use Rattle.nwa_base.specs.Pairs.{IsInsideOf, IsCallOf, IsBackOf};
ghost use Rattle.nwa_base.specs.Ties.Reading.{keyed, expanded, seconds};

use crate::automata::Nwa;
use crate::groups::Groups;
use crate::letters::Letter;
use std::alloc::{AllocError, Global};

/// A state before a call, and the present state.
pub type Pair = (u32, u32);

/// The pairs to which the inside letter `a` leads from a set.
pub fn on_inside(alloc: Global, nwa: &Nwa, set: &[Pair], a: Letter) -> Result<Vec<Pair>, AllocError>
    ensures { IfOk result (λ t. IsInsideOf nwa.now a set.now t.items) }
{
    Ok(as_set(inside_pairs(alloc, nwa, set, a)?))
}

/// The pairs to which the call letter `a` leads from a set.
pub fn on_call(alloc: Global, nwa: &Nwa, set: &[Pair], a: Letter) -> Result<Vec<Pair>, AllocError>
    ensures { IfOk result (λ t. IsCallOf nwa.now a set.now t.items) }
{
    Ok(as_set(call_pairs(alloc, nwa, set, a)?))
}

/// The pairs to which the return `a` leads from a set, where `before` was the set before the call.
pub fn on_back(
    alloc: Global,
    nwa: &Nwa,
    before: &[Pair],
    set: &[Pair],
    a: Letter,
) -> Result<Vec<Pair>, AllocError>
    ensures { IfOk result (λ t. IsBackOf nwa.now a before.now set.now t.items) }
{
    let exits = as_set(exit_pairs(alloc, nwa, set, a)?);
    let by_call = grouped(alloc, exits.as_slice())?;
    Ok(as_set(joined(alloc, before, &by_call)?))
}

/// Whether the pair stands in the set.
pub fn holds(set: &[Pair], pair: Pair) -> bool
    ensures { IsTrue result ↔ Member set.now pair }
{
    set.contains(&pair)
}

/// The key and where an inside letter leads, for each pair.
fn inside_pairs(alloc: Global, nwa: &Nwa, set: &[Pair], a: Letter) -> Result<Vec<Pair>, AllocError>
    ensures { IfOk result (λ v. v.items ≡ expanded (λ x. x.0) (λ x. ends x.1 a nwa.now.insides) set.now) }
{
    let mut pairs = Vec::new(alloc);
    for &(key, q) in set {
        add_keyed(&mut pairs, key, nwa.inside_ends(q, a))?;
    }
    Ok(pairs)
}

/// The state before a call letter and where the letter leads, for each pair.
fn call_pairs(alloc: Global, nwa: &Nwa, set: &[Pair], a: Letter) -> Result<Vec<Pair>, AllocError>
    ensures { IfOk result (λ v. v.items ≡ expanded (λ x. x.1) (λ x. ends x.1 a nwa.now.calls) set.now) }
{
    let mut pairs = Vec::new(alloc);
    for &(_, q) in set {
        add_keyed(&mut pairs, q, nwa.call_ends(q, a))?;
    }
    Ok(pairs)
}

/// The state before the call and where a return leads, for each pair.
fn exit_pairs(alloc: Global, nwa: &Nwa, set: &[Pair], a: Letter) -> Result<Vec<Pair>, AllocError>
    ensures { IfOk result (λ v. v.items ≡ expanded (λ x. x.0) (λ x. back_ends x.1 x.0 a nwa.now.backs) set.now) }
{
    let mut pairs = Vec::new(alloc);
    for &(p, q) in set {
        add_keyed(&mut pairs, p, nwa.back_ends(q, p, a))?;
    }
    Ok(pairs)
}

/// The pairs, in groups by their first state.
fn grouped(alloc: Global, pairs: &[Pair]) -> Result<Groups<u32, u32>, AllocError>
    ensures { IfOk result (λ g. (p : ℕ) → grouped (get ⟦<u32 as PartialEq>⟧.eq g.by_key p) ≡ seconds p pairs.now) }
{
    let mut groups = Groups::new(alloc);
    for &(p, e) in pairs {
        groups.add(p, e)?;
    }
    Ok(groups)
}

/// For each pair its key, with the ends that are grouped under its state.
fn joined(alloc: Global, set: &[Pair], groups: &Groups<u32, u32>) -> Result<Vec<Pair>, AllocError>
    ensures { IfOk result (λ v. v.items ≡ expanded (λ x. x.0) (λ x. grouped (get ⟦<u32 as PartialEq>⟧.eq groups.now.by_key x.1)) set.now) }
{
    let mut pairs = Vec::new(alloc);
    for &(key, p) in set {
        add_keyed(&mut pairs, key, groups.of(&p))?;
    }
    Ok(pairs)
}

/// Adds each of the ends, with the key.
fn add_keyed(pairs: &mut Vec<Pair>, key: u32, to: &[u32]) -> Result<(), AllocError>
    ensures { OnOk result (pairs.new.items ≡ pairs.old.items ++ keyed key to.now) }
{
    for &e in to {
        pairs.push((key, e))?;
    }
    Ok(())
}

/// The pairs in order, each once.
fn as_set(mut pairs: Vec<Pair>) -> Vec<Pair>
    ensures { SameMembers pairs.items result.items }
{
    pairs.sort_unstable();
    pairs.dedup();
    pairs
}
