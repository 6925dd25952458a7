//! Edges: by letters of the alphabet, where their acts lead, none to place 0, with one call letter for each place.

ghost use Rattle.std.specs.Prelude.{◌≡◌, ◌≢◌, ◌↔◌, ℕ, [], Some, None, IsTrue, MatchOption, slice_get};
ghost use Rattle.std.specs.List.{AllByRecursion};
ghost use Rattle.nwa_base.specs.declared.letters.Letter.{Letter};
ghost use Rattle.nwa_base.specs.Members.{Member};
ghost use Rattle.letter_acts.specs.Acts.{plain_act, plain_acts, act_of, letter_of};
ghost use Rattle.letter_acts.specs.Invariant.{IsPlaceOf, IsOld, InsideFollows, CallFollows, BackFollows, BackLeaves, HasOneCall, HasEdges};
ghost use Rattle.letter_acts.specs.Checks.{AgreesWithCall, BackAgrees};
ghost use Rattle.letter_acts.specs.Parts.{graph_of, alphabet};

use crate::acts::Act;
use crate::checks::columns::is_not_old;
use crate::checks::procedures::is_place_of;
use crate::finding::{act_of, columns_of};
use crate::parts::Parts;
use boogie_tree::{Column, VarInfo};
use nwa_base::{Letter, Nwa};

fn write_no_old(frame: &[(Column, VarInfo)], written: &[u32]) -> bool
    ensures { IsTrue result ↔ AllByRecursion (λ c. IsOld frame.now c → ⊥) written.now }
{
    written.iter().all(|column| is_not_old(frame, *column))
}

fn inside_follows(parts: &Parts, edge: (u32, Letter, u32)) -> bool
    ensures { IsTrue result ↔ InsideFollows (graph_of parts.now) edge }
{
    let (from, letter, to) = edge;
    match act_of(&parts.acts, letter) {
        Some(Act::Inside { proc, written, .. }) => {
            let procs = parts.place_procs.as_slice();
            is_place_of(procs, *proc as usize, from)
                && is_place_of(procs, *proc as usize, to)
                && to != 0
                && (from == 0 || write_no_old(columns_of(&parts.frames, *proc), written))
        }
        _ => false,
    }
}

/// Whether the place is the one that the list has for the procedure.
fn is_listed(places: &[Option<u32>], proc: u32, place: u32) -> bool
    ensures { IsTrue result ↔ (slice_get places.now proc ≡ Some (Some place)) }
{
    match places.get(proc as usize) {
        Some(Some(found)) => *found == place,
        _ => false,
    }
}

fn call_follows(parts: &Parts, edge: (u32, Letter, u32)) -> bool
    ensures { IsTrue result ↔ CallFollows (graph_of parts.now) edge }
{
    let (from, letter, to) = edge;
    match act_of(&parts.acts, letter) {
        Some(Act::Call { caller, callee, .. }) => {
            is_place_of(&parts.place_procs, *caller as usize, from)
                && is_listed(&parts.entries, *callee, to)
                && to != 0
        }
        _ => false,
    }
}

/// Whether a return from a call with this act leads from the callee's exit to the caller.
fn leaves_call(parts: &Parts, call: u32, from: u32, before: u32, to: u32) -> bool
    ensures { IsTrue result ↔ BackLeaves (graph_of parts.now) (slice_get (plain_acts parts.now.acts.items) call) from before to }
{
    match parts.acts.get(call as usize) {
        Some(Act::Call { caller, callee, .. }) => {
            is_listed(&parts.exits, *callee, from)
                && is_place_of(&parts.place_procs, *caller as usize, before)
                && is_place_of(&parts.place_procs, *caller as usize, to)
        }
        _ => false,
    }
}

fn back_follows(parts: &Parts, edge: (u32, u32, Letter, u32)) -> bool
    ensures { IsTrue result ↔ BackFollows (graph_of parts.now) edge }
{
    let (from, before, letter, to) = edge;
    act_of(&parts.acts, letter).is_some()
        && leaves_call(parts, letter.call, from, before, to)
        && to != 0
}

fn insides_follow(parts: &Parts) -> bool
    ensures { IsTrue result ↔ AllByRecursion (InsideFollows (graph_of parts.now)) parts.now.nwa.insides }
{
    parts
        .nwa
        .insides()
        .iter()
        .all(|edge| inside_follows(parts, *edge))
}

fn calls_follow(parts: &Parts) -> bool
    ensures { IsTrue result ↔ AllByRecursion (CallFollows (graph_of parts.now)) parts.now.nwa.calls }
{
    parts
        .nwa
        .calls()
        .iter()
        .all(|edge| call_follows(parts, *edge))
}

fn backs_follow(parts: &Parts) -> bool
    ensures { IsTrue result ↔ AllByRecursion (BackFollows (graph_of parts.now)) parts.now.nwa.backs }
{
    parts
        .nwa
        .backs()
        .iter()
        .all(|edge| back_follows(parts, *edge))
}

/// Whether the first call edge from the place, if there is one, is by the call letter.
fn agrees_with_call(nwa: &Nwa, place: u32, call: u32) -> bool
    ensures { IsTrue result ↔ AgreesWithCall nwa.now place call }
{
    match nwa.calls_leaving(place).first() {
        Some(first) => first.1.id == call,
        None => true,
    }
}

/// Whether the returns with the place before them name no other call than this.
fn are_returned_by(edges: &[(u32, u32, Letter, u32)], place: u32, call: u32) -> bool
    ensures { IsTrue result ↔ AllByRecursion (λ b. b.1 ≡ place → b.2.call ≡ call) edges.now }
{
    edges
        .iter()
        .all(|edge| edge.1 != place || edge.2.call == call)
}

/// Whether a return names the call letter of the place before it. Where no call edge leaves that place, the other returns
/// with it are read.
fn back_agrees(nwa: &Nwa, edge: (u32, u32, Letter, u32)) -> bool
    ensures { IsTrue result ↔ BackAgrees nwa.now edge }
{
    let (_, before, letter, _) = edge;
    if nwa.calls_leaving(before).is_empty() {
        are_returned_by(nwa.backs(), before, letter.call)
    } else {
        agrees_with_call(nwa, before, letter.call)
    }
}

fn calls_agree(nwa: &Nwa) -> bool
    ensures { IsTrue result ↔ AllByRecursion (λ e. AgreesWithCall nwa.now e.0 e.1.id) nwa.now.calls }
{
    nwa.calls()
        .iter()
        .all(|edge| agrees_with_call(nwa, edge.0, edge.1.id))
}

fn backs_agree(nwa: &Nwa) -> bool
    ensures { IsTrue result ↔ AllByRecursion (BackAgrees nwa.now) nwa.now.backs }
{
    nwa.backs().iter().all(|edge| back_agrees(nwa, *edge))
}

/// Whether each place has one call letter.
fn has_one_call(nwa: &Nwa) -> bool
    ensures { IsTrue result ↔ HasOneCall nwa.now }
{
    calls_agree(nwa) && backs_agree(nwa)
}

pub(super) fn has_edges(parts: &Parts) -> bool
    ensures { IsTrue result ↔ HasEdges (graph_of parts.now) }
{
    insides_follow(parts) && calls_follow(parts) && backs_follow(parts) && has_one_call(&parts.nwa)
}
