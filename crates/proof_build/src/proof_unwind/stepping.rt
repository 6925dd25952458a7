//! One step of the search: to a node that is there and claims no more, or to a new one.

ghost use Rattle.std.specs.Prelude.{◌≡◌, ◌<◌, OnOk, length};
ghost use Rattle.nwa_base.specs.Members.{Member};
ghost use Rattle.nwa_base.specs.declared.letters.Kind.TheVariants as kinds;
ghost use Rattle.proof_check.specs.Steps.{IsOpen};
ghost use Rattle.proof_build.specs.ProofUnwind.Unwindings.{node_at, node_place_in, entry_of};
ghost use Rattle.proof_build.specs.ProofUnwind.Exploring.{Explores, Stepped, Called, Returned};
ghost use Rattle.proof_build.specs.ProofUnwind.Ties.Searches.{stage_of};

use crate::proof_unwind::following::{follow, follow_back};
use crate::proof_unwind::search::{Search, entry_with, weaker};
use crate::proof_unwind::spots::Spot;
use nwa_base::{Letter, Nwa};
use std::alloc::{AllocError, Global};

/// The step from a node by an inside letter to the place.
pub(crate) fn inside_step(
    alloc: Global,
    graph: &Nwa,
    union: &Nwa,
    search: &mut Search,
    from: u32,
    letter: Letter,
    place: u32,
) -> Result<(), AllocError>
    requires exploring { Explores graph.now union.now (stage_of search.old) }
    requires there { from < length (stage_of search.old).nodes }
    requires opens { IsOpen (node_at (stage_of search.old).nodes from) }
    requires edge { Member graph.now.insides (node_place_in (stage_of search.old).nodes from, letter, place) }
    requires kind { letter.kind ≡ kinds.Inside }
    ensures { OnOk result (Stepped graph.now union.now from letter place (stage_of search.old) (stage_of search.new)) }
{
    let spot = &search.spots[from as usize];
    let entry = spot.entry;
    let preds = follow(alloc, union, false, &spot.preds, letter)?;
    let there = search.candidates.under(place, entry);
    if let Some(to) = weaker(&search.spots, there, place, entry, &preds) {
        return search.link_inside(from, letter, to);
    }
    let to = search.add(Spot {
        place,
        entry,
        preds,
    })?;
    search.link_inside(from, letter, to)
}

/// The step from a node by a call letter to the place: to the entry node there that has all the predicates that follow.
pub(crate) fn call_step(
    alloc: Global,
    graph: &Nwa,
    union: &Nwa,
    search: &mut Search,
    from: u32,
    letter: Letter,
    place: u32,
) -> Result<(), AllocError>
    requires exploring { Explores graph.now union.now (stage_of search.old) }
    requires there { from < length (stage_of search.old).nodes }
    requires opens { IsOpen (node_at (stage_of search.old).nodes from) }
    requires edge { Member graph.now.calls (node_place_in (stage_of search.old).nodes from, letter, place) }
    requires kind { letter.kind ≡ kinds.Call }
    ensures { OnOk result (Called graph.now union.now from letter place (stage_of search.old) (stage_of search.new)) }
{
    let spot = &search.spots[from as usize];
    let preds = follow(alloc, union, true, &spot.preds, letter)?;
    let there = search.candidates.entries(place);
    if let Some(to) = entry_with(&search.spots, there, place, &preds) {
        return search.link_call(from, letter, to);
    }
    let entry = search.steps.states();
    let to = search.add(Spot {
        place,
        entry,
        preds,
    })?;
    search.link_call(from, letter, to)
}

/// The back from an exit, with a node before the call, by a return letter to the place.
pub(crate) fn back_step(
    alloc: Global,
    graph: &Nwa,
    union: &Nwa,
    search: &mut Search,
    exit: u32,
    before: u32,
    call: Letter,
    letter: Letter,
    place: u32,
) -> Result<(), AllocError>
    requires exploring { Explores graph.now union.now (stage_of search.old) }
    requires exit { exit < length (stage_of search.old).nodes }
    requires before { before < length (stage_of search.old).nodes }
    requires open_exit { IsOpen (node_at (stage_of search.old).nodes exit) }
    requires open_before { IsOpen (node_at (stage_of search.old).nodes before) }
    requires called { Member search.old.steps.calls (before, call, entry_of (stage_of search.old).nodes exit) }
    requires names { letter.call ≡ call.id }
    requires edge { Member graph.now.backs (node_place_in (stage_of search.old).nodes exit, node_place_in (stage_of search.old).nodes before, letter, place) }
    requires call_kind { call.kind ≡ kinds.Call }
    requires kind { letter.kind ≡ kinds.Back }
    ensures { OnOk result (Returned graph.now union.now exit before letter place (stage_of search.old) (stage_of search.new)) }
{
    let caller = &search.spots[before as usize];
    let entry = caller.entry;
    let spot = &search.spots[exit as usize];
    let preds = follow_back(alloc, union, &spot.preds, &caller.preds, letter)?;
    let there = search.candidates.under(place, entry);
    if let Some(to) = weaker(&search.spots, there, place, entry, &preds) {
        return search.link_back(exit, before, letter, to);
    }
    let to = search.add(Spot {
        place,
        entry,
        preds,
    })?;
    search.link_back(exit, before, letter, to)
}
