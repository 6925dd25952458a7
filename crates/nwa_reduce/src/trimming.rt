//! Names for the states that lie on ways from the start to final states.

ghost use Rattle.std.specs.Prelude.{◌≡◌, ◌<◌, ◌≤◌, ◌^◌, ◌↔◌, ℕ, List, None, Some, length, slice_set, IfOk};
ghost use Rattle.nwa_base.specs.Members.{Member};
ghost use Rattle.nwa_reduce.specs.Ways.{IsReached, CanEnd};
ghost use Rattle.nwa_reduce.specs.Ties.Naming.{named, IsTrimming, IsOrder, IsIndex};

use crate::naming::Names;
use crate::searching::search;
use crate::states::States;
use crate::stepping::{predecessors, successors};
use nwa_base::Nwa;
use std::alloc::{AllocError, Global};

/// Names for the start and the useful states. They follow the ways back from the final states.
pub fn useful_names(alloc: Global, nwa: &Nwa) -> Result<Names, AllocError>
    ensures { IfOk result (λ n. IsTrimming nwa.now n.of.items n.count) }
{
    let kept = useful_states(alloc, nwa)?;
    named_by(alloc, nwa, &kept)
}

/// The start and the useful states, in the order of the ways back from the final states.
fn useful_states(alloc: Global, nwa: &Nwa) -> Result<States, AllocError>
    ensures { IfOk result (λ kept. (reached : List ℕ) × (ending : List ℕ) × ((q : ℕ) → Member reached q ↔ IsReached nwa.now q) × ((q : ℕ) → Member ending q ↔ CanEnd nwa.now q) × IsOrder nwa.now.start reached ending kept) }
{
    let reached = reached(alloc, nwa)?;
    let ending = ending(alloc, nwa)?;
    ordered(alloc, nwa, &reached, ending.as_slice())
}

/// The places of the states that are kept as their names.
fn named_by(alloc: Global, nwa: &Nwa, kept: &States) -> Result<Names, AllocError>
    requires { (reached : List ℕ) × (ending : List ℕ) × ((q : ℕ) → Member reached q ↔ IsReached nwa.now q) × ((q : ℕ) → Member ending q ↔ CanEnd nwa.now q) × IsOrder nwa.now.start reached ending kept.now }
    ensures { IfOk result (λ n. IsTrimming nwa.now n.of.items n.count) }
{
    let kept = kept.as_slice();
    let of = places(alloc, nwa.states(), kept)?;
    Ok(Names {
        of,
        count: kept.len() as u32,
    })
}

/// The states to which ways lead from the start.
fn reached(alloc: Global, nwa: &Nwa) -> Result<States, AllocError>
    ensures { IfOk result (λ s. (q : ℕ) → Member s q ↔ IsReached nwa.now q) }
{
    let steps = successors(alloc, nwa)?;
    let found = search(alloc, &[nwa.start()], &steps)?;
    Ok(found)
}

/// The states from which ways lead to final states, those on short ways first.
fn ending(alloc: Global, nwa: &Nwa) -> Result<States, AllocError>
    ensures { IfOk result (λ s. (q : ℕ) → Member s q ↔ CanEnd nwa.now q) }
{
    let steps = predecessors(alloc, nwa)?;
    let found = search(alloc, nwa.finals(), &steps)?;
    Ok(found)
}

/// The start and the states that stand in both sets, in the order of the second.
fn ordered(alloc: Global, nwa: &Nwa, reached: &States, ending: &[u32]) -> Result<States, AllocError>
    ensures { IfOk result (λ kept. IsOrder nwa.now.start reached.now ending.now kept) }
{
    let mut kept = States::new(alloc);
    for &state in ending {
        if reached.contains(state) {
            kept.insert(state)?;
        }
    }
    kept.insert(nwa.start())?;
    Ok(kept)
}

/// The place of each state among those that are kept.
fn places(alloc: Global, states: u32, kept: &[u32]) -> Result<Vec<Option<u32>>, AllocError>
    requires { length kept.now ≤ states }
    ensures { IfOk result (λ of. IsIndex kept.now of.items × (length of.items ≡ states)) }
{
    let mut of = vec![in alloc; None; states as usize]?;
    place_each(&mut of, kept);
    Ok(of)
}

/// Writes the place of each state that is kept, where there are no places yet.
fn place_each(of: &mut Vec<Option<u32>>, kept: &[u32])
    requires few { length kept.now < 2 ^ 32 }
    requires none { (q : ℕ) → named of.old.items q ≡ None }
    ensures index { IsIndex kept.now of.new.items }
    ensures long { length of.new.items ≡ length of.old.items }
{
    for place in 0..kept.len() {
        write_place(of, kept[place] as usize, place as u32);
    }
}

/// Writes the place of a state.
fn write_place(of: &mut Vec<Option<u32>>, state: usize, place: u32)
    ensures { of.new.items ≡ slice_set of.old.items state (Some place) }
{
    if state < of.len() {
        of[state] = Some(place);
    }
}
