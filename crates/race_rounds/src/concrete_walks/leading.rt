//! Places from which a failure can be reached.

use nwa_base::Nwa;
use std::alloc::{AllocError, Global};

/// The places from which edges lead to a final state, whatever calls are open. A walk that leaves them fails nowhere.
#[derive(Drop)]
pub(crate) struct Leading {
    /// By place, whether it is one of them.
    places: Vec<bool>,
}

impl Leading {
    /// Those of an automaton, found from its final states backwards.
    pub fn new(alloc: Global, nwa: &Nwa) -> Result<Self, AllocError> {
        let mut places = vec![in alloc; false; nwa.states() as usize]?;
        find_leading(alloc, nwa, &mut places)?;
        Ok(Leading { places })
    }

    /// Whether the place is one of them.
    pub fn contains(&self, place: u32) -> bool {
        matches!(self.places.get(place as usize), Some(true))
    }
}

/// Finds the places, from the final states backwards.
fn find_leading(alloc: Global, nwa: &Nwa, places: &mut [bool]) -> Result<(), AllocError> {
    let steps = steps_by_end(alloc, nwa)?;
    let mut found = Vec::new(alloc);
    add_all(nwa.finals(), &steps, places, &mut found)
}

/// Adds the final states, and the places from which these steps lead to a place that was added. Those that are found stand in order.
fn add_all(
    finals: &[u32],
    steps: &[(u32, u32)],
    places: &mut [bool],
    found: &mut Vec<u32>,
) -> Result<(), AllocError> {
    for &place in finals {
        add(places, found, place)?;
    }
    for number in 0..places.len() {
        let Some(&place) = found.get(number) else {
            break;
        };
        add_begins(steps, place, places, found)?;
    }
    Ok(())
}

/// Adds the places from which a step leads to a place.
fn add_begins(
    steps: &[(u32, u32)],
    place: u32,
    places: &mut [bool],
    found: &mut Vec<u32>,
) -> Result<(), AllocError> {
    let first = steps.partition_point(|step| step.0 < place);
    for &(end, begin) in &steps[first..] {
        if end != place {
            break;
        }
        add(places, found, begin)?;
    }
    Ok(())
}

/// Adds a place, where it is not there yet.
fn add(places: &mut [bool], found: &mut Vec<u32>, place: u32) -> Result<(), AllocError> {
    if let Some(known) = places.get_mut(place as usize) {
        if !*known {
            *known = true;
            found.push(place)?;
        }
    }
    Ok(())
}

/// Where each edge leads and whence, ascending.
fn steps_by_end(alloc: Global, nwa: &Nwa) -> Result<Vec<(u32, u32)>, AllocError> {
    let mut steps = Vec::new(alloc);
    push_steps(&mut steps, nwa)?;
    steps.sort_unstable();
    Ok(steps)
}

/// Adds where each edge leads and whence at the end.
fn push_steps(steps: &mut Vec<(u32, u32)>, nwa: &Nwa) -> Result<(), AllocError> {
    for &(begin, _, end) in nwa.insides() {
        steps.push((end, begin))?;
    }
    for &(begin, _, end) in nwa.calls() {
        steps.push((end, begin))?;
    }
    for &(begin, _, _, end) in nwa.backs() {
        steps.push((end, begin))?;
    }
    Ok(())
}
