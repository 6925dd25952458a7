//! Procedures: a name, a frame, an entry and an exit each, and a procedure for each place.

ghost use Rattle.std.specs.Prelude.{◌↔◌, ◌<◌, IsTrue};
ghost use Rattle.std.specs.List.{AllByRecursion};
ghost use Rattle.letter_acts.specs.Invariant.{IsPlaceOf, HasBody, HaveBodies, HasProcedures};
ghost use Rattle.letter_acts.specs.Parts.{graph_of};

use crate::parts::Parts;

/// Whether the place belongs to the procedure.
pub(super) fn is_place_of(procs: &[u32], proc: usize, place: u32) -> bool
    ensures { IsTrue result ↔ IsPlaceOf procs.now proc place }
{
    match procs.get(place as usize) {
        Some(found) => *found as usize == proc,
        None => false,
    }
}

/// Whether a procedure has an entry and an exit of its own, or neither.
fn has_body(procs: &[u32], proc: usize, entry: Option<u32>, exit: Option<u32>) -> bool
    ensures { IsTrue result ↔ HasBody procs.now proc entry exit }
{
    match entry {
        None => exit.is_none(),
        Some(first) => match exit {
            None => false,
            Some(last) => is_place_of(procs, proc, first) && is_place_of(procs, proc, last),
        },
    }
}

/// Whether each procedure has an entry and an exit of its own, or neither.
fn have_bodies(procs: &[u32], entries: &[Option<u32>], exits: &[Option<u32>]) -> bool
    ensures { IsTrue result ↔ HaveBodies procs.now 0 entries.now exits.now }
{
    if entries.len() != exits.len() {
        return false;
    }
    for proc in 0..entries.len() {
        if !has_body(procs, proc, entries[proc], exits[proc]) {
            return false;
        }
    }
    true
}

/// Whether the procedure of each place exists.
fn procs_exist(procs: &[u32], count: usize) -> bool
    ensures { IsTrue result ↔ AllByRecursion (λ p. p < count) procs.now }
{
    procs.iter().all(|proc| (*proc as usize) < count)
}

/// Whether there is a name, a frame, an entry and an exit for each procedure, and a procedure for each place.
pub(super) fn has_procedures(parts: &Parts) -> bool
    ensures { IsTrue result ↔ HasProcedures (graph_of parts.now) }
{
    let count = parts.frames.len();
    parts.names.len() == count
        && parts.entries.len() == count
        && parts.exits.len() == count
        && parts.place_procs.len() == parts.nwa.states() as usize
        && procs_exist(&parts.place_procs, count)
        && have_bodies(&parts.place_procs, &parts.entries, &parts.exits)
        && parts.nwa.start() == 0
}
