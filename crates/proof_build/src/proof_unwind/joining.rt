//! Backs that join the exits of an entry node with the nodes from which calls lead to it.

ghost use Rattle.std.specs.Prelude.{◌<◌, ℕ, OnOk, length};
ghost use Rattle.nwa_base.specs.Members.{Member};
ghost use Rattle.nwa_base.specs.Automata.{IsAutomaton};
ghost use Rattle.proof_check.specs.Steps.{IsOpen};
ghost use Rattle.proof_build.specs.ProofUnwind.Unwindings.{node_at, entry_of};
ghost use Rattle.proof_build.specs.ProofUnwind.Exploring.{Explores, GoesOn, HasBacks, IsReturned, AreReturned, IsExit};
ghost use Rattle.proof_build.specs.ProofUnwind.Ties.Searches.{stage_of, exits_of};

use crate::proof_unwind::exits::Exits;
use crate::proof_unwind::search::Search;
use crate::proof_unwind::stepping::back_step;
use nwa_base::{Letter, Nwa};
use std::alloc::{AllocError, Global};

/// The backs from an exit, with the node before the call by this letter.
fn join(
    alloc: Global,
    graph: &Nwa,
    union: &Nwa,
    search: &mut Search,
    exit: u32,
    before: u32,
    call: Letter,
) -> Result<(), AllocError>
    requires graph { IsAutomaton graph.now }
    requires exploring { Explores graph.now union.now (stage_of search.old) }
    requires there { exit < length (stage_of search.old).nodes }
    requires opens { IsOpen (node_at (stage_of search.old).nodes exit) }
    requires called { Member search.old.steps.calls (before, call, entry_of (stage_of search.old).nodes exit) }
    ensures { OnOk result (GoesOn graph.now union.now (stage_of search.old) (stage_of search.new) × HasBacks graph.now (stage_of search.new) exit before call) }
{
    let place = search.place(exit);
    let outer = search.place(before);
    for &(_, _, letter, end) in graph.backs_between(place, outer) {
        if letter.call == call.id {
            back_step(alloc, graph, union, search, exit, before, call, letter, end)?;
        }
    }
    Ok(())
}

/// The backs from an exit, with each node from which a call leads to its entry node.
pub(crate) fn join_exit(
    alloc: Global,
    graph: &Nwa,
    union: &Nwa,
    search: &mut Search,
    exit: u32,
) -> Result<(), AllocError>
    requires graph { IsAutomaton graph.now }
    requires exploring { Explores graph.now union.now (stage_of search.old) }
    requires there { exit < length (stage_of search.old).nodes }
    requires opens { IsOpen (node_at (stage_of search.old).nodes exit) }
    ensures { OnOk result (GoesOn graph.now union.now (stage_of search.old) (stage_of search.new) × IsReturned graph.now (stage_of search.old) (stage_of search.new) exit) }
{
    let entry = search.entry(exit);
    let callers = Vec::from_slice(alloc, search.steps.calls_entering(entry))?;
    for &(before, call, _) in &callers {
        join(alloc, graph, union, search, exit, before, call)?;
    }
    Ok(())
}

/// The backs from the exits of an entry node, with a node from which a call by this letter leads to it.
fn join_call(
    alloc: Global,
    graph: &Nwa,
    union: &Nwa,
    exits: &Exits,
    search: &mut Search,
    before: u32,
    call: Letter,
    entry: u32,
) -> Result<(), AllocError>
    requires graph { IsAutomaton graph.now }
    requires exploring { Explores graph.now union.now (stage_of search.old) }
    requires called { Member search.old.steps.calls (before, call, entry) }
    requires exits { (x : ℕ) → Member (exits_of exits.now entry) x → IsExit (stage_of search.old).nodes entry x }
    ensures { OnOk result (GoesOn graph.now union.now (stage_of search.old) (stage_of search.new) × ((x : ℕ) → Member (exits_of exits.now entry) x → HasBacks graph.now (stage_of search.new) x before call)) }
{
    for exit in exits.of(entry) {
        join(alloc, graph, union, search, *exit, before, call)?;
    }
    Ok(())
}

/// The backs from all exits of the entry nodes to which calls lead from a node.
pub(crate) fn join_before(
    alloc: Global,
    graph: &Nwa,
    union: &Nwa,
    exits: &Exits,
    search: &mut Search,
    before: u32,
) -> Result<(), AllocError>
    requires graph { IsAutomaton graph.now }
    requires exploring { Explores graph.now union.now (stage_of search.old) }
    requires exits { (k x : ℕ) → Member (exits_of exits.now k) x → IsExit (stage_of search.old).nodes k x }
    ensures { OnOk result (GoesOn graph.now union.now (stage_of search.old) (stage_of search.new) × AreReturned graph.now (exits_of exits.now) (stage_of search.old) (stage_of search.new) before) }
{
    let calls = Vec::from_slice(alloc, search.steps.calls_leaving(before))?;
    for &(_, call, entry) in &calls {
        join_call(alloc, graph, union, exits, search, before, call, entry)?;
    }
    Ok(())
}
