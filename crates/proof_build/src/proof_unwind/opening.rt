//! A node is opened: it gets its steps, and the backs that join it with nodes that were opened before.

ghost use Rattle.std.specs.Prelude.{◌+◌, ◌<◌, ℕ, OnOk, length};
ghost use Rattle.nwa_base.specs.Members.{Member};
ghost use Rattle.nwa_base.specs.Automata.{IsAutomaton};
ghost use Rattle.proof_check.specs.Steps.{IsOpen};
ghost use Rattle.proof_build.specs.ProofUnwind.Unwindings.{node_at};
ghost use Rattle.proof_build.specs.ProofUnwind.Exploring.{Explores, GoesOn, GoesOnFrom, HasInsides, HasCalls, IsReturned, AreReturned, AreOpened, IsExit, AreExits};
ghost use Rattle.proof_build.specs.ProofUnwind.Ties.Searches.{stage_of, exits_of};

use crate::proof_unwind::exits::Exits;
use crate::proof_unwind::joining::{join_before, join_exit};
use crate::proof_unwind::search::Search;
use crate::proof_unwind::stepping::{call_step, inside_step};
use nwa_base::Nwa;
use std::alloc::{AllocError, Global};

/// The steps of a node by inside letters.
fn inside_steps(
    alloc: Global,
    graph: &Nwa,
    union: &Nwa,
    search: &mut Search,
    from: u32,
) -> Result<(), AllocError>
    requires graph { IsAutomaton graph.now }
    requires exploring { Explores graph.now union.now (stage_of search.old) }
    requires there { from < length (stage_of search.old).nodes }
    requires opens { IsOpen (node_at (stage_of search.old).nodes from) }
    ensures { OnOk result (GoesOn graph.now union.now (stage_of search.old) (stage_of search.new) × HasInsides graph.now (stage_of search.new) from) }
{
    let place = search.place(from);
    for &(_, letter, end) in graph.insides_leaving(place) {
        inside_step(alloc, graph, union, search, from, letter, end)?;
    }
    Ok(())
}

/// The steps of a node by call letters.
fn call_steps(
    alloc: Global,
    graph: &Nwa,
    union: &Nwa,
    search: &mut Search,
    from: u32,
) -> Result<(), AllocError>
    requires graph { IsAutomaton graph.now }
    requires exploring { Explores graph.now union.now (stage_of search.old) }
    requires there { from < length (stage_of search.old).nodes }
    requires opens { IsOpen (node_at (stage_of search.old).nodes from) }
    ensures { OnOk result (GoesOnFrom graph.now union.now from (stage_of search.old) (stage_of search.new) × HasCalls graph.now (stage_of search.new) from) }
{
    let place = search.place(from);
    for &(_, letter, end) in graph.calls_leaving(place) {
        call_step(alloc, graph, union, search, from, letter, end)?;
    }
    Ok(())
}

/// All steps of a node.
fn forward_steps(
    alloc: Global,
    graph: &Nwa,
    union: &Nwa,
    search: &mut Search,
    from: u32,
) -> Result<(), AllocError>
    requires graph { IsAutomaton graph.now }
    requires exploring { Explores graph.now union.now (stage_of search.old) }
    requires there { from < length (stage_of search.old).nodes }
    requires opens { IsOpen (node_at (stage_of search.old).nodes from) }
    ensures { OnOk result (GoesOnFrom graph.now union.now from (stage_of search.old) (stage_of search.new) × HasInsides graph.now (stage_of search.new) from × HasCalls graph.now (stage_of search.new) from) }
{
    inside_steps(alloc, graph, union, search, from)?;
    call_steps(alloc, graph, union, search, from)
}

/// All backs that join a node with nodes from which calls lead to its entry node, and with exits of entry nodes to which calls lead from it.
fn all_backs(
    alloc: Global,
    graph: &Nwa,
    union: &Nwa,
    exits: &Exits,
    search: &mut Search,
    number: u32,
) -> Result<(), AllocError>
    requires graph { IsAutomaton graph.now }
    requires exploring { Explores graph.now union.now (stage_of search.old) }
    requires there { number < length (stage_of search.old).nodes }
    requires opens { IsOpen (node_at (stage_of search.old).nodes number) }
    requires exits { (k x : ℕ) → Member (exits_of exits.now k) x → IsExit (stage_of search.old).nodes k x }
    ensures { OnOk result (GoesOn graph.now union.now (stage_of search.old) (stage_of search.new) × IsReturned graph.now (stage_of search.old) (stage_of search.new) number × AreReturned graph.now (exits_of exits.now) (stage_of search.old) (stage_of search.new) number) }
{
    if graph.backs_leaving(search.place(number)).is_empty() {
        return join_before(alloc, graph, union, exits, search, number);
    }
    join_exit(alloc, graph, union, search, number)?;
    join_before(alloc, graph, union, exits, search, number)
}

/// Notes a node among the exits of its entry node, where returns lead from its place.
fn note_exit(graph: &Nwa, exits: &mut Exits, search: &Search, number: u32) -> Result<(), AllocError>
    requires there { number < length (stage_of search.now).nodes }
    requires opens { IsOpen (node_at (stage_of search.now).nodes number) }
    requires exits { AreExits graph.now (stage_of search.now).nodes number (exits_of exits.old) }
    ensures { OnOk result (AreExits graph.now (stage_of search.now).nodes (number + 1) (exits_of exits.new)) }
{
    if graph.backs_leaving(search.place(number)).is_empty() {
        return Ok(());
    }
    exits.add(search.entry(number), number)
}

/// Opens a node. One with false has nothing to open.
pub(crate) fn open(
    alloc: Global,
    graph: &Nwa,
    union: &Nwa,
    exits: &mut Exits,
    search: &mut Search,
    number: u32,
) -> Result<(), AllocError>
    requires graph { IsAutomaton graph.now }
    requires exploring { Explores graph.now union.now (stage_of search.old) }
    requires there { number < length (stage_of search.old).nodes }
    requires opened { AreOpened graph.now (stage_of search.old).nodes search.old.steps number }
    requires exits { AreExits graph.now (stage_of search.old).nodes number (exits_of exits.old) }
    ensures exploring { OnOk result (Explores graph.now union.now (stage_of search.new)) }
    ensures opened { OnOk result (AreOpened graph.now (stage_of search.new).nodes search.new.steps (number + 1)) }
    ensures exits { OnOk result (AreExits graph.now (stage_of search.new).nodes (number + 1) (exits_of exits.new)) }
{
    if !search.is_open(number) {
        return Ok(());
    }
    forward_steps(alloc, graph, union, search, number)?;
    all_backs(alloc, graph, union, exits, search, number)?;
    note_exit(graph, exits, search, number)
}
