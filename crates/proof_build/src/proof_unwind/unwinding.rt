//! The whole search: nodes are opened in the order of their numbers, until all are.

ghost use Rattle.std.specs.Prelude.{◌≡◌, [], ◌∷◌, IfOk, OnOk, length};
ghost use Rattle.proof_build.specs.ProofUnwind.Unwindings.{bare};
ghost use Rattle.proof_build.specs.ProofUnwind.Exploring.{IsOverPreds, IsExploring, Explores, AreOpened};
ghost use Rattle.proof_build.specs.ProofUnwind.Spots.{nodes_of};
ghost use Rattle.proof_build.specs.ProofUnwind.Ties.Searches.{stage_of};

use crate::proof_unwind::candidates::Candidates;
use crate::proof_unwind::exits::Exits;
use crate::proof_unwind::opening::open;
use crate::proof_unwind::search::{Search, added};
use crate::proof_unwind::spots::Spot;
use nwa_base::{Nwa, empty};
use std::alloc::{AllocError, Global};

/// What was found: nodes, and an automaton whose states are their numbers, with the steps and backs as edges.
#[derive(Drop)]
pub struct Unwound {
    pub nodes: Vec<Spot>,
    pub steps: Nwa,
}

/// The search before any step: the node of place 0.
fn begin(alloc: Global) -> Result<Search, AllocError>
    ensures nodes { IfOk result (λ s. (stage_of s).nodes ≡ bare ∷ []) }
    ensures steps { IfOk result (λ s. s.steps ≡ record { states = 1; start = 0; finals = []; insides = []; calls = []; backs = [] }) }
{
    let mut spots = Vec::new(alloc);
    spots.push(Spot {
        place: 0,
        entry: 0,
        preds: Vec::new(alloc),
    })?;
    let steps = added(empty(alloc, 1, 0))?;
    Ok(Search {
        candidates: Candidates::new(alloc),
        spots,
        steps,
    })
}

/// Opens all nodes of a search before any step.
fn open_all(alloc: Global, graph: &Nwa, union: &Nwa, search: &mut Search) -> Result<(), AllocError>
    requires start { graph.now.start ≡ 0 }
    requires over { IsOverPreds union.now }
    requires nodes { (stage_of search.old).nodes ≡ bare ∷ [] }
    requires steps { search.old.steps ≡ record { states = 1; start = 0; finals = []; insides = []; calls = []; backs = [] } }
    ensures exploring { OnOk result (Explores graph.now union.now (stage_of search.new)) }
    ensures opened { OnOk result (AreOpened graph.now (stage_of search.new).nodes search.new.steps (length (stage_of search.new).nodes)) }
{
    let _states = graph.states();
    let mut exits = Exits::new(alloc);
    let mut next = 0;
    while next < search.steps.states() {
        open(alloc, graph, union, &mut exits, search, next)?;
        next += 1;
    }
    Ok(())
}

/// Unwinds an automaton over the predicates that are the states of another: all nodes to which its words lead, but none behind one with false.
pub fn unwind(alloc: Global, graph: &Nwa, union: &Nwa) -> Result<Unwound, AllocError>
    requires start { graph.now.start ≡ 0 }
    requires over { IsOverPreds union.now }
    ensures exploring { IfOk result (λ u. IsExploring graph.now union.now (nodes_of u.nodes.items) u.steps) }
    ensures opened { IfOk result (λ u. AreOpened graph.now (nodes_of u.nodes.items) u.steps (length (nodes_of u.nodes.items))) }
{
    let mut search = begin(alloc)?;
    open_all(alloc, graph, union, &mut search)?;
    let Search {
        candidates: _,
        spots,
        steps,
    } = search;
    Ok(Unwound {
        nodes: spots,
        steps,
    })
}
