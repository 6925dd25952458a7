//! What an annotation names, with the indexes by which its steps are checked.

use crate::index::{
    back_landed_of, back_sources, call_sources, entering_of, inside_sources, landed_of, marks_of,
    steps_of,
};
use nwa_base::Groups;
use proof_names::{NamedNode, NamedStep, NamedTriple, Outline};
use std::alloc::{AllocError, Global};
use std::collections::HashSet;
use std::marker::Model;

/// The sources of the triples, by letter and target.
#[derive(Drop)]
struct Sources {
    insides: Groups<(u32, usize), usize>,
    calls: Groups<(u32, usize), usize>,
    backs: Groups<(u32, usize), (usize, usize)>,
}

/// Where steps and backs lead.
#[derive(Drop)]
struct Moves {
    /// The steps to each node, each once: their nodes and letters.
    entering: Groups<usize, (usize, u32)>,
    /// Each step: its node, its letter and its end.
    stepped: HashSet<(usize, u32, usize)>,
    /// The node, the letter and the place at the end of each step.
    landed: HashSet<(usize, u32, u32)>,
    /// The exit, the node before the call, the letter and the place at the end of each back.
    back_landed: HashSet<(usize, usize, u32, u32)>,
}

/// The triples, nodes and steps of an annotation, found by their numbers.
#[derive(Drop)]
pub(crate) struct Plan<'a> {
    outline: &'a Outline,
    sources: Sources,
    moves: Moves,
    /// Each node with each of its predicates.
    marks: HashSet<(usize, usize)>,
}

impl Sources {
    ghost use Rattle.std.specs.Prelude.{IfOk};
    ghost use Rattle.std.specs.HashMap.{get};
    ghost use Rattle.nwa_base.specs.Groups.{grouped};
    ghost use Rattle.proof_check.specs.Ties.Plans.{AreGroups, InsideSource, CallSource, BackSource};

    /// Those of these triples.
    fn new(alloc: Global, triples: &[NamedTriple]) -> Result<Sources, AllocError>
        ensures insides { IfOk result (λ s. AreGroups (InsideSource triples.now) (λ k. grouped (get ⟦<(u32, usize) as PartialEq>⟧.eq s.insides.by_key k))) }
        ensures calls { IfOk result (λ s. AreGroups (CallSource triples.now) (λ k. grouped (get ⟦<(u32, usize) as PartialEq>⟧.eq s.calls.by_key k))) }
        ensures backs { IfOk result (λ s. AreGroups (BackSource triples.now) (λ k. grouped (get ⟦<(u32, usize) as PartialEq>⟧.eq s.backs.by_key k))) }
    {
        Ok(Sources {
            insides: inside_sources(alloc, triples)?,
            calls: call_sources(alloc, triples)?,
            backs: back_sources(alloc, triples)?,
        })
    }
}

impl Moves {
    ghost use Rattle.std.specs.Prelude.{List, map, IfOk};
    ghost use Rattle.std.specs.HashMap.{get};
    ghost use Rattle.std.specs.HashSet.{contains};
    ghost use Rattle.nwa_base.specs.Groups.{grouped};
    ghost use Rattle.proof_names.specs.declared.outlines.NamedTriple.{NamedTriple};
    ghost use Rattle.proof_names.specs.Outlines.{node};
    ghost use Rattle.proof_check.specs.Ties.Plans.{AreGroups, IsTest, Entering, Stepped, Landed, BackLanded};

    /// Those of these steps and backs between the nodes.
    fn new(alloc: Global, nodes: &[NamedNode], steps: &[NamedStep]) -> Result<Moves, AllocError>
        ensures entering { IfOk result (λ m. AreGroups (Entering steps.now) (λ k. grouped (get ⟦<usize as PartialEq>⟧.eq m.entering.by_key k))) }
        ensures stepped { IfOk result (λ m. IsTest (Stepped steps.now) (contains ⟦<(usize, u32, usize) as PartialEq>⟧.eq m.stepped)) }
        ensures landed { IfOk result (λ m. (triples : List NamedTriple) → IsTest (Landed (record { triples = triples; nodes = map node nodes.now; steps = steps.now }))
            (contains ⟦<(usize, u32, u32) as PartialEq>⟧.eq m.landed)) }
        ensures back_landed { IfOk result (λ m. (triples : List NamedTriple) → IsTest (BackLanded (record { triples = triples; nodes = map node nodes.now; steps = steps.now }))
            (contains ⟦<(usize, usize, u32, u32) as PartialEq>⟧.eq m.back_landed)) }
    {
        Ok(Moves {
            entering: entering_of(alloc, steps)?,
            stepped: steps_of(alloc, steps)?,
            landed: landed_of(alloc, nodes, steps)?,
            back_landed: back_landed_of(alloc, nodes, steps)?,
        })
    }
}

impl<'a> Model for Plan<'a> {
    ghost use Rattle.std.specs.HashMap.{get};
    ghost use Rattle.std.specs.HashSet.{contains};
    ghost use Rattle.nwa_base.specs.Groups.{grouped};
    ghost use Rattle.proof_names.specs.Outlines.{Sketch, sketch};
    ghost use Rattle.proof_check.specs.Ties.Plans.{IsPlan};

    ghost Value = { Sketch };

    ghost view = { λ p. sketch p.outline.now };

    ghost invariant = { λ p. IsPlan (sketch p.outline.now)
        (λ k. grouped (get ⟦<(u32, usize) as PartialEq>⟧.eq p.sources.insides.by_key k))
        (λ k. grouped (get ⟦<(u32, usize) as PartialEq>⟧.eq p.sources.calls.by_key k))
        (λ k. grouped (get ⟦<(u32, usize) as PartialEq>⟧.eq p.sources.backs.by_key k))
        (λ k. grouped (get ⟦<usize as PartialEq>⟧.eq p.moves.entering.by_key k))
        (contains ⟦<(usize, usize) as PartialEq>⟧.eq p.marks)
        (contains ⟦<(usize, u32, usize) as PartialEq>⟧.eq p.moves.stepped)
        (contains ⟦<(usize, u32, u32) as PartialEq>⟧.eq p.moves.landed)
        (contains ⟦<(usize, usize, u32, u32) as PartialEq>⟧.eq p.moves.back_landed) };
}

impl<'a> Plan<'a> {
    ghost use Rattle.std.specs.Prelude.{◌≡◌, ◌↔◌, ◌<◌, ℕ, Some, length, IsTrue, IfOk, slice_get};
    ghost use Rattle.nwa_base.specs.Members.{Member};
    ghost use Rattle.proof_names.specs.declared.outlines.Listed.TheVariants.{Inside, Call, Back};
    ghost use Rattle.proof_names.specs.declared.outlines.NamedStep.TheVariants.{Step};
    ghost use Rattle.proof_names.specs.Outlines.{node, sketch};
    ghost use Rattle.proof_check.specs.Steps.{Lists, HasStepTo, BacksTo};
    ghost use Rattle.proof_check.specs.Ties.Plans.{HasPred, IsOfNode};

    /// What the outline has.
    pub(crate) fn new(alloc: Global, outline: &'a Outline) -> Result<Plan<'a>, AllocError>
        ensures { IfOk result (λ p. p ≡ sketch outline.now) }
    {
        Ok(Plan {
            outline,
            sources: Sources::new(alloc, &outline.triples)?,
            moves: Moves::new(alloc, &outline.nodes, &outline.steps)?,
            marks: marks_of(alloc, &outline.nodes)?,
        })
    }

    /// How many nodes there are.
    pub(crate) fn node_count(&self) -> usize
        ensures { result ≡ length self.now.nodes }
    {
        self.outline.nodes.len()
    }

    /// How many steps and backs there are.
    pub(crate) fn step_count(&self) -> usize
        ensures { result ≡ length self.now.steps }
    {
        self.outline.steps.len()
    }

    /// The node with this number.
    pub(crate) fn node(&self, number: usize) -> &NamedNode
        requires { number < length self.now.nodes }
        ensures { slice_get self.now.nodes number ≡ Some (node result.now) }
    {
        &self.outline.nodes[number]
    }

    /// The step or back at this place of the list.
    pub(crate) fn step(&self, place: usize) -> NamedStep
        requires { place < length self.now.steps }
        ensures { slice_get self.now.steps place ≡ Some result }
    {
        self.outline.steps[place]
    }

    /// The sources of the triples of an inside letter with this target.
    pub(crate) fn insides(&self, letter: u32, to: usize) -> &[usize]
        ensures { (q : ℕ) → Member result.now q ↔ Lists self.now.triples (Inside q letter to) }
    {
        self.sources.insides.of(&(letter, to))
    }

    /// The sources of the triples of a call letter with this target.
    pub(crate) fn calls(&self, letter: u32, to: usize) -> &[usize]
        ensures { (q : ℕ) → Member result.now q ↔ Lists self.now.triples (Call q letter to) }
    {
        self.sources.calls.of(&(letter, to))
    }

    /// The sources, at the exit and before the call, of the triples of a return letter with this target.
    pub(crate) fn backs(&self, letter: u32, to: usize) -> &[(usize, usize)]
        ensures { (x b : ℕ) → Member result.now (x, b) ↔ Lists self.now.triples (Back x b letter to) }
    {
        self.sources.backs.of(&(letter, to))
    }

    /// The nodes and letters of the steps to the node.
    pub(crate) fn entering(&self, to: usize) -> &[(usize, u32)]
        ensures { (n l : ℕ) → Member result.now (n, l) ↔ Member self.now.steps (Step n l to) }
    {
        self.moves.entering.of(&to)
    }

    /// Whether the node has the predicate.
    pub(crate) fn has(&self, number: usize, pred: usize) -> bool
        ensures { IsTrue result ↔ HasPred self.now.nodes number pred }
    {
        self.marks.contains(&(number, pred))
    }

    /// Whether the predicate is true, or one of the node's.
    pub(crate) fn is_of(&self, pred: usize, number: usize) -> bool
        ensures { IsTrue result ↔ IsOfNode self.now.nodes pred number }
    {
        pred == 0 || self.has(number, pred)
    }

    /// Whether a step leads from the node by the letter to the end.
    pub(crate) fn has_step(&self, from: usize, letter: u32, to: usize) -> bool
        ensures { IsTrue result ↔ Member self.now.steps (Step from letter to) }
    {
        self.moves.stepped.contains(&(from, letter, to))
    }

    /// Whether a step leads from the node by the letter to a node at the place.
    pub(crate) fn leads_to(&self, from: usize, letter: u32, place: u32) -> bool
        ensures { IsTrue result ↔ HasStepTo self.now from letter place }
    {
        self.moves.landed.contains(&(from, letter, place))
    }

    /// Whether a back leads from the exit, with the node before the call, by the letter to a node at the place.
    pub(crate) fn leads_back(&self, exit: usize, call: usize, letter: u32, place: u32) -> bool
        ensures { IsTrue result ↔ BacksTo self.now exit call letter place }
    {
        self.moves
            .back_landed
            .contains(&(exit, call, letter, place))
    }
}
