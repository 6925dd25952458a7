//! Indexes over the triples, nodes and steps of an annotation.

ghost use Rattle.std.specs.Prelude.{◌≡◌, List, map, IfOk, OnOk, slice_get};
ghost use Rattle.std.specs.Option.{option_map};
ghost use Rattle.std.specs.HashMap.{get};
ghost use Rattle.std.specs.HashSet.{contains};
ghost use Rattle.nwa_base.specs.Groups.{grouped};
ghost use Rattle.proof_names.specs.declared.outlines.NamedTriple.{NamedTriple};
ghost use Rattle.proof_names.specs.Outlines.{node};
ghost use Rattle.proof_check.specs.Ties.Plans.{AreGroups, IsTest, InsideSource, CallSource, BackSource, Entering, Marked, MarksAll, Stepped, Landed, BackLanded};

use nwa_base::Groups;
use proof_names::{Listed, NamedNode, NamedStep, NamedTriple};
use std::alloc::{AllocError, Global};
use std::collections::HashSet;

/// The sources of the triples of inside letters, by letter and target.
pub(crate) fn inside_sources(
    alloc: Global,
    triples: &[NamedTriple],
) -> Result<Groups<(u32, usize), usize>, AllocError>
    ensures { IfOk result (λ g. AreGroups (InsideSource triples.now) (λ k. grouped (get ⟦<(u32, usize) as PartialEq>⟧.eq g.by_key k))) }
{
    let mut groups = Groups::new(alloc);
    for triple in triples {
        if let Listed::Inside { from, letter, to } = triple.listed {
            groups.add((letter, to), from)?;
        }
    }
    Ok(groups)
}

/// The sources of the triples of call letters, by letter and target.
pub(crate) fn call_sources(
    alloc: Global,
    triples: &[NamedTriple],
) -> Result<Groups<(u32, usize), usize>, AllocError>
    ensures { IfOk result (λ g. AreGroups (CallSource triples.now) (λ k. grouped (get ⟦<(u32, usize) as PartialEq>⟧.eq g.by_key k))) }
{
    let mut groups = Groups::new(alloc);
    for triple in triples {
        if let Listed::Call { from, letter, to } = triple.listed {
            groups.add((letter, to), from)?;
        }
    }
    Ok(groups)
}

/// The sources, at the exit and before the call, of the triples of return letters, by letter and target.
pub(crate) fn back_sources(
    alloc: Global,
    triples: &[NamedTriple],
) -> Result<Groups<(u32, usize), (usize, usize)>, AllocError>
    ensures { IfOk result (λ g. AreGroups (BackSource triples.now) (λ k. grouped (get ⟦<(u32, usize) as PartialEq>⟧.eq g.by_key k))) }
{
    let mut groups = Groups::new(alloc);
    for triple in triples {
        if let Listed::Back {
            exit,
            before,
            letter,
            to,
        } = triple.listed
        {
            groups.add((letter, to), (exit, before))?;
        }
    }
    Ok(groups)
}

/// Adds the predicates of a node.
fn mark_all(
    marks: &mut HashSet<(usize, usize)>,
    number: usize,
    preds: &[usize],
) -> Result<(), AllocError>
    ensures { OnOk result (MarksAll (contains ⟦<(usize, usize) as PartialEq>⟧.eq marks.old) number preds.now (contains ⟦<(usize, usize) as PartialEq>⟧.eq marks.new)) }
{
    for pred in preds {
        marks.insert((number, *pred))?;
    }
    Ok(())
}

/// Each node with each of its predicates.
pub(crate) fn marks_of(
    alloc: Global,
    nodes: &[NamedNode],
) -> Result<HashSet<(usize, usize)>, AllocError>
    ensures { IfOk result (λ s. IsTest (Marked (map node nodes.now)) (contains ⟦<(usize, usize) as PartialEq>⟧.eq s)) }
{
    let mut marks = HashSet::new(alloc);
    for (number, node) in nodes.iter().enumerate() {
        mark_all(&mut marks, number, &node.preds)?;
    }
    Ok(marks)
}

/// Each step: its node, its letter and its end.
pub(crate) fn steps_of(
    alloc: Global,
    moves: &[NamedStep],
) -> Result<HashSet<(usize, u32, usize)>, AllocError>
    ensures { IfOk result (λ s. IsTest (Stepped moves.now) (contains ⟦<(usize, u32, usize) as PartialEq>⟧.eq s)) }
{
    let mut steps = HashSet::new(alloc);
    for step in moves {
        if let NamedStep::Step { from, letter, to } = *step {
            steps.insert((from, letter, to))?;
        }
    }
    Ok(steps)
}

/// The steps to each node, each once: their nodes and letters.
pub(crate) fn entering_of(
    alloc: Global,
    moves: &[NamedStep],
) -> Result<Groups<usize, (usize, u32)>, AllocError>
    ensures { IfOk result (λ g. AreGroups (Entering moves.now) (λ k. grouped (get ⟦<usize as PartialEq>⟧.eq g.by_key k))) }
{
    let mut seen = HashSet::new(alloc);
    let mut groups = Groups::new(alloc);
    for step in moves {
        if let NamedStep::Step { from, letter, to } = *step {
            if seen.insert((from, letter, to))? {
                groups.add(to, (from, letter))?;
            }
        }
    }
    Ok(groups)
}

/// The place of a node, if there is one with this number.
fn place_of(nodes: &[NamedNode], number: usize) -> Option<u32>
    ensures { result ≡ option_map (λ x. x.place) (slice_get (map node nodes.now) number) }
{
    match nodes.get(number) {
        Some(found) => Some(found.place),
        None => None,
    }
}

/// The node, the letter and the place at the end of each step.
pub(crate) fn landed_of(
    alloc: Global,
    nodes: &[NamedNode],
    moves: &[NamedStep],
) -> Result<HashSet<(usize, u32, u32)>, AllocError>
    ensures { IfOk result (λ s. (triples : List NamedTriple) → IsTest (Landed (record { triples = triples; nodes = map node nodes.now; steps = moves.now }))
        (contains ⟦<(usize, u32, u32) as PartialEq>⟧.eq s)) }
{
    let mut landed = HashSet::new(alloc);
    for step in moves {
        if let NamedStep::Step { from, letter, to } = *step {
            if let Some(place) = place_of(nodes, to) {
                landed.insert((from, letter, place))?;
            }
        }
    }
    Ok(landed)
}

/// The exit, the node before the call, the letter and the place at the end of each back.
pub(crate) fn back_landed_of(
    alloc: Global,
    nodes: &[NamedNode],
    moves: &[NamedStep],
) -> Result<HashSet<(usize, usize, u32, u32)>, AllocError>
    ensures { IfOk result (λ s. (triples : List NamedTriple) → IsTest (BackLanded (record { triples = triples; nodes = map node nodes.now; steps = moves.now }))
        (contains ⟦<(usize, usize, u32, u32) as PartialEq>⟧.eq s)) }
{
    let mut landed = HashSet::new(alloc);
    for step in moves {
        if let NamedStep::Back {
            exit,
            call,
            letter,
            to,
        } = *step
        {
            if let Some(place) = place_of(nodes, to) {
                landed.insert((exit, call, letter, place))?;
            }
        }
    }
    Ok(landed)
}
