//! Which nodes are alike.

use crate::proof_lean::drafts::{Draft, Move};
use indexmap::IndexSet;
use nwa_base::Groups;
use proof_names::NamedNode;
use std::alloc::{AllocError, Global};
use std::collections::HashSet;

/// Numbers for lists of numbers, in the order in which the lists come. Equal lists have one number, and the numbers of new ones count from 0.
#[derive(Drop)]
struct Numbering {
    lists: IndexSet<Vec<usize>>,
    numbers: Vec<usize>,
}

impl Numbering {
    /// No list came yet.
    fn new(alloc: Global) -> Self {
        Numbering {
            lists: IndexSet::new(alloc),
            numbers: Vec::new(alloc),
        }
    }

    /// Numbers a list of one number and others behind it.
    fn add(&mut self, alloc: Global, first: usize, rest: &[usize]) -> Result<(), AllocError> {
        let list = list_of(alloc, first, rest)?;
        let (number, _) = self.lists.insert_full(list)?;
        self.numbers.push(number)?;
        Ok(())
    }

    /// The number of each list that came.
    fn into_numbers(self) -> Vec<usize> {
        let Numbering { lists: _, numbers } = self;
        numbers
    }
}

/// One number, and others behind it.
fn list_of(alloc: Global, first: usize, rest: &[usize]) -> Result<Vec<usize>, AllocError> {
    let mut list = vec![in alloc; first]?;
    list.extend_from_slice(rest)?;
    Ok(list)
}

/// The number at a place, 0 where there is none.
pub(crate) fn number_at(numbers: &[usize], place: usize) -> usize {
    match numbers.get(place) {
        Some(number) => *number,
        None => 0,
    }
}

/// The looks of the nodes: two have one look where they stand at one place and have the same predicates.
fn looks_of(alloc: Global, nodes: &[NamedNode]) -> Result<Vec<usize>, AllocError> {
    let mut looks = Numbering::new(alloc);
    for node in nodes {
        looks.add(alloc, node.place as usize, &node.preds)?;
    }
    Ok(looks.into_numbers())
}

/// The entry node of a node, 0 where there is no such node.
fn entry_of(nodes: &[NamedNode], number: usize) -> usize {
    match nodes.get(number) {
        Some(node) => node.entry,
        None => 0,
    }
}

/// The exits of the backs, each once.
fn exits_of(alloc: Global, moves: &[Move]) -> Result<Vec<usize>, AllocError> {
    let mut seen = HashSet::new(alloc);
    let mut exits = Vec::new(alloc);
    for step in moves {
        if step.is_back && seen.insert(step.exit)? {
            exits.push(step.exit)?;
        }
    }
    Ok(exits)
}

/// The looks of the exits of each entry node.
fn exit_looks(
    alloc: Global,
    draft: &Draft,
    looks: &[usize],
) -> Result<Groups<usize, usize>, AllocError> {
    let exits = exits_of(alloc, &draft.moves)?;
    let mut groups = Groups::new(alloc);
    for exit in &exits {
        groups.add(entry_of(&draft.nodes, *exit), number_at(looks, *exit))?;
    }
    Ok(groups)
}

/// The numbers in their order, each once.
fn ordered(alloc: Global, numbers: &[usize]) -> Result<Vec<usize>, AllocError> {
    let mut ordered = Vec::from_slice(alloc, numbers)?;
    ordered.sort_unstable();
    ordered.dedup();
    Ok(ordered)
}

/// Numbers a look with the looks of exits.
fn add_entry(
    entries: &mut Numbering,
    alloc: Global,
    look: usize,
    exits: &[usize],
) -> Result<(), AllocError> {
    let exits = ordered(alloc, exits)?;
    entries.add(alloc, look, &exits)
}

/// For each node, were it an entry node: two have one number where they have one look, and the same looks of their exits.
fn entry_looks(alloc: Global, draft: &Draft, looks: &[usize]) -> Result<Vec<usize>, AllocError> {
    let exits = exit_looks(alloc, draft, looks)?;
    let mut entries = Numbering::new(alloc);
    for (number, look) in looks.iter().enumerate() {
        add_entry(&mut entries, alloc, *look, exits.of(&number))?;
    }
    Ok(entries.into_numbers())
}

/// The classes of nodes with these looks, whose entry nodes have these numbers.
fn classes_by(
    alloc: Global,
    nodes: &[NamedNode],
    looks: &[usize],
    entries: &[usize],
) -> Result<Vec<usize>, AllocError> {
    let mut classes = Numbering::new(alloc);
    for (number, look) in looks.iter().enumerate() {
        let entry = number_at(entries, entry_of(nodes, number));
        classes.add(alloc, *look, &[entry])?;
    }
    Ok(classes.into_numbers())
}

/// The class of each node. Nodes are alike that have one look and whose entry nodes are alike, as entry nodes: where a call leads to one of these,
/// and an exit of another returns from it, an exit with the same look returns from the first. Classes are numbered in the order of their first nodes.
pub(crate) fn classes_of(alloc: Global, draft: &Draft) -> Result<Vec<usize>, AllocError> {
    let looks = looks_of(alloc, &draft.nodes)?;
    let entries = entry_looks(alloc, draft, &looks)?;
    classes_by(alloc, &draft.nodes, &looks, &entries)
}
