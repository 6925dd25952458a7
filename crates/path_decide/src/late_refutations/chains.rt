//! Trees of lemmas: a chain of cuts, at each of which the part where the lemma does not hold is refuted at once.

use crate::late_refutations::searching::Lemma;
use crate::late_refutations::types::Parts;
use farkas_check::Node;
use std::alloc::{AllocError, Global};
use std::mem::replace;

/// The numbers of rows where only lemmas that are used are kept.
#[derive(Drop)]
struct Numbers {
    /// How many rows the system has.
    given: u32,
    /// By lemma, how many before it are kept.
    places: Vec<u32>,
    /// How many lemmas are kept.
    kept: u32,
}

impl Numbers {
    /// The new number of a row.
    fn of(&self, number: u32) -> u32 {
        let Some(place) = number.checked_sub(self.given) else {
            return number;
        };
        let later = match self.places.get(place as usize) {
            Some(new) => *new,
            None => {
                let lemmas = u32::try_from(self.places.len()).unwrap_or(u32::MAX);
                place.saturating_sub(lemmas).saturating_add(self.kept)
            }
        };
        self.given.saturating_add(later)
    }

    /// The parts with the new numbers.
    fn parts(&self, alloc: Global, parts: &[(u32, i128)]) -> Result<Parts, AllocError> {
        let mut moved = Vec::with_capacity(alloc, parts.len())?;
        for (number, multiplier) in parts {
            moved.push((self.of(*number), *multiplier))?;
        }
        Ok(moved)
    }

    /// The node with the new numbers.
    fn node(&self, alloc: Global, node: &Node) -> Result<Node, AllocError> {
        match node {
            Node::Leaf(parts) => Ok(Node::Leaf(self.parts(alloc, parts)?)),
            _ => node.copy(),
        }
    }
}

/// Notes which lemmas the parts use, where the system has so many rows.
fn note_used(used: &mut [bool], given: u32, parts: &[(u32, i128)]) {
    for (number, _) in parts {
        if let Some(place) = number.checked_sub(given) {
            if let Some(own) = used.get_mut(place as usize) {
                *own = true;
            }
        }
    }
}

/// Which lemmas the nodes use, directly or by a lemma that is used.
fn used_by(
    alloc: Global,
    given: u32,
    lemmas: &[Lemma],
    nodes: &[Node],
) -> Result<Vec<bool>, AllocError> {
    let mut used = vec![in alloc; false; lemmas.len()]?;
    for node in nodes {
        if let Node::Leaf(parts) = node {
            note_used(&mut used, given, parts);
        }
    }
    for place in (0..lemmas.len()).rev() {
        if let (Some(true), Some(lemma)) = (used.get(place).copied(), lemmas.get(place)) {
            note_used(&mut used, given, &lemma.parts);
        }
    }
    Ok(used)
}

/// The numbers where these lemmas are kept.
fn numbers_of(alloc: Global, given: u32, used: &[bool]) -> Result<Numbers, AllocError> {
    let mut places = Vec::with_capacity(alloc, used.len())?;
    let mut kept = 0u32;
    for is_used in used {
        places.push(kept)?;
        if *is_used {
            kept = kept.saturating_add(1);
        }
    }
    Ok(Numbers {
        given,
        places,
        kept,
    })
}

/// The nodes of a tree that refutes the rows with the lemmas, below a chain of the lemmas that it uses. `None` where a number would
/// not fit.
pub(crate) fn chained(
    alloc: Global,
    given: u32,
    lemmas: &[Lemma],
    nodes: &[Node],
) -> Result<Option<Vec<Node>>, AllocError> {
    let used = used_by(alloc, given, lemmas, nodes)?;
    chained_by(alloc, given, lemmas, &used, nodes)
}

/// The same where it is known which lemmas are used.
fn chained_by(
    alloc: Global,
    given: u32,
    lemmas: &[Lemma],
    used: &[bool],
    nodes: &[Node],
) -> Result<Option<Vec<Node>>, AllocError> {
    let mut chain = Chain {
        alloc,
        numbers: numbers_of(alloc, given, used)?,
        nodes: Vec::new(alloc),
        after: Vec::new(alloc),
    };
    chain.add_all(lemmas, used, nodes)
}

/// A chain that is being made.
#[derive(Drop)]
struct Chain {
    alloc: Global,
    numbers: Numbers,
    nodes: Vec<Node>,
    /// The leaves that come after all others, the last one first.
    after: Vec<Node>,
}

impl Chain {
    /// Adds the lemmas that are used, and the nodes below them, and hands over all nodes; `None` where a number would not fit.
    fn add_all(
        &mut self,
        lemmas: &[Lemma],
        used: &[bool],
        nodes: &[Node],
    ) -> Result<Option<Vec<Node>>, AllocError> {
        for (lemma, is_used) in lemmas.iter().zip(used) {
            if *is_used && !self.add_lemma(lemma)? {
                return Ok(None);
            }
        }
        for node in nodes {
            self.nodes.push(self.numbers.node(self.alloc, node)?)?;
        }
        self.add_after()?;
        Ok(Some(replace(&mut self.nodes, Vec::new(self.alloc))))
    }

    /// Adds a lemma: its cut, and the leaf of the side on which it does not hold. False where a number would not fit.
    fn add_lemma(&mut self, lemma: &Lemma) -> Result<bool, AllocError> {
        let Some(k) = lemma.bound.cut() else {
            return Ok(false);
        };
        self.nodes.push(Node::Cut {
            col: lemma.bound.column,
            k,
        })?;
        let leaf = Node::Leaf(self.numbers.parts(self.alloc, &lemma.parts)?);
        if lemma.bound.is_turned {
            self.nodes.push(leaf)?;
        } else {
            self.after.push(leaf)?;
        }
        Ok(true)
    }

    /// Adds the leaves that come after all others.
    fn add_after(&mut self) -> Result<(), AllocError> {
        for _leaf in 0..self.after.len() {
            if let Some(leaf) = self.after.pop() {
                self.nodes.push(leaf)?;
            }
        }
        Ok(())
    }
}
