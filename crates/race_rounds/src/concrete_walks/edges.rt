//! Edges on which a walk may go on, in arrays.

use crate::concrete_walks::leading::Leading;
use crate::concrete_walks::letters::{Span, members};
use nwa_base::{Letter, Nwa};
use std::alloc::{AllocError, Global};

/// An edge from a place.
#[derive(Clone, Copy)]
pub(crate) struct Edge {
    pub letter: Letter,
    pub to: u32,
    /// Whether a failure can be reached from where it leads.
    pub leads: bool,
    /// Whether it leads to a failure.
    pub ends: bool,
}

/// Where the edges of a place stand.
#[derive(Clone, Copy)]
pub(crate) struct Stand {
    pub forward: Span,
    pub ending: Span,
    pub backs: Span,
}

/// The edges of an automaton, those that leave a place side by side.
#[derive(Drop)]
pub(crate) struct Edges {
    stands: Vec<Stand>,
    /// Those by inside letters, and then those by calls.
    forward: Vec<Edge>,
    /// Those by inside letters that lead to a failure, once more.
    ending: Vec<Edge>,
    /// The returns, each with the place before its call, ascending by it.
    backs: Vec<(u32, Edge)>,
}

impl Edges {
    /// No edges.
    pub fn new(alloc: Global) -> Self {
        Edges {
            stands: Vec::new(alloc),
            forward: Vec::new(alloc),
            ending: Vec::new(alloc),
            backs: Vec::new(alloc),
        }
    }

    /// Adds those of an automaton, where there are none yet.
    pub fn add_all(&mut self, alloc: Global, nwa: &Nwa) -> Result<(), AllocError> {
        let leading = Leading::new(alloc, nwa)?;
        self.add_places(alloc, nwa, &leading)
    }

    /// Where the edges of a place stand.
    pub fn stand(&self, place: u32) -> Option<&Stand> {
        self.stands.get(place as usize)
    }

    /// The edge by an inside letter to a failure with that number among those that stand there.
    pub fn ending(&self, stand: &Stand, number: usize) -> Option<&Edge> {
        self.ending.get(stand.ending.first.wrapping_add(number))
    }

    /// The edge by an inside letter or a call with that number among those that stand there.
    pub fn forward(&self, stand: &Stand, number: usize) -> Option<&Edge> {
        self.forward.get(stand.forward.first.wrapping_add(number))
    }

    /// The edges by returns that stand there, where `before` is the place before the innermost open call, if one is open.
    pub fn backs(&self, stand: &Stand, before: Option<&u32>) -> &[(u32, Edge)] {
        match before {
            Some(&before) if !stand.backs.is_empty() => {
                backs_after(members(&self.backs, stand.backs), before)
            }
            _ => &[],
        }
    }

    /// Adds the edges of all places.
    fn add_places(
        &mut self,
        alloc: Global,
        nwa: &Nwa,
        leading: &Leading,
    ) -> Result<(), AllocError> {
        let backs = backs_by_place(alloc, nwa)?;
        for place in 0..nwa.states() {
            self.add_place(nwa, leading, place, &backs)?;
        }
        Ok(())
    }

    /// Adds the edges of the next place.
    fn add_place(
        &mut self,
        nwa: &Nwa,
        leading: &Leading,
        place: u32,
        backs: &[(u32, u32, usize)],
    ) -> Result<(), AllocError> {
        let (forward, ending) = (self.forward.len(), self.ending.len());
        let back = self.backs.len();
        self.add_forward(nwa, leading, nwa.insides_leaving(place))?;
        self.add_ending(forward)?;
        self.add_forward(nwa, leading, nwa.calls_leaving(place))?;
        self.add_backs(nwa, leading, place, backs)?;
        self.stands.push(Stand {
            forward: Span::new(forward, self.forward.len()),
            ending: Span::new(ending, self.ending.len()),
            backs: Span::new(back, self.backs.len()),
        })?;
        Ok(())
    }

    /// Adds those that lead to a failure once more, from a number on.
    fn add_ending(&mut self, first: usize) -> Result<(), AllocError> {
        for edge in self.forward.get(first..).unwrap_or(&[]) {
            if edge.ends {
                self.ending.push(*edge)?;
            }
        }
        Ok(())
    }

    /// Adds edges at the end.
    fn add_forward(
        &mut self,
        nwa: &Nwa,
        leading: &Leading,
        edges: &[(u32, Letter, u32)],
    ) -> Result<(), AllocError> {
        for &(_, letter, to) in edges {
            self.forward.push(edge_by(nwa, leading, letter, to))?;
        }
        Ok(())
    }

    /// Adds the returns of a place at the end; those of the places before are there.
    fn add_backs(
        &mut self,
        nwa: &Nwa,
        leading: &Leading,
        place: u32,
        backs: &[(u32, u32, usize)],
    ) -> Result<(), AllocError> {
        for &(from, before, number) in backs.get(self.backs.len()..).unwrap_or(&[]) {
            if from != place {
                break;
            }
            if let Some(&(_, _, letter, to)) = nwa.backs().get(number) {
                self.backs
                    .push((before, edge_by(nwa, leading, letter, to)))?;
            }
        }
        Ok(())
    }
}

/// Those returns whose place before the call is that one.
fn backs_after(backs: &[(u32, Edge)], before: u32) -> &[(u32, Edge)] {
    let first = count_below(backs, before);
    let rest = backs.get(first..).unwrap_or(&[]);
    let count = count_below(rest, before.saturating_add(1));
    rest.get(..count).unwrap_or(&[])
}

/// How many of these returns have a place before the call that is below a number.
fn count_below(backs: &[(u32, Edge)], number: u32) -> usize {
    backs.partition_point(|back| back.0 < number)
}

/// The edge by a letter to a place.
fn edge_by(nwa: &Nwa, leading: &Leading, letter: Letter, to: u32) -> Edge {
    Edge {
        letter,
        to,
        leads: leading.contains(to),
        ends: nwa.is_final(to),
    }
}

/// The place of each return, the place before its call, and its number, ascending.
fn backs_by_place(alloc: Global, nwa: &Nwa) -> Result<Vec<(u32, u32, usize)>, AllocError> {
    let mut backs = Vec::new(alloc);
    push_backs(&mut backs, nwa)?;
    backs.sort_unstable();
    Ok(backs)
}

/// Adds the place of each return, the place before its call, and its number at the end.
fn push_backs(backs: &mut Vec<(u32, u32, usize)>, nwa: &Nwa) -> Result<(), AllocError> {
    for (number, &(place, before, _, _)) in nwa.backs().iter().enumerate() {
        backs.push((place, before, number))?;
    }
    Ok(())
}
