//! Where a node may be found again.

use nwa_base::Groups;
use std::alloc::{AllocError, Global};

/// The numbers of nodes by their place and entry node, and those of entry nodes by their place. A node is looked at before it is taken.
#[derive(Drop)]
pub(crate) struct Candidates {
    nodes: Groups<(u32, u32), u32>,
    entries: Groups<u32, u32>,
}

impl Candidates {
    /// None yet.
    pub(crate) fn new(alloc: Global) -> Self {
        Candidates {
            nodes: Groups::new(alloc),
            entries: Groups::new(alloc),
        }
    }

    /// Those at a place under an entry node.
    pub(crate) fn under(&self, place: u32, entry: u32) -> &[u32] {
        self.nodes.of(&(place, entry))
    }

    /// The entry nodes at a place.
    pub(crate) fn entries(&self, place: u32) -> &[u32] {
        self.entries.of(&place)
    }

    /// One more node, which is an entry node where it is its own.
    pub(crate) fn add(&mut self, place: u32, entry: u32, number: u32) -> Result<(), AllocError> {
        if entry == number {
            self.entries.add(place, number)?;
        }
        self.nodes.add((place, entry), number)
    }
}
