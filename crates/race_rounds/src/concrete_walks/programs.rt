//! Programs in arrays.

use crate::concrete_walks::edges::Edges;
use crate::concrete_walks::letters::Letters;
use letter_acts::Icfg;
use std::alloc::{AllocError, Global};

/// What walks need of a program.
#[derive(Drop)]
pub(crate) struct Program {
    pub start: u32,
    pub edges: Edges,
    pub letters: Letters,
    /// By place, how many columns its frame has.
    widths: Vec<usize>,
}

impl Program {
    /// That of a graph.
    pub fn new(alloc: Global, icfg: &Icfg) -> Result<Self, AllocError> {
        let mut program = Program {
            start: icfg.nwa().start(),
            edges: Edges::new(alloc),
            letters: Letters::new(alloc),
            widths: Vec::new(alloc),
        };
        program.fill(alloc, icfg)?;
        Ok(program)
    }

    /// How many columns the frame of a place has.
    pub fn width(&self, place: u32) -> usize {
        self.widths.get(place as usize).copied().unwrap_or(0)
    }

    /// Adds its edges and letters, and how many columns frames have.
    fn fill(&mut self, alloc: Global, icfg: &Icfg) -> Result<(), AllocError> {
        for &proc in icfg.place_procs() {
            let width = match icfg.frames().get(proc as usize) {
                Some(frame) => frame.columns.len(),
                None => 0,
            };
            self.widths.push(width)?;
        }
        self.edges.add_all(alloc, icfg.nwa())?;
        self.letters.add_all(alloc, icfg)
    }
}
