//! What is read off a word before its leaves are summed.

ghost use Rattle.std.specs.Prelude.{IfOk, OnOk};
ghost use Rattle.letter_acts.specs.Kept.{Keeps};
ghost use Rattle.path_rows.specs.Paths.{IsPathOf};
ghost use Rattle.nested_itp.specs.NestedPredicates.Layouts.{IsLayout};

use crate::nested_predicates::returns::returns;
use crate::nested_predicates::spots::{Spot, spots};
use crate::nested_predicates::stamps::Stamps;
use letter_acts::Icfg;
use path_rows::PathSystem;
use std::alloc::{AllocError, Global};

/// The stamps of a word's rows and columns, which of its calls return, and the frame at each position.
#[derive(Drop)]
pub(crate) struct Layout {
    pub(crate) stamps: Stamps,
    pub(crate) returned: Vec<bool>,
    pub(crate) spots: Vec<Spot>,
}

impl Layout {
    /// That of the word of a path. No memory is left for a word of 2^32 letters or more.
    pub(crate) fn of(alloc: Global, icfg: &Icfg, path: &PathSystem) -> Result<Layout, AllocError>
        requires { IsPathOf icfg.now path.now }
        ensures { IfOk result (IsLayout icfg.now path.now.word) }
    {
        let _valid = icfg.acts();
        let letters = path.word().letters();
        if letters.len() > u32::MAX as usize {
            return Err(AllocError);
        }
        let stamps = Stamps::of(alloc, icfg, letters)?;
        let returned = returns(alloc, letters)?;
        let spots = spots(alloc, icfg, letters, &returned)?;
        Ok(Layout {
            stamps,
            returned,
            spots,
        })
    }
}
