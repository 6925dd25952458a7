//! Whether parts make a graph: a test for each condition of the invariant. None of them wants for memory: what takes some has a
//! slower way without.

ghost use Rattle.std.specs.Prelude.{◌↔◌, IsTrue};
ghost use Rattle.letter_acts.specs.Invariant.{IsGraph};
ghost use Rattle.letter_acts.specs.Parts.{graph_of};

mod acts;
mod columns;
mod distinct;
mod edges;
mod frames;
mod naming;
mod procedures;
mod sites;

use crate::parts::Parts;
use acts::are_acted;
pub use acts::is_within;
pub use columns::{count_local_targets, count_variables};
use edges::has_edges;
use frames::are_frames;
use naming::are_named;
use procedures::has_procedures;
use sites::has_sites;

/// Whether the parts make a graph.
pub(crate) fn is_graph(parts: &Parts) -> bool
    ensures { IsTrue result ↔ IsGraph (graph_of parts.now) }
{
    has_procedures(parts)
        && are_frames(&parts.frames)
        && are_named(parts)
        && are_acted(&parts.acts, &parts.frames)
        && has_edges(parts)
        && has_sites(parts)
}
