ghost use Rattle.std.specs.Prelude.{◌≡◌, ◌↔◌, IsSome, IfSome};
ghost use Rattle.letter_acts.specs.Invariant.{IsGraph};
ghost use Rattle.letter_acts.specs.Parts.{graph};

use crate::acts::Act;
use crate::checks::is_graph;
use crate::frames::Frame;
use crate::graphs::Icfg;
use crate::parts::Parts;
use crate::sites::Site;
use boogie_tree::Text;
use nwa_base::Nwa;

/// The graph of these parts, `None` exactly where they break its invariant. It reads the parts about once, and puts names into
/// maps; it compares them pair by pair where there is no memory for these, and written columns, targets and places of sites where
/// they do not ascend.
pub fn icfg(
    nwa: Nwa,
    acts: Vec<Act>,
    frames: Vec<Frame>,
    names: Vec<Text>,
    place_procs: Vec<u32>,
    entries: Vec<Option<u32>>,
    exits: Vec<Option<u32>>,
    sites: Vec<Site>,
) -> Option<Icfg>
    ensures found { IsSome result ↔ IsGraph (graph nwa acts.items frames.items names.items place_procs.items entries.items exits.items sites.items) }
    ensures value { IfSome result (λ i. i ≡ graph nwa acts.items frames.items names.items place_procs.items entries.items exits.items sites.items) }
{
    let parts = Parts {
        nwa,
        acts,
        frames,
        names,
        place_procs,
        entries,
        exits,
        sites,
    };
    if is_graph(&parts) {
        Some(Icfg::new(parts))
    } else {
        None
    }
}
