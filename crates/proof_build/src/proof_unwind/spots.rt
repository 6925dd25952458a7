//! Nodes while they are searched.

ghost use Rattle.std.specs.Prelude.{◌≡◌, slice_get};
ghost use Rattle.std.specs.Option.{option_map};
ghost use Rattle.proof_build.specs.ProofUnwind.Spots.{plain, nodes_of};

/// A node while nodes are searched: its place, its entry node, and its predicates.
#[derive(Drop)]
pub struct Spot {
    pub place: u32,
    pub entry: u32,
    pub preds: Vec<u32>,
}

/// The node with this number, if there is one.
pub fn spot_at(spots: &[Spot], number: u32) -> Option<&Spot>
    ensures { option_map (λ s. plain s.now) result ≡ slice_get (nodes_of spots.now) number }
{
    spots.get(number as usize)
}
