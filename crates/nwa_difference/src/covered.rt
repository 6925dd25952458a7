//! Whether sets of pairs have covers.

ghost use Rattle.std.specs.Prelude.{◌≡◌, ◌<◌, ℕ, Some, IsTrue, length};
ghost use Rattle.nwa_base.specs.Members.{Member};
ghost use Rattle.nwa_determinise.specs.Kept.{set_at};
ghost use Rattle.nwa_difference.specs.Covering.{EndsInCover};

use crate::covering::cover_of;
use nwa_base::Pair;
use nwa_determinise::Det;
use std::collections::HashMap;

/// Where sets have pairs that end in a state, as far as it was looked for: under the number of the set and the state. It is the set's
/// length where it has none.
pub type Places = HashMap<(u32, u32), usize>;

/// Whether a set has a pair that ends in the cover of a state. Where that is looked for is noted, as long as there is memory.
pub fn is_covered(
    places: &mut Places,
    covers: &[Option<u32>],
    sets: &Det,
    state: u32,
    set: u32,
) -> bool
    requires { set < length sets.now.sets }
    ensures { IsTrue result → EndsInCover covers.now state (set_at sets.now set) }
{
    let Some(cover) = cover_of(covers, state) else {
        return false;
    };
    let pairs = sets.pairs(set);
    let place = place_of(places, pairs, set, cover);
    ends_at(pairs, place, cover)
}

/// The place that is noted, or the place of the first pair that ends in a state, or the length. Whether it is one, `ends_at` tries.
fn place_of(places: &mut Places, pairs: &[Pair], set: u32, state: u32) -> usize {
    if let Some(&known) = places.get(&(set, state)) {
        return known;
    }
    let place = first_end(pairs, state);
    let _noted = places.insert((set, state), place);
    place
}

/// The place of the first pair that ends in a state, or the length.
fn first_end(pairs: &[Pair], state: u32) -> usize {
    for place in 0..pairs.len() {
        if pairs[place].1 == state {
            return place;
        }
    }
    pairs.len()
}

/// Whether the pair at a place ends in a state.
fn ends_at(pairs: &[Pair], place: usize, state: u32) -> bool
    ensures { IsTrue result → (k : ℕ) × Member pairs.now (k, state) }
{
    match pairs.get(place) {
        Some(&(_, end)) => end == state,
        None => false,
    }
}
