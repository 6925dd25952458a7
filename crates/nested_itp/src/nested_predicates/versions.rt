//! How many versions stand in frames.

ghost use Rattle.std.specs.Prelude.{◌≡◌, ◌<◌, ◌≤◌, Some, map, length, slice_get};
ghost use Rattle.std.specs.List.{AllByRecursion};

use lin_rows::Col;

/// One more than the greatest version that stands in a frame.
pub(crate) fn width(states: &[Vec<Col>]) -> usize
    ensures { AllByRecursion (λ s. AllByRecursion (λ v. v < result) s.items) states.now }
{
    let mut width = 0;
    for i in 0..states.len() {
        width = width_with(&states[i], width);
    }
    width
}

/// The versions at a position.
pub(crate) fn versions_at(states: &[Vec<Col>], position: usize) -> &[Col]
    requires { position < length states.now }
    ensures { slice_get (map (λ v. v.items) states.now) position ≡ Some result.now }
{
    states[position].as_slice()
}

/// That of one frame, or so many if these are more.
fn width_with(state: &[Col], least: usize) -> usize
    ensures least { least ≤ result }
    ensures versions { AllByRecursion (λ v. v < result) state.now }
{
    let mut width = least;
    for i in 0..state.len() {
        width = width.max(state[i] as usize + 1);
    }
    width
}
