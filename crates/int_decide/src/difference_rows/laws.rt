//! What Decide answers to difference rows.

ghost use Rattle.int_decide.specs.DifferenceRows.Laws as law;

use fm_elim::the_point_is_picked;

/// Decide of difference rows is a refutation or a whole point, without any cut: a rational solution stays one where each value is
/// rounded down (Bellman, 1958; Ford, 1956: bounds on differences that are whole numbers have whole solutions).
pub fn differences_are_decided()
    ensures { law.DifferencesAreDecided }
{
    the_point_is_picked();
}
