//! Laws of the traces that whole points tell.

ghost use Rattle.trace_replay.specs.PathTraces.Laws as law;

use path_rows::laws::rows_say_states;

/// A whole point that meets the rows of a word tells, along each accepting run over it, a trace that ends where the run ends.
pub fn solutions_are_traces()
    ensures { law.SolutionsAreTraces }
{
    rows_say_states();
}

/// The values of its positions are those that the point has at the versions of the frame at each position of the word.
pub fn positions_are_read()
    ensures { law.PositionsAreRead }
{}
