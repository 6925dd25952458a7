//! Laws of the choices that are told of traces.

ghost use Rattle.lowered_graph.specs.LoweredChoices.Laws as law;

use boogie_run::boogie_places::laws::places_of_typed_programs;

/// The run of a typed program that takes the choices told of a trace of its graph over a word without coarse letters, one a step, fails the
/// assertion at whose failing the trace ends, with the last of them and not before. On the way it comes to the place of each position, with
/// the values there.
pub fn choices_of_traces()
    ensures fail { law.TracesFail }
    ensures along { law.TracesAreRun }
{
    places_of_typed_programs();
}
