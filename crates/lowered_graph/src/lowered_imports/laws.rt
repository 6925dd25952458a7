//! Laws of the points of typed programs, and of calls of procedures without body.

ghost use Rattle.lowered_graph.specs.LoweredImports.KnownPoints.{PointsAreKnown, ImportsAreKnown};
ghost use Rattle.lowered_graph.specs.LoweredImports.Laws as law;

/// The points of a typed program are typed and lead to points, and one that chooses, assumes or writes something of a call without body
/// stands at such a call, behind its requires.
pub fn points_of_typed_programs()
    ensures known { PointsAreKnown }
    ensures imports { ImportsAreKnown }
{}

/// In a run a call of a procedure without body is a step for each value that it chooses, one for each ensures and one that writes; a run
/// that stands at such a call and fails an assertion fails it behind the call.
pub fn imports_in_runs()
    ensures run { law.ImportsRun }
    ensures steps { law.ChoicesAreSteps }
    ensures back { law.RunsImport }
{}

/// In the stack machine a whole call is one step of the stacks that show its configurations, and each exact step from a stack at such a call is
/// a whole call: the values that it chose are those of the state behind it and of its helpers.
pub fn imports_in_machines()
    ensures go { law.ImportsGo }
    ensures back { law.ImportsBack }
{}
