//! Laws of the stack machines of typed programs.

ghost use Rattle.lowered_graph.specs.LoweredRuns.Laws as law;

/// Where some choices lead a typed program, step by step, to the failure of an assertion its stack machine fails it, and where the machine
/// fails it by exact steps some choices do; the choices that are told of exact steps, with their helpers, make such a run.
pub fn machines_of_typed_programs()
    ensures fails { law.MachinesFailAsRuns }
    ensures told { law.ToldChoicesFail }
{}
