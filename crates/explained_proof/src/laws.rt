//! What explained programs are, and when their clauses hold, as laws.

ghost use Rattle.explained_proof.specs.Laws.{ExplainedSaysMore};
ghost use Rattle.explained_proof.specs.Readings.{ValuesAreReadings, ClausesAreTrue};
ghost use Rattle.explained_proof.specs.Worth.{TightHolds, NodesAreKnown, KnownIsShallow, RequirementsHold, ClausesHold};

/// An explained program is the given one with more specifications, invariants and assertions, and nothing else of it is changed.
pub fn explained_programs_say_more()
    ensures { ExplainedSaysMore }
{}

/// A tightened predicate holds at the same whole points. What an annotation knows at a node holds exactly where each of the node's predicates
/// does, and none of them is nested deeper than those of its lines.
pub fn what_is_known_holds()
    ensures tight { TightHolds }
    ensures nodes { NodesAreKnown }
    ensures shallow { KnownIsShallow }
{}

/// Where a frame is entered in a state in which what is known at one of its entry nodes holds, each clause that is required holds.
pub fn requirements_hold()
    ensures { RequirementsHold }
{}

/// In a state of a frame that is followed by the nodes at a place, each clause that is told there holds.
pub fn clauses_hold()
    ensures { ClausesHold }
{}

/// Values of expressions in a state of a procedure are a reading, whatever names stand for; so each clause that is told at a place has the value
/// true in a state of a frame that is followed by the nodes there, where names stand for the columns that they call.
pub fn clauses_are_true()
    ensures readings { ValuesAreReadings }
    ensures clauses { ClausesAreTrue }
{}
