//! What chains of operands are worth, and when conjunctions hold, as laws.

ghost use Rattle.explained_proof.specs.BuiltExpressions.Laws.{ChainsAreRows, JoinedHolds, ClausesHold, BothHold, OneHolds};

/// Where an operation is associative, a chain that is cut into groups is worth what all its operands are in one row.
pub fn chains_are_rows()
    ensures { ChainsAreRows }
{}

/// A conjunction, as one expression or as clauses, holds exactly where all its members do, that of two where both do, and one of several
/// alternatives where one of them does.
pub fn conjunctions_hold()
    ensures joined { JoinedHolds }
    ensures clauses { ClausesHold }
    ensures both { BothHold }
    ensures one { OneHolds }
{}
