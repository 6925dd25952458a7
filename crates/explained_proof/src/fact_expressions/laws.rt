//! When what is said of facts holds, as laws.

ghost use Rattle.explained_proof.specs.FactExpressions.Worth.{HoldsAsInequalities, InequalitiesHold, FactsAreTheirs, EitherHolds, FactsFollow, FactsAreImplied, AlternativesFollow, AlternativesAreImplied};

/// A predicate of inequalities holds exactly where its test does, the facts of several predicates where each of them does, and the disjunction
/// of several facts where one of them does.
pub fn facts_are_their_predicates()
    ensures holds { HoldsAsInequalities }
    ensures inequalities { InequalitiesHold }
    ensures facts { FactsAreTheirs }
    ensures disjunctions { EitherHolds }
{}

/// As conclusions facts, and disjunctions of them, say nothing that fails where they hold, and as premises what is said of them holds nowhere
/// where they fail.
pub fn facts_are_said_soundly()
    ensures conclusions { FactsFollow }
    ensures premises { FactsAreImplied }
    ensures alternatives { AlternativesFollow }
    ensures alternative_premises { AlternativesAreImplied }
{}
