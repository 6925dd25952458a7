//! When what a row says holds, as laws.

ghost use Rattle.explained_proof.specs.RowExpressions.Worth.{ConclusionsFollow, PremisesImply};

/// As a conclusion a row says nothing that fails where the row holds, and as a premise it holds nowhere where the row fails.
pub fn rows_are_said_soundly()
    ensures conclusions { ConclusionsFollow }
    ensures premises { PremisesImply }
{}
