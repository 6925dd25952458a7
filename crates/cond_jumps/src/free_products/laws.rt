//! What letters are worth.

ghost use Rattle.cond_jumps.specs.FreeProducts.LetterLaws.{LettersFollow, ExactLettersLead, PlainLetters, LettersAreNarrow};
ghost use Rattle.cond_jumps.specs.FreeProducts.FrameLaws.{ConditionsMean, AssignmentsMean, CalledConditionsMean};

/// Values that meet a conjunction, together with those of its products, meet its letter.
pub fn letters_follow()
    ensures { LettersFollow }
{}

/// Values that meet a letter that is not coarse meet the conjunction, whatever the values of its products are.
pub fn exact_letters_lead()
    ensures { ExactLettersLead }
{}

/// Without products a conjunction is its own letter, and exact.
pub fn plain_letters()
    ensures { PlainLetters }
{}

/// The rows of a letter name columns of the frame, further columns and its helpers alone.
pub fn letters_are_narrow()
    ensures { LettersAreNarrow }
{}

/// Where a condition has the wanted value its state meets a letter; it has the value where the state meets one that is not coarse.
pub fn conditions_mean()
    ensures { ConditionsMean }
{}

/// The same of new values, which are those of a parallel assignment.
pub fn assignments_mean()
    ensures { AssignmentsMean }
{}

/// The same of a condition of a called procedure, whose parameters have the values of the arguments.
pub fn called_conditions_mean()
    ensures { CalledConditionsMean }
{}
