//! What the lists mean.

ghost use Rattle.cond_jumps.specs.Lists.{PathsMean, ConditionsAreTruths, AssignsMean};

/// A state makes a condition have the wanted value exactly where it meets a member of the list. It meets at most one, by
/// one number for each helper.
pub fn paths_mean()
    ensures { PathsMean }
{}

/// A condition is 0 or 1.
pub fn conditions_are_truths()
    ensures { ConditionsAreTruths }
{}

/// New values are those of a parallel assignment exactly where a member of the list is met. At most one is met, by one
/// number for each helper.
pub fn assigns_mean()
    ensures { AssignsMean }
{}
