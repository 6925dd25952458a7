//! What no end of a race is.

ghost use Rattle.race_verdicts.specs.RaceCompleteness.Laws as law;

/// A legal history together with one word that is kept are as many different words of the program.
pub fn histories_are_short()
    ensures { law.HistoriesAreShort }
{}

/// Where the program has no more words than rounds, no race over it ends because its rounds are over.
pub fn rounds_are_enough()
    ensures { law.RoundsAreEnough }
{}

/// A race that ends because its rounds are over has as many entries as rounds, the one that was given included.
pub fn all_rounds_are_used()
    ensures { law.AllRoundsAreUsed }
{}
