//! The law of rankings, over the definitions that contracts cite.

ghost use Rattle.letter_acts.specs.Invariant.{Graph, IsGraph};
ghost use Rattle.rank_lasso.specs.LassoRanks.Lassos.{PlainLasso, IsLassoOf};
ghost use Rattle.rank_lasso.specs.LassoRanks.Ranks.{PlainRanking, IsRankingOver, Ranks, LassoEnds};

/// Where a ranking of a lasso holds, no states obey its stem and then its loop again and again.
pub fn ranked_lassos_end()
    ensures { (g : Graph) (l : PlainLasso) (r : PlainRanking) → IsGraph g → IsLassoOf g l → IsRankingOver g r → Ranks g l r → LassoEnds g l }
{}
