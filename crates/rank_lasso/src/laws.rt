//! Laws of the texts, over the definitions that contracts cite.

ghost use Rattle.std.specs.Prelude.{◌≡◌, ℕ, List};
ghost use Rattle.letter_acts.specs.Invariant.{Graph};
ghost use Rattle.rank_lasso.specs.LassoRanks.Lassos.{PlainLasso};
ghost use Rattle.rank_lasso.specs.LassoRanks.Ranks.{PlainRanking, Ranks};
ghost use Rattle.rank_lasso.specs.Naming.{HaveNumbers};
ghost use Rattle.rank_lasso.specs.Faults.{IsReadAs};

/// A text spells one ranking of one lasso at most.
pub fn texts_have_one_ranking()
    ensures { (g : Graph) (text : List ℕ) (l m : PlainLasso) (r s : PlainRanking) → IsReadAs g text l r → IsReadAs g text m s → (l ≡ m) × (r ≡ s) }
{}

/// A ranking that holds has numbers that can be written.
pub fn holding_rankings_can_be_written()
    ensures { (g : Graph) (l : PlainLasso) (r : PlainRanking) → Ranks g l r → HaveNumbers r }
{}
