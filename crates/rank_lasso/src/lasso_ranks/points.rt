//! Ranks at points of the ranking system.

ghost use Rattle.std.specs.Prelude.{◌≡◌, ◌+◌, ◌<◌, ◌^◌, Some, Ok, IfOk, IfSome, length, map};
ghost use Rattle.lin_rows.specs.Tightening.{tightened};
ghost use Rattle.fm_elim.specs.Worth.{MeetsAll};
ghost use Rattle.letter_acts.specs.Kept.{Keeps};
ghost use Rattle.rank_lasso.specs.LassoTurns.Made.{plain_turn, CanBeRanked};
ghost use Rattle.rank_lasso.specs.RankingSystem.RankingSystem.{ranking_system, unknowns};
ghost use Rattle.rank_lasso.specs.RankingSystem.Scaled.{ScaledRankFits};
ghost use Rattle.rank_lasso.specs.LassoRanks.Lassos.{plain_lasso, IsLassoOf, loop_turn};
ghost use Rattle.rank_lasso.specs.LassoRanks.Ranks.{IsRankingOver, Ranks};
ghost use Rattle.rank_lasso.specs.LassoRanks.Outcomes.{WhereFound};

use crate::lasso_ranks::checking::check_rank;
use crate::lasso_ranks::lassos::Lasso;
use crate::lasso_ranks::rankings::{Ranked, Ranking};
use crate::lasso_turns::MadeTurn;
use crate::ranking_system::{rank_at, scaled};
use frac::Frac;
use letter_acts::Icfg;
use lin_rows::Row;
use std::alloc::{AllocError, Global};

/// The rank that a point gives, where it is one and its numbers fit. At a point of the ranking system they are all that can fail.
pub(crate) fn ranked_at(
    alloc: Global,
    icfg: &Icfg,
    lasso: &Lasso,
    turn: &MadeTurn,
    tight: &[Row],
    values: &[Frac],
) -> Result<Ranked, AllocError>
    requires valid { Keeps icfg.now }
    requires placed { IsLassoOf icfg.now (plain_lasso lasso.now) }
    requires turn { plain_turn turn.now ≡ loop_turn icfg.now (plain_lasso lasso.now) }
    requires ranked { CanBeRanked turn.now }
    requires tight { tight.now ≡ map tightened turn.now.rows.items }
    requires room { length tight.now + length tight.now + turn.now.width < 2 ^ 32 }
    requires counted { length values.now ≡ length tight.now + length tight.now + turn.now.width }
    ensures found { IfOk result (λ r. WhereFound r (λ p. IsRankingOver icfg.now p × Ranks icfg.now (plain_lasso lasso.now) p)) }
    ensures some { result ≡ Ok Ranked.NoRank → ⊥ }
    ensures number { let t = loop_turn icfg.now (plain_lasso lasso.now) in
        result ≡ Ok Ranked.Number → MeetsAll (unknowns t) (map tightened (ranking_system t)) values.now → ScaledRankFits t values.now → ⊥ }
{
    let Some(numerators) = scaled(alloc, values)? else {
        return Ok(Ranked::Number);
    };
    let Some(rank) = rank_at(alloc, turn, tight, &numerators)? else {
        return Ok(Ranked::Number);
    };
    let ranking = Ranking::Rank {
        terms: rank.terms,
        bound: rank.bound,
        falls: rank.falls,
        bounded: rank.bounded,
    };
    match check_rank(alloc, icfg, lasso, &ranking)? {
        None => Ok(Ranked::Found(ranking)),
        Some(_) => Ok(Ranked::Number),
    }
}

/// The rank that a proposed point gives, if it is one that holds.
pub(crate) fn held_at(
    alloc: Global,
    icfg: &Icfg,
    lasso: &Lasso,
    turn: &MadeTurn,
    tight: &[Row],
    values: &[Frac],
) -> Result<Option<Ranked>, AllocError>
    requires valid { Keeps icfg.now }
    requires placed { IsLassoOf icfg.now (plain_lasso lasso.now) }
    requires turn { plain_turn turn.now ≡ loop_turn icfg.now (plain_lasso lasso.now) }
    requires ranked { CanBeRanked turn.now }
    requires tight { tight.now ≡ map tightened turn.now.rows.items }
    requires room { length tight.now + length tight.now + turn.now.width < 2 ^ 32 }
    ensures found { IfOk result (λ o. IfSome o (λ r. WhereFound r (λ p. IsRankingOver icfg.now p × Ranks icfg.now (plain_lasso lasso.now) p))) }
    ensures rank { result ≡ Ok (Some Ranked.NoRank) → ⊥ }
    ensures number { result ≡ Ok (Some Ranked.Number) → ⊥ }
{
    if values.len() != tight.len() + tight.len() + turn.width {
        return Ok(None);
    }
    match ranked_at(alloc, icfg, lasso, turn, tight, values)? {
        Ranked::Found(ranking) => Ok(Some(Ranked::Found(ranking))),
        Ranked::NoRank | Ranked::Number => Ok(None),
    }
}
