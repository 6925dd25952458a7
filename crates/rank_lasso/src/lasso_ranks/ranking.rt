//! The search for a ranking.

ghost use Rattle.std.specs.Prelude.{◌≡◌, ◌+◌, ◌<◌, ◌^◌, Ok, IfOk, SomeIff};
ghost use Rattle.fm_elim.specs.Worth.{IsSolvable};
ghost use Rattle.rank_lasso.specs.LassoTurns.Claims.{RefutesTurn};
ghost use Rattle.rank_lasso.specs.RankingSystem.RankingSystem.{ranking_system};
ghost use Rattle.rank_lasso.specs.LassoRanks.Lassos.{plain_lasso, IsLassoOf, AreOfEntry, loop_turn, whole_turn};
ghost use Rattle.rank_lasso.specs.LassoRanks.Ranks.{plain_ranking, IsRankingOver, Ranks};
ghost use Rattle.rank_lasso.specs.LassoRanks.Outcomes.{DecideRefutes, DecisionFits, DecideExcludes, LinearFits, RankFits, HasNoRank, IsRank, WhereFound, WhereExcluded};

use crate::lasso_ranks::checking::whole_turn;
use crate::lasso_ranks::lassos::Lasso;
use crate::lasso_ranks::placing::entry_proc;
use crate::lasso_ranks::points::ranked_at;
use crate::lasso_ranks::proposing::proposed;
use crate::lasso_ranks::rankings::{Ranked, Ranking};
use crate::lasso_turns::turn_of;
use crate::ranking_system::{ranking_rows, tightened_rows};
use farkas_check::Refutation;
use fm_elim::{Elim, ElimFault, eliminate};
use int_decide::{Answer, DecideFault, decide, measure};
use letter_acts::Icfg;
use lin_rows::system;
use std::alloc::{AllocError, Global};

/// What Decide says of the stem and one turn.
#[derive(Drop)]
enum Exclusion {
    Refuted(Refutation),
    Unrefuted,
    /// A number does not fit.
    Past,
}

/// A ranking of the lasso: a refutation of the stem and one turn, where Decide finds one with at most `depth` cuts on a branch; else a
/// linear rank, from a point of the ranking system of the loop (Podelski and Rybalchenko, 2004), which a simplex is asked for before it
/// is eliminated. `NoRank` comes only where that system has no rational point and Decide does not refute, `Number` only where a number
/// does not fit: of Decide, of the elimination of the system, of its point times the least common denominator, or of the rank there and
/// its leaves. No memory is left where columns, rows or unknowns get no number any more. Its time may be exponential, as that of Decide
/// and of the elimination.
pub fn rank(alloc: Global, icfg: &Icfg, lasso: &Lasso, depth: u32) -> Result<Ranked, AllocError>
    requires placed { IsLassoOf icfg.now (plain_lasso lasso.now) }
    ensures found { IfOk result (λ r. WhereFound r (λ p. IsRankingOver icfg.now p × Ranks icfg.now (plain_lasso lasso.now) p)) }
    ensures excludes_first { IfOk result (λ r. WhereFound r (λ p. IsRank p → DecideExcludes icfg.now (plain_lasso lasso.now) depth → ⊥)) }
    ensures none { result ≡ Ok Ranked.NoRank → HasNoRank icfg.now (plain_lasso lasso.now) depth }
    ensures number { result ≡ Ok Ranked.Number → RankFits icfg.now (plain_lasso lasso.now) depth → ⊥ }
{
    match excluding(alloc, icfg, lasso, depth)? {
        Exclusion::Refuted(proof) => Ok(Ranked::Found(Ranking::Excluded(proof))),
        Exclusion::Unrefuted => linear_rank(alloc, icfg, lasso),
        Exclusion::Past => match linear_rank(alloc, icfg, lasso)? {
            Ranked::Found(ranking) => Ok(Ranked::Found(ranking)),
            Ranked::NoRank | Ranked::Number => Ok(Ranked::Number),
        },
    }
}

/// What Decide says of the stem and one turn.
fn excluding(alloc: Global, icfg: &Icfg, lasso: &Lasso, depth: u32) -> Result<Exclusion, AllocError>
    requires stem { AreOfEntry icfg.now lasso.now.stem.items }
    requires turn { AreOfEntry icfg.now lasso.now.turn.items }
    ensures refuted { IfOk result (λ e. WhereExcluded e (λ nodes. RefutesTurn (whole_turn icfg.now (plain_lasso lasso.now)) nodes)) }
    ensures unrefuted { result ≡ Ok Exclusion.Unrefuted → DecideRefutes depth (whole_turn icfg.now (plain_lasso lasso.now)) → ⊥ }
    ensures past { result ≡ Ok Exclusion.Past → DecisionFits depth (whole_turn icfg.now (plain_lasso lasso.now)) → ⊥ }
{
    let turn = whole_turn(alloc, icfg, lasso)?;
    let Ok(columns) = u32::try_from(turn.made) else {
        return Err(AllocError);
    };
    let whole = system(turn.rows, Vec::new(alloc));
    let Some(rows) = measure(&whole, columns) else {
        return Err(AllocError);
    };
    if rows.checked_add(depth).is_none() {
        return Err(AllocError);
    }
    match decide(alloc, &whole, columns, depth) {
        Ok(Answer::Refuted(proof)) => Ok(Exclusion::Refuted(proof)),
        Ok(Answer::Whole(_)) | Err(DecideFault::Gap) => Ok(Exclusion::Unrefuted),
        Err(DecideFault::Past) => Ok(Exclusion::Past),
        Err(DecideFault::Memory) => Err(AllocError),
    }
}

/// A linear rank of the loop.
fn linear_rank(alloc: Global, icfg: &Icfg, lasso: &Lasso) -> Result<Ranked, AllocError>
    requires placed { IsLassoOf icfg.now (plain_lasso lasso.now) }
    ensures found { IfOk result (λ r. WhereFound r (λ p. IsRankingOver icfg.now p × Ranks icfg.now (plain_lasso lasso.now) p)) }
    ensures none { result ≡ Ok Ranked.NoRank → IsSolvable (ranking_system (loop_turn icfg.now (plain_lasso lasso.now))) → ⊥ }
    ensures number { result ≡ Ok Ranked.Number → LinearFits icfg.now (plain_lasso lasso.now) → ⊥ }
{
    let turn = turn_of(alloc, icfg, entry_proc(icfg), &lasso.turn)?;
    let Some(unknowns) = unknowns_of(turn.rows.len(), turn.width) else {
        return Err(AllocError);
    };
    let tight = tightened_rows(alloc, &turn.rows)?;
    let rows = ranking_rows(alloc, &turn, &tight)?;
    if rows.len() > u32::MAX as usize {
        return Err(AllocError);
    }
    if let Some(ranked) = proposed(alloc, icfg, lasso, &turn, &tight, &rows, unknowns)? {
        return Ok(ranked);
    }
    match eliminate(alloc, &rows, unknowns) {
        Ok(Elim::Refuted(_)) => Ok(Ranked::NoRank),
        Ok(Elim::Point(values)) => ranked_at(alloc, icfg, lasso, &turn, &tight, &values),
        Err(ElimFault::Past) => Ok(Ranked::Number),
        Err(ElimFault::Memory) => Err(AllocError),
    }
}

/// How many unknowns the ranking system of so many rows and columns of the frame has, in 32 bits, which they have to fit.
fn unknowns_of(rows: usize, width: usize) -> Option<u32>
    ensures { SomeIff result (rows + rows + width < 2 ^ 32) (rows + rows + width) }
{
    u32::try_from(rows.checked_add(rows)?.checked_add(width)?).ok()
}
