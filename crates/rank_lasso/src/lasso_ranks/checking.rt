//! Whether rankings hold.

ghost use Rattle.std.specs.Prelude.{◌≡◌, ◌≤◌, ◌^◌, ◌↔◌, IsNone, IfSome, IfOk, OnOk};
ghost use Rattle.letter_acts.specs.Kept.{Keeps};
ghost use Rattle.rank_lasso.specs.LassoTurns.Made.{plain_turn};
ghost use Rattle.rank_lasso.specs.LassoRanks.Lassos.{plain_lasso, IsLassoOf, AreOfEntry, whole_turn};
ghost use Rattle.rank_lasso.specs.LassoRanks.Ranks.{plain_ranking, IsRankingOver, Ranks, IsFirstFailing, HasFewTurns, LassoEnds};

use crate::lasso_ranks::lassos::Lasso;
use crate::lasso_ranks::placing::entry_proc;
use crate::lasso_ranks::rankings::Ranking;
use crate::lasso_turns::{MadeTurn, refutes_turn, shows_bound, shows_fall, turn_of};
use letter_acts::Icfg;
use std::alloc::{AllocError, Global};

/// `None` where each refutation of the ranking refutes what it is to refute, and the numbers of the row that it is given fit; else the line
/// of the ranking's text with the first that does not: 4 for an exclusion, 6 for the fall, 7 for the bound. Where it is `None`, no states
/// obey more turns of the loop, one behind the other, than the rank in the first of them less the bound and 1 more; or none obey the stem
/// and one turn. Its time is linear in the rows of the turn and what the check of the refutations costs.
pub fn check_rank(
    alloc: Global,
    icfg: &Icfg,
    lasso: &Lasso,
    ranking: &Ranking,
) -> Result<Option<u64>, AllocError>
    requires placed { IsLassoOf icfg.now (plain_lasso lasso.now) }
    requires over { IsRankingOver icfg.now (plain_ranking ranking.now) }
    ensures exact { IfOk result (λ o. IsNone o ↔ Ranks icfg.now (plain_lasso lasso.now) (plain_ranking ranking.now)) }
    ensures line { IfOk result (λ o. IfSome o (IsFirstFailing icfg.now (plain_lasso lasso.now) (plain_ranking ranking.now))) }
    ensures few { IfOk result (λ o. IsNone o → HasFewTurns icfg.now (plain_lasso lasso.now) (plain_ranking ranking.now)) }
    ensures ends { IfOk result (λ o. IsNone o → LassoEnds icfg.now (plain_lasso lasso.now)) }
{
    match ranking {
        Ranking::Rank {
            terms,
            bound,
            falls,
            bounded,
        } => {
            let turn = turn_of(alloc, icfg, entry_proc(icfg), &lasso.turn)?;
            if !shows_fall(alloc, &turn, terms, falls)? {
                return Ok(Some(6));
            }
            if !shows_bound(alloc, &turn, terms, *bound, bounded)? {
                return Ok(Some(7));
            }
            Ok(None)
        }
        Ranking::Excluded(proof) => {
            let turn = whole_turn(alloc, icfg, lasso)?;
            if refutes_turn(alloc, turn, proof)? {
                Ok(None)
            } else {
                Ok(Some(4))
            }
        }
    }
}

/// The turn of the stem and, behind it, one turn of the loop.
pub(crate) fn whole_turn(alloc: Global, icfg: &Icfg, lasso: &Lasso) -> Result<MadeTurn, AllocError>
    requires stem { AreOfEntry icfg.now lasso.now.stem.items }
    requires turn { AreOfEntry icfg.now lasso.now.turn.items }
    ensures value { IfOk result (λ d. plain_turn d ≡ whole_turn icfg.now (plain_lasso lasso.now)) }
    ensures room { IfOk result (λ d. d.made ≤ 2 ^ 32) }
    ensures valid { OnOk result (Keeps icfg.now) }
{
    let mut letters = Vec::from_slice(alloc, &lasso.stem)?;
    letters.extend_from_slice(&lasso.turn)?;
    turn_of(alloc, icfg, entry_proc(icfg), &letters)
}
