//! What a simplex proposes for the ranking system.

ghost use Rattle.std.specs.Prelude.{◌≡◌, ◌+◌, Some, Ok, IfOk, IfSome, IsSome, length, map};
ghost use Rattle.lin_rows.specs.Tightening.{tightened};
ghost use Rattle.fm_elim.specs.Worth.{IsSolvable};
ghost use Rattle.letter_acts.specs.Kept.{Keeps};
ghost use Rattle.rank_lasso.specs.LassoTurns.Made.{plain_turn, CanBeRanked};
ghost use Rattle.rank_lasso.specs.LassoRanks.Lassos.{plain_lasso, IsLassoOf, loop_turn};
ghost use Rattle.rank_lasso.specs.LassoRanks.Ranks.{IsRankingOver, Ranks};
ghost use Rattle.rank_lasso.specs.LassoRanks.Outcomes.{WhereFound};

use crate::lasso_ranks::lassos::Lasso;
use crate::lasso_ranks::points::held_at;
use crate::lasso_ranks::rankings::Ranked;
use crate::lasso_turns::MadeTurn;
use crate::ranking_system::tightened_rows;
use farkas_check::Node;
use int_decide::accepted;
use letter_acts::Icfg;
use lin_rows::{Row, copied_rows, system};
use simplex_rows::{Found, Parts, try_solve};
use std::alloc::{AllocError, Global};

/// How many pivots the simplex may make for each row and unknown.
const PIVOTS: u32 = 8;

/// What a simplex proposes for the rows of the ranking system, where it is right: a rank that holds, or that the rows have no rational
/// point. `None` where it proposes nothing, or what is refused. Its time is that of so many pivots for each row and unknown.
pub(crate) fn proposed(
    alloc: Global,
    icfg: &Icfg,
    lasso: &Lasso,
    turn: &MadeTurn,
    tight: &[Row],
    rows: &[Row],
    unknowns: u32,
) -> Result<Option<Ranked>, AllocError>
    requires valid { Keeps icfg.now }
    requires placed { IsLassoOf icfg.now (plain_lasso lasso.now) }
    requires turn { plain_turn turn.now ≡ loop_turn icfg.now (plain_lasso lasso.now) }
    requires ranked { CanBeRanked turn.now }
    requires tight { tight.now ≡ map tightened turn.now.rows.items }
    requires unknowns { unknowns ≡ length tight.now + length tight.now + turn.now.width }
    ensures found { IfOk result (λ o. IfSome o (λ r. WhereFound r (λ p. IsRankingOver icfg.now p × Ranks icfg.now (plain_lasso lasso.now) p))) }
    ensures none { result ≡ Ok (Some Ranked.NoRank) → IsSolvable (map tightened rows.now) → ⊥ }
    ensures number { result ≡ Ok (Some Ranked.Number) → ⊥ }
{
    let pivots = u32::try_from(rows.len())
        .unwrap_or(u32::MAX)
        .saturating_add(unknowns)
        .saturating_mul(PIVOTS);
    let tight_rows = tightened_rows(alloc, rows)?;
    match try_solve(alloc, &tight_rows, unknowns, pivots)? {
        Some(Found::Refuted(parts)) => unsolved(alloc, rows, parts),
        Some(Found::Point(values)) => held_at(alloc, icfg, lasso, turn, tight, &values),
        None => Ok(None),
    }
}

/// That there is no rank, if these multipliers refute the rows.
fn unsolved(alloc: Global, rows: &[Row], parts: Parts) -> Result<Option<Ranked>, AllocError>
    ensures found { IfOk result (λ o. IfSome o (λ r. r ≡ Ranked.NoRank)) }
    ensures none { IfOk result (λ o. IsSome o → IsSolvable (map tightened rows.now) → ⊥) }
{
    let mut nodes = Vec::new(alloc);
    nodes.push(Node::Leaf(parts))?;
    let whole = system(copied_rows(alloc, rows)?, Vec::new(alloc));
    match accepted(alloc, &whole, 0, nodes)? {
        Some(_) => Ok(Some(Ranked::NoRank)),
        None => Ok(None),
    }
}
