//! Reads the texts of rankings.

ghost use Rattle.std.specs.Prelude.{◌≡◌, IfOk, IfErr, MatchResult};
ghost use Rattle.rank_lasso.specs.declared.lasso_ranks.lassos.LassoFault.TheVariants.{Memory};
ghost use Rattle.rank_lasso.specs.LassoRanks.Lassos.{PlainLasso, plain_lasso};
ghost use Rattle.rank_lasso.specs.LassoRanks.Ranks.{PlainRanking, plain_ranking};
ghost use Rattle.rank_lasso.specs.Naming.{MayBeWritten};
ghost use Rattle.rank_lasso.specs.Faults.{IsReadAs, IsRankingFault};

use crate::lasso_ranks::{Lasso, LassoFault, Ranking};
use crate::lines::way;
use crate::naming::named;
use crate::ranking_lines::ending;
use letter_acts::Icfg;
use std::alloc::Global;

/// Reads the text of a ranking over the frame of the entry procedure.
///
/// # Errors
///
/// `Syntax` with the first line that cannot stand where it stands, or that is missing; else `BadName` with the first line that names a
/// column that the frame does not have, or out of its order, or a number that does not fit; `Memory` where memory ran out.
pub fn read_ranking(alloc: Global, icfg: &Icfg, text: &[u8]) -> Result<(Lasso, Ranking), LassoFault>
    // what is read is what the text spells
    ensures found { IfOk result (λ r. IsReadAs icfg.now text.now (plain_lasso r.0) (plain_ranking r.1)) }

    // it is a ranking that can be checked, and written again
    ensures numbers { IfOk result (λ r. MayBeWritten icfg.now (plain_ranking r.1)) }

    // a text that spells a ranking is read, unless memory runs out
    ensures whole { (l : PlainLasso) (r : PlainRanking) → IsReadAs icfg.now text.now l r
        → MatchResult result (λ x. (plain_lasso x.0 ≡ l) × (plain_ranking x.1 ≡ r)) (λ e. e ≡ Memory) }

    // why it is none
    ensures fault { IfErr result (IsRankingFault icfg.now text.now) }
{
    let (lasso, rest) = way(alloc, text, b"ranking 1")?;
    let form = ending(alloc, rest)?;
    let ranking = named(alloc, icfg, &form)?;
    Ok((lasso, ranking))
}
