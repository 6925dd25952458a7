//! Reads the texts of lassos.

ghost use Rattle.std.specs.Prelude.{◌≡◌, IfOk, IfErr, MatchResult};
ghost use Rattle.rank_lasso.specs.declared.lasso_ranks.lassos.LassoFault.TheVariants.{Memory};
ghost use Rattle.rank_lasso.specs.LassoRanks.Lassos.{PlainLasso, plain_lasso};
ghost use Rattle.rank_lasso.specs.LassoText.{IsWritable, lasso_text};
ghost use Rattle.rank_lasso.specs.Faults.{IsLassoFault};

use crate::lasso_ranks::{Lasso, LassoFault};
use crate::lines::{bare_line, text_ends, way};
use std::alloc::Global;

/// Reads the text of a lasso: `lasso 1`, `stem` and its letters, `loop` and one or more letters, `end`.
///
/// # Errors
///
/// `Syntax` with the first line that cannot stand where it stands, or that is missing; `Memory` where memory ran out.
pub fn read_lasso(alloc: Global, text: &[u8]) -> Result<Lasso, LassoFault>
    // what is read is what the text spells
    ensures found { IfOk result (λ l. IsWritable (plain_lasso l) × (text.now ≡ lasso_text (plain_lasso l))) }

    // the text of a lasso is read, unless memory runs out
    ensures whole { (l : PlainLasso) → IsWritable l → text.now ≡ lasso_text l → MatchResult result (λ m. plain_lasso m ≡ l) (λ e. e ≡ Memory) }

    // the line is the first that cannot stand there
    ensures fault { IfErr result (IsLassoFault text.now) }
{
    let (lasso, rest) = way(alloc, text, b"lasso 1")?;
    let rest = bare_line(rest, b"end", 4)?;
    text_ends(rest, 5)?;
    Ok(lasso)
}
