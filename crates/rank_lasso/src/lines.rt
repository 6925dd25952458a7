//! The lines that texts of lassos and of rankings have in common.

ghost use Rattle.std.specs.Prelude.{◌≡◌, ◌++◌, [], codes, IfOk, OnOk, IfErr};
ghost use Rattle.rank_lasso.specs.LassoRanks.Lassos.{plain_lasso};
ghost use Rattle.rank_lasso.specs.LassoText.{AreShort, IsWritable, letters_line};
ghost use Rattle.rank_lasso.specs.Lines.{AreSomeShort, kind, nothing, stem_kind, loop_kind, line_text, IsLineFault, IsEndFault, IsFaultIn, Never, way_kinds};

use crate::cutting::line_at;
use crate::lasso_ranks::{Lasso, LassoFault};
use crate::letters::letters_of;
use std::alloc::Global;

/// The first lines: this one, the stem and the loop.
pub(crate) fn way<'a>(
    alloc: Global,
    text: &'a [u8],
    first: &[u8],
) -> Result<(Lasso, &'a [u8]), LassoFault>
    ensures read { IfOk result (λ r. IsWritable (plain_lasso r.0) × (text.now ≡
        line_text first.now [] ++ (letters_line (codes "stem") r.0.stem.items ++ (letters_line (codes "loop") r.0.turn.items ++ r.1.now)))) }
    ensures fault { IfErr result (IsFaultIn 1 Never (way_kinds first.now) text.now) }
{
    let rest = bare_line(text, first, 1)?;
    let (stem, rest) = stem_line(alloc, rest)?;
    let (turn, rest) = loop_line(alloc, rest)?;
    Ok((Lasso { stem, turn }, rest))
}

/// What stands behind the line of the word alone.
pub(crate) fn bare_line<'a>(text: &'a [u8], word: &[u8], line: u64) -> Result<&'a [u8], LassoFault>
    ensures read { IfOk result (λ r. text.now ≡ line_text word.now [] ++ r.now) }
    ensures fault { IfErr result (IsLineFault (kind word.now nothing) line text.now) }
{
    let Some((content, rest)) = line_at(text, word) else {
        return Err(LassoFault::Syntax { line });
    };
    if !content.is_empty() {
        return Err(LassoFault::Syntax { line });
    }
    Ok(rest)
}

/// The letters of the stem, which may be none.
fn stem_line(alloc: Global, text: &[u8]) -> Result<(Vec<u32>, &[u8]), LassoFault>
    ensures read { IfOk result (λ r. AreShort r.0.items × (text.now ≡ letters_line (codes "stem") r.0.items ++ r.1.now)) }
    ensures fault { IfErr result (IsLineFault stem_kind 2 text.now) }
{
    let Some((content, rest)) = line_at(text, b"stem") else {
        return Err(LassoFault::Syntax { line: 2 });
    };
    let Some(letters) = letters_of(alloc, content)? else {
        return Err(LassoFault::Syntax { line: 2 });
    };
    Ok((letters, rest))
}

/// The letters of the loop, one or more.
fn loop_line(alloc: Global, text: &[u8]) -> Result<(Vec<u32>, &[u8]), LassoFault>
    ensures read { IfOk result (λ r. AreSomeShort r.0.items × (text.now ≡ letters_line (codes "loop") r.0.items ++ r.1.now)) }
    ensures fault { IfErr result (IsLineFault loop_kind 3 text.now) }
{
    let Some((content, rest)) = line_at(text, b"loop") else {
        return Err(LassoFault::Syntax { line: 3 });
    };
    let Some(letters) = letters_of(alloc, content)? else {
        return Err(LassoFault::Syntax { line: 3 });
    };
    if letters.is_empty() {
        return Err(LassoFault::Syntax { line: 3 });
    }
    Ok((letters, rest))
}

/// Nothing stands there any more, where the line of that number would be.
pub(crate) fn text_ends(rest: &[u8], line: u64) -> Result<(), LassoFault>
    ensures read { OnOk result (rest.now ≡ []) }
    ensures fault { IfErr result (IsEndFault line rest.now) }
{
    if rest.is_empty() {
        Ok(())
    } else {
        Err(LassoFault::Syntax { line })
    }
}
