//! The lines of rankings behind the loop.

ghost use Rattle.std.specs.Prelude.{◌≡◌, ◌++◌, codes, map, IfOk, IfErr};
ghost use Rattle.std.specs.List.{concat};
ghost use Rattle.proof_form.specs.Refutations.{plain_refutation_node};
ghost use Rattle.rank_lasso.specs.RankingText.{IsProofForm, IsForm, rank_line, bound_line, proof_line, ending_lines};
ghost use Rattle.rank_lasso.specs.Ties.Forms.{plain_form};
ghost use Rattle.rank_lasso.specs.Lines.{AreTerms, IsNumeral, rank_kind, bound_kind, proof_kind, rank_ending, excluded_ending, GoesOn, IsLineFault, IsFaultIn, IsEndingFault};

use crate::cutting::line_at;
use crate::forms::Form;
use crate::lasso_ranks::LassoFault;
use crate::lines::{bare_line, text_ends};
use crate::numerals::numeral_of;
use crate::terms::terms_of;
use crate::trees::tree_of;
use boogie_tree::Text;
use proof_form::{Numeral, RNode};
use std::alloc::Global;

/// Reads the lines behind the loop, from line 4 on: those of an exclusion, or those of a rank.
pub(crate) fn ending(alloc: Global, text: &[u8]) -> Result<Form, LassoFault>
    ensures read { IfOk result (λ f. IsForm (plain_form f) × (text.now ≡ concat (ending_lines (plain_form f)))) }
    ensures fault { IfErr result (IsEndingFault text.now) }
{
    match text.strip_prefix(b"excluded") {
        Some(_) => excluded_ending(alloc, text),
        None => rank_ending(alloc, text),
    }
}

/// The refutation of an exclusion, and the end.
fn excluded_ending(alloc: Global, text: &[u8]) -> Result<Form, LassoFault>
    ensures read { IfOk result (λ f. IsForm (plain_form f) × (text.now ≡ concat (ending_lines (plain_form f)))) }
    ensures fault { IfErr result (IsFaultIn 4 GoesOn excluded_ending text.now) }
{
    let (nodes, rest) = proof_line(alloc, text, b"excluded", 4)?;
    let rest = bare_line(rest, b"end", 5)?;
    text_ends(rest, 6)?;
    Ok(Form::Excluded(nodes))
}

/// The terms and the bound of a rank, its refutations, and the end.
fn rank_ending(alloc: Global, text: &[u8]) -> Result<Form, LassoFault>
    ensures read { IfOk result (λ f. IsForm (plain_form f) × (text.now ≡ concat (ending_lines (plain_form f)))) }
    ensures fault { IfErr result (IsFaultIn 4 GoesOn rank_ending text.now) }
{
    let (terms, rest) = terms_line(alloc, text)?;
    let (bound, rest) = bound_line(alloc, rest)?;
    let (falls, rest) = proof_line(alloc, rest, b"falls", 6)?;
    let (bounded, rest) = proof_line(alloc, rest, b"bounded", 7)?;
    let rest = bare_line(rest, b"end", 8)?;
    text_ends(rest, 9)?;
    Ok(Form::Rank {
        terms,
        bound,
        falls,
        bounded,
    })
}

/// The terms of a rank, which may be none.
fn terms_line(alloc: Global, text: &[u8]) -> Result<(Vec<(Numeral, Text)>, &[u8]), LassoFault>
    ensures read { IfOk result (λ r. AreTerms r.0.items × (text.now ≡ rank_line r.0.items ++ r.1.now)) }
    ensures fault { IfErr result (IsLineFault rank_kind 4 text.now) }
{
    let Some((content, rest)) = line_at(text, b"rank") else {
        return Err(LassoFault::Syntax { line: 4 });
    };
    let Some(terms) = terms_of(alloc, content)? else {
        return Err(LassoFault::Syntax { line: 4 });
    };
    Ok((terms, rest))
}

/// The bound of a rank.
fn bound_line(alloc: Global, text: &[u8]) -> Result<(Numeral, &[u8]), LassoFault>
    ensures read { IfOk result (λ r. IsNumeral r.0 × (text.now ≡ bound_line r.0 ++ r.1.now)) }
    ensures fault { IfErr result (IsLineFault bound_kind 5 text.now) }
{
    let Some((content, rest)) = line_at(text, b"bound ") else {
        return Err(LassoFault::Syntax { line: 5 });
    };
    let Some(bound) = numeral_of(alloc, content)? else {
        return Err(LassoFault::Syntax { line: 5 });
    };
    Ok((bound, rest))
}

/// The refutation behind the word.
fn proof_line<'a>(
    alloc: Global,
    text: &'a [u8],
    word: &[u8],
    line: u64,
) -> Result<(Vec<RNode>, &'a [u8]), LassoFault>
    ensures read { IfOk result (λ r. IsProofForm (map plain_refutation_node r.0.items) ×
        (text.now ≡ proof_line word.now (map plain_refutation_node r.0.items) ++ r.1.now)) }
    ensures fault { IfErr result (IsLineFault (proof_kind word.now) line text.now) }
{
    let Some((content, rest)) = line_at(text, word) else {
        return Err(LassoFault::Syntax { line });
    };
    let Some(nodes) = tree_of(alloc, content)? else {
        return Err(LassoFault::Syntax { line });
    };
    Ok((nodes, rest))
}
