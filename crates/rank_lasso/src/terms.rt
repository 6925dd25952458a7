//! The terms of a rank.

ghost use Rattle.std.specs.Prelude.{◌≡◌, ◌++◌, IfOk, IsTrue};
ghost use Rattle.std.specs.List.{flat_map};
ghost use Rattle.proof_form.specs.Predicates.{term_text};
ghost use Rattle.rank_lasso.specs.RankingText.{is_rank_term};
ghost use Rattle.rank_lasso.specs.Lines.{AreTerms, ReadsAll, ReadsItem};

use crate::cutting::word_at;
use crate::numerals::numeral_of;
use boogie_tree::Text;
use proof_form::{Numeral, is_col};
use std::alloc::{AllocError, Global};

/// The terms that the bytes are: coefficients with the names of their columns, a space before each.
pub(crate) fn terms_of(
    alloc: Global,
    bytes: &[u8],
) -> Result<Option<Vec<(Numeral, Text)>>, AllocError>
    ensures { IfOk result (ReadsAll (λ v. v.items) AreTerms (flat_map term_text) bytes.now) }
{
    let mut terms = Vec::new(alloc);
    let mut rest = bytes;
    while !rest.is_empty() {
        let Some((term, behind)) = term_at(alloc, rest)? else {
            return Ok(None);
        };
        terms.push(term)?;
        rest = behind;
    }
    Ok(Some(terms))
}

/// A space and a coefficient, and a space and the name of its column.
fn term_at(alloc: Global, bytes: &[u8]) -> Result<Option<((Numeral, Text), &[u8])>, AllocError>
    ensures { IfOk result (ReadsItem (λ t. IsTrue (is_rank_term t)) term_text bytes.now) }
{
    let Some((number, rest)) = word_at(bytes) else {
        return Ok(None);
    };
    let Some((column, rest)) = word_at(rest) else {
        return Ok(None);
    };
    if !is_col(column) {
        return Ok(None);
    }
    match numeral_of(alloc, number)? {
        Some(coefficient) => {
            let column = Text::new(Vec::from_slice(alloc, column)?);
            Ok(Some(((coefficient, column), rest)))
        }
        None => Ok(None),
    }
}
