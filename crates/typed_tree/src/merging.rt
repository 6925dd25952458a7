//! Two ascending lists of terms, added up front by front, in the time of their lengths.

ghost use Rattle.std.specs.Prelude.{◌≡◌, ◌++◌, [], ◌∷◌, false, Ok, None, Err, IfOk, IsErr, OnOk, IfSome};
ghost use Rattle.typed_tree.specs.AffineForm.{added_to};
ghost use Rattle.typed_tree.specs.Ties.FormOrder.{ascends, terms_fit};
ghost use Rattle.typed_tree.specs.Ties.Merging.{kept, put, AreTerms, IsFront};

use crate::columns::is_before;
use crate::fault::AffineFault;
use crate::form::Terms;
use crate::numbers::sum;
use boogie_tree::Column;
use std::alloc::{AllocError, Global};

/// What two lists of terms begin with: the first term of their sum, unless it cancels, and the terms after it.
#[derive(Drop)]
struct Front<'a> {
    term: Option<(Column, i128)>,
    left: &'a [(Column, i128)],
    right: &'a [(Column, i128)],
}

/// The terms of the sum of two forms.
pub fn merged(
    alloc: Global,
    a: &[(Column, i128)],
    b: &[(Column, i128)],
) -> Result<Terms, AffineFault>
    requires a { AreTerms a.now }
    requires b { AreTerms b.now }
    ensures value { IfOk result (λ terms. terms.items ≡ added_to a.now b.now) }
    ensures valid { IfOk result (λ terms. AreTerms terms.items) }
    ensures too_big { result ≡ Err AffineFault.TooBig → terms_fit (added_to a.now b.now) ≡ false }
{
    let mut terms = Terms::new(alloc);
    let mut left = a;
    let mut right = b;
    while let Some(next) = first_of(left, right)? {
        push(&mut terms, next.term)?;
        left = next.left;
        right = next.right;
    }
    terms.extend_from_slice(left)?;
    Ok(terms)
}

/// The first term of a sum, or `None` where the second list is empty.
fn first_of<'a>(
    a: &'a [(Column, i128)],
    b: &'a [(Column, i128)],
) -> Result<Option<Front<'a>>, AffineFault>
    requires a { AreTerms a.now }
    requires b { AreTerms b.now }
    ensures ends { result ≡ Ok None → b.now ≡ [] }
    ensures goes { IfOk result (λ o. IfSome o (λ f. IsFront a.now b.now f)) }
    ensures too_big { IsErr result → terms_fit (added_to a.now b.now) ≡ false }
{
    let Some((second, right)) = split(b) else {
        return Ok(None);
    };
    let Some((first, left)) = split(a) else {
        let term = kept(second.0, second.1);
        return Ok(Some(Front {
            term,
            left: a,
            right,
        }));
    };
    if is_before(first.0, second.0) {
        let term = Some(*first);
        return Ok(Some(Front {
            term,
            left,
            right: b,
        }));
    }
    if is_before(second.0, first.0) {
        let term = kept(second.0, second.1);
        return Ok(Some(Front {
            term,
            left: a,
            right,
        }));
    }
    let Some(coefficient) = sum(first.1, second.1) else {
        return Err(AffineFault::TooBig);
    };
    let term = kept(second.0, coefficient);
    Ok(Some(Front { term, left, right }))
}

/// The first term, and those after it.
fn split(terms: &[(Column, i128)]) -> Option<(&(Column, i128), &[(Column, i128)])>
    ensures none { result ≡ None → terms.now ≡ [] }
    ensures some { IfSome result (λ parts. terms.now ≡ parts.0.now ∷ parts.1.now) }
{
    match terms {
        [] => None,
        [first, rest @ ..] => Some((first, rest)),
    }
}

/// A term, unless its coefficient is 0.
fn kept(column: Column, coefficient: i128) -> Option<(Column, i128)>
    ensures { result ≡ kept column coefficient }
{
    if coefficient == 0 {
        None
    } else {
        Some((column, coefficient))
    }
}

/// Puts a term behind the others, where there is one.
fn push(terms: &mut Terms, term: Option<(Column, i128)>) -> Result<(), AllocError>
    ensures { OnOk result (terms.new.items ≡ terms.old.items ++ put term []) }
{
    if let Some(term) = term {
        terms.push(term)?;
    }
    Ok(())
}
