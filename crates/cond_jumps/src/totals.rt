//! Terms whose columns may repeat, added up exactly, and the rows that they make.

ghost use Rattle.std.specs.Prelude.{◌≡◌, true, false, IfOk, IsOk, Err, ℤ, None, ◌+ℤ◌, [], ◌∷◌};
ghost use Rattle.math_facts.specs.Terms.{coefficient};
ghost use Rattle.lin_rows.specs.Sums.{row_of};
ghost use Rattle.cond_jumps.specs.Conjunctions.{row_fits};
ghost use Rattle.cond_jumps.specs.LongView.{long};
ghost use Rattle.cond_jumps.specs.Ties.Totals.{terms_of, lesser, least, TotalsFit, AreTotals};

use crate::long::Long;
use crate::refusal::Refusal;
use lin_rows::{Row, RowFault, RowKind, row};
use std::alloc::{AllocError, Global};

/// A column and its coefficient.
#[derive(Drop)]
pub struct Term {
    pub column: u32,
    pub coefficient: Long,
}

/// The lesser of a column and the one found so far, where it is not below the bound.
fn lesser(low: u64, best: Option<u32>, column: u32) -> Option<u32>
    ensures { result ≡ lesser low best column }
{
    if u64::from(column) < low {
        return best;
    }
    match best {
        None => Some(column),
        Some(found) => {
            if column < found {
                Some(column)
            } else {
                Some(found)
            }
        }
    }
}

/// The least column of the terms that is not below the bound.
fn least(low: u64, terms: &[Term]) -> Option<u32>
    ensures { result ≡ least low None (terms_of terms.now) }
{
    let mut best = None;
    for term in terms {
        best = lesser(low, best, term.column);
    }
    best
}

/// The sum with the coefficient of the term, where that is of the column.
fn with_term(alloc: Global, sum: Long, term: &Term, column: u32) -> Result<Long, AllocError>
    ensures { IfOk result (λ l. long l ≡ long sum +ℤ coefficient column (terms_of (term.now ∷ []))) }
{
    if term.column == column {
        Long::plus(alloc, &sum, &term.coefficient)
    } else {
        Ok(sum)
    }
}

/// The coefficient of a column.
fn total(alloc: Global, terms: &[Term], column: u32) -> Result<Long, AllocError>
    ensures { IfOk result (λ l. long l ≡ coefficient column (terms_of terms.now)) }
{
    let mut sum = Long::new(alloc, 0)?;
    for term in terms {
        sum = with_term(alloc, sum, term, column)?;
    }
    Ok(sum)
}

/// The totals of the columns: ascending, and each fits. `TooBig` where one does not.
fn totals(alloc: Global, terms: &[Term]) -> Result<Vec<(u32, i128)>, Refusal>
    ensures ok { IfOk result (λ ts. AreTotals (terms_of terms.now) ts.items) }
    ensures too_big { result ≡ Err Refusal.TooBig → TotalsFit (terms_of terms.now) → ⊥ }
{
    let mut sums = Vec::new(alloc);
    let mut low = 0;
    while let Some(column) = least(low, terms) {
        let Some(sum) = total(alloc, terms, column)?.fit() else {
            return Err(Refusal::TooBig);
        };
        sums.push((column, sum))?;
        low = u64::from(column) + 1;
    }
    Ok(sums)
}

/// The row of the terms, which must be at most or equal to the bound.
pub fn row_from(alloc: Global, terms: &[Term], kind: RowKind, bound: &Long) -> Result<Row, Refusal>
    ensures ok { IfOk result (λ r. r ≡ row_of (terms_of terms.now) kind (long bound.now)) }
    ensures fits { IsOk result → row_fits (row_of (terms_of terms.now) kind (long bound.now)) ≡ true }
    ensures too_big { result ≡ Err Refusal.TooBig → row_fits (row_of (terms_of terms.now) kind (long bound.now)) ≡ false }
{
    let Some(bound) = bound.fit() else {
        return Err(Refusal::TooBig);
    };
    let sums = totals(alloc, terms)?;
    match row(alloc, sums.as_slice(), kind, bound) {
        Ok(made) => Ok(made),
        Err(RowFault::Past) => Err(Refusal::TooBig),
        Err(RowFault::Memory) => Err(Refusal::Memory),
    }
}
