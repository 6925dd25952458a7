//! Comparisons of two sums, each one conjunction, and conditions of one column.

ghost use Rattle.std.specs.Prelude.{◌≡◌, ◌+◌, IfOk, OnOk, IsOk, Err, true, false, ℤ, pos, ◌+ℤ◌, ◌-ℤ◌, [], ◌∷◌, ◌++◌};
ghost use Rattle.lin_rows.specs.declared.types.RowKind.TheVariants.{Eq};
ghost use Rattle.lin_rows.specs.Sums.{row_of};
ghost use Rattle.typed_tree.specs.Values.{truth};
ghost use Rattle.cond_jumps.specs.Conjunctions.{row_fits};
ghost use Rattle.math_facts.specs.Terms.{opposite};
ghost use Rattle.cond_jumps.specs.Comparisons.{always, truth_of_column};
ghost use Rattle.cond_jumps.specs.Conjs.{conjunctions};
ghost use Rattle.cond_jumps.specs.CompareView.{IsListAnswer, compared_row, compared_list};
ghost use Rattle.cond_jumps.specs.LongView.{long};
ghost use Rattle.cond_jumps.specs.Ties.SumView.{sum_of, rows_fit};
ghost use Rattle.cond_jumps.specs.Ties.Totals.{terms_of};

use crate::conj::Conj;
use crate::long::Long;
use crate::refusal::Refusal;
use crate::sums::{Sum, later, push_opposites};
use crate::totals::{Term, row_from};
use lin_rows::{Row, RowKind};
use std::alloc::{AllocError, Global};

/// The conjunction of the helpers of two sums and the row `a - b <= k` or `a - b = k`; the second sum's helpers are numbered
/// after those of the first.
pub fn compared(alloc: Global, kind: RowKind, k: i128, a: Sum, b: Sum) -> Result<Vec<Conj>, Refusal>
    requires first { rows_fit (sum_of a).rows ≡ true }
    requires second { rows_fit (sum_of b).rows ≡ true }
    ensures { IsListAnswer (compared_list (compared_row kind k (sum_of a) (sum_of b)) (sum_of a) (sum_of b)) result }
{
    let mut first = a;
    let mut second = b;
    push_difference(alloc, kind, k, &mut first, &mut second)?;
    Ok(single(
        alloc,
        Conj {
            rows: first.rows,
            helpers: first.helpers,
        },
    )?)
}

/// The same with the row `b - a <= k` or `b - a = k`.
pub fn compared_above(
    alloc: Global,
    kind: RowKind,
    k: i128,
    a: Sum,
    b: Sum,
) -> Result<Vec<Conj>, Refusal>
    requires first { rows_fit (sum_of a).rows ≡ true }
    requires second { rows_fit (sum_of b).rows ≡ true }
    ensures { IsListAnswer (compared_list (compared_row kind k (sum_of b) (sum_of a)) (sum_of a) (sum_of b)) result }
{
    let mut first = a;
    let mut second = b;
    push_opposite(alloc, kind, k, &mut first, &mut second)?;
    Ok(single(
        alloc,
        Conj {
            rows: first.rows,
            helpers: first.helpers,
        },
    )?)
}

/// Puts the rows of the helpers of b, and the row `a - b`, behind the rows of a.
fn push_difference(
    alloc: Global,
    kind: RowKind,
    k: i128,
    a: &mut Sum,
    b: &mut Sum,
) -> Result<(), Refusal>
    ensures rows { OnOk result (a.new.rows.items ≡ (a.old.rows.items ++ b.old.rows.items) ++ compared_row kind k (sum_of a.old) (sum_of b.old) ∷ []) }
    ensures helpers { OnOk result (a.new.helpers ≡ a.old.helpers + b.old.helpers) }
    ensures fits { OnOk result (row_fits (compared_row kind k (sum_of a.old) (sum_of b.old)) ≡ true) }
    ensures too_big { result ≡ Err Refusal.TooBig → row_fits (compared_row kind k (sum_of a.old) (sum_of b.old)) ≡ false }
{
    a.helpers = later(a.helpers, b.helpers)?;
    a.rows.append(&mut b.rows)?;
    let row = difference_row(alloc, kind, k, &mut a.terms, &a.constant, b)?;
    a.rows.push(row)?;
    Ok(())
}

/// Puts the rows of the helpers of b, and the row `b - a`, behind the rows of a.
fn push_opposite(
    alloc: Global,
    kind: RowKind,
    k: i128,
    a: &mut Sum,
    b: &mut Sum,
) -> Result<(), Refusal>
    ensures rows { OnOk result (a.new.rows.items ≡ (a.old.rows.items ++ b.old.rows.items) ++ compared_row kind k (sum_of b.old) (sum_of a.old) ∷ []) }
    ensures helpers { OnOk result (a.new.helpers ≡ a.old.helpers + b.old.helpers) }
    ensures fits { OnOk result (row_fits (compared_row kind k (sum_of b.old) (sum_of a.old)) ≡ true) }
    ensures too_big { result ≡ Err Refusal.TooBig → row_fits (compared_row kind k (sum_of b.old) (sum_of a.old)) ≡ false }
{
    a.helpers = later(a.helpers, b.helpers)?;
    a.rows.append(&mut b.rows)?;
    let row = difference_row(alloc, kind, k, &mut b.terms, &b.constant, a)?;
    a.rows.push(row)?;
    Ok(())
}

/// The row `a - b` of terms and a constant, and of a sum, whose terms come behind the others.
fn difference_row(
    alloc: Global,
    kind: RowKind,
    k: i128,
    terms: &mut Vec<Term>,
    constant: &Long,
    b: &Sum,
) -> Result<Row, Refusal>
    ensures ok { IfOk result (λ r. r ≡ row_of (terms_of terms.old.items ++ opposite (terms_of b.now.terms.items)) kind ((k -ℤ long constant.now) +ℤ long b.now.constant)) }
    ensures fits { IsOk result → row_fits (row_of (terms_of terms.old.items ++ opposite (terms_of b.now.terms.items)) kind ((k -ℤ long constant.now) +ℤ long b.now.constant)) ≡ true }
    ensures too_big { result ≡ Err Refusal.TooBig → row_fits (row_of (terms_of terms.old.items ++ opposite (terms_of b.now.terms.items)) kind ((k -ℤ long constant.now) +ℤ long b.now.constant)) ≡ false }
{
    let bound = bound_of(alloc, k, constant, &b.constant)?;
    push_opposites(alloc, terms, b.terms.as_slice())?;
    row_from(alloc, terms.as_slice(), kind, &bound)
}

/// One conjunction.
fn single(alloc: Global, conj: Conj) -> Result<Vec<Conj>, AllocError>
    ensures { IfOk result (λ cs. cs.items ≡ conj ∷ []) }
{
    let mut list = Vec::with_capacity(alloc, 1)?;
    list.push(conj)?;
    Ok(list)
}

/// `k - a + b` of constants.
fn bound_of(alloc: Global, k: i128, a: &Long, b: &Long) -> Result<Long, AllocError>
    ensures { IfOk result (λ l. long l ≡ (k -ℤ long a.now) +ℤ long b.now) }
{
    let k = Long::new(alloc, k)?;
    let less = Long::minus(alloc, &k, a)?;
    Long::plus(alloc, &less, b)
}

/// The empty conjunction.
pub fn always(alloc: Global) -> Result<Vec<Conj>, AllocError>
    ensures { IfOk result (λ cs. conjunctions cs.items ≡ always 0) }
{
    single(
        alloc,
        Conj {
            rows: Vec::new(alloc),
            helpers: 0,
        },
    )
}

/// A truth value as a number.
fn number_of(want: bool) -> i128
    ensures { result ≡ truth want }
{
    if want { 1 } else { 0 }
}

/// The row that a column has the wanted truth value.
fn named_row(alloc: Global, column: u32, want: bool) -> Result<Row, Refusal>
    ensures ok { IfOk result (λ r. r ≡ row_of ((column, pos 1) ∷ []) Eq (truth want)) }
    ensures fits { IsOk result → row_fits (row_of ((column, pos 1) ∷ []) Eq (truth want)) ≡ true }
    ensures too_big { result ≡ Err Refusal.TooBig → row_fits (row_of ((column, pos 1) ∷ []) Eq (truth want)) ≡ false }
{
    let bound = Long::new(alloc, number_of(want))?;
    let sum = Sum::column(alloc, column)?;
    row_from(alloc, sum.terms.as_slice(), RowKind::Eq, &bound)
}

/// The column has the wanted truth value.
pub fn named(alloc: Global, column: u32, want: bool) -> Result<Vec<Conj>, Refusal>
    ensures { IsListAnswer (truth_of_column column want 0) result }
{
    let row = named_row(alloc, column, want)?;
    let rows = vec![in alloc; row]?;
    Ok(single(alloc, Conj { rows, helpers: 0 })?)
}
