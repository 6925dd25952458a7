//! Whole-number expressions as sums over columns, with the rows of their helpers.

ghost use Rattle.std.specs.Prelude.{◌≡◌, ◌+◌, true, false, IfOk, OnOk, IsOk, Err, ℤ, pos, ◌+ℤ◌, ◌-ℤ◌, ◌*ℤ◌, neg_ℤ, [], ◌∷◌, ◌++◌, length, unsigned_abs};
ghost use Rattle.math_facts.specs.Terms.{scaled, opposite};
ghost use Rattle.lin_rows.specs.declared.types.RowKind.TheVariants.{Le};
ghost use Rattle.lin_rows.specs.Sums.{row_of};
ghost use Rattle.cond_jumps.specs.Conjunctions.{row_fits};
ghost use Rattle.cond_jumps.specs.Forms.{linear_number, column, linear_over, quotient_rows};
ghost use Rattle.cond_jumps.specs.LongView.{long};
ghost use Rattle.cond_jumps.specs.Ties.SumView.{sum_of, rows_fit, IsDivideAnswer};
ghost use Rattle.cond_jumps.specs.Ties.Totals.{terms_of};

use crate::long::Long;
use crate::refusal::Refusal;
use crate::totals::{Term, row_from};
use lin_rows::{Row, RowKind};
use std::alloc::{AllocError, Global};

/// A sum: columns with coefficients, and a constant; the rows of its helpers, and how many they are.
#[derive(Drop)]
pub struct Sum {
    pub terms: Vec<Term>,
    pub constant: Long,
    pub rows: Vec<Row>,
    pub helpers: u32,
}

impl Sum {
    /// A number.
    pub fn number(alloc: Global, n: i128) -> Result<Self, AllocError>
        ensures { IfOk result (λ s. sum_of s ≡ linear_number n 0) }
    {
        Ok(Sum {
            terms: Vec::new(alloc),
            constant: Long::new(alloc, n)?,
            rows: Vec::new(alloc),
            helpers: 0,
        })
    }

    /// A column.
    pub fn column(alloc: Global, number: u32) -> Result<Self, AllocError>
        ensures { IfOk result (λ s. sum_of s ≡ column number 0) }
    {
        let mut terms = Vec::with_capacity(alloc, 1)?;
        terms.push(Term {
            column: number,
            coefficient: Long::new(alloc, 1)?,
        })?;
        Ok(Sum {
            terms,
            constant: Long::new(alloc, 0)?,
            rows: Vec::new(alloc),
            helpers: 0,
        })
    }
}

/// Each coefficient times m.
fn scaled_terms(alloc: Global, m: &Long, terms: &[Term]) -> Result<Vec<Term>, AllocError>
    ensures { IfOk result (λ ts. terms_of ts.items ≡ scaled (long m.now) (terms_of terms.now)) }
{
    let mut products = Vec::with_capacity(alloc, terms.len())?;
    for term in terms {
        let coefficient = Long::times(alloc, &term.coefficient, m)?;
        products.push(Term {
            column: term.column,
            coefficient,
        })?;
    }
    Ok(products)
}

/// Each coefficient with the other sign.
pub fn opposite_terms(alloc: Global, terms: &[Term]) -> Result<Vec<Term>, AllocError>
    ensures { IfOk result (λ ts. terms_of ts.items ≡ opposite (terms_of terms.now)) }
{
    let mut opposites = Vec::with_capacity(alloc, terms.len())?;
    for term in terms {
        let coefficient = term.coefficient.opposite(alloc)?;
        opposites.push(Term {
            column: term.column,
            coefficient,
        })?;
    }
    Ok(opposites)
}

/// The first list, and behind it the second.
pub fn joined<T: Drop>(first: Vec<T>, second: Vec<T>) -> Result<Vec<T>, AllocError>
    ensures { IfOk result (λ v. v.items ≡ first.items ++ second.items) }
{
    let mut both = first;
    let mut second = second;
    both.append(&mut second)?;
    Ok(both)
}

/// `a + b` as the number of a column, or of columns; more of them than have numbers are more than memory holds.
pub fn later(a: u32, b: u32) -> Result<u32, AllocError>
    ensures { IfOk result (λ n. n ≡ a + b) }
{
    let Some(sum) = a.checked_add(b) else {
        return Err(AllocError);
    };
    Ok(sum)
}

/// `a + b`.
pub fn plus(alloc: Global, a: Box<Sum>, b: Box<Sum>) -> Result<Box<Sum>, AllocError>
    ensures { IfOk result (λ s. sum_of s.value ≡
        linear_over (sum_of a.value) (sum_of b.value) ((sum_of a.value).terms ++ (sum_of b.value).terms) ((sum_of a.value).constant +ℤ (sum_of b.value).constant)) }
{
    let mut sum = a;
    let mut other = b;
    add(alloc, &mut sum, &mut other)?;
    Ok(sum)
}

/// Adds a sum to another one, which takes its terms and rows.
fn add(alloc: Global, a: &mut Sum, b: &mut Sum) -> Result<(), AllocError>
    ensures { OnOk result (sum_of a.new ≡
        linear_over (sum_of a.old) (sum_of b.old) ((sum_of a.old).terms ++ (sum_of b.old).terms) ((sum_of a.old).constant +ℤ (sum_of b.old).constant)) }
{
    a.constant = Long::plus(alloc, &a.constant, &b.constant)?;
    a.helpers = later(a.helpers, b.helpers)?;
    a.terms.append(&mut b.terms)?;
    a.rows.append(&mut b.rows)?;
    Ok(())
}

/// `-a`.
pub fn negated(alloc: Global, a: Box<Sum>) -> Result<Box<Sum>, AllocError>
    ensures { IfOk result (λ s. sum_of s.value ≡ record (sum_of a.value) { terms = opposite (sum_of a.value).terms; constant = neg_ℤ (sum_of a.value).constant }) }
{
    let mut sum = a;
    negate(alloc, &mut sum)?;
    Ok(sum)
}

/// Turns the signs of a sum.
fn negate(alloc: Global, a: &mut Sum) -> Result<(), AllocError>
    ensures { OnOk result (sum_of a.new ≡ record (sum_of a.old) { terms = opposite (sum_of a.old).terms; constant = neg_ℤ (sum_of a.old).constant }) }
{
    a.terms = opposite_terms(alloc, a.terms.as_slice())?;
    a.constant = a.constant.opposite(alloc)?;
    Ok(())
}

/// `a - b`.
pub fn minus(alloc: Global, a: Box<Sum>, b: Box<Sum>) -> Result<Box<Sum>, AllocError>
    ensures { IfOk result (λ s. sum_of s.value ≡
        linear_over (sum_of a.value) (sum_of b.value) ((sum_of a.value).terms ++ opposite (sum_of b.value).terms) ((sum_of a.value).constant -ℤ (sum_of b.value).constant)) }
{
    let mut sum = a;
    let mut other = b;
    subtract(alloc, &mut sum, &mut other)?;
    Ok(sum)
}

/// Subtracts a sum from another one, which takes its rows.
fn subtract(alloc: Global, a: &mut Sum, b: &mut Sum) -> Result<(), AllocError>
    ensures { OnOk result (sum_of a.new ≡
        linear_over (sum_of a.old) (sum_of b.old) ((sum_of a.old).terms ++ opposite (sum_of b.old).terms) ((sum_of a.old).constant -ℤ (sum_of b.old).constant)) }
{
    a.constant = Long::minus(alloc, &a.constant, &b.constant)?;
    a.helpers = later(a.helpers, b.helpers)?;
    push_opposites(alloc, &mut a.terms, b.terms.as_slice())?;
    a.rows.append(&mut b.rows)?;
    Ok(())
}

/// Puts terms with the other sign behind others.
pub fn push_opposites(
    alloc: Global,
    terms: &mut Vec<Term>,
    others: &[Term],
) -> Result<(), AllocError>
    ensures { OnOk result (terms_of terms.new.items ≡ terms_of terms.old.items ++ opposite (terms_of others.now)) }
{
    let mut opposites = opposite_terms(alloc, others)?;
    terms.append(&mut opposites)?;
    Ok(())
}

/// `k*b + l*a - k*l`.
pub fn times(
    alloc: Global,
    k: &Long,
    l: &Long,
    a: Box<Sum>,
    b: Box<Sum>,
) -> Result<Box<Sum>, AllocError>
    ensures { IfOk result (λ s. sum_of s.value ≡
        linear_over (sum_of a.value) (sum_of b.value) (scaled (long k.now) (sum_of b.value).terms ++ scaled (long l.now) (sum_of a.value).terms)
        (((long k.now *ℤ (sum_of b.value).constant) +ℤ (long l.now *ℤ (sum_of a.value).constant)) -ℤ (long k.now *ℤ long l.now))) }
{
    let mut product = a;
    let mut other = b;
    multiply(alloc, k, l, &mut product, &mut other)?;
    Ok(product)
}

/// Multiplies a sum by another one, whose rows it takes.
fn multiply(alloc: Global, k: &Long, l: &Long, a: &mut Sum, b: &mut Sum) -> Result<(), AllocError>
    ensures { OnOk result (sum_of a.new ≡
        linear_over (sum_of a.old) (sum_of b.old) (scaled (long k.now) (sum_of b.old).terms ++ scaled (long l.now) (sum_of a.old).terms)
        (((long k.now *ℤ (sum_of b.old).constant) +ℤ (long l.now *ℤ (sum_of a.old).constant)) -ℤ (long k.now *ℤ long l.now))) }
{
    a.constant = product_constant(alloc, k, l, &a.constant, &b.constant)?;
    a.helpers = later(a.helpers, b.helpers)?;
    a.terms = product_terms(alloc, k, l, a.terms.as_slice(), b.terms.as_slice())?;
    a.rows.append(&mut b.rows)?;
    Ok(())
}

/// The terms of `k*b + l*a`.
fn product_terms(
    alloc: Global,
    k: &Long,
    l: &Long,
    a: &[Term],
    b: &[Term],
) -> Result<Vec<Term>, AllocError>
    ensures { IfOk result (λ ts. terms_of ts.items ≡ scaled (long k.now) (terms_of b.now) ++ scaled (long l.now) (terms_of a.now)) }
{
    let first = scaled_terms(alloc, k, b)?;
    let second = scaled_terms(alloc, l, a)?;
    joined(first, second)
}

/// `k*b + l*a - k*l` of constants.
fn product_constant(
    alloc: Global,
    k: &Long,
    l: &Long,
    a: &Long,
    b: &Long,
) -> Result<Long, AllocError>
    ensures { IfOk result (λ c. long c ≡ ((long k.now *ℤ long b.now) +ℤ (long l.now *ℤ long a.now)) -ℤ (long k.now *ℤ long l.now)) }
{
    let first = Long::times(alloc, b, k)?;
    let second = Long::times(alloc, a, l)?;
    let third = Long::times(alloc, l, k)?;
    let sum = Long::plus(alloc, &first, &second)?;
    Long::minus(alloc, &sum, &third)
}

/// A divisor, with its magnitude.
#[derive(Drop)]
pub struct Divisor {
    pub value: Long,
    pub magnitude: Long,
}

/// A sum that is divided: its quotient is a column, what is left of it, and the rows of the helpers of both.
#[derive(Drop)]
pub struct Divided {
    pub column: u32,
    pub rest: Vec<Term>,
    pub constant: Long,
    pub rows: Vec<Row>,
    pub helpers: u32,
}

/// The sum divided, its quotient the helper after its own, which are numbered from `next` on.
pub fn divide(alloc: Global, k: &Divisor, x: Sum, next: u32) -> Result<Divided, Refusal>
    requires { long k.now.magnitude ≡ pos (unsigned_abs (long k.now.value)) }
    ensures { IsDivideAnswer (long k.now.value) (sum_of x) next result }
{
    let column = later(next, x.helpers)?;
    let helpers = later(x.helpers, 1)?;
    let mut divided = Divided {
        column,
        rest: x.terms,
        constant: x.constant,
        rows: x.rows,
        helpers,
    };
    push_quotient(alloc, k, &mut divided)?;
    Ok(divided)
}

/// Takes k times the quotient from what is left, and puts the rows of the quotient behind the others.
fn push_quotient(alloc: Global, k: &Divisor, divided: &mut Divided) -> Result<(), Refusal>
    requires { long k.now.magnitude ≡ pos (unsigned_abs (long k.now.value)) }
    ensures column { OnOk result (divided.new.column ≡ divided.old.column) }
    ensures rest { OnOk result (terms_of divided.new.rest.items ≡ terms_of divided.old.rest.items ++ (divided.old.column, neg_ℤ (long k.now.value)) ∷ []) }
    ensures constant { OnOk result (long divided.new.constant ≡ long divided.old.constant) }
    ensures rows { OnOk result (divided.new.rows.items ≡ divided.old.rows.items ++ quotient_rows (long k.now.value) (record { terms = terms_of divided.old.rest.items; constant = long divided.old.constant; rows = divided.old.rows.items; helpers = 0 }) divided.old.column) }
    ensures helpers { OnOk result (divided.new.helpers ≡ divided.old.helpers) }
    ensures fit { OnOk result (rows_fit (quotient_rows (long k.now.value) (record { terms = terms_of divided.old.rest.items; constant = long divided.old.constant; rows = divided.old.rows.items; helpers = 0 }) divided.old.column) ≡ true) }
    ensures too_big { result ≡ Err Refusal.TooBig → rows_fit (quotient_rows (long k.now.value) (record { terms = terms_of divided.old.rest.items; constant = long divided.old.constant; rows = divided.old.rows.items; helpers = 0 }) divided.old.column) ≡ false }
{
    let first = first_row(alloc, &k.value, divided)?;
    divided.rows.push(first)?;
    push_last_term(alloc, divided.column, &k.value, &mut divided.rest)?;
    let second = second_row(alloc, &k.magnitude, divided)?;
    divided.rows.push(second)?;
    Ok(())
}

/// The row `k*q - x <= 0`.
fn first_row(alloc: Global, k: &Long, divided: &Divided) -> Result<Row, Refusal>
    ensures ok { IfOk result (λ r. r ≡ row_of ((divided.now.column, long k.now) ∷ opposite (terms_of divided.now.rest.items)) Le (long divided.now.constant)) }
    ensures fits { IsOk result → row_fits (row_of ((divided.now.column, long k.now) ∷ opposite (terms_of divided.now.rest.items)) Le (long divided.now.constant)) ≡ true }
    ensures too_big { result ≡ Err Refusal.TooBig → row_fits (row_of ((divided.now.column, long k.now) ∷ opposite (terms_of divided.now.rest.items)) Le (long divided.now.constant)) ≡ false }
{
    let low = first_terms(alloc, divided.column, k, divided.rest.as_slice())?;
    row_from(alloc, low.as_slice(), RowKind::Le, &divided.constant)
}

/// The row `x - k*q <= |k| - 1`, of what is left.
fn second_row(alloc: Global, magnitude: &Long, divided: &Divided) -> Result<Row, Refusal>
    ensures ok { IfOk result (λ r. r ≡ row_of (terms_of divided.now.rest.items) Le ((long magnitude.now -ℤ pos 1) -ℤ long divided.now.constant)) }
    ensures fits { IsOk result → row_fits (row_of (terms_of divided.now.rest.items) Le ((long magnitude.now -ℤ pos 1) -ℤ long divided.now.constant)) ≡ true }
    ensures too_big { result ≡ Err Refusal.TooBig → row_fits (row_of (terms_of divided.now.rest.items) Le ((long magnitude.now -ℤ pos 1) -ℤ long divided.now.constant)) ≡ false }
{
    let bound = rest_bound(alloc, magnitude, &divided.constant)?;
    row_from(alloc, divided.rest.as_slice(), RowKind::Le, &bound)
}

/// The terms of `k*q - x`.
fn first_terms(
    alloc: Global,
    column: u32,
    k: &Long,
    terms: &[Term],
) -> Result<Vec<Term>, AllocError>
    ensures { IfOk result (λ ts. terms_of ts.items ≡ (column, long k.now) ∷ opposite (terms_of terms.now)) }
{
    let mut first = Vec::with_capacity(alloc, 1)?;
    first.push(Term {
        column,
        coefficient: k.copy()?,
    })?;
    joined(first, opposite_terms(alloc, terms)?)
}

/// Puts the term `- k*q` behind the others.
fn push_last_term(
    alloc: Global,
    column: u32,
    k: &Long,
    terms: &mut Vec<Term>,
) -> Result<(), AllocError>
    ensures { OnOk result (terms_of terms.new.items ≡ terms_of terms.old.items ++ (column, neg_ℤ (long k.now)) ∷ []) }
{
    terms.push(Term {
        column,
        coefficient: k.opposite(alloc)?,
    })?;
    Ok(())
}

/// `|k| - 1 - c`.
fn rest_bound(alloc: Global, magnitude: &Long, constant: &Long) -> Result<Long, AllocError>
    ensures { IfOk result (λ b. long b ≡ (long magnitude.now -ℤ pos 1) -ℤ long constant.now) }
{
    let one = Long::new(alloc, 1)?;
    let less = Long::minus(alloc, magnitude, &one)?;
    Long::minus(alloc, &less, constant)
}

/// The quotient.
pub fn quotient(alloc: Global, divided: Divided) -> Result<Sum, AllocError>
    ensures { IfOk result (λ s. sum_of s ≡
        record { terms = (divided.column, pos 1) ∷ []; constant = pos 0; rows = divided.rows.items; helpers = divided.helpers }) }
{
    let column = Sum::column(alloc, divided.column)?;
    Ok(Sum {
        terms: column.terms,
        constant: column.constant,
        rows: divided.rows,
        helpers: divided.helpers,
    })
}

/// The remainder.
pub fn remainder(divided: Divided) -> Sum
    ensures { sum_of result ≡
        record { terms = terms_of divided.rest.items; constant = long divided.constant; rows = divided.rows.items; helpers = divided.helpers } }
{
    Sum {
        terms: divided.rest,
        constant: divided.constant,
        rows: divided.rows,
        helpers: divided.helpers,
    }
}
