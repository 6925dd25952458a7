//! The letters of conjunctions over a frame and products.

ghost use Rattle.std.specs.Prelude.{◌≡◌, ◌+◌, ◌-◌, ◌<◌, ◌≤◌, ℕ, IfOk, List, length, map};
ghost use Rattle.std.specs.List.{AllByRecursion, list_all};
ghost use Rattle.lin_rows.specs.Rows.{IsRow, LinearRow};
ghost use Rattle.cond_jumps.specs.Conjs.{conjunction, conjunctions};
ghost use Rattle.cond_jumps.specs.FreeProducts.Letters.{product_of, plain_rows, is_exact, letter_within, marked_letter};
ghost use Rattle.cond_jumps.specs.FreeProducts.LetterView.{IsSpanOf, seen, marked, all_marked, tabulated, numbered, placed, placed_terms, placed_row};

use crate::free_products::ties::{ProductSpan, is_exact, left_out, names_product, products_of};
use crate::{Conj, later};
use lin_rows::{Row, RowFault, row};
use std::alloc::{AllocError, Global};

/// Rows that hold together, over a frame without products, and whether they allow more than the products do.
#[derive(Drop)]
pub struct MarkedConj {
    pub conj: Conj,
    pub coarse: bool,
}

/// The numbers of the columns among those that stay, and behind them the number of the next.
fn places(alloc: Global, out: &[bool]) -> Result<Vec<u32>, AllocError>
    ensures { IfOk result (λ places. places.items ≡ numbered 0 out.now) }
{
    let mut places = Vec::with_capacity(alloc, out.len())?;
    let mut next = 0;
    for left in out {
        places.push(next)?;
        if !*left {
            next = later(next, 1)?;
        }
    }
    places.push(next)?;
    Ok(places)
}

/// The number of a column by that table; those past it all stay.
fn place(places: &[u32], column: u32) -> Result<u32, AllocError>
    requires { 0 < length places.now }
    ensures { IfOk result (λ n. n ≡ placed places.now column) }
{
    let last = places.len() - 1;
    if (column as usize) < places.len() {
        Ok(places[column as usize])
    } else {
        later(places[last], column - last as u32)
    }
}

/// The terms with their columns renumbered.
fn placed_terms(
    alloc: Global,
    places: &[u32],
    terms: &[(u32, i128)],
) -> Result<Vec<(u32, i128)>, AllocError>
    requires { 0 < length places.now }
    ensures { IfOk result (λ ts. ts.items ≡ placed_terms places.now terms.now) }
{
    let mut all = Vec::with_capacity(alloc, terms.len())?;
    for (column, coefficient) in terms {
        all.push((place(places, *column)?, *coefficient))?;
    }
    Ok(all)
}

/// The row with its columns renumbered.
fn placed_row(alloc: Global, places: &[u32], given: &Row) -> Result<Row, AllocError>
    requires places { 0 < length places.now }
    requires valid { IsRow given.now → IsRow (placed_row places.now given.now) }
    ensures { IfOk result (λ r. r ≡ placed_row places.now given.now) }
{
    let terms = placed_terms(alloc, places, given.terms())?;
    match row(alloc, terms.as_slice(), given.kind(), given.bound()) {
        Ok(made) => Ok(made),
        Err(RowFault::Memory) => Err(AllocError),
        // The numbers are those of a row, and its columns still ascend.
        Err(RowFault::Past) => unreachable!(),
    }
}

/// The rows that name no product, their columns renumbered.
fn kept_rows(
    alloc: Global,
    span: &ProductSpan,
    places: &[u32],
    rows: &[Row],
) -> Result<Vec<Row>, AllocError>
    requires places { 0 < length places.now }
    requires valid { AllByRecursion (λ r. IsRow r → IsRow (placed_row places.now r)) (plain_rows (seen span.now) rows.now) }
    ensures { IfOk result (λ kept. kept.items ≡ map (placed_row places.now) (plain_rows (seen span.now) rows.now)) }
{
    let mut kept = Vec::with_capacity(alloc, rows.len())?;
    for given in rows {
        if !names_product(span, given) {
            kept.push(placed_row(alloc, places, given)?)?;
        }
    }
    Ok(kept)
}

/// Whether each row names nothing of a product, or is a tie.
fn all_exact(span: &ProductSpan, products: &[Option<u32>], rows: &[Row]) -> bool
    requires { products.now ≡ tabulated (product_of (seen span.now) rows.now) span.now.base (span.now.top - span.now.base) }
    ensures { result ≡ list_all (is_exact (seen span.now) rows.now) rows.now }
{
    for row in rows {
        if !is_exact(span, products, row) {
            return false;
        }
    }
    true
}

/// The letter of a conjunction whose products and helpers stand there.
fn letter_within(alloc: Global, span: &ProductSpan, conj: &Conj) -> Result<MarkedConj, AllocError>
    requires span { IsSpanOf (seen span.now) conj.now.helpers }
    ensures { IfOk result (λ l. marked l ≡ letter_within (seen span.now) (conjunction conj.now)) }
{
    let rows = conj.rows.as_slice();
    let products = products_of(alloc, span, rows)?;
    let out = left_out(alloc, span, products.as_slice(), rows)?;
    let places = places(alloc, out.as_slice())?;
    let helpers = places[span.top as usize] - places[span.base as usize];
    Ok(MarkedConj {
        conj: Conj {
            rows: kept_rows(alloc, span, places.as_slice(), rows)?,
            helpers,
        },
        coarse: !all_exact(span, products.as_slice(), rows),
    })
}

/// The letter of a conjunction over `low` columns of a frame, `count` products, `more` further columns, and its helpers.
pub fn letter(
    alloc: Global,
    low: u32,
    count: u32,
    more: u32,
    conj: &Conj,
) -> Result<MarkedConj, AllocError>
    ensures { IfOk result (λ l. marked l ≡ marked_letter low count more (conjunction conj.now)) }
{
    let high = later(low, count)?;
    let base = later(high, more)?;
    let top = later(base, conj.helpers)?;
    let span = ProductSpan {
        low,
        high,
        base,
        top,
    };
    letter_within(alloc, &span, conj)
}

/// The letters of these conjunctions.
pub fn letters(
    alloc: Global,
    low: u32,
    count: u32,
    more: u32,
    conjs: &[Conj],
) -> Result<Vec<MarkedConj>, AllocError>
    ensures { IfOk result (λ ls. all_marked ls.items ≡ map (marked_letter low count more) (conjunctions conjs.now)) }
{
    let mut all = Vec::with_capacity(alloc, conjs.len())?;
    for conj in conjs {
        all.push(letter(alloc, low, count, more, conj)?)?;
    }
    Ok(all)
}
