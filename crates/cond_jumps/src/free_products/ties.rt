//! Ties: rows over a product's column and a helper alone, which hold where both are equal; and the columns that they let go.

ghost use Rattle.std.specs.Prelude.{◌≡◌, ◌-◌, ◌≤◌, ◌||◌, ℕ, IfOk, List, None, replicate};
ghost use Rattle.std.specs.Option.{is_some};
ghost use Rattle.lin_rows.specs.Rows.{LinearRow};
ghost use Rattle.cond_jumps.specs.FreeProducts.Letters.{is_product_column, is_helper_column, names_any, tie_of, product_of, is_left_out, is_exact};
ghost use Rattle.cond_jumps.specs.FreeProducts.LetterView.{seen, tabulated, tied_by, cleared, cleared_rows};

use lin_rows::Row;
use std::alloc::{AllocError, Global};

/// Of a conjunction's columns those of the products, from `low` to below `high`, and the helpers, from `base` to below `top`.
#[derive(Clone, Copy)]
pub struct ProductSpan {
    pub low: u32,
    pub high: u32,
    pub base: u32,
    pub top: u32,
}

impl ProductSpan {
    /// Whether the column is a product's.
    pub fn is_product(&self, column: u32) -> bool
        ensures { result ≡ is_product_column (seen self.now) column }
    {
        !(column < self.low) && column < self.high
    }

    /// Whether the column is a helper's.
    pub fn is_helper(&self, column: u32) -> bool
        ensures { result ≡ is_helper_column (seen self.now) column }
    {
        !(column < self.base) && column < self.top
    }
}

/// The product's column and the helper that a row ties.
fn tied(span: &ProductSpan, row: &Row) -> Option<(u32, u32)>
    ensures { result ≡ tie_of (seen span.now) row.now }
{
    if row.bound() != 0 {
        return None;
    }
    match row.terms() {
        [(product, first), (helper, second)] => {
            if *first == -*second && span.is_product(*product) && span.is_helper(*helper) {
                Some((*product, *helper))
            } else {
                None
            }
        }
        _ => None,
    }
}

/// Whether the row names a product's column.
pub fn names_product(span: &ProductSpan, row: &Row) -> bool
    ensures { result ≡ names_any (is_product_column (seen span.now)) row.now }
{
    row.terms().iter().any(|term| span.is_product(term.0))
}

/// A table of so many helpers, none of which is tied.
fn untied(alloc: Global, helpers: u32) -> Result<Vec<Option<u32>>, AllocError>
    ensures { IfOk result (λ ps. ps.items ≡ replicate helpers None) }
{
    let mut products = Vec::with_capacity(alloc, helpers as usize)?;
    while products.len() < helpers as usize {
        products.push(None)?;
    }
    Ok(products)
}

/// Of each helper the product's column that the first row with a tie of it ties it to.
pub fn products_of(
    alloc: Global,
    span: &ProductSpan,
    rows: &[Row],
) -> Result<Vec<Option<u32>>, AllocError>
    requires { span.now.base ≤ span.now.top }
    ensures { IfOk result (λ ps. ps.items ≡ tabulated (product_of (seen span.now) rows.now) span.now.base (span.now.top - span.now.base)) }
{
    let mut products = untied(alloc, span.top - span.base)?;
    let mut place = rows.len();
    while 0 < place {
        place -= 1;
        if let Some((product, helper)) = tied(span, &rows[place]) {
            products[(helper - span.base) as usize] = Some(product);
        }
    }
    Ok(products)
}

/// The product's column to which a helper is tied, by the table of the helpers.
fn product_at(span: &ProductSpan, products: &[Option<u32>], column: u32) -> Option<u32>
    ensures { result ≡ tied_by (seen span.now) products.now column }
{
    if span.is_helper(column) {
        match products.get((column - span.base) as usize) {
            Some(product) => *product,
            None => None,
        }
    } else {
        None
    }
}

/// Whether the column is a product's or a tied helper.
fn may_go(span: &ProductSpan, products: &[Option<u32>], column: u32) -> bool
    ensures { result ≡ (is_product_column (seen span.now) column || is_some (tied_by (seen span.now) products.now column)) }
{
    span.is_product(column) || product_at(span, products, column).is_some()
}

/// Whether the row names a product's column or a tied helper.
fn names_tied(span: &ProductSpan, products: &[Option<u32>], row: &Row) -> bool
    ensures { result ≡ names_any (λ c. is_product_column (seen span.now) c || is_some (tied_by (seen span.now) products.now c)) row.now }
{
    row.terms()
        .iter()
        .any(|term| may_go(span, products, term.0))
}

/// Whether the row names nothing of a product, or is a tie, of a helper to the product that the first tie of that helper has.
pub fn is_exact(span: &ProductSpan, products: &[Option<u32>], row: &Row) -> bool
    ensures { (rows : List LinearRow) → products.now ≡ tabulated (product_of (seen span.now) rows) span.now.base (span.now.top - span.now.base) →
        result ≡ is_exact (seen span.now) rows row.now }
{
    if !names_tied(span, products, row) {
        return true;
    }
    match tied(span, row) {
        Some((product, helper)) => product_at(span, products, helper) == Some(product),
        None => false,
    }
}

/// Lets the columns of the row stay.
fn clear(out: &mut [bool], row: &Row)
    ensures { out.new ≡ cleared row.now.terms out.old }
{
    for (column, _) in row.terms() {
        let place = *column as usize;
        if place < out.len() {
            out[place] = false;
        }
    }
}

/// Lets the columns of the rows stay that name no product.
fn clear_plain(span: &ProductSpan, rows: &[Row], out: &mut [bool])
    ensures { out.new ≡ cleared_rows (seen span.now) rows.now out.old }
{
    for row in rows {
        if !names_product(span, row) {
            clear(out, row);
        }
    }
}

/// Of each column, the helpers too, whether the letter leaves it out.
pub fn left_out(
    alloc: Global,
    span: &ProductSpan,
    products: &[Option<u32>],
    rows: &[Row],
) -> Result<Vec<bool>, AllocError>
    requires span { span.now.base ≤ span.now.top }
    requires products { products.now ≡ tabulated (product_of (seen span.now) rows.now) span.now.base (span.now.top - span.now.base) }
    ensures { IfOk result (λ out. out.items ≡ tabulated (is_left_out (seen span.now) rows.now) 0 span.now.top) }
{
    let mut out = Vec::with_capacity(alloc, span.top as usize)?;
    for column in 0..span.top {
        out.push(may_go(span, products, column))?;
    }
    clear_plain(span, rows, out.as_mut_slice());
    Ok(out)
}
