//! Two ascending lists of terms, merged into one.

ghost use Rattle.std.specs.Prelude.{◌≡◌, ℕ, [], ◌++◌, IfOk, OnOk, MatchOption};
ghost use Rattle.math_facts.specs.Terms.{coefficient};
ghost use Rattle.lin_rows.specs.Rows.{AscendsFrom};
ghost use Rattle.lin_rows.specs.Sums.{led_by};
ghost use Rattle.lin_rows.specs.Ties.Merging.{least_column, after_column, ColumnFits, AreMerged};

use crate::numbers::plus_times;
use crate::types::{Col, Terms};
use std::alloc::{AllocError, Global};

/// The least column that is left.
fn least_column(a: &[(Col, i128)], b: &[(Col, i128)]) -> Option<Col>
    ensures { result ≡ least_column a.now b.now }
{
    match (a, b) {
        ([], []) => None,
        ([], [u, ..]) => Some(u.0),
        ([t, ..], []) => Some(t.0),
        ([t, ..], [u, ..]) => Some(t.0.min(u.0)),
    }
}

/// The coefficient of a column with which the terms may begin, and the terms after it.
fn split_at_column(terms: &[(Col, i128)], column: Col) -> (i128, &[(Col, i128)])
    requires { AscendsFrom column terms.now }
    ensures value { result.0 ≡ coefficient column terms.now }
    ensures rest { result.1.now ≡ after_column column terms.now }
{
    match terms {
        [] => (0, terms),
        [first, rest @ ..] => {
            if first.0 == column {
                (first.1, rest)
            } else {
                (0, terms)
            }
        }
    }
}

/// Adds a term at the end, unless its coefficient is 0.
fn push_term(terms: &mut Terms, column: Col, coefficient: i128) -> Result<(), AllocError>
    ensures { OnOk result (terms.new.items ≡ terms.old.items ++ led_by column coefficient []) }
{
    if coefficient != 0 {
        terms.push((column, coefficient))?;
    }
    Ok(())
}

/// The terms of `a + m*b`, or `None` where a product or a sum would not fit.
pub fn merged(
    alloc: Global,
    a: &[(Col, i128)],
    m: i128,
    b: &[(Col, i128)],
) -> Result<Option<Terms>, AllocError>
    requires a_ascends { AscendsFrom 0 a.now }
    requires b_ascends { AscendsFrom 0 b.now }
    ensures { IfOk result (λ o. MatchOption o (((c : ℕ) → ColumnFits m a.now b.now c) → ⊥) (λ sum. AreMerged a.now m b.now sum.items)) }
{
    let mut sum = Terms::new(alloc);
    let mut left = a;
    let mut right = b;
    while let Some(column) = least_column(left, right) {
        let (first, left_rest) = split_at_column(left, column);
        let (second, right_rest) = split_at_column(right, column);
        let Some(coefficient) = plus_times(first, m, second) else {
            return Ok(None);
        };
        push_term(&mut sum, column, coefficient)?;
        left = left_rest;
        right = right_rest;
    }
    Ok(Some(sum))
}
