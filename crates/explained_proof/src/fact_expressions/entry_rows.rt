//! What rows say where a clause stands, or at the entry of the frame.

ghost use Rattle.std.specs.Prelude.{◌≡◌, ◌<◌, [], neg_ℤ, IfOk, OnOk, map, is_some, take, drop, length};
ghost use Rattle.std.specs.List.{AllByRecursion, list_all};
ghost use lib.Pointwise.{pointwise};
ghost use Rattle.math_facts.specs.Fits.{Fits};
ghost use Rattle.math_facts.specs.Terms.{opposite};
ghost use Rattle.letter_acts.specs.LetterTable.Letters.{same_term};
ghost use Rattle.lin_rows.specs.Rows.{IsCoefficient};
ghost use Rattle.explained_proof.specs.BuiltExpressions.Members.{with_members};
ghost use Rattle.explained_proof.specs.BuiltExpressions.Views.{conjuncts};
ghost use Rattle.explained_proof.specs.RowExpressions.Views as scopes;
ghost use Rattle.explained_proof.specs.FactExpressions.EntryRows as spec;
ghost use Rattle.explained_proof.specs.FactExpressions.Views as view;

use crate::built_expressions::Members;
use crate::fact_expressions::conjunctions::add_row;
use crate::row_expressions::Scope;
use lin_rows::{Row, RowFault, RowKind, row, tighten};
use std::alloc::{AllocError, Global};

/// Whether the second term is the first with the other sign.
fn is_opposite_term(a: &(u32, i128), b: &(u32, i128)) -> bool
    requires { Fits b.now.1 }
    ensures { result ≡ same_term a.now (b.now.0, neg_ℤ b.now.1) }
{
    a.0 == b.0 && a.1 == -b.1
}

/// Whether the second terms are the first with the other sign.
fn are_opposite_terms(a: &[(u32, i128)], b: &[(u32, i128)]) -> bool
    requires { AllByRecursion IsCoefficient b.now }
    ensures { result ≡ pointwise same_term a.now (opposite b.now) }
{
    if a.len() != b.len() {
        return false;
    }
    for (i, term) in a.iter().enumerate() {
        if !is_opposite_term(term, &b[i]) {
            return false;
        }
    }
    true
}

/// Whether two rows together are an equality.
fn are_opposite(first: &Row, second: &Row) -> bool
    ensures { result ≡ spec.are_opposite first.now second.now }
{
    let others = second.terms();
    first.bound() == -second.bound() && are_opposite_terms(first.terms(), others)
}

/// Whether one of two rows holds anywhere: their terms are opposite, and their bounds leave nothing between them.
pub(crate) fn cover_all(first: &Row, second: &Row) -> bool
    ensures { result ≡ spec.cover_all first.now second.now }
{
    let least = -1 - second.bound();
    first.bound() >= least && are_opposite_terms(first.terms(), second.terms())
}

/// Whether one of the rows makes an equality with this one.
fn has_opposite(rows: &[&Row], row: &Row) -> bool
    ensures { result ≡ spec.has_opposite (view.rows rows.now) row.now }
{
    for other in rows {
        if are_opposite(row, other) {
            return true;
        }
    }
    false
}

/// The terms by the columns that speak of the entry.
fn entry_terms(
    alloc: Global,
    scope: &Scope<'_>,
    terms: &[(u32, i128)],
) -> Result<Vec<(u32, i128)>, AllocError>
    ensures { IfOk result (λ list. list.items ≡ spec.entry_terms (scopes.scope scope.now) terms.now) }
{
    let mut list = Vec::with_capacity(alloc, terms.len())?;
    for (column, times) in terms {
        list.push((scope.entry_column(*column), *times))?;
    }
    Ok(list)
}

/// The row at the entry, where the globals have their old values; none where a number does not fit.
fn entry_row(alloc: Global, scope: &Scope<'_>, given: &Row) -> Result<Option<Row>, AllocError>
    ensures { IfOk result (λ o. o ≡ spec.entry_row (scopes.scope scope.now) given.now) }
{
    let terms = entry_terms(alloc, scope, given.terms())?;
    match row(alloc, &terms, RowKind::Le, given.bound()) {
        Ok(row) => Ok(Some(tighten(alloc, &row)?)),
        Err(RowFault::Past) => Ok(None),
        Err(RowFault::Memory) => Err(AllocError),
    }
}

/// The rows at the entry.
fn entry_rows(
    alloc: Global,
    scope: &Scope<'_>,
    rows: &[&Row],
) -> Result<Vec<Option<Row>>, AllocError>
    ensures { IfOk result (λ list. list.items ≡ map (spec.entry_row (scopes.scope scope.now)) (view.rows rows.now)) }
{
    let mut list = Vec::with_capacity(alloc, rows.len())?;
    for given in rows {
        list.push(entry_row(alloc, scope, given)?)?;
    }
    Ok(list)
}

/// Whether all are there.
fn are_there(rows: &[Option<Row>]) -> bool
    ensures { result ≡ list_all is_some rows.now }
{
    for row in rows {
        if row.is_none() {
            return false;
        }
    }
    true
}

/// The rows that are there, of equal terms one.
fn merged<'a>(alloc: Global, rows: &'a [Option<Row>]) -> Result<Vec<&'a Row>, AllocError>
    ensures { IfOk result (λ list. view.rows list.items ≡ spec.merged rows.now []) }
{
    let mut list = Vec::new(alloc);
    for row in rows {
        if let Some(row) = row {
            add_row(&mut list, row)?;
        }
    }
    Ok(list)
}

/// Adds what a row says, unless a row before it says it. Of two that are an equality together the first says it.
fn add_row_at(
    alloc: Global,
    scope: &Scope<'_>,
    rows: &[&Row],
    place: usize,
    members: &mut Members,
) -> Result<(), AllocError>
    requires { place < length rows.now }
    ensures { OnOk result (conjuncts members.new ≡ with_members (conjuncts members.old)
        (spec.row_said_at (scopes.scope scope.now) (take place (view.rows rows.now)) (drop place (view.rows rows.now)))) }
{
    let row = rows[place];
    if has_opposite(&rows[..place], row) {
        return Ok(());
    }
    let equal = has_opposite(&rows[place..], row);
    crate::row_expressions::add_row(alloc, scope, row, equal, members)
}

/// Adds what the rows say.
fn add_rows(
    alloc: Global,
    scope: &Scope<'_>,
    rows: &[&Row],
    members: &mut Members,
) -> Result<(), AllocError>
    ensures { OnOk result (conjuncts members.new ≡ with_members (conjuncts members.old) (spec.rows_said (scopes.scope scope.now) [] (view.rows rows.now))) }
{
    for place in 0..rows.len() {
        add_row_at(alloc, scope, rows, place, members)?;
    }
    Ok(())
}

/// Adds what rows say that are told by the columns of the entry.
fn add_entry_rows(
    alloc: Global,
    scope: &Scope<'_>,
    rows: &[Option<Row>],
    members: &mut Members,
) -> Result<(), AllocError>
    ensures { OnOk result (conjuncts members.new ≡ with_members (conjuncts members.old) (spec.entry_said (scopes.scope scope.now) rows.now)) }
{
    if scope.premise && !are_there(rows) {
        members.deny();
        return Ok(());
    }
    let rows = merged(alloc, rows)?;
    add_rows(alloc, scope, &rows, members)
}

/// Adds what the rows say, at the entry or where the clause stands.
pub(crate) fn add_told_rows(
    alloc: Global,
    scope: &Scope<'_>,
    rows: &[&Row],
    members: &mut Members,
) -> Result<(), AllocError>
    ensures { OnOk result (conjuncts members.new ≡ with_members (conjuncts members.old) (spec.told_rows (scopes.scope scope.now) (view.rows rows.now))) }
{
    if !scope.is_of_entry() {
        return add_rows(alloc, scope, rows, members);
    }
    let entry = entry_rows(alloc, scope, rows)?;
    add_entry_rows(alloc, scope, &entry, members)
}
