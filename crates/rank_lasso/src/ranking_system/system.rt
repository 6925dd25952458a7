//! The ranking system of a turn.

ghost use Rattle.std.specs.Prelude.{◌≡◌, ◌+◌, ◌≤◌, ◌<◌, ◌^◌, ◌++◌, ◌∷◌, [], pos, IfOk, OnOk, length, map, if◌then◌else◌, nat_eq};
ghost use Rattle.std.specs.List.{AllByRecursion};
ghost use Rattle.math_facts.specs.Terms.{coefficient};
ghost use Rattle.lin_rows.specs.Rows.{IsRow};
ghost use Rattle.lin_rows.specs.Tightening.{tightened};
ghost use Rattle.letter_acts.specs.FrameRows.Rows.{columns_from};
ghost use Rattle.rank_lasso.specs.LassoTurns.Made.{plain_turn};
ghost use Rattle.rank_lasso.specs.RankingSystem.RankingSystem.{weighted, across, falls_at, bounded_at, falls_by_one, not_negative, signs_of, signs, ranking_rows};

use crate::lasso_turns::MadeTurn;
use letter_acts::frame_rows::{add_columns, fitting_row};
use lin_rows::{Col, Row, RowKind, tighten};
use std::alloc::{AllocError, Global};

/// The rows, tightened.
pub fn tightened_rows(alloc: Global, rows: &[Row]) -> Result<Vec<Row>, AllocError>
    ensures { IfOk result (λ v. v.items ≡ map tightened rows.now) }
{
    let mut tight = Vec::with_capacity(alloc, rows.len())?;
    for row in rows {
        tight.push(tighten(alloc, row)?)?;
    }
    Ok(tight)
}

/// The ranking system of a turn, for these rows of it. Its time is the turn's columns times the rows, but for the look-up of a
/// column in a row.
pub fn ranking_rows(alloc: Global, turn: &MadeTurn, rows: &[Row]) -> Result<Vec<Row>, AllocError>
    requires room { length rows.now + length rows.now + turn.now.width < 2 ^ 32 }
    requires long { length turn.now.here.items ≡ turn.now.width }
    requires columns { turn.now.made ≤ 2 ^ 32 }
    ensures { IfOk result (λ v. v.items ≡ ranking_rows (plain_turn turn.now) rows.now) }
{
    know_rows(rows);
    let before = first_columns(alloc, turn.width)?;
    let mut made = Vec::new(alloc);
    add_falls(alloc, rows, &before, &turn.here, turn.made, &mut made)?;
    add_bounded(alloc, rows, &before, turn.made, &mut made)?;
    add_ends(alloc, rows, &mut made)?;
    Ok(made)
}

/// Reads the rows, whose contracts then say what every row keeps.
fn know_rows(rows: &[Row])
    ensures { AllByRecursion IsRow rows.now }
{
    for row in rows {
        let _terms = row.terms();
    }
}

/// So many columns.
fn first_columns(alloc: Global, count: usize) -> Result<Vec<Col>, AllocError>
    requires { count ≤ 2 ^ 32 }
    ensures { IfOk result (λ v. v.items ≡ columns_from 0 count) }
{
    let mut columns = Vec::new(alloc);
    add_columns(&mut columns, 0, count)?;
    Ok(columns)
}

/// Adds, for each column below a number, the row that says what the rows add up to there for the fall.
fn add_falls(
    alloc: Global,
    rows: &[Row],
    before: &[Col],
    after: &[Col],
    columns: usize,
    made: &mut Vec<Row>,
) -> Result<(), AllocError>
    requires valid { AllByRecursion IsRow rows.now }
    requires before { length rows.now + length rows.now + length before.now ≤ 2 ^ 32 }
    requires after { length rows.now + length rows.now + length after.now ≤ 2 ^ 32 }
    requires columns { columns ≤ 2 ^ 32 }
    ensures { OnOk result (made.new.items ≡ made.old.items
        ++ map (falls_at (record { rows = []; columns = 0; before = before.now; after = after.now }) rows.now) (columns_from 0 columns)) }
{
    for column in 0..columns {
        made.push(falls_at(alloc, rows, before, after, column as u32)?)?;
    }
    Ok(())
}

/// Adds, for each column below a number, the row that says what the rows add up to there for the bound.
fn add_bounded(
    alloc: Global,
    rows: &[Row],
    before: &[Col],
    columns: usize,
    made: &mut Vec<Row>,
) -> Result<(), AllocError>
    requires valid { AllByRecursion IsRow rows.now }
    requires before { length rows.now + length rows.now + length before.now ≤ 2 ^ 32 }
    requires columns { columns ≤ 2 ^ 32 }
    ensures { OnOk result (made.new.items ≡ made.old.items
        ++ map (bounded_at (record { rows = []; columns = 0; before = before.now; after = [] }) rows.now) (columns_from 0 columns)) }
{
    for column in 0..columns {
        made.push(bounded_at(alloc, rows, before, column as u32)?)?;
    }
    Ok(())
}

/// The rows add up to the rank after the turn less that before it, in a column.
fn falls_at(
    alloc: Global,
    rows: &[Row],
    before: &[Col],
    after: &[Col],
    column: Col,
) -> Result<Row, AllocError>
    requires valid { AllByRecursion IsRow rows.now }
    requires before { length rows.now + length rows.now + length before.now ≤ 2 ^ 32 }
    requires after { length rows.now + length rows.now + length after.now ≤ 2 ^ 32 }
    ensures { IfOk result (λ r. r ≡ falls_at (record { rows = []; columns = 0; before = before.now; after = after.now }) rows.now column) }
{
    let mut given = Vec::new(alloc);
    add_across(&mut given, 0, rows, column)?;
    add_standing(&mut given, rows.len() + rows.len(), before, column, 1)?;
    add_standing(&mut given, rows.len() + rows.len(), after, column, -1)?;
    fitting_row(alloc, &given, RowKind::Eq, 0)
}

/// The rows add up to the opposite of the rank before the turn, in a column.
fn bounded_at(alloc: Global, rows: &[Row], before: &[Col], column: Col) -> Result<Row, AllocError>
    requires valid { AllByRecursion IsRow rows.now }
    requires before { length rows.now + length rows.now + length before.now ≤ 2 ^ 32 }
    ensures { IfOk result (λ r. r ≡ bounded_at (record { rows = []; columns = 0; before = before.now; after = [] }) rows.now column) }
{
    let mut given = Vec::new(alloc);
    add_across(&mut given, rows.len(), rows, column)?;
    add_standing(&mut given, rows.len() + rows.len(), before, column, 1)?;
    fitting_row(alloc, &given, RowKind::Eq, 0)
}

/// Adds that the bounds add up to -1 at most, and that the multipliers of inequalities are at least 0.
fn add_ends(alloc: Global, rows: &[Row], made: &mut Vec<Row>) -> Result<(), AllocError>
    requires valid { AllByRecursion IsRow rows.now }
    requires room { length rows.now + length rows.now ≤ 2 ^ 32 }
    ensures { OnOk result (made.new.items ≡ made.old.items ++ (falls_by_one rows.now ∷ signs 0 (length rows.now) rows.now)) }
{
    made.push(falls_by_one(alloc, rows)?)?;
    add_signs(alloc, rows, made)
}

/// The bounds add up to -1 at most.
fn falls_by_one(alloc: Global, rows: &[Row]) -> Result<Row, AllocError>
    requires valid { AllByRecursion IsRow rows.now }
    requires room { length rows.now ≤ 2 ^ 32 }
    ensures { IfOk result (λ r. r ≡ falls_by_one rows.now) }
{
    let bounds = bounds_of(alloc, rows)?;
    fitting_row(alloc, &bounds, RowKind::Le, -1)
}

/// The bounds of rows, each with the number of its row.
pub(crate) fn bounds_of(alloc: Global, rows: &[Row]) -> Result<Vec<(Col, i128)>, AllocError>
    requires { length rows.now ≤ 2 ^ 32 }
    ensures { IfOk result (λ v. v.items ≡ weighted 0 (map (λ r. r.bound) rows.now)) }
{
    let mut bounds = Vec::with_capacity(alloc, rows.len())?;
    for (i, row) in rows.iter().enumerate() {
        bounds.push((i as u32, row.bound()))?;
    }
    Ok(bounds)
}

/// Adds the coefficients of a column in the rows, for the unknowns from a number on.
fn add_across(
    given: &mut Vec<(Col, i128)>,
    first: usize,
    rows: &[Row],
    column: Col,
) -> Result<(), AllocError>
    requires { first + length rows.now ≤ 2 ^ 32 }
    ensures { OnOk result (given.new.items ≡ given.old.items ++ weighted first (across column rows.now)) }
{
    for (i, row) in rows.iter().enumerate() {
        given.push(((first + i) as u32, coefficient_at(row, column)))?;
    }
    Ok(())
}

/// The coefficient of a column in a row.
fn coefficient_at(row: &Row, column: Col) -> i128
    ensures { result ≡ coefficient column row.now.terms }
{
    let terms = row.terms();
    let place = terms.partition_point(|term| term.0 < column);
    if place < terms.len() && terms[place].0 == column {
        terms[place].1
    } else {
        0
    }
}

/// Adds a factor for the unknown of each version that is the column, and 0 for the others. The unknowns are those from a number on.
fn add_standing(
    given: &mut Vec<(Col, i128)>,
    first: usize,
    versions: &[Col],
    column: Col,
    factor: i128,
) -> Result<(), AllocError>
    requires { first + length versions.now ≤ 2 ^ 32 }
    ensures { OnOk result (given.new.items ≡ given.old.items ++ weighted first (map (λ v. if nat_eq v column then factor else pos 0) versions.now)) }
{
    for (i, version) in versions.iter().enumerate() {
        given.push(((first + i) as u32, standing(*version, column, factor)))?;
    }
    Ok(())
}

/// The factor, if the version is the column, and else 0.
fn standing(version: Col, column: Col, factor: i128) -> i128
    ensures { result ≡ (if nat_eq version column then factor else pos 0) }
{
    if version == column { factor } else { 0 }
}

/// Adds that the two multipliers of each inequality are at least 0.
fn add_signs(alloc: Global, rows: &[Row], made: &mut Vec<Row>) -> Result<(), AllocError>
    requires { length rows.now + length rows.now ≤ 2 ^ 32 }
    ensures { OnOk result (made.new.items ≡ made.old.items ++ signs 0 (length rows.now) rows.now) }
{
    let count = rows.len();
    for (i, row) in rows.iter().enumerate() {
        add_signs_of(alloc, row.kind(), i as u32, (count + i) as u32, made)?;
    }
    Ok(())
}

/// Adds that the two multipliers of a row of that kind are at least 0, if it is an inequality.
fn add_signs_of(
    alloc: Global,
    kind: RowKind,
    first: Col,
    second: Col,
    made: &mut Vec<Row>,
) -> Result<(), AllocError>
    ensures { OnOk result (made.new.items ≡ made.old.items ++ signs_of kind first second) }
{
    match kind {
        RowKind::Le => {
            add_sign(alloc, first, made)?;
            add_sign(alloc, second, made)
        }
        RowKind::Eq => Ok(()),
    }
}

/// Adds that the unknown is at least 0.
fn add_sign(alloc: Global, unknown: Col, made: &mut Vec<Row>) -> Result<(), AllocError>
    ensures { OnOk result (made.new.items ≡ made.old.items ++ not_negative unknown ∷ []) }
{
    made.push(fitting_row(alloc, &[(unknown, -1)], RowKind::Le, 0)?)?;
    Ok(())
}
