//! One list of conjunctions with another: each of one joined to each of the other, whose helpers are moved behind.

ghost use Rattle.std.specs.Prelude.{◌≡◌, IfOk, OnOk, ◌∷◌, ◌++◌, map};
ghost use Rattle.lin_rows.specs.Rows.{LinearRow};
ghost use Rattle.cond_jumps.specs.Conjunctions.{joined};
ghost use Rattle.cond_jumps.specs.Conjs.{conjunction, conjunctions};
ghost use Rattle.cond_jumps.specs.Ties.JoinView.{each_moved, helpers_before, each_behind};
ghost use Rattle.cond_jumps.specs.Moving.{moved_column, moved_terms, moved_row, moved};

use crate::conj::Conj;
use crate::sums;
use crate::sums::later;
use lin_rows::{Row, RowFault, copied_rows, row};
use std::alloc::{AllocError, Global};

/// The number of a column, `by` more from the column `base` on.
fn moved_column(base: u32, by: u32, column: u32) -> Result<u32, AllocError>
    ensures { IfOk result (λ n. n ≡ moved_column base by column) }
{
    if column < base {
        Ok(column)
    } else {
        later(column, by)
    }
}

/// The terms with their columns moved.
fn moved_terms(
    alloc: Global,
    base: u32,
    by: u32,
    terms: &[(u32, i128)],
) -> Result<Vec<(u32, i128)>, AllocError>
    ensures { IfOk result (λ ts. ts.items ≡ moved_terms base by terms.now) }
{
    let mut all = Vec::with_capacity(alloc, terms.len())?;
    for (column, coefficient) in terms {
        all.push((moved_column(base, by, *column)?, *coefficient))?;
    }
    Ok(all)
}

/// The row with its columns moved.
fn moved_row(alloc: Global, base: u32, by: u32, given: &Row) -> Result<Row, AllocError>
    ensures { IfOk result (λ r. r ≡ moved_row base by given.now) }
{
    let terms = moved_terms(alloc, base, by, given.terms())?;
    match row(alloc, terms.as_slice(), given.kind(), given.bound()) {
        Ok(made) => Ok(made),
        Err(RowFault::Memory) => Err(AllocError),
        // The numbers are those of a row, and no two of its columns become one.
        Err(RowFault::Past) => unreachable!(),
    }
}

/// Puts rows with their columns moved behind others.
fn add_moved(
    alloc: Global,
    base: u32,
    by: u32,
    rows: &mut Vec<Row>,
    others: &[Row],
) -> Result<(), AllocError>
    ensures { OnOk result (rows.new.items ≡ rows.old.items ++ map (moved_row base by) others.now) }
{
    for other in others {
        rows.push(moved_row(alloc, base, by, other)?)?;
    }
    Ok(())
}

/// The rows of the first, and behind them those of the second, moved behind the helpers of the first.
fn joined(alloc: Global, base: u32, first: &Conj, second: &Conj) -> Result<Conj, AllocError>
    ensures { IfOk result (λ c. conjunction c ≡ joined (conjunction first.now) (moved base first.now.helpers (conjunction second.now))) }
{
    let helpers = later(first.helpers, second.helpers)?;
    let mut rows = copied_rows(alloc, first.rows.as_slice())?;
    add_moved(
        alloc,
        base,
        first.helpers,
        &mut rows,
        second.rows.as_slice(),
    )?;
    Ok(Conj { rows, helpers })
}

/// Puts the conjunction joined to each of the second behind the list.
fn with_each(
    alloc: Global,
    base: u32,
    list: &mut Vec<Conj>,
    first: &Conj,
    second: &[Conj],
) -> Result<(), AllocError>
    ensures { OnOk result (conjunctions list.new.items ≡
        conjunctions list.old.items ++ map (joined (conjunction first.now)) (map (moved base first.now.helpers) (conjunctions second.now))) }
{
    for conj in second {
        list.push(joined(alloc, base, first, conj)?)?;
    }
    Ok(())
}

/// Each of the first list joined to each of the second, the first outermost.
pub fn with(
    alloc: Global,
    base: u32,
    first: &[Conj],
    second: &[Conj],
) -> Result<Vec<Conj>, AllocError>
    ensures { IfOk result (λ cs. conjunctions cs.items ≡ each_moved base (conjunctions first.now) (conjunctions second.now)) }
{
    let mut list = Vec::with_capacity(alloc, first.len())?;
    for conj in first {
        with_each(alloc, base, &mut list, conj, second)?;
    }
    Ok(list)
}

/// How many helpers are numbered before those of a list that is joined to this one: those of its only member; none where it has
/// not exactly one.
pub fn helpers_before(first: &[Conj]) -> u32
    ensures { result ≡ helpers_before first.now }
{
    match first {
        [only] => only.helpers,
        _ => 0,
    }
}

/// The rows of the first, and behind them those of the second, whose helpers are numbered behind those of the first.
fn joined_behind(alloc: Global, first: &Conj, second: Conj) -> Result<Conj, AllocError>
    ensures { IfOk result (λ c. conjunction c ≡ joined (conjunction first.now) (conjunction second)) }
{
    let helpers = later(first.helpers, second.helpers)?;
    let rows = copied_rows(alloc, first.rows.as_slice())?;
    Ok(Conj {
        rows: sums::joined(rows, second.rows)?,
        helpers,
    })
}

/// The conjunction joined to each of the list, whose helpers are numbered behind its own.
fn before_each(alloc: Global, first: &Conj, second: Vec<Conj>) -> Result<Vec<Conj>, AllocError>
    ensures { IfOk result (λ cs. conjunctions cs.items ≡ map (joined (conjunction first.now)) (conjunctions second.items)) }
{
    let mut list = Vec::with_capacity(alloc, second.len())?;
    for conj in second {
        list.push(joined_behind(alloc, first, conj)?)?;
    }
    Ok(list)
}

/// Each of the first list joined to each of the second, the first outermost. The second's helpers are numbered behind those of the
/// first's only member, or from `base` on where it has not exactly one: so no row of the second is copied or moved for one member.
pub fn behind(
    alloc: Global,
    base: u32,
    first: &[Conj],
    second: Vec<Conj>,
) -> Result<Vec<Conj>, AllocError>
    ensures { IfOk result (λ cs. conjunctions cs.items ≡ each_behind base first.now (conjunctions second.items)) }
{
    match first {
        [only] => before_each(alloc, only, second),
        _ => with(alloc, base, first, second.as_slice()),
    }
}
