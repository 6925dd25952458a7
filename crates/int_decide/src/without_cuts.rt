//! Refutations without cuts: found, or shown to be none.

ghost use Rattle.std.specs.Prelude.{◌≡◌, ◌<◌, ◌^◌, [], IfOk, IfSome, IsTrue, map};
ghost use Rattle.std.specs.List.{AllByRecursion};
ghost use Rattle.lin_rows.specs.Rows.{IsRow};
ghost use Rattle.lin_rows.specs.Systems.{rows_of, groups_of};
ghost use Rattle.lin_rows.specs.Tightening.{tightened};
ghost use Rattle.int_decide.specs.Sizes.{extent, SystemBelow};
ghost use Rattle.int_decide.specs.WithoutCuts.{IsUncutOf};

use crate::accepting::accepted;
use crate::deciding::decide;
use crate::meeting::is_met;
use crate::proposing::pivots_for;
use crate::types::{Answer, DecideFault, Uncut};
use crate::values::{first_broken, numerators};
use farkas_check::Node;
use frac::Frac;
use lin_rows::{Row, System, is_tight, tighten};
use simplex_rows::{Found, Parts, try_solve};
use std::alloc::{AllocError, Global};

/// Whether Decide without cuts refutes a system over the columns below `columns`: a refutation without cuts that
/// `farkas_check::check` accepts, or that Decide finds none within the numbers that fit. Rows without groups are refuted exactly
/// where no rational point meets them, so any such point refuses; the rest is answered by `decide`. `Err` is want of memory.
pub fn decide_uncut(alloc: Global, system: &System, columns: u32) -> Result<Uncut, AllocError>
    requires below { SystemBelow columns system.now }
    // row numbers and counts of cases have 32 bits
    requires numbered { extent system.now < 2 ^ 32 }
    ensures { IfOk result (IsUncutOf columns system.now) }
{
    match of_rows(alloc, system, columns)? {
        Some(found) => Ok(found),
        None => of_decide(alloc, system, columns),
    }
}

/// What Decide answers.
fn of_decide(alloc: Global, system: &System, columns: u32) -> Result<Uncut, AllocError>
    requires below { SystemBelow columns system.now }
    requires numbered { extent system.now < 2 ^ 32 }
    ensures { IfOk result (IsUncutOf columns system.now) }
{
    match decide(alloc, system, columns, 0) {
        Ok(Answer::Refuted(refutation)) => Ok(Uncut::Refuted(refutation)),
        Ok(Answer::Whole(point)) => Ok(Uncut::Met(point)),
        Err(DecideFault::Gap) | Err(DecideFault::Past) => Ok(Uncut::Unrefuted),
        Err(DecideFault::Memory) => Err(AllocError),
    }
}

/// What a simplex finds out, where the system has no groups and what it proposes is right.
fn of_rows(alloc: Global, system: &System, columns: u32) -> Result<Option<Uncut>, AllocError>
    requires { SystemBelow columns system.now }
    ensures { IfOk result (λ o. IfSome o (IsUncutOf columns system.now)) }
{
    if !system.groups.is_empty() {
        return Ok(None);
    }
    if are_tight(&system.rows) {
        return of_tight_rows(alloc, system, &system.rows, columns);
    }
    let rows = tight_rows(alloc, &system.rows)?;
    of_tight_rows(alloc, system, &rows, columns)
}

/// Whether each row is seen to be its own tightened row.
fn are_tight(rows: &[Row]) -> bool
    ensures same { IsTrue result → map tightened rows.now ≡ rows.now }
    ensures valid { IsTrue result → AllByRecursion IsRow rows.now }
{
    for row in rows {
        if !is_tight(row) {
            return false;
        }
    }
    true
}

/// Tight forms of the rows.
fn tight_rows(alloc: Global, rows: &[Row]) -> Result<Vec<Row>, AllocError>
    ensures value { IfOk result (λ v. v.items ≡ map tightened rows.now) }
    ensures valid { IfOk result (λ v. AllByRecursion IsRow v.items) }
{
    let mut tight = Vec::with_capacity(alloc, rows.len())?;
    for row in rows {
        tight.push(tighten(alloc, row)?)?;
    }
    Ok(tight)
}

/// The same over the rows of the system, tightened.
fn of_tight_rows(
    alloc: Global,
    system: &System,
    rows: &[Row],
    columns: u32,
) -> Result<Option<Uncut>, AllocError>
    requires below { SystemBelow columns system.now }
    requires alone { groups_of system.now ≡ [] }
    requires tight { rows.now ≡ map tightened (rows_of system.now) }
    requires valid { AllByRecursion IsRow rows.now }
    ensures { IfOk result (λ o. IfSome o (IsUncutOf columns system.now)) }
{
    let Some(pivots) = pivots_for(rows, columns) else {
        return Ok(None);
    };
    match try_solve(alloc, rows, columns, pivots)? {
        None => Ok(None),
        Some(Found::Refuted(parts)) => of_parts(alloc, system, columns, parts),
        Some(Found::Point(values)) => of_point(alloc, system, rows, columns, &values),
    }
}

/// The leaf with these parts, where it refutes the system.
fn of_parts(
    alloc: Global,
    system: &System,
    columns: u32,
    parts: Parts,
) -> Result<Option<Uncut>, AllocError>
    ensures { IfOk result (λ o. IfSome o (IsUncutOf columns system.now)) }
{
    let mut nodes = Vec::new(alloc);
    nodes.push(Node::Leaf(parts))?;
    match accepted(alloc, system, 0, nodes)? {
        Some(refutation) => Ok(Some(Uncut::Refuted(refutation))),
        None => Ok(None),
    }
}

/// That the system is not refuted, where a point with these values is seen to meet its tight rows.
fn of_point(
    alloc: Global,
    system: &System,
    rows: &[Row],
    columns: u32,
    values: &[Frac],
) -> Result<Option<Uncut>, AllocError>
    requires below { SystemBelow columns system.now }
    requires alone { groups_of system.now ≡ [] }
    requires tight { rows.now ≡ map tightened (rows_of system.now) }
    requires valid { AllByRecursion IsRow rows.now }
    ensures { IfOk result (λ o. IfSome o (IsUncutOf columns system.now)) }
{
    if !is_met(alloc, rows, columns, values)? {
        return Ok(None);
    }
    match first_broken(values) {
        Some(_) => Ok(Some(Uncut::Unrefuted)),
        None => Ok(Some(Uncut::Met(numerators(alloc, values)?))),
    }
}
