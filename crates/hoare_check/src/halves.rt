//! Halves of systems: what triples with the same sources share, and what those by the same letter to the same target do. Each is
//! made once, and so is what its rows say alone. A whole point that meets two halves refuses the triple of both.

ghost use Rattle.std.specs.Prelude.{◌≡◌, ◌++◌, ◌<◌, ◌^◌, ℕ, IfOk, IfSome, IsTrue, length};
ghost use Rattle.lin_rows.specs.Systems.{rows_of};
ghost use Rattle.letter_acts.specs.Invariant.{alphabet_of};
ghost use Rattle.triple_rows.specs.Systems.{PlainSystem, PlainFits, IsSystem, both_systems};
ghost use Rattle.triple_rows.specs.Triples.{Agrees};
ghost use Rattle.letter_acts.specs.Acts.{Alphabet};
ghost use Rattle.triple_rows.specs.declared.triples.Triple.{Triple};
ghost use Rattle.hoare_check.specs.Halves.{IsFalseRow, IsSmall, IsHalf, IsJoint, MayDecide, MayRefute, IsSourceHalf, IsTargetHalf, MayFind, IsBare};

use crate::counting::{columns_of, plus};
use crate::false_rows::{false_row, leaf_of};
use crate::leaves::{Leaf, by_leaves};
use crate::points::Points;
use farkas_check::Refutation;
use int_decide::{Uncut, decide_uncut, measure};
use letter_acts::Icfg;
use lin_rows::{RowFault, System, system};
use std::alloc::{AllocError, Global};
use triple_rows::{Triple, source_system, target_system};

/// Half of a system.
#[derive(Drop)]
pub struct Half {
    /// Its rows and groups.
    pub(crate) system: System,
    /// How many columns the whole systems have.
    pub(crate) columns: u32,
    /// The number of its first row `0 <= -1`.
    pub(crate) false_row: Option<u32>,
    /// Rows of it, and of others behind them, that contradict one another.
    pub(crate) leaf: Option<Leaf>,
    /// Whether it is known that Decide without cuts does not refute it alone.
    pub(crate) is_open: bool,
}

/// Whether the columns of a system are seen to be below the count, and it has fewer than 2^32 rows and groups.
fn is_small(system: &System, columns: u32) -> bool
    ensures { IsTrue result → IsSmall columns system.now }
{
    let Some(_) = measure(system, columns) else {
        return false;
    };
    is_short(&system.rows) && is_short(&system.groups)
}

/// Whether a list has fewer than 2^32 members.
fn is_short<T>(list: &Vec<T>) -> bool
    ensures { IsTrue result → length list.now.items < 2 ^ 32 }
{
    u32::try_from(list.len()).is_ok()
}

/// The half with these rows and groups.
fn half_of(system: System, columns: u32) -> Result<Half, AllocError>
    ensures { IfOk result (λ half. (p : PlainSystem) → PlainFits p → IsSystem p system → IsHalf columns p half) }
{
    if !is_small(&system, columns) {
        return Err(AllocError);
    }
    let false_row = false_row_of(&system);
    Ok(Half {
        system,
        columns,
        false_row,
        leaf: None,
        is_open: false,
    })
}

/// The number of the first row `0 <= -1` of a system.
fn false_row_of(system: &System) -> Option<u32>
    ensures { IfSome result (IsFalseRow (rows_of system.now)) }
{
    false_row(&system.rows)
}

/// What the sources of a triple say, whose kind and scopes agree with its letter.
pub fn source_half(alloc: Global, icfg: &Icfg, triple: &Triple) -> Result<Option<Half>, AllocError>
    requires { Agrees (alphabet_of icfg.now) triple.now }
    ensures { IfOk result (IsSourceHalf (alphabet_of icfg.now) triple.now) }
{
    let Some(columns) = columns_of(icfg, triple) else {
        return Err(AllocError);
    };
    match source_system(alloc, icfg, triple) {
        Ok(system) => Ok(Some(half_of(system, columns)?)),
        Err(RowFault::Past) => Ok(None),
        Err(RowFault::Memory) => Err(AllocError),
    }
}

/// What the letter of a triple, its denied target and the bounds say.
pub fn target_half(alloc: Global, icfg: &Icfg, triple: &Triple) -> Result<Option<Half>, AllocError>
    requires { Agrees (alphabet_of icfg.now) triple.now }
    ensures { IfOk result (IsTargetHalf (alphabet_of icfg.now) triple.now) }
{
    let Some(columns) = columns_of(icfg, triple) else {
        return Err(AllocError);
    };
    match target_system(alloc, icfg, triple) {
        Ok(system) => Ok(Some(half_of(system, columns)?)),
        Err(RowFault::Past) => Ok(None),
        Err(RowFault::Memory) => Err(AllocError),
    }
}

/// A refutation without cuts of the system of a triple with these halves, which is a proof of it. `None` only where Decide does not
/// refute it so within the numbers that fit. It is not decided where one of the points meets both halves, the source at hand and the
/// target with this number; a point that Decide finds is added.
pub fn refuted_at_once(
    alloc: Global,
    source: &Option<Half>,
    target: &Option<Half>,
    number: usize,
    points: &mut Points,
) -> Result<Option<Refutation>, AllocError>
    ensures { IfOk result (λ found. (al : Alphabet) (t : Triple) → Agrees al t → IsSourceHalf al t source.now → IsTargetHalf al t target.now → MayFind al t found) }
{
    match source {
        None => Ok(None),
        Some(first) => match target {
            None => Ok(None),
            Some(second) => refuted_of_halves(alloc, first, second, number, points),
        },
    }
}

/// A refutation without cuts of the system of two halves. `None` only where Decide does not refute it so within the numbers that fit.
fn refuted_of_halves(
    alloc: Global,
    first: &Half,
    second: &Half,
    number: usize,
    points: &mut Points,
) -> Result<Option<Refutation>, AllocError>
    ensures { IfOk result (λ found. (n : ℕ) (p q : PlainSystem) → IsHalf n p first.now → IsHalf n q second.now → MayRefute n (both_systems p q) found) }
{
    if let Some(place) = false_place(first, second) {
        return Ok(Some(leaf_of(alloc, place)?));
    }
    if let Some(refutation) = by_leaves(alloc, first, second)? {
        return Ok(Some(refutation));
    }
    if second.is_open && is_bare(&first.system) {
        return Ok(None);
    }
    if points.refuse(&first.system, &second.system, number)? {
        return Ok(None);
    }
    decided_at_once(alloc, first, second, points)
}

/// Whether a system has neither rows nor groups.
pub(crate) fn is_bare(system: &System) -> bool
    ensures { IsTrue result → IsBare system.now }
{
    system.rows.is_empty() && system.groups.is_empty()
}

/// Where the rows of two halves have the row `0 <= -1`, the second's behind the first's.
fn false_place(first: &Half, second: &Half) -> Option<u32>
    ensures { IfSome result (λ k. (n : ℕ) (p q : PlainSystem) → IsHalf n p first.now → IsHalf n q second.now → IsFalseRow (rows_of first.now.system ++ rows_of second.now.system) k) }
{
    match first.false_row {
        Some(place) => Some(place),
        None => match second.false_row {
            Some(place) => plus(place, first.system.rows.len()),
            None => None,
        },
    }
}

/// What Decide without cuts finds of the system of two halves.
fn decided_at_once(
    alloc: Global,
    first: &Half,
    second: &Half,
    points: &mut Points,
) -> Result<Option<Refutation>, AllocError>
    ensures { IfOk result (λ found. (n : ℕ) (p q : PlainSystem) → IsHalf n p first.now → IsHalf n q second.now → MayRefute n (both_systems p q) found) }
{
    let system = joined(&first.system, &second.system)?;
    decided(alloc, &system, first.columns, points)
}

/// What Decide without cuts finds of a system. A point that it finds is added.
pub(crate) fn decided(
    alloc: Global,
    system: &System,
    columns: u32,
    points: &mut Points,
) -> Result<Option<Refutation>, AllocError>
    ensures { IfOk result (MayDecide columns system.now) }
{
    // A system of 2^32 rows is not decided.
    let Some(_) = measure(system, columns) else {
        return Err(AllocError);
    };
    match decide_uncut(alloc, system, columns)? {
        Uncut::Refuted(refutation) => Ok(Some(refutation)),
        Uncut::Met(point) => {
            points.add(point)?;
            Ok(None)
        }
        Uncut::Unrefuted => Ok(None),
    }
}

/// Both systems at once: the rows of the first and then those of the second, and their groups likewise.
pub(crate) fn joined(first: &System, second: &System) -> Result<System, AllocError>
    ensures rows { IfOk result (λ s. rows_of s ≡ rows_of first.now ++ rows_of second.now) }
    ensures system { IfOk result (λ s. (p q : PlainSystem) → IsSystem p first.now → IsSystem q second.now → IsSystem (both_systems p q) s) }
{
    let front = first.copy()?;
    let back = second.copy()?;
    appended(front, back)
}

/// The first system with the rows and groups of the second behind its own.
fn appended(first: System, second: System) -> Result<System, AllocError>
    ensures { IfOk result (IsJoint first second) }
{
    let System {
        mut rows,
        mut groups,
    } = first;
    let System {
        rows: mut more_rows,
        groups: mut more_groups,
    } = second;
    rows.append(&mut more_rows)?;
    groups.append(&mut more_groups)?;
    Ok(system(rows, groups))
}
