//! One column is eliminated.

ghost use Rattle.std.specs.Prelude.{◌≡◌, ◌<◌, ◌^◌, ◌/◌, pos, ◌*ℤ◌, neg_ℤ, unsigned_abs, [], ◌∷◌, ◌++◌, map, not, None, Some, Err, IsTrue, IfOk, OnOk, OnErr, MatchOption};
ghost use Rattle.std.specs.List.{AllByRecursion, flat_map};
ghost use Rattle.math_facts.specs.Fits.{Fits};
ghost use Rattle.lin_rows.specs.declared.types.RowKind.TheVariants.{Eq};
ghost use Rattle.fm_elim.specs.Answers.{Exactly, eliminated_of};
ghost use Rattle.fm_elim.specs.Folds.{first, others};
ghost use Rattle.fm_elim.specs.Derivations.{has, is_upper, is_lower};
ghost use Rattle.fm_elim.specs.Columns.{forced, is_pivot, cleared, ClearedFits, both_halves, BothHalvesFit, halves, HalvesFit, AreSides, pair, PairFits, pairs, PairsFit, elimination_step, EliminationStepFits, paired_off, CombinedFits};

use crate::derivations::{nothing, plus_times};
use crate::numbers::coefficient;
use crate::rows::{first_pivot, has, is_lower, is_upper};
use crate::types::{Aside, Derived, ElimFault, Eliminated};
use lin_rows::RowKind;
use math_facts::greatest_divisor;
use std::alloc::{AllocError, Global};

// ---- by an equality

/// Makes the row one without the column, by an equality in which the column has the coefficient 1 or -1.
fn clear(alloc: Global, column: u32, equality: &Derived, row: &mut Derived) -> Result<(), ElimFault>
    requires { IsTrue (is_pivot column equality.now) }
    ensures { Exactly result (λ _. row.new ≡ cleared column equality.now row.old) (ClearedFits column equality.now row.old) }
{
    if !has(row, column) {
        return Ok(());
    }
    let m = clearing(
        coefficient(row.row(), column),
        coefficient(equality.row(), column),
    );
    *row = plus_times(alloc, row, m, equality)?;
    Ok(())
}

/// The multiplier of an equality with the coefficient 1 or -1 that takes a coefficient away.
fn clearing(coefficient: i128, unit: i128) -> i128
    requires fits { Fits coefficient }
    requires unit { unsigned_abs unit ≡ 1 }
    ensures { result ≡ neg_ℤ (coefficient *ℤ unit) }
{
    if unit == 1 { -coefficient } else { coefficient }
}

/// Each row without the column. The rows that lack it are not touched.
fn all_cleared(
    alloc: Global,
    column: u32,
    equality: &Derived,
    mut rows: Vec<Derived>,
) -> Result<Vec<Derived>, ElimFault>
    requires { IsTrue (is_pivot column equality.now) }
    ensures { Exactly result (λ list. list.items ≡ map (cleared column equality.now) rows.items)
        (AllByRecursion (ClearedFits column equality.now) rows.items) }
{
    for row in rows.iter_mut() {
        clear(alloc, column, equality, row)?;
    }
    Ok(rows)
}

/// The column is eliminated by an equality.
fn by_equality(
    alloc: Global,
    column: u32,
    equality: Derived,
    rows: Vec<Derived>,
) -> Result<Eliminated, ElimFault>
    requires { IsTrue (is_pivot column equality) }
    ensures { Exactly result (λ e. eliminated_of e ≡ record { rows = map (cleared column equality) rows.items; aside = forced equality })
        (AllByRecursion (ClearedFits column equality) rows.items) }
{
    let rows = all_cleared(alloc, column, &equality, rows)?;
    Ok(Eliminated {
        rows,
        aside: Aside::Forced(equality),
    })
}

// ---- by pairs of inequalities

/// The two inequalities that an equality says, at the end of the list.
fn push_both_halves(alloc: Global, row: &Derived, list: &mut Vec<Derived>) -> Result<(), ElimFault>
    requires { row.now.row.kind ≡ Eq }
    ensures { Exactly result (λ _. list.new.items ≡ list.old.items ++ both_halves row.now) (BothHalvesFit row.now) }
{
    let none = nothing(alloc)?;
    list.push(plus_times(alloc, &none, 1, row)?)?;
    list.push(plus_times(alloc, &none, -1, row)?)?;
    Ok(())
}

/// The row at the end of the list, or two inequalities if it is an equality with the column.
fn push_halved(
    alloc: Global,
    column: u32,
    row: Derived,
    list: &mut Vec<Derived>,
) -> Result<(), ElimFault>
    ensures { Exactly result (λ _. list.new.items ≡ list.old.items ++ halves column row) (HalvesFit column row) }
{
    if row.row().kind() == RowKind::Eq && has(&row, column) {
        push_both_halves(alloc, &row, list)
    } else {
        list.push(row)?;
        Ok(())
    }
}

/// The rows, with two inequalities for each equality that has the column.
fn all_halved(alloc: Global, column: u32, rows: Vec<Derived>) -> Result<Vec<Derived>, ElimFault>
    ensures { Exactly result (λ list. list.items ≡ flat_map (halves column) rows.items) (AllByRecursion (HalvesFit column) rows.items) }
{
    let mut list = Vec::with_capacity(alloc, rows.len())?;
    for row in rows {
        push_halved(alloc, column, row, &mut list)?;
    }
    Ok(list)
}

/// Rows without a column, and those that bound it from below and from above.
#[derive(Drop)]
struct Sides {
    without: Vec<Derived>,
    lowers: Vec<Derived>,
    uppers: Vec<Derived>,
}

/// Puts a row on its side.
fn put(column: u32, row: Derived, sides: &mut Sides) -> Result<(), ElimFault>
    ensures sides { OnOk result (AreSides column (row ∷ [])
        sides.old.without.items sides.old.lowers.items sides.old.uppers.items
        sides.new.without.items sides.new.lowers.items sides.new.uppers.items) }
    ensures memory { OnErr result (result ≡ Err ElimFault.Memory) }
{
    if is_upper(&row, column) {
        sides.uppers.push(row)?;
    } else if is_lower(&row, column) {
        sides.lowers.push(row)?;
    } else {
        sides.without.push(row)?;
    }
    Ok(())
}

/// The rows on their sides.
fn sorted(alloc: Global, column: u32, rows: Vec<Derived>) -> Result<Sides, ElimFault>
    ensures sides { IfOk result (λ s. AreSides column rows.items [] [] [] s.without.items s.lowers.items s.uppers.items) }
    ensures memory { OnErr result (result ≡ Err ElimFault.Memory) }
{
    let mut sides = Sides {
        without: Vec::new(alloc),
        lowers: Vec::new(alloc),
        uppers: Vec::new(alloc),
    };
    for row in rows {
        put(column, row, &mut sides)?;
    }
    Ok(sides)
}

/// A magnitude divided by one of its divisors.
fn share(magnitude: u128, divisor: u128) -> i128
    requires positive { 0 < divisor }
    requires fits { magnitude < 2 ^ 127 }
    ensures { result ≡ pos (magnitude / divisor) }
{
    (magnitude / divisor) as i128
}

/// The sum of an upper and a lower bound in which the column cancels.
fn pair(alloc: Global, column: u32, upper: &Derived, lower: &Derived) -> Result<Derived, ElimFault>
    requires { IsTrue (is_upper column upper.now) }
    ensures { Exactly result (λ r. r ≡ pair column upper.now lower.now) (PairFits column upper.now lower.now) }
{
    let above = coefficient(upper.row(), column).unsigned_abs();
    let below = coefficient(lower.row(), column).unsigned_abs();
    let divisor = greatest_divisor(above, below);
    let none = nothing(alloc)?;
    let first = plus_times(alloc, &none, share(below, divisor), upper)?;
    plus_times(alloc, &first, share(above, divisor), lower)
}

/// The pairs of one upper bound with each lower bound, at the end of the rows.
fn push_pairs(
    alloc: Global,
    column: u32,
    upper: &Derived,
    lowers: &[Derived],
    rows: &mut Vec<Derived>,
) -> Result<(), ElimFault>
    requires { IsTrue (is_upper column upper.now) }
    ensures { Exactly result (λ _. rows.new.items ≡ rows.old.items ++ map (pair column upper.now) lowers.now)
        (AllByRecursion (PairFits column upper.now) lowers.now) }
{
    for lower in lowers {
        rows.push(pair(alloc, column, upper, lower)?)?;
    }
    Ok(())
}

/// All pairs, at the end of the rows.
fn push_all_pairs(
    alloc: Global,
    column: u32,
    uppers: &[Derived],
    lowers: &[Derived],
    rows: &mut Vec<Derived>,
) -> Result<(), ElimFault>
    requires { AllByRecursion (λ u. IsTrue (is_upper column u)) uppers.now }
    ensures { Exactly result (λ _. rows.new.items ≡ rows.old.items ++ pairs column uppers.now lowers.now)
        (PairsFit column uppers.now lowers.now) }
{
    for upper in uppers {
        push_pairs(alloc, column, upper, lowers, rows)?;
    }
    Ok(())
}

/// The column is eliminated by pairs of inequalities.
fn by_pairs(alloc: Global, column: u32, rows: Vec<Derived>) -> Result<Eliminated, ElimFault>
    ensures { Exactly result (λ e. eliminated_of e ≡ paired_off column rows.items) (CombinedFits column rows.items) }
{
    let sides = sorted(alloc, column, rows)?;
    let mut rows = sides.without;
    push_all_pairs(alloc, column, &sides.uppers, &sides.lowers, &mut rows)?;
    Ok(Eliminated {
        rows,
        aside: Aside::Bounded(sides.lowers, sides.uppers),
    })
}

// ---- the step

/// Takes the first equality in which the column has the coefficient 1 or -1 out of the rows.
fn take_pivot(column: u32, rows: &mut Vec<Derived>) -> Option<Derived>
    ensures { MatchOption result
        ((first (is_pivot column) rows.old.items ≡ None) × (rows.new.items ≡ rows.old.items))
        (λ e. (first (is_pivot column) rows.old.items ≡ Some e) × (rows.new.items ≡ others (is_pivot column) rows.old.items)) }
{
    match first_pivot(rows, column) {
        Some(place) => Some(rows.remove(place)),
        None => None,
    }
}

/// The column is eliminated.
pub fn step(alloc: Global, column: u32, mut rows: Vec<Derived>) -> Result<Eliminated, ElimFault>
    ensures { Exactly result (λ e. eliminated_of e ≡ elimination_step column rows.items) (EliminationStepFits column rows.items) }
{
    match take_pivot(column, &mut rows) {
        Some(equality) => by_equality(alloc, column, equality, rows),
        None => by_pairs(alloc, column, all_halved(alloc, column, rows)?),
    }
}
