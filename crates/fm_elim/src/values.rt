//! The value of an eliminated column, where the columns before it have values.

ghost use Rattle.std.specs.Prelude.{◌≡◌, ◌≢◌, pos, None, IfSome};
ghost use Rattle.std.specs.List.{AllByRecursion};
ghost use Rattle.math_facts.specs.Fits.{Fits};
ghost use Rattle.frac.specs.Fractions.{IsFraction};
ghost use Rattle.lin_rows.specs.Rows.{IsCoefficient};
ghost use Rattle.fm_elim.specs.Answers.{Exactly, Gives, GivesEnd, aside_of};
ghost use Rattle.fm_elim.specs.Derivations.{at};
ghost use Rattle.fm_elim.specs.Values.{value_at, with_term, WithTermFits, sum_of, SumOfFits, end_of, EndFits, raised, RaisedFits, lowered_end, LoweredFits, lower_end, upper_end, value_of, ValueFits};
ghost use Rattle.fm_elim.specs.Ties.Climb.{SetsColumn};
ghost use Rattle.fm_elim.specs.Folds.{FoldFits};

use crate::fractions::{greater_end, less_end, minus, nearest, over, plus, times, whole};
use crate::numbers::coefficient;
use crate::types::{Aside, Derived, ElimFault};
use frac::Frac;

/// The value of a column, or 0 past the last.
fn value_at(values: &[Frac], column: u32) -> Result<Frac, ElimFault>
    requires { AllByRecursion IsFraction values.now }
    ensures { Exactly result (Gives (value_at values.now column)) (Unit {0}) }
{
    match values.get(column as usize) {
        Some(value) => Ok(*value),
        None => whole(0),
    }
}

/// A sum with the next term added, unless it is that of the column.
fn with_term(column: u32, values: &[Frac], sum: Frac, term: &(u32, i128)) -> Result<Frac, ElimFault>
    requires values { AllByRecursion IsFraction values.now }
    requires sum { IsFraction sum }
    requires term { Fits term.now.1 }
    ensures { Exactly result (Gives (with_term column values.now sum term.now)) (WithTermFits column values.now sum term.now) }
{
    if term.0 == column {
        return Ok(sum);
    }
    let factor = whole(term.1)?;
    let value = value_at(values, term.0)?;
    let product = times(&factor, &value)?;
    plus(&sum, &product)
}

/// The sum of the products of all terms but the column's, in ascending order.
#[tactic(auto, using(crate::proofs::FoldLaws::fold_more, crate::proofs::FoldLaws::fits_more, crate::proofs::FoldLaws::fits_step))]
fn sum_of(column: u32, values: &[Frac], terms: &[(u32, i128)]) -> Result<Frac, ElimFault>
    requires values { AllByRecursion IsFraction values.now }
    requires terms { AllByRecursion IsCoefficient terms.now }
    ensures { Exactly result (Gives (sum_of column values.now terms.now)) (SumOfFits column values.now terms.now) }
{
    let mut sum = whole(0)?;
    for term in terms {
        sum = with_term(column, values, sum, term)?;
    }
    Ok(sum)
}

/// The end of the column's interval that a row with the column sets.
fn end_of(column: u32, values: &[Frac], row: &Derived) -> Result<Frac, ElimFault>
    requires values { AllByRecursion IsFraction values.now }
    requires nonzero { at column row.now ≢ pos 0 }
    ensures { Exactly result (Gives (end_of column values.now row.now)) (EndFits column values.now row.now) }
{
    let terms = row.row().terms();
    let sum = sum_of(column, values, terms)?;
    let bound = whole(row.row().bound())?;
    let rest = minus(&bound, &sum)?;
    let factor = whole(coefficient(row.row(), column))?;
    over(&rest, &factor)
}

/// The greater of the best lower end so far and that of the next row.
fn raised(
    column: u32,
    values: &[Frac],
    best: Option<Frac>,
    row: &Derived,
) -> Result<Option<Frac>, ElimFault>
    requires values { AllByRecursion IsFraction values.now }
    requires best { IfSome best IsFraction }
    requires nonzero { at column row.now ≢ pos 0 }
    ensures { Exactly result (GivesEnd (raised column values.now best row.now)) (RaisedFits column values.now best row.now) }
{
    let end = end_of(column, values, row)?;
    let next = greater_end(best, end)?;
    Ok(Some(next))
}

/// The less of the best upper end so far and that of the next row.
fn lowered(
    column: u32,
    values: &[Frac],
    best: Option<Frac>,
    row: &Derived,
) -> Result<Option<Frac>, ElimFault>
    requires values { AllByRecursion IsFraction values.now }
    requires best { IfSome best IsFraction }
    requires nonzero { at column row.now ≢ pos 0 }
    ensures { Exactly result (GivesEnd (lowered_end column values.now best row.now)) (LoweredFits column values.now best row.now) }
{
    let end = end_of(column, values, row)?;
    let next = less_end(best, end)?;
    Ok(Some(next))
}

/// The greatest end that lower bounds set.
#[tactic(auto, using(crate::proofs::FoldLaws::fold_more, crate::proofs::FoldLaws::fits_more, crate::proofs::FoldLaws::fits_step))]
fn lower_end(column: u32, values: &[Frac], rows: &[Derived]) -> Result<Option<Frac>, ElimFault>
    requires values { AllByRecursion IsFraction values.now }
    requires nonzero { AllByRecursion (λ r. at column r ≢ pos 0) rows.now }
    ensures { Exactly result (GivesEnd (lower_end column values.now rows.now))
        (FoldFits (raised column values.now) (RaisedFits column values.now) None rows.now) }
{
    let mut best = None;
    for row in rows {
        best = raised(column, values, best, row)?;
    }
    Ok(best)
}

/// The least end that upper bounds set.
#[tactic(auto, using(crate::proofs::FoldLaws::fold_more, crate::proofs::FoldLaws::fits_more, crate::proofs::FoldLaws::fits_step))]
fn upper_end(column: u32, values: &[Frac], rows: &[Derived]) -> Result<Option<Frac>, ElimFault>
    requires values { AllByRecursion IsFraction values.now }
    requires nonzero { AllByRecursion (λ r. at column r ≢ pos 0) rows.now }
    ensures { Exactly result (GivesEnd (upper_end column values.now rows.now))
        (FoldFits (lowered_end column values.now) (LoweredFits column values.now) None rows.now) }
{
    let mut best = None;
    for row in rows {
        best = lowered(column, values, best, row)?;
    }
    Ok(best)
}

/// The value of a column: what the equality forces, or the whole number nearest 0 in the interval, or its lower end.
pub fn value_of(column: u32, values: &[Frac], aside: &Aside) -> Result<Frac, ElimFault>
    requires values { AllByRecursion IsFraction values.now }
    requires set { SetsColumn column (aside_of aside.now) }
    ensures { Exactly result (Gives (value_of column values.now (aside_of aside.now))) (ValueFits column values.now (aside_of aside.now)) }
{
    match aside {
        Aside::Forced(equality) => end_of(column, values, equality),
        Aside::Bounded(lowers, uppers) => {
            let lower = lower_end(column, values, lowers)?;
            let upper = upper_end(column, values, uppers)?;
            nearest(lower, upper)
        }
    }
}
