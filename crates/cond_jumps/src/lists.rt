//! The lists of conditions.

ghost use Rattle.std.specs.Prelude.{◌≡◌, ◌≤◌, IfOk, ℕ, true, false, not, length};
ghost use Rattle.typed_tree.specs.TypedView.{expression};
ghost use Rattle.cond_jumps.specs.Conjunctions.{Just, listed_plan};
ghost use Rattle.cond_jumps.specs.Conjs.{conjunctions};
ghost use Rattle.cond_jumps.specs.Comparisons.{compared, equal_sums, literal, truth_of_column};
ghost use Rattle.cond_jumps.specs.Frames.{frame_environment, column_place_in, plan_at};
ghost use Rattle.cond_jumps.specs.ListView.{IsPlanAnswer, asked, row_by, sums_plan};
ghost use Rattle.cond_jumps.specs.Ties.PairView.{ArePlanLists, ArePlanAnswers};
ghost use Rattle.cond_jumps.specs.Paths.{linear, is_truth, paths};
ghost use Rattle.typed_tree.specs.Typing.{is_some_of};

use crate::columns::place;
use crate::comparisons::{always, compared, compared_above, named};
use crate::conj::Conj;
use crate::linear::{linear, read_at};
use crate::pairs::{Lists, helpers_before, together};
use crate::refusal::Refusal;
use crate::shapes::Shape;
use crate::sums::{joined, later};
use boogie_tree::{Column, Op, Ty};
use letter_acts::Frame;
use lin_rows::RowKind;
use std::alloc::{AllocError, Global};
use typed_tree::{TExpr, TExprKind};

/// The comparison of two expressions by one row.
fn comparison(
    alloc: Global,
    frame: &Frame,
    old: bool,
    left: &TExpr,
    right: &TExpr,
    kind: RowKind,
    k: i128,
    turned: bool,
    base: u32,
) -> Result<Vec<Conj>, Refusal>
    ensures { IsPlanAnswer (Just (compared (row_by kind k turned)
        (linear (frame_environment frame.now.columns.items) old (expression left.now))
        (linear (frame_environment frame.now.columns.items) old (expression right.now)))) base result }
{
    let a = linear(alloc, frame, old, left, base)?;
    let b = linear(alloc, frame, old, right, later(base, a.helpers)?)?;
    if turned {
        compared_above(alloc, kind, k, a, b)
    } else {
        compared(alloc, kind, k, a, b)
    }
}

/// The list of a comparison of two whole numbers.
fn sums_list(
    alloc: Global,
    frame: &Frame,
    old: bool,
    op: Op,
    left: &TExpr,
    right: &TExpr,
    want: bool,
    base: u32,
) -> Result<Vec<Conj>, Refusal>
    ensures { IsPlanAnswer (sums_plan op
        (linear (frame_environment frame.now.columns.items) old (expression left.now))
        (linear (frame_environment frame.now.columns.items) old (expression right.now)) want) base result }
{
    match (op, want) {
        (Op::Lt, true) | (Op::Ge, false) => {
            comparison(alloc, frame, old, left, right, RowKind::Le, -1, false, base)
        }
        (Op::Lt, false) | (Op::Ge, true) => {
            comparison(alloc, frame, old, left, right, RowKind::Le, 0, true, base)
        }
        (Op::Le, true) | (Op::Gt, false) => {
            comparison(alloc, frame, old, left, right, RowKind::Le, 0, false, base)
        }
        (Op::Le, false) | (Op::Gt, true) => {
            comparison(alloc, frame, old, left, right, RowKind::Le, -1, true, base)
        }
        (Op::Eq, true) | (Op::Ne, false) => {
            comparison(alloc, frame, old, left, right, RowKind::Eq, 0, false, base)
        }
        (Op::Eq, false) | (Op::Ne, true) => { different(alloc, frame, old, left, right, base) }
        _ => Ok(Vec::new(alloc)),
    }
}

/// The list of two whole numbers that differ: the first is less, or the second.
fn different(
    alloc: Global,
    frame: &Frame,
    old: bool,
    left: &TExpr,
    right: &TExpr,
    base: u32,
) -> Result<Vec<Conj>, Refusal>
    ensures { IsPlanAnswer (equal_sums
        (linear (frame_environment frame.now.columns.items) old (expression left.now))
        (linear (frame_environment frame.now.columns.items) old (expression right.now)) false) base result }
{
    let less = comparison(alloc, frame, old, left, right, RowKind::Le, -1, false, base)?;
    let more = comparison(alloc, frame, old, left, right, RowKind::Le, -1, true, base)?;
    Ok(joined(less, more)?)
}

/// Both lists of a comparison of two whole numbers.
fn sums_lists(
    alloc: Global,
    frame: &Frame,
    old: bool,
    op: Op,
    left: &TExpr,
    right: &TExpr,
    want: bool,
    both: bool,
    base: u32,
) -> Result<Lists, Refusal>
    ensures { ArePlanAnswers
        (sums_plan op (linear (frame_environment frame.now.columns.items) old (expression left.now))
        (linear (frame_environment frame.now.columns.items) old (expression right.now)) want)
        (asked both (sums_plan op (linear (frame_environment frame.now.columns.items) old (expression left.now))
        (linear (frame_environment frame.now.columns.items) old (expression right.now)) (not want))) base result }
{
    let wanted = sums_list(alloc, frame, old, op, left, right, want, base)?;
    if !both {
        return Ok(Lists {
            wanted,
            other: Vec::new(alloc),
        });
    }
    let other = sums_list(alloc, frame, old, op, left, right, !want, base)?;
    Ok(Lists { wanted, other })
}

/// Whether an expression that has a type is a truth value.
pub fn is_truth(frame: &Frame, old: bool, expr: &TExpr) -> Result<bool, AllocError>
    ensures { IfOk result (λ b. b ≡ is_truth (frame_environment frame.now.columns.items) old (expression expr.now)) }
{
    match &expr.kind {
        TExprKind::Lit(_) | TExprKind::Neg(_) => Ok(false),
        TExprKind::Truth(_) | TExprKind::Not(_) => Ok(true),
        TExprKind::Var(column) => is_truth_column(frame, read_at(old, *column)),
        TExprKind::Old(inner) => is_truth(frame, true, inner),
        TExprKind::Bin(op, _, _) => Ok(!matches!(
            op,
            Op::Add | Op::Sub | Op::Mul | Op::Div | Op::Mod
        )),
    }
}

/// Whether a column stands in the frame and holds a truth value.
fn is_truth_column(frame: &Frame, column: Column) -> Result<bool, AllocError>
    ensures { IfOk result (λ b. b ≡ is_some_of Ty.Bool ((frame_environment frame.now.columns.items).type column)) }
{
    match place(frame, column)? {
        None => Ok(false),
        Some(spot) => match spot.ty {
            Ty::Int => Ok(false),
            Ty::Bool => Ok(true),
        },
    }
}

/// Both lists of a column with that place.
fn named_lists(alloc: Global, number: u32, want: bool, both: bool) -> Result<Lists, Refusal>
    ensures { (n : ℕ) → ArePlanAnswers (Just (truth_of_column number want)) (asked both (Just (truth_of_column number (not want)))) n result }
{
    let wanted = named(alloc, number, want)?;
    if !both {
        return Ok(Lists {
            wanted,
            other: Vec::new(alloc),
        });
    }
    let other = named(alloc, number, !want)?;
    Ok(Lists { wanted, other })
}

/// Both lists of a truth value in a column.
fn column_lists(
    alloc: Global,
    frame: &Frame,
    column: Column,
    want: bool,
    both: bool,
) -> Result<Lists, Refusal>
    ensures { (n : ℕ) → ArePlanAnswers (plan_at (column_place_in frame.now.columns.items column) want)
        (asked both (plan_at (column_place_in frame.now.columns.items column) (not want))) n result }
{
    match place(frame, column)? {
        None => Ok(Lists {
            wanted: Vec::new(alloc),
            other: Vec::new(alloc),
        }),
        Some(spot) => named_lists(alloc, spot.number, want, both),
    }
}

/// One empty conjunction, or none.
fn always_if(alloc: Global, holds: bool) -> Result<Vec<Conj>, AllocError>
    ensures { IfOk result (λ cs. conjunctions cs.items ≡ listed_plan (literal holds true) 0) }
{
    if holds {
        always(alloc)
    } else {
        Ok(Vec::new(alloc))
    }
}

/// Both lists of a literal.
fn literal_lists(alloc: Global, value: bool, want: bool, both: bool) -> Result<Lists, AllocError>
    ensures { (n : ℕ) → IfOk result (ArePlanLists (literal value want) (asked both (literal value (not want))) n) }
{
    Ok(Lists {
        wanted: always_if(alloc, value == want)?,
        other: always_if(alloc, both && value != want)?,
    })
}

/// The list of a condition that is read at the procedure's entry or now, and where it is asked for also that of the other
/// value; their helpers are numbered from `base` on.
pub fn lists(
    alloc: Global,
    frame: &Frame,
    old: bool,
    expr: &TExpr,
    want: bool,
    both: bool,
    base: u32,
) -> Result<Lists, Refusal>
    requires { length frame.now.columns.items ≤ base }
    ensures { ArePlanAnswers (paths (frame_environment frame.now.columns.items) old (expression expr.now) want)
        (asked both (paths (frame_environment frame.now.columns.items) old (expression expr.now) (not want))) base result }
{
    match &expr.kind {
        TExprKind::Lit(_) | TExprKind::Neg(_) => Ok(Lists {
            wanted: Vec::new(alloc),
            other: Vec::new(alloc),
        }),
        TExprKind::Truth(value) => Ok(literal_lists(alloc, *value, want, both)?),
        TExprKind::Var(column) => column_lists(alloc, frame, read_at(old, *column), want, both),
        TExprKind::Old(inner) => lists(alloc, frame, true, inner, want, both, base),
        TExprKind::Not(inner) => lists(alloc, frame, old, inner, !want, both, base),
        TExprKind::Bin(op, left, right) => {
            let truths = is_truth(frame, old, left)?;
            let shape = Shape::of(*op, truths, want);
            match shape {
                Shape::Sums => sums_lists(alloc, frame, old, *op, left, right, want, both, base),
                _ => {
                    let needs = shape.needs(both);
                    let a = lists(
                        alloc,
                        frame,
                        old,
                        left,
                        needs.first,
                        needs.first_other,
                        base,
                    )?;
                    let next = later(base, helpers_before(shape, &a))?;
                    let b = lists(
                        alloc,
                        frame,
                        old,
                        right,
                        needs.second,
                        needs.second_other,
                        next,
                    )?;
                    Ok(together(alloc, base, both, shape, a, b)?)
                }
            }
        }
    }
}
