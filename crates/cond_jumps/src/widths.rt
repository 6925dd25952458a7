//! How many members the lists of a condition have.

ghost use Rattle.std.specs.Prelude.{◌≡◌, ◌≤◌, ℕ, Bool, not, IfOk, length};
ghost use Rattle.typed_tree.specs.TypedView.{expression};
ghost use Rattle.cond_jumps.specs.Conjunctions.{Plan, Then, With};
ghost use Rattle.cond_jumps.specs.Comparisons.{literal};
ghost use Rattle.cond_jumps.specs.Forms.{Linears};
ghost use Rattle.cond_jumps.specs.Frames.{frame_environment, column_place_in, plan_at};
ghost use Rattle.cond_jumps.specs.ListView.{asked, sums_plan};
ghost use Rattle.cond_jumps.specs.Ties.PairView.{crossed, AreWidths, AreWidthAnswers};
ghost use Rattle.cond_jumps.specs.Moving.{IsEvenPlan};
ghost use Rattle.cond_jumps.specs.Paths.{paths};
ghost use Rattle.cond_jumps.specs.Ties.WidthView.{IsWidth, IsWidthAnswer, IsLimited};

use crate::columns::place;
use crate::fault::JumpFault;
use crate::linear::read_at;
use crate::lists::is_truth;
use crate::shapes::Shape;
use boogie_tree::{Column, Op};
use letter_acts::Frame;
use std::alloc::AllocError;
use typed_tree::{TExpr, TExprKind};

/// How many members the list has where a condition has the wanted value, and that where it has the other value, which is
/// not counted unless it was asked for.
#[derive(Clone, Copy)]
pub struct Counts {
    pub wanted: u32,
    pub other: u32,
}

/// So many members, unless these are more than 4,096.
fn limited(members: u64) -> Result<u32, JumpFault>
    ensures { IsLimited members result }
{
    if members > 4096 {
        return Err(JumpFault::TooWide);
    }
    Ok(members as u32)
}

/// The members of one list, and behind it another.
pub fn width_then(first: u32, second: u32) -> Result<u32, JumpFault>
    ensures { (p q : Plan) → (n : ℕ) → IsWidth p n first → IsWidth q n second → IsWidthAnswer (Then p q) n result }
{
    limited(u64::from(first) + u64::from(second))
}

/// The members of one list with another.
pub fn width_with(first: u32, second: u32) -> Result<u32, JumpFault>
    ensures { (p q : Plan) → (n : ℕ) → IsEvenPlan n q → IsWidth p n first → IsWidth q n second → IsWidthAnswer (With p q) n result }
{
    let Some(members) = u64::from(first).checked_mul(u64::from(second)) else {
        return Err(JumpFault::TooWide);
    };
    limited(members)
}

/// The members of the list of a comparison of two whole numbers.
fn sums_width(op: Op, want: bool) -> u32
    ensures { (x y : Linears) → (n : ℕ) → IsWidth (sums_plan op x y want) n result }
{
    match (op, want) {
        (Op::Eq, false) | (Op::Ne, true) => 2,
        (Op::Eq, true) | (Op::Ne, false) => 1,
        (Op::Lt | Op::Le | Op::Gt | Op::Ge, _) => 1,
        _ => 0,
    }
}

/// The members of both lists of a comparison.
fn sums_widths(op: Op, want: bool, both: bool) -> Counts
    ensures { (x y : Linears) → (n : ℕ) → AreWidths (sums_plan op x y want) (asked both (sums_plan op x y (not want))) n result }
{
    Counts {
        wanted: sums_width(op, want),
        other: if both { sums_width(op, !want) } else { 0 },
    }
}

/// The members of both lists of a literal.
fn literal_widths(value: bool, want: bool, both: bool) -> Counts
    ensures { (n : ℕ) → AreWidths (literal value want) (asked both (literal value (not want))) n result }
{
    Counts {
        wanted: if value == want { 1 } else { 0 },
        other: if both && value != want { 1 } else { 0 },
    }
}

/// The members of both lists of a truth value in a column.
fn column_widths(frame: &Frame, column: Column, both: bool) -> Result<Counts, AllocError>
    ensures { IfOk result (λ w. (want : Bool) → (n : ℕ) →
        AreWidths (plan_at (column_place_in frame.now.columns.items column) want) (asked both (plan_at (column_place_in frame.now.columns.items column) (not want))) n w) }
{
    match place(frame, column)? {
        None => Ok(Counts {
            wanted: 0,
            other: 0,
        }),
        Some(_) => Ok(Counts {
            wanted: 1,
            other: if both { 1 } else { 0 },
        }),
    }
}

/// One of the first operand with one of the second; and else the first operand's other one, and then one of the first with the
/// second's other one.
fn both_widths(both: bool, a: Counts, b: Counts) -> Result<Counts, JumpFault>
    ensures { (n : ℕ) → (p s q r : Plan) → IsEvenPlan n q → IsEvenPlan n r → AreWidths p (asked both s) n a → AreWidths q (asked both r) n b →
        AreWidthAnswers (With p q) (asked both (Then s (With p r))) n result }
{
    let wanted = width_with(a.wanted, b.wanted)?;
    if !both {
        return Ok(Counts { wanted, other: 0 });
    }
    let behind = width_with(a.wanted, b.other)?;
    let other = width_then(a.other, behind)?;
    Ok(Counts { wanted, other })
}

/// One of the first operand, and then its other one with one of the second; and else its other one with the second's other one.
fn over_widths(both: bool, a: Counts, b: Counts) -> Result<Counts, JumpFault>
    ensures { (n : ℕ) → (p s q r : Plan) → IsEvenPlan n q → IsEvenPlan n r → AreWidths p s n a → AreWidths q (asked both r) n b →
        AreWidthAnswers (Then p (With s q)) (asked both (With s r)) n result }
{
    let behind = width_with(a.other, b.wanted)?;
    let wanted = width_then(a.wanted, behind)?;
    if !both {
        return Ok(Counts { wanted, other: 0 });
    }
    let other = width_with(a.other, b.other)?;
    Ok(Counts { wanted, other })
}

/// One of the first operand with one of the second, and then its other one with another one.
fn crossed(a: Counts, first: u32, second: u32) -> Result<u32, JumpFault>
    ensures { (n : ℕ) → (p s q r : Plan) → IsEvenPlan n q → IsEvenPlan n r → AreWidths p s n a → IsWidth q n first → IsWidth r n second →
        IsWidthAnswer (crossed p s q r) n result }
{
    let hit = width_with(a.wanted, first)?;
    let miss = width_with(a.other, second)?;
    width_then(hit, miss)
}

/// Both operands have one truth value, or they differ.
fn alike_widths(both: bool, a: Counts, b: Counts) -> Result<Counts, JumpFault>
    ensures { (n : ℕ) → (p s q r : Plan) → IsEvenPlan n q → IsEvenPlan n r → AreWidths p s n a → AreWidths q r n b →
        AreWidthAnswers (crossed p s q r) (asked both (crossed p s r q)) n result }
{
    let wanted = crossed(a, b.wanted, b.other)?;
    if !both {
        return Ok(Counts { wanted, other: 0 });
    }
    let other = crossed(a, b.other, b.wanted)?;
    Ok(Counts { wanted, other })
}

/// The members of both lists of an operation of two truth values, from those of its operands.
fn together(both: bool, shape: Shape, a: Counts, b: Counts) -> Result<Counts, JumpFault>
    requires { shape ≡ Shape.Sums → ⊥ }
    ensures both { (x y : Bool) → shape ≡ Shape.Both x y → (n : ℕ) → (p s q r : Plan) → IsEvenPlan n q → IsEvenPlan n r → AreWidths p (asked both s) n a → AreWidths q (asked both r) n b →
        AreWidthAnswers (With p q) (asked both (Then s (With p r))) n result }
    ensures over { (x y : Bool) → shape ≡ Shape.Over x y → (n : ℕ) → (p s q r : Plan) → IsEvenPlan n q → IsEvenPlan n r → AreWidths p s n a → AreWidths q (asked both r) n b →
        AreWidthAnswers (Then p (With s q)) (asked both (With s r)) n result }
    ensures alike { (same : Bool) → shape ≡ Shape.Alike same → (n : ℕ) → (p s q r : Plan) → IsEvenPlan n q → IsEvenPlan n r → AreWidths p s n a → AreWidths q r n b →
        AreWidthAnswers (crossed p s q r) (asked both (crossed p s r q)) n result }
{
    match shape {
        Shape::Both(_, _) => both_widths(both, a, b),
        Shape::Over(_, _) => over_widths(both, a, b),
        Shape::Alike(_) => alike_widths(both, a, b),
        Shape::Sums => unreachable!(),
    }
}

/// The members of the list of a condition, and where it is asked for also of that of the other value; `TooWide` where one of
/// them, or one that is used for a part of it, has more than 4,096.
pub fn widths(
    frame: &Frame,
    old: bool,
    expr: &TExpr,
    want: bool,
    both: bool,
) -> Result<Counts, JumpFault>
    ensures { (n : ℕ) → length frame.now.columns.items ≤ n →
        AreWidthAnswers (paths (frame_environment frame.now.columns.items) old (expression expr.now) want)
        (asked both (paths (frame_environment frame.now.columns.items) old (expression expr.now) (not want))) n result }
{
    match &expr.kind {
        TExprKind::Lit(_) | TExprKind::Neg(_) => Ok(Counts {
            wanted: 0,
            other: 0,
        }),
        TExprKind::Truth(value) => Ok(literal_widths(*value, want, both)),
        TExprKind::Var(column) => Ok(column_widths(frame, read_at(old, *column), both)?),
        TExprKind::Old(inner) => widths(frame, true, inner, want, both),
        TExprKind::Not(inner) => widths(frame, old, inner, !want, both),
        TExprKind::Bin(op, left, right) => {
            let truths = is_truth(frame, old, left)?;
            let shape = Shape::of(*op, truths, want);
            match shape {
                Shape::Sums => Ok(sums_widths(*op, want, both)),
                _ => {
                    let needs = shape.needs(both);
                    let a = widths(frame, old, left, needs.first, needs.first_other)?;
                    let b = widths(frame, old, right, needs.second, needs.second_other)?;
                    together(both, shape, a, b)
                }
            }
        }
    }
}
