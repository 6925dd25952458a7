//! The rank at a point of the ranking system.

ghost use Rattle.std.specs.Prelude.{◌≡◌, ◌+◌, ◌≤◌, ◌<◌, ◌^◌, ◌++◌, ◌∷◌, [], pos, neg_ℤ, None, Ok, IfOk, IfSome, SomeIff, length, map};
ghost use Rattle.std.specs.List.{AllByRecursion};
ghost use Rattle.math_facts.specs.Fits.{Fits};
ghost use Rattle.math_facts.specs.Terms.{dot, opposite, IsBelow};
ghost use Rattle.lin_rows.specs.Rows.{IsCoefficient};
ghost use Rattle.lin_rows.specs.Sums.{summed, row_of, SumsFit};
ghost use Rattle.lin_rows.specs.Points.{point_of, DotFits};
ghost use Rattle.lin_rows.specs.Tightening.{content};
ghost use Rattle.farkas_check.specs.Nodes.{leaf};
ghost use Rattle.rank_lasso.specs.LassoTurns.Made.{plain_turn, CanBeRanked};
ghost use Rattle.rank_lasso.specs.LassoTurns.Claims.{at_versions};
ghost use Rattle.rank_lasso.specs.RankingSystem.RankingSystem.{weighted, taken_by};
ghost use Rattle.rank_lasso.specs.RankingSystem.Scaled.{IsRankAt, RankAtFits};

use crate::lasso_turns::MadeTurn;
use crate::ranking_system::system::bounds_of;
use farkas_check::{Node, Refutation, tree};
use letter_acts::frame_rows::fitting_row;
use lin_rows::{Col, Row, RowKind, sum_at};
use math_facts::greatest_divisor;
use std::alloc::{AllocError, Global};

/// A linear form, its bound, and the refutations that show that each turn lowers it and that it is at least the bound before each.
#[derive(Drop)]
pub struct LinearRank {
    /// The columns of the frame, ascending, each with its coefficient, which is not 0.
    pub terms: Vec<(u32, i128)>,
    pub bound: i128,
    pub falls: Refutation,
    pub bounded: Refutation,
}

/// The rank that whole values of the unknowns of the ranking system give, for these rows of the turn, with a leaf for each of its two
/// claims; or none, where its bound, or a product or a running sum that makes it, does not fit.
pub fn rank_at(
    alloc: Global,
    turn: &MadeTurn,
    tight: &[Row],
    numerators: &[i128],
) -> Result<Option<LinearRank>, AllocError>
    requires ranked { CanBeRanked turn.now }
    requires counted { length numerators.now ≡ length tight.now + length tight.now + turn.now.width }
    requires room { length tight.now + length tight.now + turn.now.width < 2 ^ 32 }
    requires fits { AllByRecursion Fits numerators.now }
    ensures value { IfOk result (λ o. IfSome o (IsRankAt (plain_turn turn.now) turn.now.width tight.now (point_of numerators.now))) }
    ensures past { result ≡ Ok None → RankAtFits (plain_turn turn.now) tight.now (point_of numerators.now) → ⊥ }
{
    let count = tight.len();
    let Some(bound) = bound_of(alloc, tight, &numerators[count..count + count])? else {
        return Ok(None);
    };
    let terms = terms_of(alloc, &numerators[count + count..])?;
    let fall = fall_divisor(alloc, &turn.here, &terms)?;
    let falls = leaf(alloc, &numerators[..count], fall)?;
    let bounded = leaf(alloc, &numerators[count..count + count], divisor(&terms))?;
    Ok(Some(LinearRank {
        terms,
        bound,
        falls,
        bounded,
    }))
}

/// What the bounds of the rows, taken so often, add up to, with the other sign; or none, where a product or a running sum does not fit.
fn bound_of(alloc: Global, tight: &[Row], multipliers: &[i128]) -> Result<Option<i128>, AllocError>
    requires counted { length multipliers.now ≡ length tight.now }
    requires room { length tight.now ≤ 2 ^ 32 }
    ensures value { IfOk result (λ o. SomeIff o (DotFits (point_of multipliers.now) (pos 0) (weighted 0 (map (λ r. r.bound) tight.now)))
        (neg_ℤ (dot (point_of multipliers.now) (weighted 0 (map (λ r. r.bound) tight.now))))) }
    ensures fits { IfOk result (λ o. IfSome o Fits) }
{
    let bounds = bounds_of(alloc, tight)?;
    match sum_at(&bounds, multipliers) {
        Some(sum) => Ok(Some(-sum)),
        None => Ok(None),
    }
}

/// The numbers that are not 0, each with its place.
fn terms_of(alloc: Global, numbers: &[i128]) -> Result<Vec<(Col, i128)>, AllocError>
    requires { length numbers.now ≤ 2 ^ 32 }
    ensures { IfOk result (λ v. v.items ≡ summed (weighted 0 numbers.now)) }
{
    let mut terms = Vec::new(alloc);
    for (i, number) in numbers.iter().enumerate() {
        if *number != 0 {
            terms.push((i as u32, *number))?;
        }
    }
    Ok(terms)
}

/// The row that says that the rank does not fall over a turn that has these versions behind it. The versions before it are the first
/// columns.
fn fall_row(alloc: Global, after: &[Col], terms: &[(Col, i128)]) -> Result<Row, AllocError>
    requires within { IsBelow (length after.now) terms.now }
    requires fits { SumsFit (terms.now ++ opposite (at_versions after.now terms.now)) (pos 0) }
    ensures { IfOk result (λ r. r ≡ row_of (terms.now ++ opposite (at_versions after.now terms.now)) RowKind.Le (pos 0)) }
{
    let mut given = Vec::from_slice(alloc, terms)?;
    for (column, coefficient) in terms {
        given.push((after[*column as usize], -*coefficient))?;
    }
    fitting_row(alloc, &given, RowKind::Le, 0)
}

/// The greatest common divisor of its coefficients, and 1 where there is none.
fn fall_divisor(alloc: Global, after: &[Col], terms: &[(Col, i128)]) -> Result<i128, AllocError>
    requires within { IsBelow (length after.now) terms.now }
    requires fits { SumsFit (terms.now ++ opposite (at_versions after.now terms.now)) (pos 0) }
    ensures { IfOk result (λ d. d ≡ pos (taken_by (content (row_of (terms.now ++ opposite (at_versions after.now terms.now)) RowKind.Le (pos 0)).terms))) }
{
    let row = fall_row(alloc, after, terms)?;
    Ok(divisor(row.terms()))
}

/// The greatest common divisor of the coefficients, and 1 where there is none.
fn divisor(terms: &[(Col, i128)]) -> i128
    requires { AllByRecursion IsCoefficient terms.now }
    ensures { result ≡ pos (taken_by (content terms.now)) }
{
    let mut shared = 0;
    for term in terms {
        shared = greatest_divisor(shared, term.1.unsigned_abs());
    }
    if shared == 0 { 1 } else { shared as i128 }
}

/// The leaf that takes each row as often as its multiplier says, and the row behind them so often.
fn leaf(alloc: Global, multipliers: &[i128], last: i128) -> Result<Refutation, AllocError>
    requires { length multipliers.now < 2 ^ 32 }
    ensures { IfOk result (λ r. r ≡ leaf (summed (weighted 0 multipliers.now) ++ (length multipliers.now, last) ∷ []) ∷ []) }
{
    let mut parts = terms_of(alloc, multipliers)?;
    parts.push((multipliers.len() as u32, last))?;
    let mut nodes = Vec::new(alloc);
    nodes.push(Node::Leaf(parts))?;
    match tree(nodes) {
        Some(proof) => Ok(proof),
        None => unreachable!(),
    }
}
