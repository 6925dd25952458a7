//! What Decide without cuts finds of a half alone, and of a source where all is denied but what its letter says: that is known of
//! each triple with the half.

ghost use Rattle.std.specs.Prelude.{◌≡◌, ◌++◌, [], ◌∷◌, ℕ, ℤ, List, IfOk, IsTrue, map};
ghost use Rattle.lin_rows.specs.Combinations.{Contradicts};
ghost use Rattle.lin_rows.specs.Systems.{Meets, rows_of};
ghost use Rattle.lin_rows.specs.Tightening.{tightened};
ghost use Rattle.farkas_check.specs.Nodes.{leaf};
ghost use Rattle.int_decide.specs.WithoutCuts.{IsNotRefuted};
ghost use Rattle.triple_rows.specs.Systems.{PlainSystem};
ghost use Rattle.hoare_check.specs.Halves.{IsHalf, MayBeHalf};

use crate::halves::{Half, decided, is_bare, joined};
use crate::leaves::{Leaf, leaf_in};
use crate::meeting::is_met_by_one;
use crate::points::Points;
use farkas_check::Refutation;
use lin_rows::{Row, copied_rows};
use std::alloc::{AllocError, Global};

/// The half of a target with what Decide without cuts finds of it alone. Points that are found are added.
pub fn tried_alone(
    alloc: Global,
    half: Option<Half>,
    points: &mut Points,
) -> Result<Option<Half>, AllocError>
    ensures { IfOk result (λ found. (n : ℕ) (p : PlainSystem) → MayBeHalf n p half → MayBeHalf n p found) }
{
    match half {
        Some(half) => Ok(Some(alone(alloc, half, points)?)),
        None => Ok(None),
    }
}

fn alone(alloc: Global, half: Half, points: &mut Points) -> Result<Half, AllocError>
    ensures { IfOk result (λ found. (n : ℕ) (p : PlainSystem) → IsHalf n p half → IsHalf n p found) }
{
    if half.false_row.is_some() {
        return Ok(half);
    }
    if is_met_alone(alloc, &half, points)? {
        return Ok(opened(half));
    }
    match decided(alloc, &half.system, half.columns, points)? {
        Some(refutation) => with_leaf(alloc, half, &refutation, &[]),
        None => Ok(opened(half)),
    }
}

/// Whether one of the points, or a guessed one, which is added, is seen to meet a half.
fn is_met_alone(alloc: Global, half: &Half, points: &mut Points) -> Result<bool, AllocError>
    ensures { IfOk result (λ yes. IsTrue yes → (point : ℕ → ℤ) × Meets point half.now.system) }
{
    if is_met_by_one(&half.system, points.list()) {
        return Ok(true);
    }
    points.guess(alloc, &half.system, half.columns)
}

/// The half, of which it is known that Decide without cuts does not refute it alone.
fn opened(mut half: Half) -> Half
    ensures { (n : ℕ) (p : PlainSystem) → IsHalf n p half → IsNotRefuted n half.system → IsHalf n p result }
{
    half.is_open = true;
    half
}

/// The half with a refutation of its rows and others behind them, if that is one leaf.
fn with_leaf(
    alloc: Global,
    mut half: Half,
    refutation: &Refutation,
    others: &[Row],
) -> Result<Half, AllocError>
    requires { (parts : List (ℕ × ℤ)) → refutation.now ≡ leaf parts ∷ [] → Contradicts (map tightened (rows_of half.system ++ others.now)) parts }
    ensures { IfOk result (λ found. (n : ℕ) (p : PlainSystem) → IsHalf n p half → IsHalf n p found) }
{
    if let Some(parts) = leaf_in(alloc, refutation)? {
        let others = copied_rows(alloc, others)?;
        half.leaf = Some(Leaf { parts, others });
    }
    Ok(half)
}

/// The half of a source with what Decide without cuts finds of it and the half of the target false, which has this number: where it
/// refutes them, each target follows. Points that are found are added.
pub fn tried_with(
    alloc: Global,
    half: Option<Half>,
    falsum: Option<&Half>,
    number: usize,
    points: &mut Points,
) -> Result<Option<Half>, AllocError>
    ensures { IfOk result (λ found. (n : ℕ) (p : PlainSystem) → MayBeHalf n p half → MayBeHalf n p found) }
{
    match half {
        Some(half) => match falsum {
            Some(falsum) => Ok(Some(barred(alloc, half, falsum, number, points)?)),
            None => Ok(Some(half)),
        },
        None => Ok(None),
    }
}

fn barred(
    alloc: Global,
    half: Half,
    falsum: &Half,
    number: usize,
    points: &mut Points,
) -> Result<Half, AllocError>
    ensures { IfOk result (λ found. (n : ℕ) (p : PlainSystem) → IsHalf n p half → IsHalf n p found) }
{
    if is_known(&half, falsum) || points.refuse(&half.system, &falsum.system, number)? {
        return Ok(half);
    }
    let system = joined(&half.system, &falsum.system)?;
    match decided(alloc, &system, half.columns, points)? {
        Some(refutation) => with_leaf(alloc, half, &refutation, &falsum.system.rows),
        None => Ok(half),
    }
}

/// Whether it is known what Decide finds of a source and the target false, or it may be no leaf.
fn is_known(half: &Half, falsum: &Half) -> bool {
    half.false_row.is_some()
        || falsum.leaf.is_some()
        || is_bare(&half.system)
        || !half.system.groups.is_empty()
        || !falsum.system.groups.is_empty()
}
