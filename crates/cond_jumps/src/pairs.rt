//! Both lists of a condition, that of the wanted value and that of the other, put together from those of its parts.

ghost use Rattle.std.specs.Prelude.{◌≡◌, ◌+◌, ◌++◌, Bool, IfOk};
ghost use Rattle.cond_jumps.specs.Conjunctions.{Plan, Then, With};
ghost use Rattle.cond_jumps.specs.Conjs.{conjunctions};
ghost use Rattle.cond_jumps.specs.Ties.JoinView.{each_moved, helpers_before, helpers_by};
ghost use Rattle.cond_jumps.specs.ListView.{asked};
ghost use Rattle.cond_jumps.specs.Ties.PairView.{ArePlanLists, crossed};
ghost use Rattle.cond_jumps.specs.Moving.{IsEvenPlan};

use crate::conj::Conj;
use crate::joining;
use crate::joining::{behind, with};
use crate::shapes::Shape;
use crate::sums::joined;
use std::alloc::{AllocError, Global};

/// The list where a condition has the wanted value, and that where it has the other value, which is empty unless it was
/// asked for.
#[derive(Drop)]
pub struct Lists {
    pub wanted: Vec<Conj>,
    pub other: Vec<Conj>,
}

/// How many helpers are numbered before those of the second operand's lists: those of the only member of the list of the first
/// operand to which they are joined; none where it has not exactly one, or where they are joined to both.
pub fn helpers_before(shape: Shape, a: &Lists) -> u32
    ensures { result ≡ helpers_by shape a.now }
{
    match shape {
        Shape::Both(_, _) => joining::helpers_before(a.wanted.as_slice()),
        Shape::Over(_, _) => joining::helpers_before(a.other.as_slice()),
        Shape::Alike(_) | Shape::Sums => 0,
    }
}

/// One of the first operand with one of the second; and else the first operand's other one, and then one of the first with the
/// second's other one.
fn both_lists(alloc: Global, base: u32, both: bool, a: Lists, b: Lists) -> Result<Lists, AllocError>
    ensures { (p s q r : Plan) → IsEvenPlan base q → IsEvenPlan base r → ArePlanLists p (asked both s) base a →
        ArePlanLists q (asked both r) (base + helpers_before a.wanted.items) b →
        IfOk result (ArePlanLists (With p q) (asked both (Then s (With p r))) base) }
{
    let wanted = behind(alloc, base, a.wanted.as_slice(), b.wanted)?;
    if !both {
        return Ok(Lists {
            wanted,
            other: Vec::new(alloc),
        });
    }
    let missed = behind(alloc, base, a.wanted.as_slice(), b.other)?;
    Ok(Lists {
        wanted,
        other: joined(a.other, missed)?,
    })
}

/// One of the first operand, and then its other one with one of the second; and else its other one with the second's other one.
fn over_lists(alloc: Global, base: u32, both: bool, a: Lists, b: Lists) -> Result<Lists, AllocError>
    ensures { (p s q r : Plan) → IsEvenPlan base q → IsEvenPlan base r → ArePlanLists p s base a →
        ArePlanLists q (asked both r) (base + helpers_before a.other.items) b →
        IfOk result (ArePlanLists (Then p (With s q)) (asked both (With s r)) base) }
{
    let missed = behind(alloc, base, a.other.as_slice(), b.wanted)?;
    let wanted = joined(a.wanted, missed)?;
    if !both {
        return Ok(Lists {
            wanted,
            other: Vec::new(alloc),
        });
    }
    Ok(Lists {
        wanted,
        other: behind(alloc, base, a.other.as_slice(), b.other)?,
    })
}

/// One of the first operand with one of the second, and then its other one with another one.
fn crossed(
    alloc: Global,
    base: u32,
    a: &Lists,
    first: &[Conj],
    second: &[Conj],
) -> Result<Vec<Conj>, AllocError>
    ensures { IfOk result (λ v. conjunctions v.items ≡
        each_moved base (conjunctions a.now.wanted.items) (conjunctions first.now) ++ each_moved base (conjunctions a.now.other.items) (conjunctions second.now)) }
{
    let hit = with(alloc, base, a.wanted.as_slice(), first)?;
    let miss = with(alloc, base, a.other.as_slice(), second)?;
    joined(hit, miss)
}

/// Both operands have one truth value, or they differ.
fn alike_lists(
    alloc: Global,
    base: u32,
    both: bool,
    a: &Lists,
    b: &Lists,
) -> Result<Lists, AllocError>
    ensures { (p s q r : Plan) → IsEvenPlan base q → IsEvenPlan base r → ArePlanLists p s base a.now → ArePlanLists q r base b.now →
        IfOk result (ArePlanLists (crossed p s q r) (asked both (crossed p s r q)) base) }
{
    let wanted = crossed(alloc, base, a, b.wanted.as_slice(), b.other.as_slice())?;
    if !both {
        return Ok(Lists {
            wanted,
            other: Vec::new(alloc),
        });
    }
    Ok(Lists {
        wanted,
        other: crossed(alloc, base, a, b.other.as_slice(), b.wanted.as_slice())?,
    })
}

/// Both lists of an operation of two truth values, from those of its operands, the second's numbered as [`helpers_before`] says.
pub fn together(
    alloc: Global,
    base: u32,
    both: bool,
    shape: Shape,
    a: Lists,
    b: Lists,
) -> Result<Lists, AllocError>
    requires { shape ≡ Shape.Sums → ⊥ }
    ensures both { (x y : Bool) → shape ≡ Shape.Both x y → (p s q r : Plan) → IsEvenPlan base q → IsEvenPlan base r → ArePlanLists p (asked both s) base a → ArePlanLists q (asked both r) (base + helpers_by shape a) b →
        IfOk result (ArePlanLists (With p q) (asked both (Then s (With p r))) base) }
    ensures over { (x y : Bool) → shape ≡ Shape.Over x y → (p s q r : Plan) → IsEvenPlan base q → IsEvenPlan base r → ArePlanLists p s base a → ArePlanLists q (asked both r) (base + helpers_by shape a) b →
        IfOk result (ArePlanLists (Then p (With s q)) (asked both (With s r)) base) }
    ensures alike { (same : Bool) → shape ≡ Shape.Alike same → (p s q r : Plan) → IsEvenPlan base q → IsEvenPlan base r → ArePlanLists p s base a → ArePlanLists q r (base + helpers_by shape a) b →
        IfOk result (ArePlanLists (crossed p s q r) (asked both (crossed p s r q)) base) }
{
    match shape {
        Shape::Both(_, _) => both_lists(alloc, base, both, a, b),
        Shape::Over(_, _) => over_lists(alloc, base, both, a, b),
        Shape::Alike(_) => alike_lists(alloc, base, both, &a, &b),
        Shape::Sums => unreachable!(),
    }
}
