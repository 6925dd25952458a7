ghost use Rattle.std.specs.Prelude.{◌≡◌, Bool, true};

use boogie_tree::Op;

/// How the list of an operation is put together from those of its operands.
#[derive(Clone, Copy)]
pub enum Shape {
    /// One of the first operand with one of the second.
    Both(bool, bool),
    /// One of the first operand, and then the other one with one of the second.
    Over(bool, bool),
    /// The operands have one truth value, or they differ.
    Alike(bool),
    /// A comparison of two sums.
    Sums,
}

/// Which lists of its operands an operation of two truth values needs: the wanted value of each operand, and whether the list
/// of its other value is needed, too.
#[derive(Clone, Copy)]
pub struct Needs {
    pub first: bool,
    pub first_other: bool,
    pub second: bool,
    pub second_other: bool,
}

impl Shape {
    ghost use Rattle.cond_jumps.specs.ListView.{shape_of};

    /// The shape of an operation with the wanted truth value; `truths` says whether the operands are truth values.
    pub fn of(op: Op, truths: bool, want: bool) -> Self
        ensures { result ≡ shape_of op truths want }
    {
        match (op, truths, want) {
            (Op::Iff, _, _) => Shape::Alike(want),
            (Op::Implies, _, true) => Shape::Over(false, true),
            (Op::Implies, _, false) => Shape::Both(true, false),
            (Op::And, _, true) => Shape::Both(true, true),
            (Op::And, _, false) => Shape::Over(false, false),
            (Op::Or, _, true) => Shape::Over(true, true),
            (Op::Or, _, false) => Shape::Both(false, false),
            (Op::Eq, true, _) => Shape::Alike(want),
            (Op::Ne, true, _) => Shape::Alike(!want),
            _ => Shape::Sums,
        }
    }
    /// Which lists of its operands the operation needs, whose list of the other value is asked for, too, or not.
    pub fn needs(self, both: bool) -> Needs
        requires { self ≡ Shape.Sums → ⊥ }
        ensures both { (x y : Bool) → self ≡ Shape.Both x y → result ≡ record { first = x; first_other = both; second = y; second_other = both } }
        ensures over { (x y : Bool) → self ≡ Shape.Over x y → result ≡ record { first = x; first_other = true; second = y; second_other = both } }
        ensures alike { (same : Bool) → self ≡ Shape.Alike same → result ≡ record { first = true; first_other = true; second = same; second_other = true } }
    {
        match self {
            Shape::Both(first, second) => Needs {
                first,
                first_other: both,
                second,
                second_other: both,
            },
            Shape::Over(first, second) => Needs {
                first,
                first_other: true,
                second,
                second_other: both,
            },
            Shape::Alike(same) => Needs {
                first: true,
                first_other: true,
                second: same,
                second_other: true,
            },
            Shape::Sums => unreachable!(),
        }
    }
}
