//! Exact fractions in lowest terms, whose parts have a magnitude of at most 2^127-1. Each call says exactly when a number
//! would not fit, and no call takes memory.
#![tactic(auto)]

mod make;
mod numbers;
mod products;
mod sums;
mod types;
mod whole;

ghost use Rattle.std.specs.Prelude.{◌≡◌};
ghost use Rattle.frac.specs.Fractions.{Fraction, IsLowest, IsRatio};

pub use make::of;
pub use products::{div, mul};
pub use sums::{add, cmp, sub};
pub use types::{Frac, Past, den, num};
pub use whole::{floor, is_whole};

/// Two fractions in lowest terms that have one value are the same (Euclid).
pub fn lowest_terms_are_one()
    ensures { (f g : Fraction) → IsLowest f → IsLowest g → IsRatio f g.num g.den → f ≡ g }
{}
