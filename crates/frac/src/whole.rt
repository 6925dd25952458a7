ghost use Rattle.std.specs.Prelude.{◌≡◌, ◌↔◌, pos, ◌+ℤ◌, ◌*ℤ◌, ◌≤ℤ◌, ◌<ℤ◌, IsTrue};
ghost use Rattle.math_facts.specs.Fits.{Fits};
ghost use Rattle.frac.specs.Fractions.{IsWhole};

use crate::types::Frac;

/// The greatest whole number that is not above the fraction.
pub fn floor(a: &Frac) -> i128
    ensures not_above { (result *ℤ a.now.den) ≤ℤ a.now.num }
    ensures greatest { a.now.num <ℤ ((result +ℤ pos 1) *ℤ a.now.den) }
    ensures fits { Fits result }
{
    let (numerator, denominator) = a.parts();
    numerator.div_euclid(denominator)
}

/// Whether the fraction is a whole number, which is where its denominator is 1.
pub fn is_whole(a: &Frac) -> bool
    ensures value { IsTrue result ↔ IsWhole a.now }
    ensures denominator { IsTrue result ↔ (a.now.den ≡ pos 1) }
{
    a.parts().1 == 1
}
