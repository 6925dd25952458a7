ghost use Rattle.std.specs.Prelude.{◌≡◌};
ghost use Rattle.frac.specs.Fractions.{IsFraction};

use std::marker::Model;

/// A number would not fit: its magnitude would be above 2^127-1.
#[derive(Clone, Copy, Debug, PartialEq, Eq)]
pub struct Past;

/// A fraction in lowest terms, with a positive denominator. Both parts fit.
#[derive(Clone, Copy, Debug)]
pub struct Frac {
    numerator: i128,
    denominator: i128,
}

impl Model for Frac {
    ghost use Rattle.frac.specs.Fractions.{Fraction, IsFraction};

    ghost Value = { Fraction };

    ghost view = { λ a. record { num = a.numerator; den = a.denominator } };

    ghost invariant = { λ a. IsFraction (record { num = a.numerator; den = a.denominator }) };

    ghost inverse = { λ f. record { numerator = f.num; denominator = f.den } };
}

impl Frac {
    ghost use Rattle.frac.specs.Fractions.{IsFraction};

    /// The fraction of two parts that are in lowest terms.
    pub(crate) fn new(numerator: i128, denominator: i128) -> Self
        requires { IsFraction (record { num = numerator; den = denominator }) }
        ensures { result ≡ record { num = numerator; den = denominator } }
    {
        Frac {
            numerator,
            denominator,
        }
    }

    /// The numerator and the denominator.
    pub(crate) fn parts(&self) -> (i128, i128)
        ensures numerator { result.0 ≡ self.now.num }
        ensures denominator { result.1 ≡ self.now.den }
        ensures valid { IsFraction self.now }
    {
        (self.numerator, self.denominator)
    }
}

/// The numerator in lowest terms.
pub fn num(a: &Frac) -> i128
    ensures value { result ≡ a.now.num }
    ensures valid { IsFraction a.now }
{
    a.numerator
}

/// The denominator in lowest terms, which is positive.
pub fn den(a: &Frac) -> i128
    ensures value { result ≡ a.now.den }
    ensures valid { IsFraction a.now }
{
    a.denominator
}
