//! What the definitions are worth.

ghost use Rattle.typed_tree.specs.Laws.{BrokenIsNotKept, FormIsValue, TruthValues, DivAndMod};

/// An expression with a broken rule does not keep the rules.
pub fn broken_rules_are_broken()
    ensures { BrokenIsNotKept }
{}

/// The form of a whole-number expression without `div` and `mod` has its value, read now or at the procedure's entry.
pub fn form_is_value()
    ensures { FormIsValue }
{}

/// A boolean expression is 0 or 1 where its boolean variables are.
pub fn truth_values()
    ensures { TruthValues }
{}

/// The values of `div` and `mod` are the Euclidean quotient and remainder.
pub fn div_and_mod()
    ensures { DivAndMod }
{}
