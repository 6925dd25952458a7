//! Ends by the products of a word.

ghost use Rattle.std.specs.Prelude.{◌≡◌};
ghost use Rattle.race_rounds.specs.Rounds.{is_by_products};

use race_core::Cause;

/// Whether nothing is known of a word for its products.
pub(crate) fn is_by_products(cause: Cause) -> bool
    ensures { result ≡ is_by_products cause }
{
    match cause {
        Cause::Rounds | Cause::Whole | Cause::Number => false,
        Cause::Product => true,
    }
}
