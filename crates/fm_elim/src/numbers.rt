//! Coefficients of rows.

ghost use Rattle.std.specs.Prelude.{◌≡◌};
ghost use Rattle.math_facts.specs.Fits.{Fits};
ghost use Rattle.math_facts.specs.Terms.{coefficient};

use lin_rows::Row;

/// The row's coefficient of a column. The terms are looked at from the last on: while columns are eliminated from the last
/// to the first, the column is nearly always that of the last term, or past it.
pub fn coefficient(row: &Row, column: u32) -> i128
    ensures value { result ≡ coefficient column row.now.terms }
    ensures fits { Fits result }
{
    let terms = row.terms();
    let mut left = terms.len();
    while left > 0 {
        let term = terms[left - 1];
        if term.0 == column {
            return term.1;
        }
        if term.0 < column {
            return 0;
        }
        left -= 1;
    }
    0
}
