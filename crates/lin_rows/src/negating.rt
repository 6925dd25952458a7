ghost use Rattle.std.specs.Prelude.{◌≡◌, ◌↔◌, ℕ, ℤ, Err, IfOk, OnOk};
ghost use Rattle.math_facts.specs.Fits.{Fits};
ghost use Rattle.math_facts.specs.Terms.{opposite};
ghost use Rattle.std.specs.List.{AllByRecursion};
ghost use Rattle.lin_rows.specs.Rows.{IsCoefficient, IsRow, Holds};
ghost use Rattle.lin_rows.specs.Negating.{below_opposite, negated};

use crate::numbers::below_opposite;
use crate::types::{Col, Row, RowFault, RowKind, Terms};
use std::alloc::{AllocError, Global};

/// The row `-a.x <= -b-1` of a row `a.x <= b`. It holds at exactly the whole points where the row does not.
pub fn negate(alloc: Global, row: &Row) -> Result<Row, RowFault>
    requires { row.now.kind ≡ RowKind.Le }
    ensures value { IfOk result (λ r. r ≡ negated row.now) }
    ensures holds { IfOk result (λ r. (point : ℕ → ℤ) → Holds point r ↔ (Holds point row.now → ⊥)) }
    ensures valid { IfOk result IsRow }
    ensures fits { OnOk result (Fits (below_opposite row.now.bound)) }
    ensures past { result ≡ Err RowFault.Past → Fits (below_opposite row.now.bound) → ⊥ }
{
    let Some(bound) = below_opposite(row.bound()) else {
        return Err(RowFault::Past);
    };
    let terms = opposite(alloc, row.terms())?;
    Ok(Row::new(terms, RowKind::Le, bound))
}

/// Each term with the other sign.
fn opposite(alloc: Global, terms: &[(Col, i128)]) -> Result<Terms, AllocError>
    requires { AllByRecursion IsCoefficient terms.now }
    ensures { IfOk result (λ others. others.items ≡ opposite terms.now) }
{
    let mut others = Terms::new(alloc);
    for (column, coefficient) in terms {
        others.push((*column, -*coefficient))?;
    }
    Ok(others)
}
