ghost use Rattle.std.specs.Prelude.{◌≡◌, ℕ, ℤ, ◌+ℤ◌, ◌*ℤ◌, Err, IfOk, OnOk};
ghost use Rattle.math_facts.specs.Terms.{coefficient};
ghost use Rattle.lin_rows.specs.Rows.{IsRow, Holds};
ghost use Rattle.lin_rows.specs.Sums.{scaled_sum, sum_kind, ScaledFits, CanScale};

use crate::merging::merged;
use crate::numbers::plus_times;
use crate::types::{Row, RowFault, RowKind};
use std::alloc::Global;

/// `a + m*b`.
pub fn add_scaled(alloc: Global, a: &Row, m: i128, b: &Row) -> Result<Row, RowFault>
    requires { CanScale m b.now.kind }
    ensures value { IfOk result (λ r. r ≡ scaled_sum a.now m b.now) }
    ensures coefficients { IfOk result (λ r. (c : ℕ) →
        coefficient c r.terms ≡ coefficient c a.now.terms +ℤ (m *ℤ coefficient c b.now.terms)) }
    ensures holds { IfOk result (λ r. (point : ℕ → ℤ) → Holds point a.now → Holds point b.now → Holds point r) }
    ensures valid { IfOk result IsRow }
    ensures fits { OnOk result (ScaledFits a.now m b.now) }
    ensures past { result ≡ Err RowFault.Past → ScaledFits a.now m b.now → ⊥ }
{
    let Some(bound) = plus_times(a.bound(), m, b.bound()) else {
        return Err(RowFault::Past);
    };
    let Some(terms) = merged(alloc, a.terms(), m, b.terms())? else {
        return Err(RowFault::Past);
    };
    Ok(Row::new(terms, sum_kind(a.kind(), b.kind()), bound))
}

/// The kind of a sum.
fn sum_kind(a: RowKind, b: RowKind) -> RowKind
    ensures { result ≡ sum_kind a b }
{
    match (a, b) {
        (RowKind::Eq, RowKind::Eq) => RowKind::Eq,
        _ => RowKind::Le,
    }
}
