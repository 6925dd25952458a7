ghost use Rattle.std.specs.Prelude.{◌≡◌, ◌≤◌, ◌<◌, ◌↔◌, ℕ, ℤ, Err, IfOk, OnOk, MatchOption, length, take};
ghost use Rattle.math_facts.specs.Terms.{coefficient, dot};
ghost use Rattle.lin_rows.specs.Rows.{AscendsFrom, IsRow, Stands, Holds};
ghost use Rattle.lin_rows.specs.Sums.{row_of, SumsFit};
ghost use Rattle.lin_rows.specs.Ties.Making.{AreSummed, TermsFit};
ghost use Rattle.lin_rows.specs.Systems.{groups_of, members_of, rows_of};

use crate::merging::merged;
use crate::systems::System;
use crate::types::{Col, Row, RowFault, RowKind, Terms};
use std::alloc::{AllocError, Global};

/// The row of these terms. The coefficients of a column that stands in several terms are added up.
/// Its time is linear in the number of terms for each stretch of ascending columns.
pub fn row(
    alloc: Global,
    terms: &[(Col, i128)],
    kind: RowKind,
    bound: i128,
) -> Result<Row, RowFault>
    ensures value { IfOk result (λ r. r ≡ row_of terms.now kind bound) }
    ensures coefficients { IfOk result (λ r. (c : ℕ) → coefficient c r.terms ≡ coefficient c terms.now) }
    ensures holds { IfOk result (λ r. (point : ℕ → ℤ) → Holds point r ↔ Stands kind (dot point terms.now) bound) }
    ensures valid { IfOk result IsRow }
    ensures fits { OnOk result (SumsFit terms.now bound) }
    ensures past { result ≡ Err RowFault.Past → SumsFit terms.now bound → ⊥ }
{
    if bound == i128::MIN {
        return Err(RowFault::Past);
    }
    let Some(sum) = added_up(alloc, terms)? else {
        return Err(RowFault::Past);
    };
    Ok(Row::new(sum, kind, bound))
}

/// The terms added up, or `None` where a term or a running sum would not fit.
fn added_up(alloc: Global, terms: &[(Col, i128)]) -> Result<Option<Terms>, AllocError>
    ensures { IfOk result (λ o. MatchOption o (TermsFit terms.now → ⊥) (λ sum. AreSummed terms.now sum.items)) }
{
    let mut sum = Terms::new(alloc);
    let mut left = terms;
    while !left.is_empty() {
        let (front, rest) = left.split_at(ascending_len(left));
        let Some(next) = merged(alloc, sum.as_slice(), 1, front)? else {
            return Ok(None);
        };
        sum = next;
        left = rest;
    }
    Ok(Some(sum))
}

/// How many terms in front ascend by column.
#[tactic(auto, using(crate::proofs::MakingLemmas::AscendsFrom_more))]
fn ascending_len(terms: &[(Col, i128)]) -> usize
    requires { 0 < length terms.now }
    ensures some { 0 < result }
    ensures within { result ≤ length terms.now }
    ensures ascends { AscendsFrom 0 (take result terms.now) }
{
    let mut end = 1;
    while end < terms.len() && terms[end - 1].0 < terms[end].0 {
        end += 1;
    }
    end
}

/// The system of these rows and groups.
pub fn system(rows: Vec<Row>, groups: Vec<Vec<System>>) -> System
    ensures rows { rows_of result ≡ rows.items }
    ensures groups { groups_of result ≡ members_of groups.items }
{
    System { rows, groups }
}
