//! What refutations of a turn show.

ghost use Rattle.std.specs.Prelude.{◌≡◌, ◌↔◌, ◌++◌, ◌∷◌, [], map, length, IfOk, IsTrue};
ghost use Rattle.std.specs.List.{AllByRecursion};
ghost use Rattle.math_facts.specs.Fits.{Fits};
ghost use Rattle.math_facts.specs.Terms.{opposite, IsBelow};
ghost use Rattle.lin_rows.specs.Rows.{IsRow};
ghost use Rattle.lin_rows.specs.Sums.{row_of, SumsFit};
ghost use Rattle.lin_rows.specs.Tightening.{tightened};
ghost use Rattle.farkas_check.specs.Refutes.{Refute};
ghost use Rattle.rank_lasso.specs.LassoTurns.Made.{plain_turn, CanBeRanked};
ghost use Rattle.rank_lasso.specs.LassoTurns.Claims.{IsFormOver, at_versions, unfallen, unbounded, RefutesTurn, RefutesWith};

use crate::lasso_turns::made::MadeTurn;
use farkas_check::{Refutation, check};
use lin_rows::{Col, Row, RowFault, RowKind, copied_rows, row, system};
use std::alloc::{AllocError, Global};

/// Whether the tree refutes the turn with the row that says that the form does not fall: a form that each turn lowers by at least 1.
pub fn shows_fall(
    alloc: Global,
    turn: &MadeTurn,
    terms: &[(u32, i128)],
    proof: &Refutation,
) -> Result<bool, AllocError>
    requires turn { CanBeRanked turn.now }
    requires form { IsFormOver turn.now.width terms.now }
    ensures { IfOk result (λ yes. IsTrue yes ↔ RefutesWith (plain_turn turn.now) (unfallen (plain_turn turn.now) terms.now) proof.now) }
{
    let given = fall_of(alloc, &turn.here, terms)?;
    refutes_with(alloc, turn, &given, 0, proof)
}

/// Whether the tree refutes the turn with the row that says that the form is below the bound before it.
pub fn shows_bound(
    alloc: Global,
    turn: &MadeTurn,
    terms: &[(u32, i128)],
    bound: i128,
    proof: &Refutation,
) -> Result<bool, AllocError>
    requires form { IsFormOver turn.now.width terms.now }
    requires bound { Fits bound }
    ensures { IfOk result (λ yes. IsTrue yes ↔ RefutesWith (plain_turn turn.now) (unbounded (plain_turn turn.now) terms.now bound) proof.now) }
{
    refutes_with(alloc, turn, terms, bound - 1, proof)
}

/// The rank before a turn less that after it, which has these versions. The versions before it are the first columns.
fn fall_of(
    alloc: Global,
    after: &[Col],
    terms: &[(u32, i128)],
) -> Result<Vec<(Col, i128)>, AllocError>
    requires within { IsBelow (length after.now) terms.now }
    requires fits { AllByRecursion (λ t. Fits t.1) terms.now }
    ensures { IfOk result (λ v. v.items ≡ terms.now ++ opposite (at_versions after.now terms.now)) }
{
    let mut given = Vec::from_slice(alloc, terms)?;
    for (column, coefficient) in terms {
        given.push((after[*column as usize], -*coefficient))?;
    }
    Ok(given)
}

/// Whether the inequality of these terms fits, and the tree refutes the turn with it.
fn refutes_with(
    alloc: Global,
    turn: &MadeTurn,
    given: &[(Col, i128)],
    bound: i128,
    proof: &Refutation,
) -> Result<bool, AllocError>
    requires { IsRow (row_of given.now RowKind.Le bound) → SumsFit given.now bound }
    ensures { IfOk result (λ yes. IsTrue yes ↔ RefutesWith (plain_turn turn.now) (row_of given.now RowKind.Le bound) proof.now) }
{
    let added = match row(alloc, given, RowKind::Le, bound) {
        Ok(made) => made,
        Err(RowFault::Past) => return Ok(false),
        Err(RowFault::Memory) => return Err(AllocError),
    };
    let mut rows = copied_rows(alloc, &turn.rows)?;
    rows.push(added)?;
    refutes(alloc, rows, proof)
}

/// Whether the tree refutes the turn: no states obey its letters.
pub fn refutes_turn(alloc: Global, turn: MadeTurn, proof: &Refutation) -> Result<bool, AllocError>
    ensures { IfOk result (λ yes. IsTrue yes ↔ RefutesTurn (plain_turn turn) proof.now) }
{
    refutes(alloc, turn.rows, proof)
}

/// Whether the tree refutes rows.
fn refutes(alloc: Global, rows: Vec<Row>, proof: &Refutation) -> Result<bool, AllocError>
    ensures { IfOk result (λ yes. IsTrue yes ↔ Refute proof.now (record { rows = map tightened rows.items; groups = [] } ∷ [])) }
{
    let whole = system(rows, Vec::new(alloc));
    check(alloc, &whole, proof)
}
