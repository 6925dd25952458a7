//! The rows of letters: with their columns renamed, columns that are equal, and the bounds of booleans.

ghost use Rattle.std.specs.Prelude.{◌≡◌, ◌+◌, ◌<◌, ◌≤◌, ◌^◌, ◌++◌, ◌∷◌, [], IfOk, OnOk, map, length, slice_index};
ghost use Rattle.std.specs.List.{AllByRecursion};
ghost use Rattle.math_facts.specs.Terms.{IsBelow};
ghost use Rattle.lin_rows.specs.Rows.{IsRow};
ghost use Rattle.lin_rows.specs.Sums.{row_of, SumsFit};
ghost use Rattle.letter_acts.specs.FrameRows.Rows.{renamed, equal_row, bounds_of, bounds, NamesDiffer, RowsAreNamed};

use boogie_tree::Ty;
use lin_rows::{Col, Row, RowFault, RowKind, row};
use smallvec::SmallVec;
use std::alloc::{AllocError, Global};

/// The row of terms whose sums fit.
pub fn fitting_row(
    alloc: Global,
    terms: &[(Col, i128)],
    kind: RowKind,
    bound: i128,
) -> Result<Row, AllocError>
    requires { SumsFit terms.now bound }
    ensures value { IfOk result (λ r. r ≡ row_of terms.now kind bound) }
    ensures valid { IfOk result IsRow }
{
    match row(alloc, terms, kind, bound) {
        Ok(made) => Ok(made),
        Err(RowFault::Past) => unreachable!(),
        Err(RowFault::Memory) => Err(AllocError),
    }
}

/// The row with its columns renamed: the column c gets the name at its place c.
pub fn renamed_row(alloc: Global, row: &Row, names: &[Col]) -> Result<Row, AllocError>
    requires below { IsBelow (length names.now) row.now.terms }
    requires differ { NamesDiffer names.now row.now }
    ensures value { IfOk result (λ r. r ≡ renamed (slice_index names.now) row.now) }
    ensures valid { IfOk result IsRow }
{
    let mut terms: SmallVec<(Col, i128), 4> = SmallVec::new(alloc);
    for (column, coefficient) in row.terms() {
        terms.push((names[*column as usize], *coefficient))?;
    }
    fitting_row(alloc, terms.as_slice(), row.kind(), row.bound())
}

/// The rows with their columns renamed.
pub fn renamed_rows(alloc: Global, rows: &[Row], names: &[Col]) -> Result<Vec<Row>, AllocError>
    requires { RowsAreNamed names.now rows.now }
    ensures value { IfOk result (λ v. v.items ≡ map (renamed (slice_index names.now)) rows.now) }
    ensures valid { IfOk result (λ v. AllByRecursion IsRow v.items) }
{
    let mut made = Vec::with_capacity(alloc, rows.len())?;
    for row in rows {
        made.push(renamed_row(alloc, row, names)?)?;
    }
    Ok(made)
}

/// The row that says that column a equals column b.
pub fn equal_row(alloc: Global, a: Col, b: Col) -> Result<Row, AllocError>
    ensures value { IfOk result (λ r. r ≡ equal_row a b) }
    ensures valid { IfOk result IsRow }
{
    fitting_row(alloc, &[(a, 1), (b, -1)], RowKind::Eq, 0)
}

/// Adds the row that says that a column times a number is at most a bound.
fn add_bound(
    alloc: Global,
    column: Col,
    coefficient: i128,
    bound: i128,
    made: &mut Vec<Row>,
) -> Result<(), AllocError>
    requires fits { SumsFit ((column, coefficient) ∷ []) bound }
    requires valid { AllByRecursion IsRow made.old.items }
    ensures value { OnOk result (made.new.items ≡ made.old.items ++ row_of ((column, coefficient) ∷ []) RowKind.Le bound ∷ []) }
    ensures valid { AllByRecursion IsRow made.new.items }
{
    made.push(fitting_row(alloc, &[(column, coefficient)], RowKind::Le, bound)?)?;
    Ok(())
}

/// Adds the bounds of a column, if it is a boolean one.
fn add_bounds(
    alloc: Global,
    column: Col,
    ty: Option<Ty>,
    made: &mut Vec<Row>,
) -> Result<(), AllocError>
    requires { AllByRecursion IsRow made.old.items }
    ensures value { OnOk result (made.new.items ≡ made.old.items ++ bounds_of column ty) }
    ensures valid { AllByRecursion IsRow made.new.items }
{
    match ty {
        Some(Ty::Bool) => {
            add_bound(alloc, column, -1, 0, made)?;
            add_bound(alloc, column, 1, 1, made)
        }
        Some(Ty::Int) | None => Ok(()),
    }
}

/// The bounds of the boolean ones among the columns from a number on, which have these types.
pub fn bound_rows(alloc: Global, first: usize, types: &[Option<Ty>]) -> Result<Vec<Row>, AllocError>
    requires { first + length types.now ≤ 2 ^ 32 }
    ensures value { IfOk result (λ v. v.items ≡ bounds first types.now) }
    ensures valid { IfOk result (λ v. AllByRecursion IsRow v.items) }
{
    let mut made = Vec::new(alloc);
    for i in 0..types.len() {
        add_bounds(alloc, (first + i) as u32, types[i], &mut made)?;
    }
    Ok(made)
}
