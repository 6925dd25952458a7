//! The rows of atoms over columns that are renamed by a table: the column c gets the number at its place c.

ghost use Rattle.std.specs.Prelude.{◌≡◌, Err, IfOk, slice_index, length};
ghost use Rattle.math_facts.specs.Terms.{IsBelow};
ghost use Rattle.lin_rows.specs.Rows.{IsRow};
ghost use Rattle.lin_rows.specs.Tightening.{never};
ghost use Rattle.letter_acts.specs.Invariant.{AreDistinct};
ghost use Rattle.triple_rows.specs.Ties.Drafts.{stated_row};

use letter_acts::frame_rows::{fitting_row, renamed_row};
use lin_rows::{Row, RowFault, RowKind, negate};
use std::alloc::{AllocError, Global};

/// The row `0 <= -1`.
pub(crate) fn never(alloc: Global) -> Result<Row, AllocError>
    ensures value { IfOk result (λ r. r ≡ never) }
    ensures valid { IfOk result IsRow }
{
    fitting_row(alloc, &[], RowKind::Le, -1)
}

/// The row of an atom with its columns renamed, or its negation, which fits exactly where its bound does.
pub(crate) fn stated_row(
    alloc: Global,
    row: &Row,
    columns: &[u32],
    deny: bool,
) -> Result<Row, RowFault>
    requires below { IsBelow (length columns.now) row.now.terms }
    requires differ { AreDistinct columns.now }
    requires inequality { row.now.kind ≡ RowKind.Le }
    ensures value { IfOk result (λ r. r ≡ stated_row deny (slice_index columns.now) row.now) }
    ensures valid { IfOk result IsRow }
    ensures past { result ≡ Err RowFault.Past → IsRow (stated_row deny (slice_index columns.now) row.now) → ⊥ }
{
    let plain = renamed_row(alloc, row, columns)?;
    if deny {
        negate(alloc, &plain)
    } else {
        Ok(plain)
    }
}
