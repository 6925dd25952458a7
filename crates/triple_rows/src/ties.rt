//! Adding to a draft the rows that come from no predicate.

ghost use Rattle.std.specs.Prelude.{◌+◌, ◌<◌, ◌≤◌, ◌^◌, OnOk, map, filter, not, length, slice_index};
ghost use Rattle.std.specs.List.{AllByRecursion};
ghost use Rattle.math_facts.specs.Terms.{IsBelow};
ghost use Rattle.letter_acts.specs.Frames.{places, olds_of, variables_of, result_columns};
ghost use Rattle.letter_acts.specs.Reading.{taken, is_listed};
ghost use Rattle.letter_acts.specs.Invariant.{AreDistinct};
ghost use Rattle.triple_rows.specs.Systems.{PlainFits, only_rows};
ghost use Rattle.letter_acts.specs.FrameRows.Rows.{renamed, equal_row, bounds, types_of, types_at};
ghost use Rattle.letter_acts.specs.FrameRows.Frames.{is_of};
ghost use Rattle.triple_rows.specs.Ties.Drafts.{Adds};

use crate::drafts::Draft;
use crate::frames::{doubled, olds, taken, unlisted};
use crate::pieces::equal_rows;
use boogie_tree::{Column, VarInfo};
use letter_acts::frame_rows::{Class, bound_rows, numbers_of, renamed_rows, types_at, types_of};
use lin_rows::{Row, copied_rows};
use std::alloc::{AllocError, Global};

/// Adds equal rows.
pub(crate) fn add_copies(alloc: Global, rows: &[Row], draft: &mut Draft) -> Result<(), AllocError>
    ensures adds { OnOk result (Adds (only_rows rows.now) draft.old draft.new) }
    ensures fits { OnOk result (PlainFits (only_rows rows.now)) }
{
    draft.add_rows(copied_rows(alloc, rows)?)
}

/// Adds the rows with their columns renamed.
pub(crate) fn add_renamed(
    alloc: Global,
    rows: &[Row],
    columns: &[u32],
    draft: &mut Draft,
) -> Result<(), AllocError>
    requires below { AllByRecursion (λ r. IsBelow (length columns.now) r.terms) rows.now }
    requires differ { AreDistinct columns.now }
    ensures adds { OnOk result (Adds (only_rows (map (renamed (slice_index columns.now)) rows.now)) draft.old draft.new) }
    ensures fits { OnOk result (PlainFits (only_rows (map (renamed (slice_index columns.now)) rows.now))) }
{
    draft.add_rows(renamed_rows(alloc, rows, columns)?)
}

/// Adds for each pair that the number of the first column by one table equals that of the second by another.
pub(crate) fn add_pairs(
    alloc: Global,
    pairs: &[(u32, u32)],
    left: &[u32],
    right: &[u32],
    draft: &mut Draft,
) -> Result<(), AllocError>
    requires { AllByRecursion (λ p. (p.0 < length left.now) × (p.1 < length right.now)) pairs.now }
    ensures adds { OnOk result (Adds (only_rows (map (λ p. equal_row (slice_index left.now p.0) (slice_index right.now p.1)) pairs.now)) draft.old draft.new) }
    ensures fits { OnOk result (PlainFits (only_rows (map (λ p. equal_row (slice_index left.now p.0) (slice_index right.now p.1)) pairs.now))) }
{
    draft.add_rows(equal_rows(alloc, pairs, left, right)?)
}

/// The same of columns that have one number in both states.
pub(crate) fn add_ties(
    alloc: Global,
    columns: &[u32],
    left: &[u32],
    right: &[u32],
    draft: &mut Draft,
) -> Result<(), AllocError>
    requires { AllByRecursion (λ c. (c < length left.now) × (c < length right.now)) columns.now }
    ensures adds { OnOk result (Adds (only_rows (map (λ c. equal_row (slice_index left.now c) (slice_index right.now c)) columns.now)) draft.old draft.new) }
    ensures fits { OnOk result (PlainFits (only_rows (map (λ c. equal_row (slice_index left.now c) (slice_index right.now c)) columns.now))) }
{
    add_pairs(alloc, &doubled(alloc, columns)?, left, right, draft)
}

/// The same of the columns of a class.
pub(crate) fn add_class(
    alloc: Global,
    frame: &[(Column, VarInfo)],
    class: Class,
    left: &[u32],
    right: &[u32],
    draft: &mut Draft,
) -> Result<(), AllocError>
    requires numbers { length frame.now ≤ 2 ^ 32 }
    requires within { AllByRecursion (λ c. (c < length left.now) × (c < length right.now)) (places (is_of class) 0 frame.now) }
    ensures adds { OnOk result (Adds (only_rows (map (λ c. equal_row (slice_index left.now c) (slice_index right.now c)) (places (is_of class) 0 frame.now))) draft.old draft.new) }
    ensures fits { OnOk result (PlainFits (only_rows (map (λ c. equal_row (slice_index left.now c) (slice_index right.now c)) (places (is_of class) 0 frame.now)))) }
{
    add_ties(alloc, &numbers_of(alloc, frame, class)?, left, right, draft)
}

/// Adds for each old column that its number by one table equals that of its global by another.
pub(crate) fn add_olds(
    alloc: Global,
    frame: &[(Column, VarInfo)],
    left: &[u32],
    right: &[u32],
    draft: &mut Draft,
) -> Result<(), AllocError>
    requires numbers { length frame.now ≤ 2 ^ 32 }
    requires within { AllByRecursion (λ o. (o.0 < length left.now) × (o.1 < length right.now)) (olds_of frame.now) }
    ensures adds { OnOk result (Adds (only_rows (map (λ o. equal_row (slice_index left.now o.0) (slice_index right.now o.1)) (olds_of frame.now))) draft.old draft.new) }
    ensures fits { OnOk result (PlainFits (only_rows (map (λ o. equal_row (slice_index left.now o.0) (slice_index right.now o.1)) (olds_of frame.now)))) }
{
    add_pairs(alloc, &olds(alloc, frame)?, left, right, draft)
}

/// Adds the bounds of a frame's columns, which stand from a number on.
pub(crate) fn add_frame_bounds(
    alloc: Global,
    first: usize,
    frame: &[(Column, VarInfo)],
    draft: &mut Draft,
) -> Result<(), AllocError>
    requires { first + length frame.now ≤ 2 ^ 32 }
    ensures adds { OnOk result (Adds (only_rows (bounds first (types_of frame.now))) draft.old draft.new) }
    ensures fits { OnOk result (PlainFits (only_rows (bounds first (types_of frame.now)))) }
{
    draft.add_rows(bound_rows(alloc, first, &types_of(alloc, frame)?)?)
}

/// Adds the bounds of a frame's written columns, which stand from a number on.
pub(crate) fn add_written_bounds(
    alloc: Global,
    first: usize,
    frame: &[(Column, VarInfo)],
    written: &[u32],
    draft: &mut Draft,
) -> Result<(), AllocError>
    requires { first + length written.now ≤ 2 ^ 32 }
    ensures adds { OnOk result (Adds (only_rows (bounds first (types_at frame.now written.now))) draft.old draft.new) }
    ensures fits { OnOk result (PlainFits (only_rows (bounds first (types_at frame.now written.now)))) }
{
    draft.add_rows(bound_rows(alloc, first, &types_at(alloc, frame, written)?)?)
}

/// Adds that each global which is no target has the same number in two states.
pub(crate) fn add_kept(
    alloc: Global,
    frame: &[(Column, VarInfo)],
    targets: &[u32],
    left: &[u32],
    right: &[u32],
    draft: &mut Draft,
) -> Result<(), AllocError>
    requires numbers { length frame.now ≤ 2 ^ 32 }
    requires within { AllByRecursion (λ g. (g < length left.now) × (g < length right.now)) (variables_of frame.now) }
    ensures adds { OnOk result (Adds (only_rows (map (λ g. equal_row (slice_index left.now g) (slice_index right.now g)) (filter (λ g. not (is_listed targets.now g)) (variables_of frame.now)))) draft.old draft.new) }
    ensures fits { OnOk result (PlainFits (only_rows (map (λ g. equal_row (slice_index left.now g) (slice_index right.now g)) (filter (λ g. not (is_listed targets.now g)) (variables_of frame.now))))) }
{
    let variables = numbers_of(alloc, frame, Class::Variable)?;
    let kept = unlisted(alloc, &variables, targets)?;
    add_ties(alloc, &kept, left, right, draft)
}

/// Adds that each target has the number of the result that it takes.
pub(crate) fn add_results(
    alloc: Global,
    frame: &[(Column, VarInfo)],
    targets: &[u32],
    left: &[u32],
    right: &[u32],
    draft: &mut Draft,
) -> Result<(), AllocError>
    requires numbers { length frame.now ≤ 2 ^ 32 }
    requires within { AllByRecursion (λ p. (p.0 < length left.now) × (p.1 < length right.now)) (taken targets.now (result_columns frame.now)) }
    ensures adds { OnOk result (Adds (only_rows (map (λ p. equal_row (slice_index left.now p.0) (slice_index right.now p.1)) (taken targets.now (result_columns frame.now)))) draft.old draft.new) }
    ensures fits { OnOk result (PlainFits (only_rows (map (λ p. equal_row (slice_index left.now p.0) (slice_index right.now p.1)) (taken targets.now (result_columns frame.now))))) }
{
    let results = numbers_of(alloc, frame, Class::Outcome)?;
    add_pairs(alloc, &taken(alloc, targets, &results)?, left, right, draft)
}
