//! The bounds of a system's columns.

ghost use Rattle.std.specs.Prelude.{◌≡◌, ◌++◌, ◌∷◌, [], suc, OnOk, List, length};
ghost use Rattle.nwa_base.specs.declared.letters.Letter.{Letter};
ghost use Rattle.letter_acts.specs.Frames.{Columns};
ghost use Rattle.letter_acts.specs.Invariant.{Graph};
ghost use Rattle.letter_acts.specs.FrameRows.Rows.{bounds, types_at};
ghost use Rattle.path_rows.specs.Versions.{local_columns, old_part};
ghost use Rattle.farkas_check.specs.Trees.{Tree};
ghost use Rattle.nested_itp.specs.NestedRefutations.Refutations.{View};
ghost use Rattle.nested_itp.specs.NestedRefutations.Numbers.{bounds_in, before_bounds, callee_bounds};
ghost use Rattle.nested_itp.specs.TripleSteps.Sections.{section_roles, roles_in, claims_in, AddsNoClaim, AddsRoles};

use crate::nested_predicates::acts::{
    bool_count, bool_count_at, bool_local_count, bool_old_count, is_bool,
};
use crate::triple_steps::columns::sum;
use crate::triple_steps::sections::Section;
use boogie_tree::{Column, VarInfo};
use std::alloc::AllocError;

/// How many rows bound the columns of a frame: two for each boolean.
pub(crate) fn bounds_in(frame: &[(Column, VarInfo)]) -> usize
    ensures { result ≡ bounds_in frame.now }
{
    let booleans = bool_count(frame);
    booleans + booleans
}

/// How many bound its parameters, results and locals.
pub(crate) fn local_bounds(frame: &[(Column, VarInfo)]) -> usize
    ensures { result ≡ bounds_in (local_columns frame.now) }
{
    let booleans = bool_local_count(frame);
    booleans + booleans
}

/// How many bound its old columns.
pub(crate) fn old_bounds(frame: &[(Column, VarInfo)]) -> usize
    ensures { result ≡ bounds_in (old_part frame.now) }
{
    let booleans = bool_old_count(frame);
    booleans + booleans
}

/// How many bound these columns of it.
pub(crate) fn bounds_at(frame: &[(Column, VarInfo)], columns: &[u32]) -> usize
    ensures { result ≡ length (bounds 0 (types_at frame.now columns.now)) }
{
    let booleans = bool_count_at(frame, columns);
    booleans + booleans
}

/// The bounds of the frame before a letter, of a return before its call, where so many letters stand before that one: of the first
/// letter they are the start's, which are counted with it. Of another letter no leaf uses them.
pub(crate) fn before_bounds(frame: &[(Column, VarInfo)], letters: usize) -> Section
    ensures roles { (g : Graph) (w : List Letter) (t : Tree) (v : View) → section_roles g w t v result ≡ before_bounds (suc letters) frame.now }
    ensures plain { claims_in (result ∷ []) ≡ [] }
{
    let count = bounds_in(frame);
    if letters == 0 {
        Section::Rows { first: 0, count }
    } else {
        Section::Spare(count)
    }
}

/// The rows of the word where the bounds of a callee's next local and of its next old column stand.
#[derive(Drop)]
struct Next {
    local_row: usize,
    old_row: usize,
}

/// Adds the bounds of a callee's frame, of which the locals and old columns are new.
pub(crate) fn add_callee_bounds(
    sections: &mut Vec<Section>,
    callee: &[(Column, VarInfo)],
    local: usize,
    old: usize,
) -> Result<(), AllocError>
    ensures { OnOk result (AddsRoles sections.old.items sections.new.items (callee_bounds local old callee.now)) }
{
    let mut next = Next {
        local_row: local,
        old_row: old,
    };
    for i in 0..callee.len() {
        add_bounds(sections, &callee[i], &mut next)?;
    }
    Ok(())
}

/// Adds those of a column.
fn add_bounds(
    sections: &mut Vec<Section>,
    column: &(Column, VarInfo),
    next: &mut Next,
) -> Result<(), AllocError>
    ensures roles { OnOk result ((g : Graph) (w : List Letter) (t : Tree) (v : View) (rest : Columns) → roles_in g w t v sections.new.items ++ callee_bounds next.new.local_row next.new.old_row rest ≡ roles_in g w t v sections.old.items ++ callee_bounds next.old.local_row next.old.old_row (column.now ∷ rest)) }
    ensures plain { OnOk result (AddsNoClaim sections.old.items sections.new.items) }
{
    if !is_bool(column) {
        return Ok(());
    }
    match column.0 {
        Column::Local(_) => {
            sections.push(Section::Rows {
                first: next.local_row,
                count: 2,
            })?;
            next.local_row = sum(next.local_row, 2)?;
            Ok(())
        }
        Column::Old(_) => {
            sections.push(Section::Rows {
                first: next.old_row,
                count: 2,
            })?;
            next.old_row = sum(next.old_row, 2)?;
            Ok(())
        }
        Column::Global(_) => {
            sections.push(Section::Spare(2))?;
            Ok(())
        }
    }
}
