//! The places of columns in a frame.

ghost use Rattle.std.specs.Prelude.{◌≡◌, true, false, IfOk, None, Some, ◌<◌, length, slice_get, IfSome};
ghost use Rattle.cond_jumps.specs.Frames.{same_frame_column, place_from, column_place_in};
ghost use Rattle.cond_jumps.specs.CodeView.{IsPlaceFound, FoundAt};

use boogie_tree::{Column, Ty, VarInfo};
use letter_acts::Frame;
use std::alloc::AllocError;

/// The number of a column, and its type.
#[derive(Clone, Copy)]
pub struct Spot {
    pub number: u32,
    pub ty: Ty,
}

/// Whether two columns are the same.
fn same_column(a: Column, b: Column) -> bool
    ensures { result ≡ same_frame_column a b }
{
    match (a, b) {
        (Column::Global(m), Column::Global(n)) => m == n,
        (Column::Old(m), Column::Old(n)) => m == n,
        (Column::Local(m), Column::Local(n)) => m == n,
        _ => false,
    }
}

/// The first place of a column.
fn found(columns: &[(Column, VarInfo)], column: Column) -> Option<usize>
    ensures none { result ≡ None → place_from 0 columns.now column ≡ None }
    ensures some { IfSome result (λ i. FoundAt columns.now column i) }
{
    for i in 0..columns.len() {
        if same_column(columns[i].0, column) {
            return Some(i);
        }
    }
    None
}

/// The number and the type of the column at a place.
fn place_at(frame: &Frame, i: usize) -> Result<Spot, AllocError>
    requires { i < length frame.now.columns.items }
    ensures { IfOk result (λ p. (d : Column × VarInfo) → slice_get frame.now.columns.items i ≡ Some d → (p.number ≡ i) × (p.ty ≡ d.1.ty)) }
{
    let Ok(number) = u32::try_from(i) else {
        return Err(AllocError);
    };
    Ok(Spot {
        number,
        ty: frame.columns[i].1.ty,
    })
}

/// The first place of a column.
fn first_place(frame: &Frame, column: Column) -> Result<Option<Spot>, AllocError>
    ensures { IfOk result (λ o. IsPlaceFound (place_from 0 frame.now.columns.items column) o) }
{
    match found(frame.columns.as_slice(), column) {
        None => Ok(None),
        Some(i) => Ok(Some(place_at(frame, i)?)),
    }
}

/// The place of a column. Constants have no old columns: the old value of one is its value.
pub fn place(frame: &Frame, column: Column) -> Result<Option<Spot>, AllocError>
    ensures { IfOk result (λ o. IsPlaceFound (column_place_in frame.now.columns.items column) o) }
{
    match column {
        Column::Old(n) => old_place(frame, n),
        _ => first_place(frame, column),
    }
}

/// The place of an old column, or of a constant that has none.
fn old_place(frame: &Frame, n: u32) -> Result<Option<Spot>, AllocError>
    ensures { IfOk result (λ o. IsPlaceFound (column_place_in frame.now.columns.items (Column.Old n)) o) }
{
    if let Some(found) = first_place(frame, Column::Old(n))? {
        return Ok(Some(found));
    }
    match found(frame.columns.as_slice(), Column::Global(n)) {
        None => Ok(None),
        Some(i) => {
            if frame.columns[i].1.constant {
                Ok(Some(place_at(frame, i)?))
            } else {
                Ok(None)
            }
        }
    }
}
