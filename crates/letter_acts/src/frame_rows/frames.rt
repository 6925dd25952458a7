//! Columns of frames by what they are: their numbers and their types.

ghost use Rattle.std.specs.Prelude.{◌≡◌, ◌≤◌, ◌^◌, IfOk, filter, length};
ghost use Rattle.letter_acts.specs.Frames.{places};
ghost use Rattle.letter_acts.specs.FrameRows.Rows.{types_of, types_at};
ghost use Rattle.letter_acts.specs.FrameRows.Frames.{is_of};

use crate::type_at;
use boogie_tree::{Column, Ty, VarInfo};
use std::alloc::{AllocError, Global};

/// What a column of a frame may be.
#[derive(Clone, Copy)]
pub enum Class {
    /// A constant or a global.
    Global,
    /// A constant.
    Constant,
    /// A global that may change.
    Variable,
    /// A local that is no parameter, of which the results come first.
    Outcome,
    /// A parameter, a result or a local.
    Local,
    /// What a global had at the entry.
    Old,
}

/// Whether the column is of the class.
fn is_of(class: Class, column: &(Column, VarInfo)) -> bool
    ensures { result ≡ is_of class column.now }
{
    let global = matches!(column.0, Column::Global(_));
    let local = matches!(column.0, Column::Local(_));
    match class {
        Class::Global => global,
        Class::Constant => global && column.1.constant,
        Class::Variable => global && !column.1.constant,
        Class::Outcome => local && !column.1.constant,
        Class::Local => local,
        Class::Old => matches!(column.0, Column::Old(_)),
    }
}

/// The numbers of the columns of a class.
pub fn numbers_of(
    alloc: Global,
    frame: &[(Column, VarInfo)],
    class: Class,
) -> Result<Vec<u32>, AllocError>
    requires { length frame.now ≤ 2 ^ 32 }
    ensures { IfOk result (λ v. v.items ≡ places (is_of class) 0 frame.now) }
{
    let mut numbers = Vec::new(alloc);
    for i in 0..frame.len() {
        if is_of(class, &frame[i]) {
            numbers.push(i as u32)?;
        }
    }
    Ok(numbers)
}

/// The types of the columns of a class.
pub fn types_in(
    alloc: Global,
    frame: &[(Column, VarInfo)],
    class: Class,
) -> Result<Vec<Option<Ty>>, AllocError>
    ensures { IfOk result (λ v. v.items ≡ types_of (filter (is_of class) frame.now)) }
{
    let mut types = Vec::new(alloc);
    for i in 0..frame.len() {
        let column = &frame[i];
        if is_of(class, column) {
            types.push(Some(column.1.ty))?;
        }
    }
    Ok(types)
}

/// The types of the columns.
pub fn types_of(alloc: Global, frame: &[(Column, VarInfo)]) -> Result<Vec<Option<Ty>>, AllocError>
    ensures { IfOk result (λ v. v.items ≡ types_of frame.now) }
{
    frame.iter().map(|column| Some(column.1.ty)).collect(alloc)
}

/// The types of these columns.
pub fn types_at(
    alloc: Global,
    frame: &[(Column, VarInfo)],
    columns: &[u32],
) -> Result<Vec<Option<Ty>>, AllocError>
    ensures { IfOk result (λ v. v.items ≡ types_at frame.now columns.now) }
{
    let mut types = Vec::with_capacity(alloc, columns.len())?;
    for column in columns {
        types.push(type_at(frame, *column))?;
    }
    Ok(types)
}
