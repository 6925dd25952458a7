//! The columns of frames, by what they are.

ghost use Rattle.std.specs.Prelude.{◌≡◌, ◌++◌, [], IfOk, OnOk};
ghost use Rattle.letter_acts.specs.Frames.{added, places, old_at, olds_of};
ghost use Rattle.nested_itp.specs.TripleSteps.Ties.Classes.{is_of};

use crate::triple_steps::columns::narrowed;
use boogie_tree::{Column, VarInfo};
use std::alloc::{AllocError, Global};

/// What a column of a frame may be.
#[derive(Clone, Copy)]
pub(crate) enum Class {
    /// A constant or a global.
    Global,
    /// A constant.
    Constant,
    /// A global that may change.
    Variable,
    /// What a global had at the entry.
    Old,
    /// A parameter, a result or a local.
    Local,
    /// A local that is no parameter.
    Outcome,
}

/// Whether the column is of the class.
pub(crate) fn is_of(class: Class, column: &(Column, VarInfo)) -> bool
    ensures { result ≡ is_of class column.now }
{
    match column.0 {
        Column::Global(_) => match class {
            Class::Global => true,
            Class::Constant => column.1.constant,
            Class::Variable => !column.1.constant,
            Class::Old | Class::Local | Class::Outcome => false,
        },
        Column::Old(_) => matches!(class, Class::Old),
        Column::Local(_) => match class {
            Class::Local => true,
            Class::Outcome => !column.1.constant,
            Class::Global | Class::Constant | Class::Variable | Class::Old => false,
        },
    }
}

/// The places in a frame of the columns of a class.
pub(crate) fn places(
    alloc: Global,
    frame: &[(Column, VarInfo)],
    class: Class,
) -> Result<Vec<u32>, AllocError>
    ensures { IfOk result (λ v. v.items ≡ places (is_of class) 0 frame.now) }
{
    let mut places = Vec::new(alloc);
    for i in 0..frame.len() {
        let place = narrowed(i)?;
        add_if(&mut places, place, is_of(class, &frame[i]))?;
    }
    Ok(places)
}

/// Adds a column, if a test passed.
pub(crate) fn add_if(columns: &mut Vec<u32>, column: u32, passed: bool) -> Result<(), AllocError>
    ensures { OnOk result (columns.new.items ≡ columns.old.items ++ added passed column []) }
{
    if passed {
        columns.push(column)?;
    }
    Ok(())
}

/// The places of a frame's old columns, each with the column of its global.
pub(crate) fn olds(
    alloc: Global,
    frame: &[(Column, VarInfo)],
) -> Result<Vec<(u32, u32)>, AllocError>
    ensures { IfOk result (λ v. v.items ≡ olds_of frame.now) }
{
    let mut olds = Vec::new(alloc);
    for i in 0..frame.len() {
        let place = narrowed(i)?;
        add_old(&mut olds, place, &frame[i])?;
    }
    Ok(olds)
}

/// Adds the column at this place with that of its global, if it is an old column.
fn add_old(
    olds: &mut Vec<(u32, u32)>,
    place: u32,
    column: &(Column, VarInfo),
) -> Result<(), AllocError>
    ensures { OnOk result (olds.new.items ≡ olds.old.items ++ old_at column.now.0 place []) }
{
    match column.0 {
        Column::Old(global) => {
            olds.push((place, global))?;
            Ok(())
        }
        Column::Global(_) | Column::Local(_) => Ok(()),
    }
}
