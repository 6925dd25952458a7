//! The numbers of columns in frames.

ghost use Rattle.std.specs.Prelude.{◌≡◌, ◌+◌, length, IfOk};
ghost use Rattle.std.specs.Option.{option_map};
ghost use Rattle.cond_jumps.specs.Frames as frames;
ghost use Rattle.letter_acts.specs.Frames.{old_columns};
ghost use Rattle.lowered_graph.specs.LoweredSteps.ProgramFrames.{column_number};
ghost use Rattle.lowered_graph.specs.LoweredSteps.Edges.{numbers_in};

use boogie_tree::{Column, VarInfo};
use std::alloc::{AllocError, Global};

fn same_column(first: Column, second: Column) -> bool
    ensures { result ≡ frames.same_frame_column first second }
{
    match (first, second) {
        (Column::Global(m), Column::Global(n)) => m == n,
        (Column::Global(_), _) => false,
        (Column::Old(m), Column::Old(n)) => m == n,
        (Column::Old(_), _) => false,
        (Column::Local(m), Column::Local(n)) => m == n,
        (Column::Local(_), _) => false,
    }
}

/// The first place of a column in a frame, and whether it is constant.
fn place_of(frame: &[(Column, VarInfo)], column: Column) -> Option<(usize, bool)>
    ensures { result ≡ option_map (λ x. (x.0, x.1.constant)) (frames.place_from 0 frame.now column) }
{
    for (place, known) in frame.iter().enumerate() {
        if same_column(known.0, column) {
            return Some((place, known.1.constant));
        }
    }
    None
}

/// The number of an old column in a frame: that of the constant itself, where the global is one, and 0 where there is none.
fn old_number(frame: &[(Column, VarInfo)], global: u32) -> usize
    ensures { result ≡ column_number frame.now (Column.Old global) }
{
    if let Some((place, _)) = place_of(frame, Column::Old(global)) {
        return place;
    }
    match place_of(frame, Column::Global(global)) {
        Some((place, constant)) => if constant { place } else { 0 },
        None => 0,
    }
}

/// The number of a column in a frame; 0 where it has none.
pub(crate) fn column_number(frame: &[(Column, VarInfo)], column: Column) -> usize
    ensures { result ≡ column_number frame.now column }
{
    match column {
        Column::Global(_) | Column::Local(_) => match place_of(frame, column) {
            Some((place, _)) => place,
            None => 0,
        },
        Column::Old(global) => old_number(frame, global),
    }
}

/// The numbers of columns in a frame.
pub(crate) fn column_numbers(
    alloc: Global,
    frame: &[(Column, VarInfo)],
    columns: &[Column],
) -> Result<Vec<usize>, AllocError>
    ensures { IfOk result (λ v. v.items ≡ numbers_in frame.now columns.now) }
{
    let mut numbers = Vec::with_capacity(alloc, columns.len())?;
    for column in columns {
        numbers.push(column_number(frame, *column))?;
    }
    Ok(numbers)
}

/// How many columns of a frame stand before its locals.
pub(crate) fn before_locals(globals: &[VarInfo]) -> usize
    ensures { result ≡ length globals.now + length (old_columns 0 globals.now) }
{
    let mut olds = 0;
    for global in globals {
        if !global.constant {
            olds += 1;
        }
    }
    globals.len() + olds
}
