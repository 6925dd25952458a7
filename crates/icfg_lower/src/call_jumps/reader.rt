//! What stands for the columns of a condition where it is read.

ghost use Rattle.std.specs.Prelude.{◌≡◌, IfOk, map, slice_get};
ghost use Rattle.cond_jumps.specs.Frames.{column_place_in};
ghost use Rattle.icfg_lower.specs.CallJumps.Ties.Stands.{stand_of, place_stand, or_nothing, left_stand, left_by, stands_of};

use crate::call_jumps::standing::Standing;
use crate::call_jumps::written::Written;
use boogie_tree::{Column, Ty};
use cond_jumps::place;
use letter_acts::Frame;
use std::alloc::AllocError;

/// Where a condition is read.
#[derive(Clone, Copy)]
pub enum Reader<'a> {
    /// In a frame.
    Frame(&'a Frame),
    /// A requires of a called procedure, in the caller's frame and with its arguments.
    Requires(&'a Frame, &'a [Standing]),
    /// An ensures of a called procedure without body, in the caller's frame, with its arguments and then its results.
    Ensures(&'a Frame, &'a Written<'a>, &'a [Standing]),
}

/// The column of a frame, by its place.
fn placed(frame: &Frame, column: Column) -> Result<Standing, AllocError>
    ensures { IfOk result (λ s. stand_of s ≡ place_stand (column_place_in frame.now.columns.items column)) }
{
    match place(frame, column)? {
        None => Ok(Standing::nothing()),
        Some(spot) => Ok(Standing::numbered(spot.number, spot.ty)),
    }
}

/// A parameter or result.
fn local(locals: &[Standing], number: u32) -> Result<Standing, AllocError>
    ensures { IfOk result (λ s. stand_of s ≡ or_nothing (slice_get (map stand_of locals.now) number)) }
{
    match locals.get(number as usize) {
        None => Ok(Standing::nothing()),
        Some(standing) => standing.copy(),
    }
}

/// A global after a call without body.
fn global(frame: &Frame, written: &Written<'_>, number: u32) -> Result<Standing, AllocError>
    ensures { IfOk result (λ s. stand_of s ≡ left_stand frame.now.columns.items number (left_by written.now number)) }
{
    match written.left(number)? {
        None => placed(frame, Column::Global(number)),
        Some((column, ty)) => Ok(Standing::numbered(column, ty)),
    }
}

impl Reader<'_> {
    /// What stands for a column.
    pub fn standing(&self, column: Column) -> Result<Standing, AllocError>
        ensures { IfOk result (λ s. stand_of s ≡ stands_of self.now column) }
    {
        match self {
            Reader::Frame(frame) => placed(frame, column),
            Reader::Requires(frame, args) => match column {
                Column::Local(number) => local(args, number),
                _ => placed(frame, column),
            },
            Reader::Ensures(frame, written, locals) => match column {
                Column::Global(number) => global(frame, written, number),
                Column::Old(number) => placed(frame, Column::Global(number)),
                Column::Local(number) => local(locals, number),
            },
        }
    }
}
