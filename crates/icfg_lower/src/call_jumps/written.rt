//! Where a call without body leaves the globals that it modifies.

ghost use Rattle.std.specs.Prelude.{◌≡◌, ◌+◌, IfOk};
ghost use Rattle.lowered_graph.specs.LoweredSteps.Edges.{those_in, those_not_in, found_from, import_written};
ghost use Rattle.letter_acts.specs.Reading.{is_listed};
ghost use Rattle.icfg_lower.specs.CallJumps.Ties.Stands.{left_by, left_column};

use boogie_tree::{Ty, VarInfo};
use std::alloc::{AllocError, Global};

/// The globals that a call modifies, and those of them that are targets, too.
#[derive(Clone, Copy)]
pub struct Written<'a> {
    pub globals: &'a [VarInfo],
    pub modified: &'a [u32],
    /// Those modified globals that are targets.
    pub targeted: &'a [u32],
    /// The number of the first written column.
    pub base: u32,
    /// The number of the first helper column.
    pub helpers: u32,
}

/// The first place of a number in a list.
pub fn found(list: &[u32], number: u32) -> Option<usize>
    ensures { result ≡ found_from 0 list.now number }
{
    for i in 0..list.len() {
        if list[i] == number {
            return Some(i);
        }
    }
    None
}

/// The number of a column, so many behind another; more of them than have numbers are more than memory holds.
pub fn column_behind(column: u32, more: usize) -> Result<u32, AllocError>
    ensures { IfOk result (λ n. n ≡ column + more) }
{
    let Ok(more) = u32::try_from(more) else {
        return Err(AllocError);
    };
    let Some(sum) = column.checked_add(more) else {
        return Err(AllocError);
    };
    Ok(sum)
}

impl Written<'_> {
    /// The column in which a call leaves a global, before its target is written, and its type; none where it is as before.
    pub fn left(&self, number: u32) -> Result<Option<(u32, Ty)>, AllocError>
        ensures { IfOk result (λ o. o ≡ left_by self.now number) }
    {
        let Some(place) = found(self.modified, number) else {
            return Ok(None);
        };
        let Some(global) = self.globals.get(number as usize) else {
            return Ok(None);
        };
        let column = self.column(place, number)?;
        Ok(Some((column, global.ty)))
    }

    /// The column of the modified global at a place: a helper, where it is a target, too.
    fn column(&self, place: usize, number: u32) -> Result<u32, AllocError>
        ensures { IfOk result (λ c. c ≡ left_column self.now.base place (found_from self.now.helpers self.now.targeted.now number)) }
    {
        match found(self.targeted, number) {
            None => column_behind(self.base, place),
            Some(helper) => column_behind(self.helpers, helper),
        }
    }
}

/// Whether a number stands in a list.
fn is_in(list: &[u32], number: u32) -> bool
    ensures { result ≡ is_listed list.now number }
{
    found(list, number).is_some()
}

/// Of the numbers those that stand in the list.
pub fn those_in(alloc: Global, list: &[u32], numbers: &[u32]) -> Result<Vec<u32>, AllocError>
    ensures { IfOk result (λ v. v.items ≡ those_in list.now numbers.now) }
{
    let mut inside = Vec::new(alloc);
    for number in numbers {
        if is_in(list, *number) {
            inside.push(*number)?;
        }
    }
    Ok(inside)
}

/// The columns that a call without body writes: the modified globals, and then the other targets.
pub fn written_columns(
    alloc: Global,
    modified: &[u32],
    targets: &[u32],
) -> Result<Vec<u32>, AllocError>
    ensures { IfOk result (λ v. v.items ≡ import_written modified.now targets.now) }
{
    let mut written = Vec::new(alloc);
    written.extend_from_slice(modified)?;
    for target in targets {
        if !is_in(modified, *target) {
            written.push(*target)?;
        }
    }
    Ok(written)
}
