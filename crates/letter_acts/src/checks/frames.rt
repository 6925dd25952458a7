//! Frames: the constants and globals that all begin with, then the old columns, then the locals.

ghost use Rattle.std.specs.Prelude.{◌≡◌, ◌↔◌, ◌++◌, ◌≤◌, IsTrue, MatchOption, length, drop};
ghost use Rattle.std.specs.List.{AllByRecursion, prefix_len};
ghost use Rattle.boogie_tree.specs.declared.tree.Column.TheVariants.{Global, Old, Local};
ghost use Rattle.letter_acts.specs.Frames.{Columns, globals_from, old_columns, locals_from, ConstantsFirst, IsFrame, is_global};
ghost use Rattle.letter_acts.specs.Acts.{plain_frames};
ghost use Rattle.letter_acts.specs.Invariant.{AreFrames};
ghost use Rattle.letter_acts.specs.Checks.{infos};

use crate::checks::columns::is_global_column;
use crate::frames::Frame;
use boogie_tree::{Column, VarInfo};

/// Whether the same is known of both.
fn same_info(left: &VarInfo, right: &VarInfo) -> bool
    ensures { IsTrue result ↔ (left.now ≡ right.now) }
{
    left.name.bytes() == right.name.bytes()
        && left.ty == right.ty
        && left.constant == right.constant
}

/// Whether the column is the constant or global of this number, of which as much is known as of the other column.
fn is_global_of(column: &(Column, VarInfo), number: usize, head: &(Column, VarInfo)) -> bool
    ensures { IsTrue result ↔ (column.now ≡ (Global number, head.now.1)) }
{
    match column.0 {
        Column::Global(n) => n as usize == number && same_info(&column.1, &head.1),
        _ => false,
    }
}

/// Whether the column is the old column of the global of this number, of which as much is known as of the other column.
fn is_old_of(column: &(Column, VarInfo), number: usize, head: &(Column, VarInfo)) -> bool
    ensures { IsTrue result ↔ (column.now ≡ (Old number, head.now.1)) }
{
    match column.0 {
        Column::Old(n) => n as usize == number && same_info(&column.1, &head.1),
        _ => false,
    }
}

fn is_local_number(column: Column, number: usize) -> bool
    ensures { IsTrue result ↔ (column ≡ Local number) }
{
    match column {
        Column::Local(n) => n as usize == number,
        _ => false,
    }
}

/// How many constants and globals the frame begins with.
fn count_globals(frame: &[(Column, VarInfo)]) -> usize
    ensures value { result ≡ prefix_len is_global frame.now }
    ensures fits { result ≤ length frame.now }
{
    for i in 0..frame.len() {
        if !is_global_column(frame[i].0) {
            return i;
        }
    }
    frame.len()
}

/// Whether the frame begins with these constants and globals.
fn starts_with_globals(heads: &[(Column, VarInfo)], frame: &[(Column, VarInfo)]) -> bool
    ensures { IsTrue result ↔ (frame.now ≡ globals_from 0 (infos heads.now) ++ drop (length heads.now) frame.now) }
{
    for i in 0..heads.len() {
        if i >= frame.len() {
            return false;
        }
        if !is_global_of(&frame[i], i, &heads[i]) {
            return false;
        }
    }
    true
}

/// How many columns the old columns of the globals take at the front, `None` where they do not stand there.
fn count_olds(heads: &[(Column, VarInfo)], frame: &[(Column, VarInfo)]) -> Option<usize>
    ensures { MatchOption result ((more : Columns) → frame.now ≡ old_columns 0 (infos heads.now) ++ more → ⊥)
        (λ n. (n ≤ length frame.now) × (frame.now ≡ old_columns 0 (infos heads.now) ++ drop n frame.now)) }
{
    let mut count = 0;
    for i in 0..heads.len() {
        if !heads[i].1.constant {
            if count >= frame.len() {
                return None;
            }
            if !is_old_of(&frame[count], i, &heads[i]) {
                return None;
            }
            count += 1;
        }
    }
    Some(count)
}

/// Whether the columns are locals, numbered from 0.
fn are_numbered_locals(frame: &[(Column, VarInfo)]) -> bool
    ensures { IsTrue result ↔ (frame.now ≡ locals_from 0 (infos frame.now)) }
{
    for i in 0..frame.len() {
        if !is_local_number(frame[i].0, i) {
            return false;
        }
    }
    true
}

/// Whether the constant ones stand first.
fn constants_stand_first(frame: &[(Column, VarInfo)]) -> bool
    ensures { IsTrue result ↔ ConstantsFirst (infos frame.now) }
{
    let mut changing = false;
    for i in 0..frame.len() {
        if !frame[i].1.constant {
            changing = true;
        } else if changing {
            return false;
        }
    }
    true
}

/// Whether it is a frame with these constants and globals.
fn is_frame(heads: &[(Column, VarInfo)], frame: &[(Column, VarInfo)]) -> bool
    ensures { IsTrue result ↔ IsFrame (infos heads.now) frame.now }
{
    if heads.len() > frame.len() {
        return false;
    }
    if !starts_with_globals(heads, frame) {
        return false;
    }
    let rest = &frame[heads.len()..];
    let Some(count) = count_olds(heads, rest) else {
        return false;
    };
    let locals = &rest[count..];
    are_numbered_locals(locals) && constants_stand_first(locals)
}

/// Whether all are frames with these constants and globals.
fn share_globals(heads: &[(Column, VarInfo)], frames: &[Frame]) -> bool
    ensures { IsTrue result ↔ AllByRecursion (IsFrame (infos heads.now)) (plain_frames frames.now) }
{
    frames
        .iter()
        .all(|frame| is_frame(heads, frame.columns.as_slice()))
}

/// Whether all are frames with the constants and globals of the first.
pub(super) fn are_frames(frames: &[Frame]) -> bool
    ensures { IsTrue result ↔ AreFrames (plain_frames frames.now) }
{
    match frames.first() {
        None => true,
        Some(first) => {
            let columns = first.columns.as_slice();
            share_globals(&columns[..count_globals(columns)], frames)
        }
    }
}
