//! The frames of procedures.

ghost use Rattle.std.specs.Prelude.{◌≡◌, ◌<◌, ◌^◌, ◌++◌, ℕ, map, length, slice_get, IfOk, IfSome};
ghost use Rattle.std.specs.Option.{option_map};
ghost use Rattle.typed_tree.specs.TypedView as view;
ghost use Rattle.letter_acts.specs.Acts.{plain_frames};
ghost use Rattle.letter_acts.specs.Frames.{globals_from, old_columns, locals_from};
ghost use Rattle.icfg_lower.specs.ProgramLayout.Layouts.{frame_with};

use boogie_tree::{Column, VarInfo};
use letter_acts::Frame;
use std::alloc::{AllocError, Global};
use typed_tree::TProc;

/// Adds the columns of the constants and globals.
fn add_globals(columns: &mut Vec<(Column, VarInfo)>, globals: &[VarInfo]) -> Result<(), AllocError>
    requires { length globals.now < 2 ^ 32 }
    ensures { IfOk result (λ u. columns.new.items ≡ columns.old.items ++ globals_from 0 globals.now) }
{
    for (number, info) in globals.iter().enumerate() {
        columns.push((Column::Global(number as u32), info.copy()?))?;
    }
    Ok(())
}

/// Adds the columns of the old values of the globals that vary.
fn add_olds(columns: &mut Vec<(Column, VarInfo)>, globals: &[VarInfo]) -> Result<(), AllocError>
    requires { length globals.now < 2 ^ 32 }
    ensures { IfOk result (λ u. columns.new.items ≡ columns.old.items ++ old_columns 0 globals.now) }
{
    for (number, info) in globals.iter().enumerate() {
        if !info.constant {
            columns.push((Column::Old(number as u32), info.copy()?))?;
        }
    }
    Ok(())
}

/// Adds the columns of the locals.
fn add_locals(columns: &mut Vec<(Column, VarInfo)>, locals: &[VarInfo]) -> Result<(), AllocError>
    requires { length locals.now < 2 ^ 32 }
    ensures { IfOk result (λ u. columns.new.items ≡ columns.old.items ++ locals_from 0 locals.now) }
{
    for (number, info) in locals.iter().enumerate() {
        columns.push((Column::Local(number as u32), info.copy()?))?;
    }
    Ok(())
}

/// The frame of a procedure: the constants and globals, the old values of those that vary, and its parameters, results and locals.
fn frame_of(alloc: Global, globals: &[VarInfo], locals: &[VarInfo]) -> Result<Frame, AllocError>
    requires globals { length globals.now < 2 ^ 32 }
    requires locals { length locals.now < 2 ^ 32 }
    ensures { IfOk result (λ f. f.columns.items ≡ frame_with globals.now locals.now) }
{
    let mut columns = Vec::new(alloc);
    add_globals(&mut columns, globals)?;
    add_olds(&mut columns, globals)?;
    add_locals(&mut columns, locals)?;
    Ok(Frame { columns })
}

/// The frame of each procedure.
pub(crate) fn frames_of(
    alloc: Global,
    globals: &[VarInfo],
    procs: &[TProc],
) -> Result<Vec<Frame>, AllocError>
    requires globals { length globals.now < 2 ^ 32 }
    requires locals { (n : ℕ) → IfSome (slice_get (map view.procedure procs.now) n) (λ q. length q.locals < 2 ^ 32) }
    ensures { IfOk result (λ fs. plain_frames fs.items ≡ map (λ q. frame_with globals.now q.locals) (map view.procedure procs.now)) }
{
    let mut frames = Vec::with_capacity(alloc, procs.len())?;
    for listed in procs {
        frames.push(frame_of(alloc, globals, &listed.locals)?)?;
    }
    Ok(frames)
}

/// The frame of that number.
pub(crate) fn frame_in(frames: &[Frame], number: u32) -> Option<&Frame>
    ensures { option_map (λ f. f.now.columns.items) result ≡ slice_get (plain_frames frames.now) number }
{
    frames.get(number as usize)
}

/// How many locals the procedure of that number has.
pub(crate) fn locals_in(procs: &[TProc], number: u32) -> Option<u32>
    requires { (n : ℕ) → IfSome (slice_get (map view.procedure procs.now) n) (λ q. length q.locals < 2 ^ 32) }
    ensures { result ≡ option_map (λ q. length q.locals) (slice_get (map view.procedure procs.now) number) }
{
    let listed = procs.get(number as usize)?;
    Some(listed.locals.as_slice().len() as u32)
}

/// How many globals vary.
pub(crate) fn variables(globals: &[VarInfo]) -> u32
    requires { length globals.now < 2 ^ 32 }
    ensures { result ≡ length (old_columns 0 globals.now) }
{
    let mut count = 0;
    for global in globals {
        if !global.constant {
            count += 1;
        }
    }
    count
}
