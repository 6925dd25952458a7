//! The versions of a frame's columns before and after a letter.

ghost use Rattle.std.specs.Prelude.{◌≡◌, ◌+◌, ◌<◌, ◌≤◌, ◌^◌, ◌++◌, IfOk, OnOk, map, length, take, drop, slice_index};
ghost use Rattle.std.specs.List.{AllByRecursion};
ghost use Rattle.letter_acts.specs.Frames.{globals_of, result_columns};
ghost use Rattle.path_rows.specs.Versions.{written_over, entered_versions, returned, local_columns, old_part};

use boogie_tree::{Column, VarInfo};
use letter_acts::frame_rows::{Class, add_columns, numbers_of};
use lin_rows::Col;
use std::alloc::{AllocError, Global};

/// Writes new versions over some columns, one after the other, as long as both lists last.
pub(crate) fn write_over(here: &mut [Col], columns: &[u32], news: &[Col])
    requires { AllByRecursion (λ c. c < length here.old) columns.now }
    ensures { here.new ≡ written_over here.old columns.now news.now }
{
    for i in 0..columns.len() {
        if i >= news.len() {
            return;
        }
        here[columns[i] as usize] = news[i];
    }
}

/// The versions at these columns.
pub(crate) fn picked(alloc: Global, here: &[Col], columns: &[u32]) -> Result<Vec<Col>, AllocError>
    requires { AllByRecursion (λ c. c < length here.now) columns.now }
    ensures { IfOk result (λ v. v.items ≡ map (slice_index here.now) columns.now) }
{
    let mut versions = Vec::with_capacity(alloc, columns.len())?;
    for column in columns {
        versions.push(here[*column as usize])?;
    }
    Ok(versions)
}

/// The versions at the entry of a callee, whose locals and old columns begin at these numbers.
pub(crate) fn entered(
    alloc: Global,
    callee: &[(Column, VarInfo)],
    locals: (usize, usize),
    olds: (usize, usize),
    here: &[Col],
) -> Result<Vec<Col>, AllocError>
    requires numbers { length callee.now ≤ 2 ^ 32 }
    requires globals { length (globals_of callee.now) ≤ length here.now }
    requires local_count { locals.1 ≡ length (local_columns callee.now) }
    requires old_count { olds.1 ≡ length (old_part callee.now) }
    requires locals_fit { locals.0 + locals.1 ≤ 2 ^ 32 }
    requires olds_fit { olds.0 + olds.1 ≤ 2 ^ 32 }
    ensures { IfOk result (λ v. v.items ≡ entered_versions callee.now locals.0 olds.0 here.now) }
{
    let globals = global_count(alloc, callee)?;
    let mut entry = Vec::from_slice(alloc, &here[..globals])?;
    add_columns(&mut entry, olds.0, olds.1)?;
    add_columns(&mut entry, locals.0, locals.1)?;
    Ok(entry)
}

/// The versions after a return, from those at the exit and those before the call.
pub(crate) fn returned(
    alloc: Global,
    caller: &[(Column, VarInfo)],
    callee: &[(Column, VarInfo)],
    targets: &[u32],
    exit: &[Col],
    before: &[Col],
) -> Result<Vec<Col>, AllocError>
    requires caller_numbers { length caller.now ≤ 2 ^ 32 }
    requires callee_numbers { length callee.now ≤ 2 ^ 32 }
    requires in_exit { length (globals_of caller.now) ≤ length exit.now }
    requires in_before { length (globals_of caller.now) ≤ length before.now }
    requires results { AllByRecursion (λ c. c < length exit.now) (result_columns callee.now) }
    requires targets { AllByRecursion (λ c. c < length before.now) targets.now }
    ensures { IfOk result (λ v. v.items ≡ returned caller.now callee.now targets.now exit.now before.now) }
{
    let globals = global_count(alloc, caller)?;
    let mut after = Vec::from_slice(alloc, &exit[..globals])?;
    after.extend_from_slice(&before[globals..])?;
    write_results(alloc, callee, targets, exit, after.as_mut_slice())?;
    Ok(after)
}

/// How many constants and globals a frame has.
fn global_count(alloc: Global, frame: &[(Column, VarInfo)]) -> Result<usize, AllocError>
    requires { length frame.now ≤ 2 ^ 32 }
    ensures { IfOk result (λ n. n ≡ length (globals_of frame.now)) }
{
    let globals = numbers_of(alloc, frame, Class::Global)?;
    Ok(globals.len())
}

/// Writes the results of a callee over the targets.
fn write_results(
    alloc: Global,
    callee: &[(Column, VarInfo)],
    targets: &[u32],
    exit: &[Col],
    after: &mut [Col],
) -> Result<(), AllocError>
    requires numbers { length callee.now ≤ 2 ^ 32 }
    requires results { AllByRecursion (λ c. c < length exit.now) (result_columns callee.now) }
    requires targets { AllByRecursion (λ c. c < length after.old) targets.now }
    ensures { OnOk result (after.new ≡ written_over after.old targets.now (map (slice_index exit.now) (result_columns callee.now))) }
{
    let results = numbers_of(alloc, callee, Class::Outcome)?;
    let news = picked(alloc, exit, &results)?;
    write_over(after, targets, &news);
    Ok(())
}
