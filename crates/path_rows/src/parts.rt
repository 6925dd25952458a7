//! What letters make: their rows, how many columns, and the versions after them.

ghost use Rattle.std.specs.Prelude.{◌≡◌, ◌+◌, ◌<◌, ◌≤◌, ◌^◌, [], ◌++◌, IfOk, OnOk, length, map, slice_index};
ghost use Rattle.std.specs.List.{AllByRecursion};
ghost use Rattle.letter_acts.specs.Frames.{variables_of};
ghost use Rattle.letter_acts.specs.FrameRows.Rows.{renamed, bounds, types_at, types_of, columns_from, RowsAreNamed};
ghost use Rattle.path_rows.specs.Versions.{inside_part, call_part, written_over, entered_versions, entry_rows, local_columns, old_part};
ghost use Rattle.path_rows.specs.Stages.{InsideFits, CallFits};
ghost use Rattle.path_rows.specs.Drafts.{IsMade};

use crate::rows::entry_rows;
use crate::versions::{entered, picked, write_over};
use boogie_tree::{Column, Ty, VarInfo};
use letter_acts::frame_rows::{
    Class, add_columns, bound_rows, numbers_of, renamed_rows, types_at, types_in,
};
use lin_rows::{Col, Row};
use std::alloc::{AllocError, Global};

/// What a letter makes.
#[derive(Drop)]
pub(crate) struct Made {
    pub(crate) rows: Vec<Row>,
    /// How many columns.
    pub(crate) columns: usize,
    /// The versions of the frame's columns after the letter.
    pub(crate) here: Vec<Col>,
}

impl Made {
    /// No rows and no columns, and these versions.
    pub(crate) fn nothing(alloc: Global, here: Vec<Col>) -> Self
        ensures rows { result.rows.items ≡ [] }
        ensures columns { result.columns ≡ 0 }
        ensures here { result.here.items ≡ here.items }
    {
        Made {
            rows: Vec::new(alloc),
            columns: 0,
            here,
        }
    }
}

/// The greatest number of columns that numbers tell apart.
pub(crate) const MOST_COLUMNS: usize = 4294967296;

/// What an inside letter makes. Where its columns get no number any more, no memory is left for them.
pub(crate) fn inside_part(
    alloc: Global,
    frame: &[(Column, VarInfo)],
    written: &[u32],
    helpers: u32,
    rows: &[Row],
    made: usize,
    here: &[Col],
) -> Result<Made, AllocError>
    requires fits { InsideFits written.now helpers rows.now made here.now }
    requires room { made ≤ 2 ^ 32 }
    ensures value { IfOk result (IsMade (inside_part frame.now written.now helpers rows.now (record { made = made; here = here.now; saved = [] }))) }
    ensures room { IfOk result (λ m. made + m.columns ≤ 2 ^ 32) }
{
    let columns = written.len() + helpers as usize;
    if columns > MOST_COLUMNS - made {
        return Err(AllocError);
    }
    let mut all_rows = inside_rows(alloc, rows, made, columns, here)?;
    add_written_bounds(alloc, frame, written, made, &mut all_rows)?;
    let after = versions_after(alloc, written, made, here)?;
    Ok(Made {
        rows: all_rows,
        columns,
        here: after,
    })
}

/// The rows, by the versions and so many columns from a number on.
fn inside_rows(
    alloc: Global,
    rows: &[Row],
    from: usize,
    columns: usize,
    here: &[Col],
) -> Result<Vec<Row>, AllocError>
    requires fits { from + columns ≤ 2 ^ 32 }
    requires named { RowsAreNamed (here.now ++ columns_from from columns) rows.now }
    ensures { IfOk result (λ v. v.items ≡ map (renamed (slice_index (here.now ++ columns_from from columns))) rows.now) }
{
    let mut names = Vec::from_slice(alloc, here)?;
    add_columns(&mut names, from, columns)?;
    renamed_rows(alloc, rows, &names)
}

/// Adds the bounds of columns that have these types, from a number on.
fn add_bound_rows(
    alloc: Global,
    first: usize,
    types: &[Option<Ty>],
    all_rows: &mut Vec<Row>,
) -> Result<(), AllocError>
    requires { first + length types.now ≤ 2 ^ 32 }
    ensures { OnOk result (all_rows.new.items ≡ all_rows.old.items ++ bounds first types.now) }
{
    let mut bounds = bound_rows(alloc, first, types)?;
    all_rows.append(&mut bounds)?;
    Ok(())
}

/// Adds the bounds of what is written, which is made from a number on.
fn add_written_bounds(
    alloc: Global,
    frame: &[(Column, VarInfo)],
    written: &[u32],
    made: usize,
    all_rows: &mut Vec<Row>,
) -> Result<(), AllocError>
    requires { made + length written.now ≤ 2 ^ 32 }
    ensures { OnOk result (all_rows.new.items ≡ all_rows.old.items ++ bounds made (types_at frame.now written.now)) }
{
    let types = types_at(alloc, frame, written)?;
    add_bound_rows(alloc, made, &types, all_rows)
}

/// The versions with new ones, from a number on, over those that are written.
fn versions_after(
    alloc: Global,
    written: &[u32],
    made: usize,
    here: &[Col],
) -> Result<Vec<Col>, AllocError>
    requires within { AllByRecursion (λ c. c < length here.now) written.now }
    requires fits { made + length written.now ≤ 2 ^ 32 }
    ensures { IfOk result (λ v. v.items ≡ written_over here.now written.now (columns_from made (length written.now))) }
{
    let mut after = Vec::from_slice(alloc, here)?;
    write_news(alloc, after.as_mut_slice(), written, made)?;
    Ok(after)
}

/// Writes new versions, from a number on, over those that are written.
fn write_news(
    alloc: Global,
    here: &mut [Col],
    written: &[u32],
    made: usize,
) -> Result<(), AllocError>
    requires within { AllByRecursion (λ c. c < length here.old) written.now }
    requires fits { made + length written.now ≤ 2 ^ 32 }
    ensures { OnOk result (here.new ≡ written_over here.old written.now (columns_from made (length written.now))) }
{
    let mut news = Vec::new(alloc);
    add_columns(&mut news, made, written.len())?;
    write_over(here, written, &news);
    Ok(())
}

/// The types of the columns that a call makes for its callee.
#[derive(Drop)]
struct CalleeTypes {
    locals: Vec<Option<Ty>>,
    olds: Vec<Option<Ty>>,
}

/// The types of the columns that a call of this frame makes.
fn callee_types(alloc: Global, callee: &[(Column, VarInfo)]) -> Result<CalleeTypes, AllocError>
    ensures locals { IfOk result (λ t. t.locals.items ≡ types_of (local_columns callee.now)) }
    ensures olds { IfOk result (λ t. t.olds.items ≡ types_of (old_part callee.now)) }
{
    let locals = types_in(alloc, callee, Class::Local)?;
    let olds = types_in(alloc, callee, Class::Old)?;
    Ok(CalleeTypes { locals, olds })
}

/// What a call makes. Where its columns get no number any more, no memory is left for them.
pub(crate) fn call_part(
    alloc: Global,
    callee: &[(Column, VarInfo)],
    helpers: u32,
    rows: &[Row],
    made: usize,
    here: &[Col],
) -> Result<Made, AllocError>
    requires fits { CallFits callee.now helpers rows.now made here.now }
    requires room { made ≤ 2 ^ 32 }
    ensures value { IfOk result (IsMade (call_part callee.now helpers rows.now (record { made = made; here = here.now; saved = [] }))) }
    ensures room { IfOk result (λ m. made + m.columns ≤ 2 ^ 32) }
{
    let types = callee_types(alloc, callee)?;
    call_made(alloc, callee, &types, helpers, rows, made, here)
}

/// What a call makes whose callee has these types.
fn call_made(
    alloc: Global,
    callee: &[(Column, VarInfo)],
    types: &CalleeTypes,
    helpers: u32,
    rows: &[Row],
    made: usize,
    here: &[Col],
) -> Result<Made, AllocError>
    requires locals { types.now.locals.items ≡ types_of (local_columns callee.now) }
    requires olds { types.now.olds.items ≡ types_of (old_part callee.now) }
    requires fits { CallFits callee.now helpers rows.now made here.now }
    requires room { made ≤ 2 ^ 32 }
    ensures value { IfOk result (IsMade (call_part callee.now helpers rows.now (record { made = made; here = here.now; saved = [] }))) }
    ensures room { IfOk result (λ m. made + m.columns ≤ 2 ^ 32) }
{
    let locals = types.locals.len();
    let columns = locals + helpers as usize + types.olds.len();
    if columns > MOST_COLUMNS - made {
        return Err(AllocError);
    }
    let olds = made + locals + helpers as usize;
    let entry = entered(
        alloc,
        callee,
        (made, locals),
        (olds, types.olds.len()),
        here,
    )?;
    let mut all_rows = named_rows(alloc, rows, &entry, (made + locals, helpers), here)?;
    add_made_rows(alloc, callee, types, (made, olds), here, &mut all_rows)?;
    Ok(Made {
        rows: all_rows,
        columns,
        here: entry,
    })
}

/// The rows of a call, by the versions before it, those at the entry, and so many helpers from a number on.
fn named_rows(
    alloc: Global,
    rows: &[Row],
    entry: &[Col],
    helpers: (usize, u32),
    here: &[Col],
) -> Result<Vec<Row>, AllocError>
    requires fits { helpers.0 + helpers.1 ≤ 2 ^ 32 }
    requires named { RowsAreNamed (here.now ++ (entry.now ++ columns_from helpers.0 helpers.1)) rows.now }
    ensures { IfOk result (λ v. v.items ≡ map (renamed (slice_index (here.now ++ (entry.now ++ columns_from helpers.0 helpers.1)))) rows.now) }
{
    let mut names = Vec::from_slice(alloc, here)?;
    add_names(&mut names, entry, helpers)?;
    renamed_rows(alloc, rows, &names)
}

/// Adds the versions at the entry, and so many helpers from a number on.
fn add_names(names: &mut Vec<Col>, entry: &[Col], helpers: (usize, u32)) -> Result<(), AllocError>
    requires { helpers.0 + helpers.1 ≤ 2 ^ 32 }
    ensures { OnOk result (names.new.items ≡ names.old.items ++ (entry.now ++ columns_from helpers.0 helpers.1)) }
{
    names.extend_from_slice(entry)?;
    add_columns(names, helpers.0, helpers.1 as usize)
}

/// Adds the entry rows of a callee, and the bounds of its locals and old columns, which begin at these numbers.
fn add_made_rows(
    alloc: Global,
    callee: &[(Column, VarInfo)],
    types: &CalleeTypes,
    starts: (usize, usize),
    here: &[Col],
    all_rows: &mut Vec<Row>,
) -> Result<(), AllocError>
    requires counted { length callee.now ≤ 2 ^ 32 }
    requires variables { AllByRecursion (λ c. c < length here.now) (variables_of callee.now) }
    requires entries_fit { starts.1 + length (variables_of callee.now) ≤ 2 ^ 32 }
    requires locals_fit { starts.0 + length types.now.locals.items ≤ 2 ^ 32 }
    requires olds_fit { starts.1 + length types.now.olds.items ≤ 2 ^ 32 }
    ensures { OnOk result (all_rows.new.items ≡ all_rows.old.items
        ++ (entry_rows starts.1 (map (slice_index here.now) (variables_of callee.now))
        ++ (bounds starts.0 types.now.locals.items ++ bounds starts.1 types.now.olds.items))) }
{
    add_entry_rows(alloc, callee, starts.1, here, all_rows)?;
    add_bound_rows(alloc, starts.0, &types.locals, all_rows)?;
    add_bound_rows(alloc, starts.1, &types.olds, all_rows)
}

/// Adds the entry rows of a callee, whose old columns begin at this number.
fn add_entry_rows(
    alloc: Global,
    callee: &[(Column, VarInfo)],
    olds: usize,
    here: &[Col],
    all_rows: &mut Vec<Row>,
) -> Result<(), AllocError>
    requires counted { length callee.now ≤ 2 ^ 32 }
    requires variables { AllByRecursion (λ c. c < length here.now) (variables_of callee.now) }
    requires fits { olds + length (variables_of callee.now) ≤ 2 ^ 32 }
    ensures { OnOk result (all_rows.new.items ≡ all_rows.old.items ++ entry_rows olds (map (slice_index here.now) (variables_of callee.now))) }
{
    let variables = numbers_of(alloc, callee, Class::Variable)?;
    push_entry_rows(alloc, &variables, olds, here, all_rows)
}

/// Adds rows that say that each column from a number on equals the version of one of these columns.
fn push_entry_rows(
    alloc: Global,
    variables: &[u32],
    olds: usize,
    here: &[Col],
    all_rows: &mut Vec<Row>,
) -> Result<(), AllocError>
    requires within { AllByRecursion (λ c. c < length here.now) variables.now }
    requires fits { olds + length variables.now ≤ 2 ^ 32 }
    ensures { OnOk result (all_rows.new.items ≡ all_rows.old.items ++ entry_rows olds (map (slice_index here.now) variables.now)) }
{
    let globals = picked(alloc, here, variables)?;
    let mut entries = entry_rows(alloc, olds, &globals)?;
    all_rows.append(&mut entries)?;
    Ok(())
}
