//! The positions behind the letters of a word: their places, and the values that the point has there.

ghost use Rattle.std.specs.Prelude.{◌≡◌, ◌+◌, ◌≤◌, ◌^◌, None, Some, map, length, filter, IfOk};
ghost use Rattle.std.specs.Option.{option_map};
ghost use Rattle.std.specs.List.{AllByRecursion};
ghost use Rattle.math_facts.specs.Fits.{Fits};
ghost use Rattle.lin_rows.specs.Points.{point_of};
ghost use Rattle.nwa_base.specs.Letters.{same_letter};
ghost use Rattle.nwa_base.specs.Runs.{IsAcceptingRun};
ghost use Rattle.letter_acts.specs.Acts.{plain_act, kind_of, call_of, act_of};
ghost use Rattle.letter_acts.specs.Frames.{is_local};
ghost use Rattle.letter_acts.specs.Invariant.{alphabet_of};
ghost use Rattle.path_rows.specs.Paths.{path_of};
ghost use Rattle.path_rows.specs.Solutions.{read};
ghost use Rattle.letter_acts.specs.FrameRows.Frames.{is_old};
ghost use Rattle.trace_replay.specs.PathTraces.Solved.{helper_columns, next_positions};
ghost use Rattle.trace_replay.specs.ToldChoices.Telling.{PositionFits};
ghost use Rattle.trace_replay.specs.ToldChoices.Ties.Made.{columns_made, helpers_end};
ghost use Rattle.trace_replay.specs.ToldChoices.Ties.Views.{plain_position, plain_positions};

use crate::told_choices::frames::frame_at;
use crate::told_choices::values::{values_from, values_of};
use boogie_tree::{Column, VarInfo};
use letter_acts::{Act, Icfg};
use lin_rows::Col;
use nwa_base::{Kind, Letter, Word};
use path_rows::rows_of;
use std::alloc::{AllocError, Global};

/// A position of a word.
#[derive(Drop)]
pub(crate) struct Position {
    /// The state of the run.
    pub(crate) place: u32,
    /// The values of the frame's columns.
    pub(crate) values: Vec<i128>,
    /// Those of the helpers of the letter before it, if it is an inside letter.
    pub(crate) helpers: Vec<i128>,
}

/// Whether a letter is the one that an act with its number makes.
fn has_act(letter: Letter, act: &Act) -> bool
    ensures { result ≡ same_letter letter (record { id = letter.id; kind = kind_of (plain_act act.now); call = call_of (plain_act act.now) }) }
{
    match act {
        Act::Inside { .. } => letter.kind == Kind::Inside && letter.call == 0,
        Act::Call { .. } => letter.kind == Kind::Call && letter.call == 0,
        Act::Back { call, .. } => letter.kind == Kind::Back && letter.call == *call,
    }
}

/// The act of a letter, if the letter is one of the alphabet.
fn act_of(icfg: &Icfg, letter: Letter) -> Option<&Act>
    ensures { option_map (λ a. plain_act a.now) result ≡ act_of (alphabet_of icfg.now) letter }
{
    let act = icfg.acts().get(letter.id as usize)?;
    if has_act(letter, act) {
        Some(act)
    } else {
        None
    }
}

/// How many columns an entry makes: for the parameters, results and locals, and for the old values.
fn entry_columns(frame: &[(Column, VarInfo)]) -> usize
    ensures { result ≡ length (filter is_local frame.now) + length (filter is_old frame.now) }
{
    let mut locals = 0;
    let mut olds = 0;
    for column in frame {
        match column.0 {
            Column::Local(_) => locals += 1,
            Column::Old(_) => olds += 1,
            Column::Global(_) => {}
        }
    }
    locals + olds
}

/// How many columns a letter with this act makes.
fn columns_made(icfg: &Icfg, act: Option<&Act>) -> usize
    requires { columns_made (alphabet_of icfg.now) (option_map (λ a. plain_act a.now) act) ≤ 2 ^ 32 }
    ensures { result ≡ columns_made (alphabet_of icfg.now) (option_map (λ a. plain_act a.now) act.entry) }
{
    match act {
        Some(
            Act::Inside {
                written,
                helpers,
                ..
            },
        ) => written.len() + *helpers as usize,
        Some(
            Act::Call {
                callee,
                helpers,
                ..
            },
        ) => {
            let entry = entry_columns(frame_at(icfg, *callee));
            *helpers as usize + entry
        }
        Some(Act::Back { .. }) | None => 0,
    }
}

/// The values of the helpers of a letter with this act, which makes its columns from this number on.
fn helpers_of(
    alloc: Global,
    act: Option<&Act>,
    made: usize,
    point: &[i128],
) -> Result<Vec<i128>, AllocError>
    requires { helpers_end (option_map (λ a. plain_act a.now) act) made ≤ 2 ^ 32 }
    ensures value { IfOk result (λ v. v.items ≡ read (point_of point.now) (helper_columns (option_map (λ a. plain_act a.now) act.entry) made)) }
    ensures fits { AllByRecursion Fits point.now → IfOk result (λ v. AllByRecursion Fits v.items) }
{
    match act {
        Some(
            Act::Inside {
                written,
                helpers,
                ..
            },
        ) => { values_from(alloc, point, made + written.len(), *helpers as usize) }
        Some(Act::Call { .. }) | Some(Act::Back { .. }) | None => Ok(Vec::new(alloc)),
    }
}

/// A position with these versions of the frame's columns, behind a letter with this act.
fn behind_letter(
    alloc: Global,
    act: Option<&Act>,
    made: usize,
    place: u32,
    versions: &[Col],
    point: &[i128],
) -> Result<Position, AllocError>
    requires { helpers_end (option_map (λ a. plain_act a.now) act) made ≤ 2 ^ 32 }
    ensures value { IfOk result (λ x. plain_position x ≡ record {
      place = place;
      values = read (point_of point.now) versions.now;
      helpers = read (point_of point.now) (helper_columns (option_map (λ a. plain_act a.now) act.entry) made);
    }) }
    ensures fits { AllByRecursion Fits point.now → IfOk result (λ x. PositionFits (plain_position x)) }
{
    Ok(Position {
        place,
        values: values_of(alloc, point, versions)?,
        helpers: helpers_of(alloc, act, made, point)?,
    })
}

/// The positions behind these letters, along a run, with the versions of the frame's columns at each position of the word.
fn read_positions(
    alloc: Global,
    icfg: &Icfg,
    letters: &[Letter],
    versions: &[Vec<Col>],
    run: &[u32],
    point: &[i128],
) -> Result<Vec<Position>, AllocError>
    requires versions { map (λ v. v.items) versions.now ≡ (path_of icfg.now letters.now).states }
    requires columns { length (path_of icfg.now letters.now).column_at ≤ 2 ^ 32 }
    requires run { length run.now ≡ length letters.now + 1 }
    ensures value { IfOk result (λ v. plain_positions v.items ≡ next_positions (point_of point.now) icfg.now letters.now run.now) }
    ensures fits { AllByRecursion Fits point.now → IfOk result (λ v. AllByRecursion PositionFits (plain_positions v.items)) }
{
    let mut made = versions[0].as_slice().len();
    let mut found = Vec::with_capacity(alloc, letters.len())?;
    for i in 0..letters.len() {
        let act = act_of(icfg, letters[i]);
        let next = behind_letter(alloc, act, made, run[i + 1], &versions[i + 1], point)?;
        found.push(next)?;
        made += columns_made(icfg, act);
    }
    Ok(found)
}

/// The positions behind the letters of a word, along a run.
pub(crate) fn positions_of(
    alloc: Global,
    icfg: &Icfg,
    word: &Word,
    run: &[u32],
    point: &[i128],
) -> Result<Vec<Position>, AllocError>
    requires { IsAcceptingRun icfg.now.automaton word.now run.now }
    ensures value { IfOk result (λ v. plain_positions v.items ≡ next_positions (point_of point.now) icfg.now word.now run.now) }
    ensures fits { AllByRecursion Fits point.now → IfOk result (λ v. AllByRecursion PositionFits (plain_positions v.items)) }
{
    let path = rows_of(alloc, icfg, word)?;
    read_positions(alloc, icfg, word.letters(), path.states(), run, point)
}
