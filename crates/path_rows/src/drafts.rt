//! Paths that are being made, letter by letter.

ghost use Rattle.std.specs.Prelude.{◌≡◌, ◌+◌, ◌<◌, ◌≤◌, ◌^◌, ◌++◌, [], ◌∷◌, Some, IfOk, OnOk, length, map, slice_get};
ghost use Rattle.letter_acts.specs.Invariant.{alphabet_of};
ghost use Rattle.letter_acts.specs.Kept.{Keeps};
ghost use Rattle.path_rows.specs.Paths.{repeated};
ghost use Rattle.path_rows.specs.Stages.{BackFitsFrom, returned_from};
ghost use Rattle.letter_acts.specs.FrameRows.Rows.{bounds, types_of, columns_from};

use crate::parts::{MOST_COLUMNS, Made, call_part, inside_part};
use crate::times::add_times;
use crate::versions::returned;
use boogie_tree::{Column, VarInfo};
use letter_acts::frame_rows::{add_columns, bound_rows, types_of};
use letter_acts::{Act, Icfg};
use lin_rows::{Col, Row};
use nwa_base::Letter;
use std::alloc::{AllocError, Global};
use std::mem::replace;

/// A path that is being made.
#[derive(Drop)]
pub(crate) struct Draft {
    /// How many columns are made.
    pub(crate) made: usize,
    /// The versions of the present frame's columns.
    pub(crate) here: Vec<Col>,
    /// The versions before the open calls, the innermost last.
    pub(crate) saved: Vec<Vec<Col>>,
    pub(crate) rows: Vec<Row>,
    pub(crate) row_at: Vec<u32>,
    pub(crate) column_at: Vec<u32>,
    /// The versions at the positions before.
    pub(crate) states: Vec<Vec<Col>>,
}

impl Draft {
    ghost use Rattle.path_rows.specs.Versions.{inside_part, call_part, return_part, part_of};
    ghost use Rattle.path_rows.specs.Stages.{InsideFits, CallFits, BackReady, GoesOnBy};
    ghost use Rattle.path_rows.specs.Drafts.{IsStart, Added, Reads, stage_of};

    /// The path of no letter, at the start in a frame. No memory is left where its columns get no number any more.
    pub(crate) fn start(alloc: Global, frame: &[(Column, VarInfo)]) -> Result<Draft, AllocError>
        ensures { IfOk result (IsStart frame.now) }
    {
        if frame.len() > MOST_COLUMNS {
            return Err(AllocError);
        }
        let rows = start_rows(alloc, frame)?;
        let mut draft = Draft {
            made: frame.len(),
            here: Vec::new(alloc),
            saved: Vec::new(alloc),
            rows,
            row_at: Vec::new(alloc),
            column_at: Vec::new(alloc),
            states: Vec::new(alloc),
        };
        draft.number_all()?;
        Ok(draft)
    }

    /// Adds the versions at the start, and says that no letter made the rows and columns.
    fn number_all(&mut self) -> Result<(), AllocError>
        requires { self.old.made ≤ 2 ^ 32 }
        ensures here { OnOk result (self.new.here.items ≡ self.old.here.items ++ columns_from 0 self.old.made) }
        ensures row_at { OnOk result (self.new.row_at.items ≡ self.old.row_at.items ++ repeated 0 (length self.old.rows.items)) }
        ensures column_at { OnOk result (self.new.column_at.items ≡ self.old.column_at.items ++ repeated 0 self.old.made) }
        ensures made { self.new.made ≡ self.old.made }
        ensures rows { self.new.rows ≡ self.old.rows }
        ensures saved { self.new.saved ≡ self.old.saved }
        ensures states { self.new.states ≡ self.old.states }
    {
        add_times(&mut self.row_at, 0, self.rows.len())?;
        add_times(&mut self.column_at, 0, self.made)?;
        add_columns(&mut self.here, 0, self.made)
    }

    /// Adds what a letter of this number made.
    fn add(&mut self, number: u32, made: Made) -> Result<(), AllocError>
        requires { self.old.made + made.columns ≤ 2 ^ 32 }
        ensures { OnOk result (Added made.rows.items made.columns made.here.items number self.old self.new) }
    {
        let Made {
            mut rows,
            columns,
            here,
        } = made;
        self.go_to(here)?;
        self.add_rows(number, &mut rows, columns)
    }

    /// Adds rows and columns that a letter of this number made.
    fn add_rows(
        &mut self,
        number: u32,
        rows: &mut Vec<Row>,
        columns: usize,
    ) -> Result<(), AllocError>
        requires { self.old.made + columns ≤ 2 ^ 32 }
        ensures made { OnOk result (self.new.made ≡ self.old.made + columns) }
        ensures rows { OnOk result (self.new.rows.items ≡ self.old.rows.items ++ rows.old.items) }
        ensures row_at { OnOk result (self.new.row_at.items ≡ self.old.row_at.items ++ repeated number (length rows.old.items)) }
        ensures column_at { OnOk result (self.new.column_at.items ≡ self.old.column_at.items ++ repeated number columns) }
        ensures here { self.new.here ≡ self.old.here }
        ensures saved { self.new.saved ≡ self.old.saved }
        ensures states { self.new.states ≡ self.old.states }
    {
        add_times(&mut self.row_at, number, rows.len())?;
        add_times(&mut self.column_at, number, columns)?;
        self.rows.append(rows)?;
        self.made += columns;
        Ok(())
    }

    /// Goes on with these versions.
    fn go_to(&mut self, here: Vec<Col>) -> Result<(), AllocError>
        ensures here { OnOk result (self.new.here.items ≡ here.items) }
        ensures states { OnOk result (map (λ v. v.items) self.new.states.items ≡ map (λ v. v.items) self.old.states.items ++ self.old.here.items ∷ []) }
        ensures made { self.new.made ≡ self.old.made }
        ensures rows { self.new.rows ≡ self.old.rows }
        ensures saved { self.new.saved ≡ self.old.saved }
        ensures row_at { self.new.row_at ≡ self.old.row_at }
        ensures column_at { self.new.column_at ≡ self.old.column_at }
    {
        self.states.push(replace(&mut self.here, here))?;
        Ok(())
    }

    /// Reads an inside letter.
    fn read_inside(
        &mut self,
        alloc: Global,
        frame: &[(Column, VarInfo)],
        written: &[u32],
        helpers: u32,
        rows: &[Row],
        number: u32,
    ) -> Result<(), AllocError>
        requires fits { InsideFits written.now helpers rows.now self.old.made self.old.here.items }
        requires room { self.old.made ≤ 2 ^ 32 }
        ensures value { OnOk result (Reads (inside_part frame.now written.now helpers rows.now (stage_of self.old)) number self.old self.new) }
        ensures room { OnOk result (self.new.made ≤ 2 ^ 32) }
    {
        let made = inside_part(alloc, frame, written, helpers, rows, self.made, &self.here)?;
        self.add(number, made)
    }

    /// Reads a call letter.
    fn read_call(
        &mut self,
        alloc: Global,
        callee: &[(Column, VarInfo)],
        helpers: u32,
        rows: &[Row],
        number: u32,
    ) -> Result<(), AllocError>
        requires fits { CallFits callee.now helpers rows.now self.old.made self.old.here.items }
        requires room { self.old.made ≤ 2 ^ 32 }
        ensures value { OnOk result (Reads (call_part callee.now helpers rows.now (stage_of self.old)) number self.old self.new) }
        ensures room { OnOk result (self.new.made ≤ 2 ^ 32) }
    {
        let made = call_part(alloc, callee, helpers, rows, self.made, &self.here)?;
        let before = Vec::from_slice(alloc, &self.here)?;
        self.saved.push(before)?;
        self.add(number, made)
    }

    /// Reads a return from a call of this letter.
    fn read_back(
        &mut self,
        alloc: Global,
        icfg: &Icfg,
        call: u32,
        targets: &[u32],
        number: u32,
    ) -> Result<(), AllocError>
        requires fits { BackReady (alphabet_of icfg.now) targets.now (slice_get icfg.now.acts call) (stage_of self.old) }
        requires room { self.old.made ≤ 2 ^ 32 }
        ensures value { OnOk result (Reads (return_part (alphabet_of icfg.now) targets.now (slice_get icfg.now.acts call) (stage_of self.old)) number self.old self.new) }
        ensures room { OnOk result (self.new.made ≤ 2 ^ 32) }
    {
        let Some(before) = self.saved.pop() else {
            unreachable!()
        };
        let here = returned_from(alloc, icfg, call, targets, &self.here, &before)?;
        self.add(number, Made::nothing(alloc, here))
    }

    /// Reads a letter of the word, which has this number.
    pub(crate) fn read(
        &mut self,
        alloc: Global,
        icfg: &Icfg,
        letter: Letter,
        number: u32,
    ) -> Result<(), AllocError>
        requires valid { Keeps icfg.now }
        requires goes { GoesOnBy icfg.now letter (stage_of self.old) }
        requires room { self.old.made ≤ 2 ^ 32 }
        ensures value { OnOk result (Reads (part_of (alphabet_of icfg.now) letter (stage_of self.old)) number self.old self.new) }
        ensures room { OnOk result (self.new.made ≤ 2 ^ 32) }
    {
        match icfg.act_at(letter.id) {
            Act::Inside {
                proc,
                written,
                helpers,
                rows,
                ..
            } => {
                let frame = icfg.columns(*proc);
                self.read_inside(alloc, frame, written, *helpers, rows, number)
            }
            Act::Call {
                callee,
                helpers,
                rows,
                ..
            } => {
                let frame = icfg.columns(*callee);
                self.read_call(alloc, frame, *helpers, rows, number)
            }
            Act::Back { call, targets } => { self.read_back(alloc, icfg, *call, targets, number) }
        }
    }
}

/// The bounds of the columns of the frame at the start.
fn start_rows(alloc: Global, frame: &[(Column, VarInfo)]) -> Result<Vec<Row>, AllocError>
    requires { length frame.now ≤ 2 ^ 32 }
    ensures { IfOk result (λ v. v.items ≡ bounds 0 (types_of frame.now)) }
{
    let types = types_of(alloc, frame)?;
    bound_rows(alloc, 0, &types)
}

/// The versions after a return from a call of this letter.
fn returned_from(
    alloc: Global,
    icfg: &Icfg,
    call: u32,
    targets: &[u32],
    exit: &[Col],
    before: &[Col],
) -> Result<Vec<Col>, AllocError>
    requires { BackFitsFrom (alphabet_of icfg.now) targets.now (slice_get icfg.now.acts call) exit.now before.now }
    ensures { IfOk result (λ v. v.items ≡ returned_from (alphabet_of icfg.now) targets.now (slice_get icfg.now.acts call) exit.now before.now) }
{
    match icfg.act_at(call) {
        Act::Call { caller, callee, .. } => returned(
            alloc,
            icfg.columns(*caller),
            icfg.columns(*callee),
            targets,
            exit,
            before,
        ),
        Act::Inside { .. } | Act::Back { .. } => unreachable!(),
    }
}
