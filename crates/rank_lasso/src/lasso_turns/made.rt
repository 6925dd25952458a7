//! Turns that are made letter by letter.

ghost use Rattle.std.specs.Prelude.{◌≡◌, ◌+◌, ◌<◌, ◌≤◌, ◌^◌, ◌++◌, ◌∷◌, [], IfOk, OnOk, length, map, slice_index};
ghost use Rattle.std.specs.List.{AllByRecursion};
ghost use Rattle.letter_acts.specs.Acts.{frame_of};
ghost use Rattle.letter_acts.specs.Invariant.{alphabet_of};
ghost use Rattle.letter_acts.specs.Kept.{Keeps};
ghost use Rattle.letter_acts.specs.FrameRows.Rows.{renamed, bounds, types_at, types_of, columns_from, RowsAreNamed};
ghost use Rattle.path_rows.specs.Versions.{written_over};

use boogie_tree::{Column, VarInfo};
use letter_acts::frame_rows::{add_columns, bound_rows, renamed_rows, types_at, types_of};
use letter_acts::{Act, Icfg};
use lin_rows::{Col, Row};
use std::alloc::{AllocError, Global};

/// A turn: the rows of the letters that it has read so far.
#[derive(Drop)]
pub struct MadeTurn {
    pub rows: Vec<Row>,
    /// How many columns are made.
    pub made: usize,
    /// How many columns the frame has. Its versions before the first letter are the first columns.
    pub width: usize,
    /// The versions of the frame's columns behind the last letter.
    pub here: Vec<Col>,
}

/// The greatest number of columns that numbers tell apart.
const MOST_COLUMNS: usize = 4294967296;

impl MadeTurn {
    ghost use Rattle.path_rows.specs.Versions.{inside_part, part_of};
    ghost use Rattle.path_rows.specs.Paths.{first_stage};
    ghost use Rattle.path_rows.specs.Stages.{InsideFits};
    ghost use Rattle.rank_lasso.specs.LassoTurns.Turns.{inside_letter, AreInside};
    ghost use Rattle.rank_lasso.specs.LassoTurns.Stages.{StageIs};
    ghost use Rattle.rank_lasso.specs.LassoTurns.Made.{stage_of, Reads};

    /// The turn of no letter. No memory is left where the columns of the frame get no number any more.
    pub(crate) fn start(alloc: Global, frame: &[(Column, VarInfo)]) -> Result<MadeTurn, AllocError>
        ensures stage { IfOk result (λ d. stage_of d ≡ first_stage frame.now) }
        ensures rows { IfOk result (λ d. d.rows.items ≡ bounds 0 (types_of frame.now)) }
        ensures width { IfOk result (λ d. d.width ≡ length frame.now) }
        ensures room { IfOk result (λ d. d.made ≤ 2 ^ 32) }
    {
        let width = frame.len();
        if width > MOST_COLUMNS {
            return Err(AllocError);
        }
        let types = types_of(alloc, frame)?;
        let rows = bound_rows(alloc, 0, &types)?;
        let mut here = Vec::new(alloc);
        add_columns(&mut here, 0, width)?;
        Ok(MadeTurn {
            rows,
            made: width,
            width,
            here,
        })
    }

    /// Reads an inside letter that does this. No memory is left where its columns get no number any more.
    fn read_inside(
        &mut self,
        alloc: Global,
        frame: &[(Column, VarInfo)],
        written: &[u32],
        helpers: u32,
        rows: &[Row],
    ) -> Result<(), AllocError>
        requires fits { InsideFits written.now helpers rows.now self.old.made self.old.here.items }
        requires room { self.old.made ≤ 2 ^ 32 }
        ensures value { OnOk result (Reads (inside_part frame.now written.now helpers rows.now (stage_of self.old)) self.old self.new) }
        ensures room { OnOk result (self.new.made ≤ 2 ^ 32) }
    {
        let columns = written.len() + helpers as usize;
        if columns > MOST_COLUMNS - self.made {
            return Err(AllocError);
        }
        self.add_rows(alloc, frame, written, columns, rows)?;
        write_from(self.made, written, self.here.as_mut_slice());
        self.made += columns;
        Ok(())
    }

    /// Adds the rows of an inside letter that makes so many columns, and the bounds of what it writes.
    fn add_rows(
        &mut self,
        alloc: Global,
        frame: &[(Column, VarInfo)],
        written: &[u32],
        columns: usize,
        rows: &[Row],
    ) -> Result<(), AllocError>
        requires counted { length written.now ≤ columns }
        requires room { self.old.made + columns ≤ 2 ^ 32 }
        requires named { RowsAreNamed (self.old.here.items ++ columns_from self.old.made columns) rows.now }
        ensures rows { OnOk result (self.new.rows.items ≡ self.old.rows.items
            ++ (map (renamed (slice_index (self.old.here.items ++ columns_from self.old.made columns))) rows.now ++ bounds self.old.made (types_at frame.now written.now))) }
        ensures made { self.new.made ≡ self.old.made }
        ensures width { self.new.width ≡ self.old.width }
        ensures here { self.new.here ≡ self.old.here }
    {
        let mut names = Vec::from_slice(alloc, &self.here)?;
        add_columns(&mut names, self.made, columns)?;
        let mut own = renamed_rows(alloc, rows, &names)?;
        let types = types_at(alloc, frame, written)?;
        let mut bounds = bound_rows(alloc, self.made, &types)?;
        self.rows.append(&mut own)?;
        self.rows.append(&mut bounds)?;
        Ok(())
    }

    /// Reads the inside letter of that number, which is one of the procedure that has this frame. No memory is left where its columns get
    /// no number any more.
    pub(crate) fn read(
        &mut self,
        alloc: Global,
        icfg: &Icfg,
        frame: &[(Column, VarInfo)],
        proc: u32,
        letter: u32,
    ) -> Result<(), AllocError>
        requires valid { Keeps icfg.now }
        requires frame { frame.now ≡ frame_of (alphabet_of icfg.now) proc }
        requires inside { AreInside (alphabet_of icfg.now) proc (letter ∷ []) }
        requires stage { StageIs frame.now (stage_of self.old) }
        requires room { self.old.made ≤ 2 ^ 32 }
        ensures value { OnOk result (Reads (part_of (alphabet_of icfg.now) (inside_letter letter) (stage_of self.old)) self.old self.new) }
        ensures room { OnOk result (self.new.made ≤ 2 ^ 32) }
    {
        match icfg.act_at(letter) {
            Act::Inside {
                written,
                helpers,
                rows,
                ..
            } => self.read_inside(alloc, frame, written, *helpers, rows),
            Act::Call { .. } | Act::Back { .. } => unreachable!(),
        }
    }
}

/// Writes the columns from a number on over those that are written, in order.
fn write_from(from: usize, written: &[u32], here: &mut [Col])
    requires within { AllByRecursion (λ c. c < length here.old) written.now }
    requires fits { from + length written.now ≤ 2 ^ 32 }
    ensures { here.new ≡ written_over here.old written.now (columns_from from (length written.now)) }
{
    for (i, column) in written.iter().enumerate() {
        here[*column as usize] = (from + i) as u32;
    }
}
