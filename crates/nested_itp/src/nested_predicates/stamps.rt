//! The stamps of a word's rows and columns: from where on each is counted.

ghost use Rattle.std.specs.Prelude.{◌≡◌, ◌<◌, ◌^◌, ◌*◌, ◌++◌, IsSome, IfOk, OnOk, length, filter};
ghost use Rattle.letter_acts.specs.Acts.{act_of};
ghost use Rattle.letter_acts.specs.Invariant.{alphabet_of};
ghost use Rattle.path_rows.specs.Paths.{repeated};
ghost use Rattle.path_rows.specs.Versions.{local_columns, old_part};
ghost use Rattle.nested_itp.specs.NestedPredicates.Walking.{is_bool};

use crate::nested_predicates::acts::{
    act_at, bool_count, bool_count_at, bool_local_count, bool_old_count, local_count, old_count,
    start_proc, variable_count,
};
use boogie_tree::{Column, VarInfo};
use letter_acts::{Act, Icfg};
use nwa_base::Letter;
use path_rows::add_times;
use std::alloc::{AllocError, Global};

/// The stamps of a word's rows and of its columns.
#[derive(Drop)]
pub(crate) struct Stamps {
    pub(crate) rows: Vec<u64>,
    pub(crate) columns: Vec<u64>,
}

/// Adds a stamp twice for each of so many booleans, which have two bounds each.
fn add_bounds(stamps: &mut Vec<u64>, stamp: u64, booleans: usize) -> Result<(), AllocError>
    ensures { OnOk result (stamps.new.items ≡ stamps.old.items ++ (repeated stamp booleans ++ repeated stamp booleans)) }
{
    add_times(stamps, stamp, booleans)?;
    add_times(stamps, stamp, booleans)
}

impl Stamps {
    ghost use Rattle.std.specs.Prelude.{suc};
    ghost use Rattle.letter_acts.specs.Frames.{is_variable};
    ghost use Rattle.nested_itp.specs.NestedPredicates.Stamps.{stamps_of};
    ghost use Rattle.nested_itp.specs.NestedPredicates.Walking.{is_bool_at, AreLetters, ReadsLetter};

    /// Those of a word.
    pub(crate) fn of(alloc: Global, icfg: &Icfg, letters: &[Letter]) -> Result<Stamps, AllocError>
        requires letters { AreLetters (alphabet_of icfg.now) letters.now }
        requires count { length letters.now < 2 ^ 32 }
        ensures rows { IfOk result (λ s. s.rows.items ≡ (stamps_of icfg.now letters.now).rows) }
        ensures columns { IfOk result (λ s. s.columns.items ≡ (stamps_of icfg.now letters.now).columns) }
    {
        let mut stamps = Stamps::start(alloc, icfg.columns(start_proc(icfg)))?;
        for i in 0..letters.len() {
            stamps.read(icfg, letters[i], i as u64 + 1)?;
        }
        Ok(stamps)
    }

    /// Those of no letter.
    fn start(alloc: Global, frame: &[(Column, VarInfo)]) -> Result<Stamps, AllocError>
        ensures rows { IfOk result (λ s. s.rows.items ≡ repeated 2 (length (filter is_bool frame.now)) ++ repeated 2 (length (filter is_bool frame.now))) }
        ensures columns { IfOk result (λ s. s.columns.items ≡ repeated 2 (length frame.now)) }
    {
        let mut rows = Vec::new(alloc);
        add_bounds(&mut rows, 2, bool_count(frame))?;
        let mut columns = Vec::new(alloc);
        add_times(&mut columns, 2, frame.len())?;
        Ok(Stamps { rows, columns })
    }

    /// Adds those of what a letter makes, which has this number.
    fn read(&mut self, icfg: &Icfg, letter: Letter, number: u64) -> Result<(), AllocError>
        requires letter { IsSome (act_of (alphabet_of icfg.now) letter) }
        requires number { number < 2 ^ 62 }
        ensures { OnOk result (ReadsLetter (alphabet_of icfg.now) number letter self.old self.new) }
    {
        match act_at(icfg, letter) {
            Act::Inside {
                proc,
                written,
                helpers,
                rows,
                ..
            } => {
                let frame = icfg.columns(*proc);
                self.read_inside(frame, written, *helpers, rows.len(), 2 * number)
            }
            Act::Call {
                callee,
                helpers,
                rows,
                ..
            } => { self.read_call(icfg.columns(*callee), *helpers, rows.len(), 2 * number) }
            Act::Back { .. } => Ok(()),
        }
    }

    /// Adds those of an inside letter with this stamp.
    fn read_inside(
        &mut self,
        frame: &[(Column, VarInfo)],
        written: &[u32],
        helpers: u32,
        rows: usize,
        stamp: u64,
    ) -> Result<(), AllocError>
        ensures rows { OnOk result (self.new.rows.items ≡ (self.old.rows.items ++ repeated stamp rows) ++ (repeated stamp (length (filter (is_bool_at frame.now) written.now)) ++ repeated stamp (length (filter (is_bool_at frame.now) written.now)))) }
        ensures columns { OnOk result (self.new.columns.items ≡ (self.old.columns.items ++ repeated stamp (length written.now)) ++ repeated stamp helpers) }
    {
        add_times(&mut self.rows, stamp, rows)?;
        add_bounds(&mut self.rows, stamp, bool_count_at(frame, written))?;
        add_times(&mut self.columns, stamp, written.len())?;
        add_times(&mut self.columns, stamp, helpers as usize)
    }

    /// Adds those of a call with this stamp: its own rows and helpers count in the caller.
    fn read_call(
        &mut self,
        callee: &[(Column, VarInfo)],
        helpers: u32,
        rows: usize,
        stamp: u64,
    ) -> Result<(), AllocError>
        requires { stamp < 2 ^ 63 }
        ensures rows { OnOk result (self.new.rows.items ≡ (((self.old.rows.items ++ repeated stamp rows) ++ repeated (suc stamp) (length (filter is_variable callee.now))) ++ (repeated (suc stamp) (length (filter is_bool (local_columns callee.now))) ++ repeated (suc stamp) (length (filter is_bool (local_columns callee.now))))) ++ (repeated (suc stamp) (length (filter is_bool (old_part callee.now))) ++ repeated (suc stamp) (length (filter is_bool (old_part callee.now))))) }
        ensures columns { OnOk result (self.new.columns.items ≡ ((self.old.columns.items ++ repeated (suc stamp) (length (local_columns callee.now))) ++ repeated stamp helpers) ++ repeated (suc stamp) (length (old_part callee.now))) }
    {
        let inner = stamp + 1;
        add_times(&mut self.rows, stamp, rows)?;
        add_times(&mut self.rows, inner, variable_count(callee))?;
        add_bounds(&mut self.rows, inner, bool_local_count(callee))?;
        add_bounds(&mut self.rows, inner, bool_old_count(callee))?;
        add_times(&mut self.columns, inner, local_count(callee))?;
        add_times(&mut self.columns, stamp, helpers as usize)?;
        add_times(&mut self.columns, inner, old_count(callee))
    }
}
