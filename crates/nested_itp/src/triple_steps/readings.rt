//! Where a word has come to, letter by letter.

ghost use Rattle.std.specs.Prelude.{◌≡◌, ◌+◌, IfOk, OnOk, List, IsSome, filter, length};
ghost use Rattle.nwa_base.specs.declared.letters.Letter.{Letter};
ghost use Rattle.letter_acts.specs.Frames.{is_variable};
ghost use Rattle.letter_acts.specs.Acts.{act_of};
ghost use Rattle.letter_acts.specs.Invariant.{Graph, alphabet_of};
ghost use Rattle.path_rows.specs.Versions.{local_columns, old_part};
ghost use Rattle.path_rows.specs.Paths.{start_frame};
ghost use Rattle.nested_itp.specs.NestedRefutations.Numbers.{position_here, read_on, bounds_in};

use crate::nested_predicates::acts::{act_at, local_count, old_count, variable_count};
use crate::triple_steps::bounds::{bounds_at, bounds_in, local_bounds, old_bounds};
use crate::triple_steps::columns::sum;
use boogie_tree::{Column, VarInfo};
use letter_acts::{Act, Icfg};
use nwa_base::Letter;
use std::alloc::{AllocError, Global};

/// A call that is open: the position before it, and how many rows and columns the word has made by then.
#[derive(Clone, Copy)]
pub(crate) struct OpenCall {
    pub(crate) at: usize,
    pub(crate) rows: usize,
    pub(crate) made: usize,
}

/// Where a word has come to: how many letters are read, how many rows and columns they made, and the calls that are open, the
/// innermost last.
#[derive(Drop)]
pub(crate) struct Reading {
    pub(crate) letters: usize,
    pub(crate) rows: usize,
    pub(crate) made: usize,
    pub(crate) calls: Vec<OpenCall>,
}

impl Reading {
    ghost use Rattle.nested_itp.specs.NestedRefutations.Numbers as numbers;
    ghost use Rattle.nested_itp.specs.TripleSteps.Ties.Readings.{IsAt, IsReading, start_reading, PassesInside, PassesCall, PassesBack};

    /// Before the first letter, in this frame.
    pub(crate) fn start(alloc: Global, frame: &[(Column, VarInfo)]) -> Reading
        ensures { (g : Graph) (w : List Letter) → start_frame g ≡ frame.now → IsReading g w (start_reading g) result }
    {
        Reading {
            letters: 0,
            rows: bounds_in(frame),
            made: frame.len(),
            calls: Vec::new(alloc),
        }
    }

    /// Goes on by a letter.
    pub(crate) fn go_on(&mut self, icfg: &Icfg, letter: Letter) -> Result<(), AllocError>
        requires { IsSome (act_of (alphabet_of icfg.now) letter) }
        ensures { OnOk result ((w : List Letter) (rest : List Letter) (r : numbers.Reading) → IsReading icfg.now w r self.old → IsAt icfg.now w r.letters (position_here r) → IsReading icfg.now w (read_on (alphabet_of icfg.now) letter rest r) self.new) }
    {
        match act_at(icfg, letter) {
            Act::Inside {
                proc,
                written,
                helpers,
                rows,
                ..
            } => self.pass_inside(icfg.columns(*proc), written, *helpers, rows.len()),
            Act::Call {
                callee,
                helpers,
                rows,
                ..
            } => self.pass_call(icfg.columns(*callee), *helpers, rows.len()),
            Act::Back { .. } => self.pass_back(),
        }
    }

    /// By an inside letter.
    fn pass_inside(
        &mut self,
        frame: &[(Column, VarInfo)],
        written: &[u32],
        helpers: u32,
        rows: usize,
    ) -> Result<(), AllocError>
        ensures { OnOk result (PassesInside self.old frame.now written.now helpers rows self.new) }
    {
        let rows = sum(self.rows, sum(rows, bounds_at(frame, written))?)?;
        let made = sum(self.made, written.len() + helpers as usize)?;
        self.letters = sum(self.letters, 1)?;
        self.rows = rows;
        self.made = made;
        Ok(())
    }

    /// By a call.
    fn pass_call(
        &mut self,
        callee: &[(Column, VarInfo)],
        helpers: u32,
        rows: usize,
    ) -> Result<(), AllocError>
        ensures { OnOk result (PassesCall self.old callee.now helpers rows self.new) }
    {
        let rows = sum(self.rows, call_rows(callee, rows)?)?;
        let made = sum(self.made, call_columns(callee, helpers))?;
        let letters = sum(self.letters, 1)?;
        self.calls.push(OpenCall {
            at: self.letters,
            rows: self.rows,
            made: self.made,
        })?;
        self.letters = letters;
        self.rows = rows;
        self.made = made;
        Ok(())
    }

    /// By a return.
    fn pass_back(&mut self) -> Result<(), AllocError>
        ensures { OnOk result (PassesBack self.old self.new) }
    {
        self.letters = sum(self.letters, 1)?;
        let _ = self.calls.pop();
        Ok(())
    }
}

/// How many rows a call with so many of its own makes.
fn call_rows(callee: &[(Column, VarInfo)], rows: usize) -> Result<usize, AllocError>
    ensures { IfOk result (λ n. n ≡ rows + (length (filter is_variable callee.now) + (bounds_in (local_columns callee.now) + bounds_in (old_part callee.now)))) }
{
    let bounds = local_bounds(callee) + old_bounds(callee);
    let counted = variable_count(callee) + bounds;
    sum(rows, counted)
}

/// How many columns a call with so many helpers makes.
fn call_columns(callee: &[(Column, VarInfo)], helpers: u32) -> usize
    ensures { result ≡ length (local_columns callee.now) + (helpers + length (old_part callee.now)) }
{
    let helped = helpers as usize + old_count(callee);
    local_count(callee) + helped
}
