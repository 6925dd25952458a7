//! The frames and the numbers of a program.

ghost use Rattle.std.specs.Prelude.{◌≡◌, ◌+◌, ◌<◌, ◌^◌, ℕ, length, slice_get, IfOk, IfSome};
ghost use Rattle.typed_tree.specs.TypingRules.Counts.{checked_at_call, places};
ghost use Rattle.typed_tree.specs.TypingRules.TypedParts.{typed_program};
ghost use Rattle.boogie_run.specs.BoogiePoints.Actions.{first_assertion, first_place};
ghost use Rattle.lowered_graph.specs.Arcs.{first_error};
ghost use Rattle.lowered_graph.specs.Lowered.{program_sites};

use crate::program_layout::frames::{frame_in, frames_of, locals_in, variables};
use crate::program_layout::marks::{Marked, Marks, all_marks, marks_in};
use boogie_run::boogie_points::counts::at_call;
use boogie_tree::Column;
use letter_acts::Frame;
use std::alloc::{AllocError, Global};
use std::marker::Model;
use typed_tree::typing_rules::Typed;

/// The frames of a program's procedures, and where their numbers begin.
#[derive(Drop)]
pub struct Layout<'a> {
    program: &'a Typed,
    frames: Vec<Frame>,
    marks: Vec<Marks>,
    /// How many columns stand before the locals of a frame.
    before_locals: u32,
    /// How many conditions are assumed at the start.
    start_conditions: u32,
    /// The first place at which an assertion fails.
    first_error: u32,
    /// How many assertions there are.
    assertions: u32,
}

impl<'a> Model for Layout<'a> {
    ghost use Rattle.std.specs.Coded.{codes};
    ghost use Rattle.typed_tree.specs.contracts.types.TExpr as expr;
    ghost use Rattle.typed_tree.specs.contracts.types.TStmt as stmt;
    ghost use Rattle.typed_tree.specs.TypingRules.TypedParts.{TypedParts, typed_program};
    ghost use Rattle.letter_acts.specs.Acts.{plain_frames};
    ghost use Rattle.icfg_lower.specs.ProgramLayout.Layouts.{IsLayout};

    ghost Value = { TypedParts };

    ghost coded = { Prim.hlevel (codes, expr.the_row.coded, stmt.the_row.coded) };

    ghost view = { λ l. l.program.now };

    ghost invariant = { λ l. IsLayout (typed_program l.program.now) (plain_frames l.frames.items) l.marks.items l.before_locals l.start_conditions l.first_error l.assertions };
}

/// What a typed program keeps of its numbers.
fn fits(program: &Typed)
    ensures places { places (typed_program program.now) < 2 ^ 32 }
    ensures globals { length (typed_program program.now).globals + length (typed_program program.now).globals < 2 ^ 32 }
    ensures locals { (n : ℕ) → IfSome (slice_get (typed_program program.now).procs n) (λ q. length q.locals < 2 ^ 32) }
    ensures errors { first_error (typed_program program.now) ≡ first_place (typed_program program.now) (length (typed_program program.now).procs) }
    ensures sites { 1 + length (program_sites (typed_program program.now)) ≡ first_assertion (typed_program program.now).procs (length (typed_program program.now).procs) }
{
    let _globals = program.globals();
}

/// How many conditions are assumed at the start.
fn start_conditions(program: &Typed) -> u32
    requires { places (typed_program program.now) < 2 ^ 32 }
    ensures { result ≡ length (typed_program program.now).axioms + checked_at_call (slice_get (typed_program program.now).procs (typed_program program.now).entry) }
{
    program.axioms().len() as u32 + at_call(program.procs(), program.entry())
}

/// The frames and the numbers of a program.
pub fn lay_out(alloc: Global, program: &Typed) -> Result<Layout<'_>, AllocError>
    ensures { IfOk result (λ l. l ≡ program.now) }
{
    fits(program);
    let globals = program.globals();
    let start_conditions = start_conditions(program);
    let Marked {
        marks,
        place,
        assertion,
    } = all_marks(alloc, program.procs(), 1 + start_conditions)?;
    let frames = frames_of(alloc, globals, program.procs())?;
    Ok(Layout {
        program,
        frames,
        marks,
        before_locals: globals.len() as u32 + variables(globals),
        start_conditions,
        first_error: place,
        assertions: assertion - 1,
    })
}

impl<'a> Layout<'a> {
    ghost use Rattle.std.specs.Prelude.{◌≡◌, ◌+◌, ◌<◌, ◌≤◌, ℕ, map, length, slice_get, IsTrue};
    ghost use Rattle.std.specs.Option.{option_map};
    ghost use Rattle.typed_tree.specs.TypingRules.Counts.{checked_at_call};
    ghost use Rattle.typed_tree.specs.TypingRules.TypedParts.{typed_program};
    ghost use Rattle.typed_tree.specs.TypingRules.ValidProgram.{is_valid};
    ghost use Rattle.lowered_graph.specs.LoweredSteps.ProgramFrames.{frame_at, column_number};
    ghost use Rattle.lowered_graph.specs.LoweredSteps.Edges.{columns_before_locals, local_count};
    ghost use Rattle.lowered_graph.specs.Arcs.{first_error, error_place};
    ghost use Rattle.lowered_graph.specs.Lowered.{counted_procs, program_sites};
    ghost use Rattle.icfg_lower.specs.ProgramLayout.Layouts.{marks_of, StandsIn};

    /// The program.
    pub fn program(&self) -> &'a Typed
        ensures value { result.now ≡ self.now }
        ensures valid { IsTrue (is_valid (typed_program self.now)) }
    {
        self.program
    }

    /// The frame of a procedure.
    pub fn frame(&self, proc: u32) -> Option<&Frame>
        ensures { option_map (λ f. f.now.columns.items) result ≡ option_map (λ q. frame_at (typed_program self.now) proc) (slice_get (typed_program self.now).procs proc) }
    {
        frame_in(&self.frames, proc)
    }

    /// Where the numbers of a procedure begin.
    pub fn marks(&self, proc: u32) -> Option<Marks>
        ensures { result ≡ option_map (λ q. marks_of (typed_program self.now) (proc, q)) (slice_get (typed_program self.now).procs proc) }
    {
        marks_in(&self.marks, proc)
    }

    /// How many columns stand before the locals of a frame.
    pub fn before_locals(&self) -> u32
        ensures { result ≡ columns_before_locals (typed_program self.now) }
    {
        self.before_locals
    }

    /// How many locals a procedure has.
    pub fn local_count(&self, proc: u32) -> Option<u32>
        ensures { result ≡ option_map (λ q. local_count (typed_program self.now) proc) (slice_get (typed_program self.now).procs proc) }
    {
        locals_in(self.program.procs(), proc)
    }

    /// How many conditions are assumed at the start.
    pub fn start_conditions(&self) -> u32
        ensures { result ≡ length (typed_program self.now).axioms + checked_at_call (slice_get (typed_program self.now).procs (typed_program self.now).entry) }
    {
        self.start_conditions
    }

    /// How many places there are.
    pub fn places(&self) -> u32
        ensures { result ≡ first_error (typed_program self.now) + length (program_sites (typed_program self.now)) }
    {
        self.first_error + self.assertions
    }

    /// The place at which the assertion of that number fails.
    pub fn error_place(&self, assertion: u32) -> u32
        requires first { 0 < assertion }
        requires last { assertion ≤ length (program_sites (typed_program self.now)) }
        ensures { result ≡ error_place (typed_program self.now) assertion }
    {
        self.first_error + (assertion - 1)
    }

    /// The number of a column in the frame of every procedure that has it.
    pub fn column(&self, column: Column) -> u32
        requires { (n : ℕ) × StandsIn (frame_at (typed_program self.now) n) column }
        ensures { (n : ℕ) → StandsIn (frame_at (typed_program self.now) n) column → result ≡ column_number (frame_at (typed_program self.now) n) column }
    {
        match column {
            Column::Global(number) => number,
            Column::Local(number) => self.before_locals + number,
            Column::Old(number) => number,
        }
    }

    /// The frames, for whoever needs the layout no longer.
    pub fn into_frames(self) -> Vec<Frame>
        ensures { map (λ f. f.columns.items) result.items ≡ map (λ q. frame_at (typed_program self.entry) q.0) (counted_procs 0 (typed_program self.entry).procs) }
    {
        let Layout {
            program: _,
            frames,
            marks: _,
            before_locals: _,
            start_conditions: _,
            first_error: _,
            assertions: _,
        } = self;
        frames
    }
}
