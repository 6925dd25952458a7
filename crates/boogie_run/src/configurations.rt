//! Configurations of runs.

ghost use Rattle.std.specs.Prelude.{◌≡◌, ◌<◌, length};
ghost use Rattle.typed_tree.specs.TypingRules.TypedParts.{TypedParts};
ghost use Rattle.boogie_run.specs.BoogiePoints.View.{point_of};
ghost use Rattle.boogie_run.specs.RunView.{frame_of, frames_of, config_with, config_of, FitsProgram};

use crate::boogie_points::{Numbers, Point};
use std::alloc::Global;
use typed_tree::typing_rules::Typed;

/// A procedure that runs.
#[derive(Drop)]
pub struct RunFrame<'a> {
    pub(crate) proc: u32,
    pub(crate) locals: Vec<i128>,
    /// The constants and globals at its entry.
    pub(crate) entry: Vec<i128>,
    pub(crate) point: Point<'a>,
    /// What a call without body has chosen.
    pub(crate) kept: Vec<i128>,
}

impl<'a> RunFrame<'a> {
    /// The number of the procedure.
    pub fn proc(&self) -> u32
        ensures { result ≡ (frame_of self.now).proc }
    {
        self.proc
    }

    /// Its locals that are chosen, from the parameters on.
    pub fn locals(&self) -> &[i128]
        ensures { result.now ≡ (frame_of self.now).locals }
    {
        self.locals.as_slice()
    }

    /// Where it stands.
    pub fn point(&self) -> &Point<'a>
        ensures { point_of result.now ≡ (frame_of self.now).point }
    {
        &self.point
    }

    /// The constants and globals at its entry.
    pub fn at_entry(&self) -> &[i128]
        ensures { result.now ≡ (frame_of self.now).entry }
    {
        self.entry.as_slice()
    }
}

/// The state of a run between two steps. It borrows the program.
#[derive(Drop)]
pub struct Config<'a> {
    pub(crate) alloc: Global,
    pub(crate) program: &'a Typed,
    pub(crate) numbers: Numbers,
    pub(crate) globals: Vec<i128>,
    /// The one that runs is the last.
    pub(crate) frames: Vec<RunFrame<'a>>,
}

impl<'a> Config<'a> {
    /// The constants and globals that are chosen.
    pub fn globals(&self) -> &[i128]
        ensures { result.now ≡ (config_of self.now).globals }
    {
        self.globals.as_slice()
    }

    /// The frames of the calls that are open. The one that runs is the last.
    pub fn frames(&self) -> &[RunFrame<'a>]
        ensures value { config_with (config_of self.now).globals (frames_of result.now) ≡ config_of self.now }
        ensures runs { (t : TypedParts) → FitsProgram t self.now → 0 < length result.now }
    {
        self.frames.as_slice()
    }
}
