//! Frames by their numbers.

ghost use Rattle.std.specs.Prelude.{◌≡◌, ◌<◌, length, slice_get};
ghost use Rattle.std.specs.Option.{option_map};
ghost use Rattle.typed_tree.specs.TypingRules.TypedParts.{typed_program};
ghost use Rattle.letter_acts.specs.Acts.{plain_frames, frame_of};
ghost use Rattle.letter_acts.specs.Invariant.{alphabet_of};
ghost use Rattle.lowered_graph.specs.LoweredSteps.ProgramFrames.{frame_at};
ghost use Rattle.lowered_graph.specs.Lowered.{lowered};

use boogie_tree::{Column, VarInfo};
use letter_acts::{Frame, Icfg};
use typed_tree::typing_rules::Typed;

fn frame_in(frames: &[Frame], number: usize) -> Option<&Frame>
    ensures { option_map (λ f. f.now.columns.items) result ≡ slice_get (plain_frames frames.now) number }
{
    frames.get(number)
}

/// The columns of the frame of that number; none where there is no such frame.
pub(crate) fn frame_at(icfg: &Icfg, number: u32) -> &[(Column, VarInfo)]
    ensures { result.now ≡ frame_of (alphabet_of icfg.now) number }
{
    match frame_in(icfg.frames(), number as usize) {
        Some(frame) => frame.columns.as_slice(),
        None => &[],
    }
}

/// The columns of a procedure of the program.
pub(crate) fn columns_of<'a>(
    icfg: &'a Icfg,
    program: &Typed,
    number: usize,
) -> &'a [(Column, VarInfo)]
    requires lowered { icfg.now ≡ lowered (typed_program program.now) }
    requires within { number < length (typed_program program.now).procs }
    ensures { result.now ≡ frame_at (typed_program program.now) number }
{
    match frame_in(icfg.frames(), number) {
        Some(frame) => frame.columns.as_slice(),
        None => unreachable!(),
    }
}
