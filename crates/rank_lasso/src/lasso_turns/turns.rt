//! The turn of letters.

ghost use Rattle.std.specs.Prelude.{◌≡◌, ◌≤◌, ◌^◌, IfOk};
ghost use Rattle.letter_acts.specs.Invariant.{alphabet_of};
ghost use Rattle.letter_acts.specs.Kept.{Keeps};
ghost use Rattle.rank_lasso.specs.LassoTurns.Turns.{AreInside, turn_of};
ghost use Rattle.rank_lasso.specs.LassoTurns.Made.{plain_turn, CanBeRanked};

use crate::lasso_turns::made::MadeTurn;
use letter_acts::Icfg;
use std::alloc::{AllocError, Global};

/// The turn of these inside letters of a procedure: the bounds of its frame's booleans, and the rows of a path through the letters
/// that begins at any state of the frame. No memory is left where its columns get no number any more. Its time is linear in what
/// the letters say, and in the frame's width for each letter.
pub fn turn_of(
    alloc: Global,
    icfg: &Icfg,
    proc: u32,
    letters: &[u32],
) -> Result<MadeTurn, AllocError>
    requires { AreInside (alphabet_of icfg.now) proc letters.now }
    ensures value { IfOk result (λ d. plain_turn d ≡ turn_of (alphabet_of icfg.now) proc letters.now) }
    ensures ranked { IfOk result CanBeRanked }
    ensures room { IfOk result (λ d. d.made ≤ 2 ^ 32) }
    ensures valid { Keeps icfg.now }
{
    let frame = icfg.columns(proc);
    let mut turn = MadeTurn::start(alloc, frame)?;
    for letter in letters {
        turn.read(alloc, icfg, frame, proc, *letter)?;
    }
    Ok(turn)
}
