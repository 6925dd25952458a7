//! The frame at each position of a word.

ghost use Rattle.std.specs.Prelude.{◌≡◌, ◌<◌, ◌^◌, IsSome, IfOk, OnOk, map, reverse, length};
ghost use Rattle.letter_acts.specs.Acts.{act_of};
ghost use Rattle.letter_acts.specs.Invariant.{alphabet_of};
ghost use Rattle.nested_itp.specs.NestedPredicates.Positions.{callee_of, positions_of};
ghost use Rattle.nested_itp.specs.NestedPredicates.Walking.{AreLetters, return_tests};
ghost use Rattle.nested_itp.specs.NestedPredicates.Spots.{innermost_spot, spots_after, spot_at};

use crate::nested_predicates::acts::{act_at, start_proc};
use letter_acts::{Act, Icfg};
use nwa_base::{Kind, Letter};
use std::alloc::{AllocError, Global};

/// The frame at a position: its procedure, and the stamp up to which all counts in the caller, 0 where no call that is open
/// there returns.
#[derive(Clone, Copy)]
pub(crate) struct Spot {
    pub(crate) proc: u32,
    pub(crate) own: u64,
}

/// Those of a word, of whose letters the tests tell which calls return.
pub(crate) fn spots(
    alloc: Global,
    icfg: &Icfg,
    letters: &[Letter],
    returned: &[bool],
) -> Result<Vec<Spot>, AllocError>
    requires letters { AreLetters (alphabet_of icfg.now) letters.now }
    requires count { length letters.now < 2 ^ 32 }
    requires returned { returned.now ≡ return_tests letters.now }
    ensures { IfOk result (λ v. v.items ≡ map spot_at (positions_of icfg.now letters.now)) }
{
    let start = Spot {
        proc: start_proc(icfg),
        own: 0,
    };
    let mut frames = Vec::new(alloc);
    frames.push(start)?;
    let mut spots = Vec::new(alloc);
    spots.push(start)?;
    for i in 0..letters.len() {
        step(&mut frames, icfg, letters[i], returned[i], i as u64 + 1)?;
        spots.push(innermost(&frames))?;
    }
    Ok(spots)
}

/// The innermost frame.
fn innermost(frames: &[Spot]) -> Spot
    ensures { result ≡ innermost_spot (reverse frames.now) }
{
    match frames.last() {
        Some(spot) => *spot,
        None => Spot { proc: 0, own: 0 },
    }
}

/// Goes on by a letter with this number.
fn step(
    frames: &mut Vec<Spot>,
    icfg: &Icfg,
    letter: Letter,
    returns: bool,
    number: u64,
) -> Result<(), AllocError>
    requires letter { IsSome (act_of (alphabet_of icfg.now) letter) }
    requires number { number < 2 ^ 62 }
    ensures { OnOk result (reverse frames.new.items ≡ spots_after number letter.kind (callee_of (act_of (alphabet_of icfg.now) letter)) returns (reverse frames.old.items)) }
{
    match letter.kind {
        Kind::Inside => {}
        Kind::Call => {
            let own = if returns { 2 * number } else { 0 };
            frames.push(Spot {
                proc: callee_of(icfg, letter),
                own,
            })?;
        }
        Kind::Back => {
            let _ = frames.pop();
        }
    }
    Ok(())
}

/// The callee of a call.
pub(crate) fn callee_of(icfg: &Icfg, letter: Letter) -> u32
    requires { IsSome (act_of (alphabet_of icfg.now) letter) }
    ensures { result ≡ callee_of (act_of (alphabet_of icfg.now) letter) }
{
    match act_at(icfg, letter) {
        Act::Call { callee, .. } => *callee,
        Act::Inside { .. } | Act::Back { .. } => 0,
    }
}
