//! What stands at a number: the columns of a procedure, the type of a column, the act of a letter.

ghost use Rattle.std.specs.Prelude.{◌≡◌, ◌↔◌, [], None, Some, IsTrue, MatchOption};
ghost use Rattle.letter_acts.specs.Acts.{plain_act, act_of, frame_of, letter_of};
ghost use Rattle.letter_acts.specs.Invariant.{type_at};
ghost use Rattle.letter_acts.specs.Parts.{alphabet};

use crate::acts::Act;
use crate::frames::Frame;
use boogie_tree::{Column, Ty, VarInfo};
use nwa_base::{Kind, Letter};

/// The columns of a procedure, none where it does not exist.
pub(crate) fn columns_of(frames: &[Frame], proc: u32) -> &[(Column, VarInfo)]
    ensures { result.now ≡ frame_of (alphabet [] frames.now) proc }
{
    match frames.get(proc as usize) {
        Some(frame) => frame.columns.as_slice(),
        None => &[],
    }
}

/// The type of the column, if it exists.
pub fn type_at(frame: &[(Column, VarInfo)], column: u32) -> Option<Ty>
    ensures { result ≡ type_at frame.now column }
{
    match frame.get(column as usize) {
        Some(found) => Some(found.1.ty),
        None => None,
    }
}

/// Whether the letter is the one of its number, whose act this is.
fn is_letter_of(letter: Letter, act: &Act) -> bool
    ensures { IsTrue result ↔ (letter ≡ letter_of letter.id (plain_act act.now)) }
{
    match act {
        Act::Inside { .. } => letter.kind == Kind::Inside && letter.call == 0,
        Act::Call { .. } => letter.kind == Kind::Call && letter.call == 0,
        Act::Back { call, .. } => letter.kind == Kind::Back && letter.call == *call,
    }
}

/// The act of a letter, `None` where it is none of the alphabet.
pub(crate) fn act_of(acts: &[Act], letter: Letter) -> Option<&Act>
    ensures { MatchOption result (act_of (alphabet acts.now []) letter ≡ None) (λ act. act_of (alphabet acts.now []) letter ≡ Some (plain_act act.now)) }
{
    match acts.get(letter.id as usize) {
        Some(act) if is_letter_of(letter, act) => Some(act),
        _ => None,
    }
}
