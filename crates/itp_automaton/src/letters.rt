//! Letters of an alphabet, by their numbers.

ghost use Rattle.std.specs.Prelude.{◌≡◌, ◌<◌, Some, length, slice_get};
ghost use Rattle.letter_acts.specs.Acts.{PlainAct, letter_of};

use letter_acts::{Act, Icfg};
use nwa_base::{Kind, Letter};

/// The letter with this number.
pub(crate) fn letter_at(icfg: &Icfg, letter: u32) -> Letter
    requires { letter < length icfg.now.acts }
    ensures { (act : PlainAct) → slice_get icfg.now.acts letter ≡ Some act → result ≡ letter_of letter act }
{
    match &icfg.acts()[letter as usize] {
        Act::Inside { .. } => Letter {
            id: letter,
            kind: Kind::Inside,
            call: 0,
        },
        Act::Call { .. } => Letter {
            id: letter,
            kind: Kind::Call,
            call: 0,
        },
        Act::Back { call, .. } => Letter {
            id: letter,
            kind: Kind::Back,
            call: *call,
        },
    }
}
