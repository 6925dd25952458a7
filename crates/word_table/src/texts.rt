//! States, letters, words and parts of automata as texts. What cannot be read counts as 0, or as the return.

use nwa_base::{Kind, Letter, Word, word};
use std::alloc::{AllocError, Global};

/// The letters: `A` and `B` are inside letters, `C` is a call and `R` a return that names it.
pub(crate) const A: Letter = Letter {
    id: 0,
    kind: Kind::Inside,
    call: 0,
};

pub(crate) const B: Letter = Letter {
    id: 1,
    kind: Kind::Inside,
    call: 0,
};

pub(crate) const C: Letter = Letter {
    id: 2,
    kind: Kind::Call,
    call: 0,
};

pub(crate) const R: Letter = Letter {
    id: 3,
    kind: Kind::Back,
    call: 2,
};

/// A state, which is one digit.
pub(crate) fn state(digit: u8) -> u32 {
    u32::from(digit.saturating_sub(b'0'))
}

pub(crate) fn letter(name: u8) -> Letter {
    match name {
        b'A' => A,
        b'B' => B,
        b'C' => C,
        _ => R,
    }
}

/// The word of letters of these names, of which `-` stands for none. `None` where a return has no match.
pub(crate) fn spelled(alloc: Global, names: &str) -> Result<Option<Word>, AllocError> {
    match names.trim_matches('-').bytes().map(letter).collect(alloc) {
        Ok(letters) => Ok(word(letters)),
        Err(fault) => Err(fault),
    }
}

/// A final state or an edge.
#[derive(Clone, Copy)]
pub(crate) enum Part {
    Final(u32),
    Inside(u32, Letter, u32),
    Call(u32, Letter, u32),
    Back(u32, u32, Letter, u32),
}

/// `f2` is the final state 2, `i1A2` leads by the inside letter `A` from 1 to 2, `c0C1` by the call `C` from 0 to 1, and `r20R3` by the
/// return `R` from 2 to 3 where 0 was the state before the call.
pub(crate) fn read_part(text: &str) -> Part {
    match text.as_bytes() {
        [b'i', q, a, to] => Part::Inside(state(*q), letter(*a), state(*to)),
        [b'c', q, c, to] => Part::Call(state(*q), letter(*c), state(*to)),
        [b'r', q, p, r, to] => Part::Back(state(*q), state(*p), letter(*r), state(*to)),
        [_, q] => Part::Final(state(*q)),
        _ => Part::Final(0),
    }
}
