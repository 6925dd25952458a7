//! What an automaton has, asked for by a part in which `_` stands for what is sought.

use crate::answers::{show_backs, show_edges, show_states, show_whether};
use crate::texts::{Part, letter, read_part, state};
use nwa_base::Nwa;

/// Whether the automaton has the part, which is no call.
fn show_whether_has(rt: &HostRuntime, nwa: &Nwa, text: &str) {
    let has = match read_part(text) {
        Part::Final(q) => nwa.is_final(q),
        Part::Inside(q, a, to) => nwa.has_inside(q, a, to),
        Part::Back(q, p, a, to) => nwa.has_back(q, p, a, to),
        Part::Call(..) => false,
    };
    show_whether(rt, text, has);
}

fn show_insides(rt: &HostRuntime, nwa: &Nwa, text: &str) {
    match text.as_bytes() {
        [_, q, b'_', b'_'] => show_edges(rt, text, " i", nwa.insides_leaving(state(*q))),
        [_, q, a, b'_'] => show_states(rt, text, nwa.inside_ends(state(*q), letter(*a))),
        _ => show_whether_has(rt, nwa, text),
    }
}

fn show_calls(rt: &HostRuntime, nwa: &Nwa, text: &str) {
    match text.as_bytes() {
        [_, b'_', b'_', to] => show_edges(rt, text, " c", nwa.calls_entering(state(*to))),
        [_, q, b'_', b'_'] => show_edges(rt, text, " c", nwa.calls_leaving(state(*q))),
        [_, q, a, b'_'] => show_states(rt, text, nwa.call_ends(state(*q), letter(*a))),
        _ => show_whether_has(rt, nwa, text),
    }
}

fn show_returns(rt: &HostRuntime, nwa: &Nwa, text: &str) {
    match text.as_bytes() {
        [_, q, b'_', b'_', b'_'] => show_backs(rt, text, nwa.backs_leaving(state(*q))),
        [_, q, p, b'_', b'_'] => show_backs(rt, text, nwa.backs_between(state(*q), state(*p))),
        [_, q, p, a, b'_'] => {
            show_states(rt, text, nwa.back_ends(state(*q), state(*p), letter(*a)))
        }
        _ => show_whether_has(rt, nwa, text),
    }
}

fn show_one(rt: &HostRuntime, nwa: &Nwa, text: &str) {
    match text.as_bytes() {
        b"f_" => show_states(rt, text, nwa.finals()),
        [b'i', ..] => show_insides(rt, nwa, text),
        [b'c', ..] => show_calls(rt, nwa, text),
        [b'r', ..] => show_returns(rt, nwa, text),
        _ => show_whether_has(rt, nwa, text),
    }
}

pub(crate) fn show_all(rt: &HostRuntime, nwa: &Nwa, said: &str) {
    for text in said.split_whitespace() {
        show_one(rt, nwa, text);
    }
}
