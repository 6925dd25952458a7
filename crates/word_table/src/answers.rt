//! States, letters, words and edges, printed as they are read. What cannot be printed is left out: the answers are compared.

use crate::texts::{A, B, C, R};
use nwa_base::{Letter, Pair};

pub(crate) fn show_text(rt: &HostRuntime, text: &str) {
    let _ = print!(rt; "{text}");
}

/// A text and its answer.
pub(crate) fn show(rt: &HostRuntime, text: &str, answer: &str) {
    let _ = println!(rt; "{text}: {answer}");
}

/// A number between texts.
pub(crate) fn show_number(rt: &HostRuntime, before: &str, number: u64, behind: &str) {
    let _ = print!(rt; "{before}{number}{behind}");
}

/// That there is no answer, since memory ran out.
pub(crate) fn show_no_memory(rt: &HostRuntime, text: &str) {
    show(rt, text, "no memory");
}

pub(crate) fn show_whether(rt: &HostRuntime, text: &str, holds: bool) {
    show(rt, text, if holds { "yes" } else { "no" });
}

pub(crate) fn name(letter: Letter) -> &'static str {
    if letter == A {
        "A"
    } else if letter == B {
        "B"
    } else if letter == C {
        "C"
    } else if letter == R {
        "R"
    } else {
        "?"
    }
}

/// The names of the letters; `-` for none.
pub(crate) fn show_letters(rt: &HostRuntime, text: &str, letters: &[Letter]) {
    show_text(rt, text);
    show_text(rt, if letters.is_empty() { ": -" } else { ": " });
    for letter in letters {
        show_text(rt, name(*letter));
    }
    show_text(rt, "\n");
}

/// The states, each behind a blank.
pub(crate) fn show_states(rt: &HostRuntime, text: &str, states: &[u32]) {
    show_text(rt, text);
    show_text(rt, ":");
    for state in states {
        show_number(rt, " ", u64::from(*state), "");
    }
    show_text(rt, "\n");
}

/// The pairs, and whether one of them ends in a final state.
pub(crate) fn show_pairs(rt: &HostRuntime, text: &str, pairs: &[Pair], is_final: bool) {
    show_text(rt, text);
    show_text(rt, ":");
    for (before, here) in pairs {
        show_number(rt, " ", u64::from(*before), "-");
        show_number(rt, "", u64::from(*here), "");
    }
    show_text(rt, if is_final { " final\n" } else { "\n" });
}

/// Edges by inside letters or calls, of which `kind` tells.
pub(crate) fn show_edges(rt: &HostRuntime, text: &str, kind: &str, edges: &[(u32, Letter, u32)]) {
    show_text(rt, text);
    show_text(rt, ":");
    for (from, letter, to) in edges {
        show_number(rt, kind, u64::from(*from), name(*letter));
        show_number(rt, "", u64::from(*to), "");
    }
    show_text(rt, "\n");
}

/// Edges by returns.
pub(crate) fn show_backs(rt: &HostRuntime, text: &str, edges: &[(u32, u32, Letter, u32)]) {
    show_text(rt, text);
    show_text(rt, ":");
    for (from, before, letter, to) in edges {
        show_number(rt, " r", u64::from(*from), "");
        show_number(rt, "", u64::from(*before), name(*letter));
        show_number(rt, "", u64::from(*to), "");
    }
    show_text(rt, "\n");
}
