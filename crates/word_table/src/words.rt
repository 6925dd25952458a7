//! Words, and what an automaton makes of them.

use crate::answers::{
    show, show_letters, show_no_memory, show_number, show_states, show_text, show_whether,
};
use crate::sets::{show_set, show_steps};
use crate::texts::{C, R, spelled};
use nwa_base::{Letter, Nwa, Word, accepts, run_of, word};
use nwa_emptiness::{Found, find};
use std::alloc::{AllocError, Global};
use table_reading::{first_word, number};

/// A value that threads may share.
pub(crate) fn shared<T: Send + Sync>(value: &T) -> &T {
    value
}

/// The letters of a copy.
fn show_copy(rt: &HostRuntime, names: &str, word: &Word) {
    match word.copy() {
        Ok(copy) => show_letters(rt, names, copy.letters()),
        Err(_) => show_no_memory(rt, names),
    }
}

fn show_accepted(rt: &HostRuntime, nwa: &Nwa, names: &str, word: &Word) {
    match accepts(rt.alloc(), nwa, word) {
        Ok(accepted) => show_whether(rt, names, accepted),
        Err(_) => show_no_memory(rt, names),
    }
}

/// The run of the automaton over a word, or how many states it has.
fn show_run(rt: &HostRuntime, nwa: &Nwa, names: &str, word: &Word, is_counted: bool) {
    match &run_of(rt.alloc(), nwa, word) {
        Ok(Some(run)) if is_counted => {
            show_text(rt, names);
            show_number(rt, ": ", run.len() as u64, " states\n");
        }
        Ok(Some(run)) => show_states(rt, names, run),
        Ok(None) => show(rt, names, "no run"),
        Err(_) => show_no_memory(rt, names),
    }
}

fn show_word(rt: &HostRuntime, nwa: &Nwa, call: &str, names: &str, word: &Word) {
    match call {
        "words" => show_copy(rt, names, shared(word)),
        "accepts" => show_accepted(rt, shared(nwa), names, word),
        "runs" => show_run(rt, nwa, names, word, false),
        "steps" => show_steps(rt, nwa, word),
        _ => show_set(rt, nwa, names, word),
    }
}

fn show_one(rt: &HostRuntime, nwa: &Nwa, call: &str, names: &str) {
    match spelled(rt.alloc(), names) {
        Ok(Some(word)) => show_word(rt, nwa, call, names, &word),
        Ok(None) => show(rt, names, "no word"),
        Err(_) => show_no_memory(rt, names),
    }
}

/// What the call answers at each of the words.
pub(crate) fn show_all(rt: &HostRuntime, nwa: &Nwa, call: &str, said: &str) {
    for names in said.split_whitespace() {
        show_one(rt, nwa, call, names);
    }
}

/// So many copies of a letter.
fn push_copies(letters: &mut Vec<Letter>, letter: Letter, count: u32) -> Result<(), AllocError> {
    for _time in 0..count {
        letters.push(letter)?;
    }
    Ok(())
}

/// So many calls and so many returns.
fn nested(alloc: Global, calls: u32, returns: u32) -> Result<Option<Word>, AllocError> {
    let mut letters = Vec::new(alloc);
    push_copies(&mut letters, C, calls)?;
    push_copies(&mut letters, R, returns)?;
    Ok(word(letters))
}

/// How many states the run over so many calls and so many returns has.
pub(crate) fn show_nested(rt: &HostRuntime, nwa: &Nwa, said: &str) {
    let (calls, returns) = first_word(said);
    match nested(rt.alloc(), number(calls), number(returns)) {
        Ok(Some(word)) => show_run(rt, nwa, said, &word, true),
        Ok(None) => show(rt, said, "no word"),
        Err(_) => show_no_memory(rt, said),
    }
}

/// A word that the automaton accepts.
fn show_found(rt: &HostRuntime, nwa: &Nwa, text: &str, order: &str) {
    match &find(rt.alloc(), nwa, number(order)) {
        Ok(Found::Word(word)) => show_letters(rt, text, word.letters()),
        Ok(Found::Empty) => show(rt, text, "no word"),
        Err(_) => show_no_memory(rt, text),
    }
}

/// A word to the state, which is made final in a copy of the automaton, searched in this order.
pub(crate) fn show_search(rt: &HostRuntime, nwa: &Nwa, said: &str) {
    let (last, order) = first_word(said);
    match nwa.copy() {
        Ok(mut ended) => {
            if ended.set_final(number(last)).is_ok() {
                show_found(rt, &ended, said, order);
            }
        }
        Err(_) => show_no_memory(rt, said),
    }
}
