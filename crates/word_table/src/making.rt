//! The calls that make an automaton, or another of it.

use crate::answers::{show, show_no_memory, show_number};
use crate::texts::{Part, read_part};
use nwa_base::{Nwa, NwaFault, empty};
use nwa_difference::difference;
use nwa_reduce::reduce;
use std::alloc::AllocError;
use table_reading::{first_word, number};

fn add(nwa: &mut Nwa, part: Part) -> Result<(), NwaFault> {
    match part {
        Part::Final(q) => nwa.set_final(q),
        Part::Inside(q, a, to) => nwa.add_inside(q, a, to),
        Part::Call(q, c, to) => nwa.add_call(q, c, to),
        Part::Back(q, p, r, to) => nwa.add_back(q, p, r, to),
    }
}

fn show_cause(rt: &HostRuntime, text: &str, fault: &NwaFault) {
    let cause = match fault {
        NwaFault::BadState => "no such state",
        NwaFault::BadLetter => "a letter of another kind",
        NwaFault::Memory => "no memory",
    };
    show(rt, text, cause);
}

/// Adds parts. Where one is refused, the cause is printed.
fn show_parts(rt: &HostRuntime, nwa: &mut Nwa, parts: &str) {
    for text in parts.split_whitespace() {
        if let Err(fault) = add(nwa, read_part(text)) {
            show_cause(rt, text, &fault);
        }
    }
}

/// The automaton of so many states with this start. Where it is refused, the cause is printed.
fn show_begun(rt: &HostRuntime, nwa: &mut Nwa, states: &str, start: &str) {
    match empty(rt.alloc(), number(states), number(start)) {
        Ok(made) => *nwa = made,
        Err(fault) => show_cause(rt, start, &fault),
    }
}

/// The automaton of so many states, with a start and with parts.
fn show_made(rt: &HostRuntime, nwa: &mut Nwa, said: &str) {
    let (states, said) = first_word(said);
    let (start, parts) = first_word(said);
    show_begun(rt, nwa, states, start);
    show_parts(rt, nwa, parts);
}

fn show_state(rt: &HostRuntime, nwa: &mut Nwa) {
    match nwa.add_state() {
        Ok(state) => show_number(rt, "state ", u64::from(state), "\n"),
        Err(_) => show_no_memory(rt, "state"),
    }
}

/// Puts what was made in the automaton's place.
fn put(rt: &HostRuntime, nwa: &mut Nwa, made: Result<Nwa, AllocError>) {
    match made {
        Ok(made) => *nwa = made,
        Err(_) => show_no_memory(rt, "automaton"),
    }
}

/// Takes the words of another automaton away.
fn show_less(rt: &HostRuntime, nwa: &mut Nwa, said: &str) {
    match empty(rt.alloc(), 1, 0) {
        Ok(mut second) => {
            show_made(rt, &mut second, said);
            let rest = difference(rt.alloc(), nwa, &second);
            put(rt, nwa, rest);
        }
        Err(_) => show_no_memory(rt, "automaton"),
    }
}

fn show_copy(rt: &HostRuntime, nwa: &mut Nwa) {
    let copy = nwa.copy();
    put(rt, nwa, copy);
}

fn show_reduced(rt: &HostRuntime, nwa: &mut Nwa) {
    let reduced = reduce(rt.alloc(), nwa);
    put(rt, nwa, reduced);
}

pub(crate) fn show_call(rt: &HostRuntime, nwa: &mut Nwa, call: &str, said: &str) {
    match call {
        "automaton" => show_made(rt, nwa, said),
        "parts" => show_parts(rt, nwa, said),
        "state" => show_state(rt, nwa),
        "size" => show_number(rt, "", u64::from(nwa.states()), " states\n"),
        "copy" => show_copy(rt, nwa),
        "reduce" => show_reduced(rt, nwa),
        _ => show_less(rt, nwa, said),
    }
}
