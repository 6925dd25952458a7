//! Sets of pairs to which words lead.

ghost use Rattle.std.specs.Prelude.{◌<◌, length, IfOk};

use crate::answers::{name, show_no_memory, show_pairs};
use nwa_base::{Kind, Letter, Nwa, Pair, Word, has_final, on_back, on_call, on_inside};
use nwa_determinise::{Det, det};
use std::alloc::{AllocError, Global};
use std::mem;

/// The pairs before the last letter, and behind it.
#[derive(Drop)]
struct Reading {
    before: Vec<Pair>,
    here: Vec<Pair>,
}

/// The start paired with itself, and no pairs before.
fn unread(alloc: Global, start: u32) -> Result<Reading, AllocError> {
    let here = vec![in alloc; (start, start)]?;
    let before = Vec::new(alloc);
    Ok(Reading { before, here })
}

fn led(
    alloc: Global,
    nwa: &Nwa,
    reading: &Reading,
    letter: Letter,
) -> Result<Vec<Pair>, AllocError> {
    match letter.kind {
        Kind::Inside => on_inside(alloc, nwa, &reading.here, letter),
        Kind::Call => on_call(alloc, nwa, &reading.here, letter),
        Kind::Back => on_back(alloc, nwa, &reading.before, &reading.here, letter),
    }
}

fn show_step(rt: &HostRuntime, nwa: &Nwa, reading: &mut Reading, letter: Letter) {
    match led(rt.alloc(), nwa, reading, letter) {
        Ok(next) => {
            reading.before = mem::replace(&mut reading.here, next);
            let here = reading.here.as_slice();
            show_pairs(rt, name(letter), here, has_final(nwa, here));
        }
        Err(_) => show_no_memory(rt, name(letter)),
    }
}

fn show_each(rt: &HostRuntime, nwa: &Nwa, reading: &mut Reading, letters: &[Letter]) {
    for letter in letters {
        show_step(rt, nwa, reading, *letter);
    }
}

/// The pairs to which each letter leads.
pub(crate) fn show_steps(rt: &HostRuntime, nwa: &Nwa, word: &Word) {
    match unread(rt.alloc(), nwa.start()) {
        Ok(mut reading) => show_each(rt, nwa, &mut reading, word.letters()),
        Err(_) => show_no_memory(rt, "steps"),
    }
}

/// The set to which a letter leads from `here`, where `before` was the set before the last call.
fn next(sets: &mut Det<'_>, before: u32, here: u32, letter: Letter) -> Result<u32, AllocError>
    requires before { before < length sets.old.sets }
    requires here { here < length sets.old.sets }
    ensures next { IfOk result (λ s. s < length sets.new.sets) }
    ensures before { before < length sets.new.sets }
    ensures here { here < length sets.new.sets }
{
    match letter.kind {
        Kind::Inside => sets.on_inside(here, letter),
        Kind::Call => sets.on_call(here, letter),
        Kind::Back => sets.on_back(here, before, letter),
    }
}

/// The set to which letters lead from `start`, one call open at a time.
fn last(sets: &mut Det<'_>, start: u32, letters: &[Letter]) -> Result<u32, AllocError>
    requires { start < length sets.old.sets }
    ensures { IfOk result (λ s. s < length sets.new.sets) }
{
    let mut before = start;
    let mut here = start;
    for letter in letters {
        let next = next(sets, before, here, *letter)?;
        if letter.kind == Kind::Call {
            before = here;
        }
        here = next;
    }
    Ok(here)
}

fn last_from_start(sets: &mut Det<'_>, letters: &[Letter]) -> Result<u32, AllocError>
    ensures { IfOk result (λ s. s < length sets.new.sets) }
{
    let start = sets.start()?;
    last(sets, start, letters)
}

/// The set to which a word leads, and whether it accepts the word.
fn show_last(rt: &HostRuntime, sets: &mut Det<'_>, names: &str, word: &Word) {
    match last_from_start(sets, word.letters()) {
        Ok(last) => show_pairs(rt, names, sets.pairs(last), sets.accepting(last)),
        Err(_) => show_no_memory(rt, names),
    }
}

/// The set to which a word leads in the deterministic automaton, and whether it accepts the word.
pub(crate) fn show_set(rt: &HostRuntime, nwa: &Nwa, names: &str, word: &Word) {
    match det(rt.alloc(), nwa) {
        Ok(mut sets) => show_last(rt, &mut sets, names, word),
        Err(_) => show_no_memory(rt, names),
    }
}
