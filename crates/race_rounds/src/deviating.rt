//! Kept words that leave the way of another, so that workers take different words.

use crate::limits::Round;
use nwa_base::{Kind, Letter, Nwa, NwaFault, Word, empty, run_of};
use nwa_emptiness::{Found, find};
use std::alloc::{AllocError, Global};

/// How often a word is left at most.
const MOST_FORKS: u32 = 3;

/// Adds the states on the way of a word from which another letter could be read, each with the letter that the word has there.
fn add_forks(
    alloc: Global,
    nwa: &Nwa,
    word: &Word,
    forks: &mut Vec<(u32, Letter)>,
) -> Result<(), AllocError> {
    let Some(run) = run_of(alloc, nwa, word)? else {
        return Ok(());
    };
    for (&state, &letter) in run.as_slice().iter().zip(word.letters()) {
        let insides = nwa.insides_leaving(state).len();
        let ways = insides.saturating_add(nwa.calls_leaving(state).len());
        if letter.kind != Kind::Back && ways > 1 {
            forks.push((state, letter))?;
        }
    }
    Ok(())
}

/// One of the states on the way of a word from which another letter could be read, with the letter that the word has there. `seed` varies
/// which.
fn fork(
    alloc: Global,
    nwa: &Nwa,
    word: &Word,
    seed: u64,
) -> Result<Option<(u32, Letter)>, AllocError> {
    let mut forks = Vec::new(alloc);
    add_forks(alloc, nwa, word, &mut forks)?;
    if forks.is_empty() {
        return Ok(None);
    }
    let place = seed % forks.len() as u64;
    Ok(forks.get(place as usize).copied())
}

/// Adds the final states of an automaton and its returns.
fn add_ends(nwa: &Nwa, left: &mut Nwa) -> Result<(), NwaFault> {
    for &last in nwa.finals() {
        left.set_final(last)?;
    }
    for &(from, before, a, to) in nwa.backs() {
        left.add_back(from, before, a, to)?;
    }
    Ok(())
}

/// Adds the final states and edges of an automaton, without those edges that leave the state by the letter, which is no return.
fn add_others(nwa: &Nwa, state: u32, letter: Letter, left: &mut Nwa) -> Result<(), NwaFault> {
    for &(from, a, to) in nwa.insides() {
        if from != state || a != letter {
            left.add_inside(from, a, to)?;
        }
    }
    for &(from, a, to) in nwa.calls() {
        if from != state || a != letter {
            left.add_call(from, a, to)?;
        }
    }
    add_ends(nwa, left)
}

/// The automaton without the edges that leave the state by the letter, which is no return.
fn avoiding(alloc: Global, nwa: &Nwa, state: u32, letter: Letter) -> Result<Nwa, NwaFault> {
    let mut left = empty(alloc, nwa.states(), nwa.start())?;
    add_others(nwa, state, letter, &mut left)?;
    Ok(left)
}

/// What is left of an automaton without one of the forks on the way of a word; `None` where there is no fork. `seed` varies which.
fn without_fork(
    alloc: Global,
    nwa: &Nwa,
    word: &Word,
    seed: u64,
) -> Result<Option<Nwa>, AllocError> {
    let Some((state, letter)) = fork(alloc, nwa, word, seed)? else {
        return Ok(None);
    };
    match avoiding(alloc, nwa, state, letter) {
        Ok(left) => Ok(Some(left)),
        Err(NwaFault::Memory) => Err(AllocError),
        Err(NwaFault::BadState | NwaFault::BadLetter) => Ok(None),
    }
}

/// A word of the automaton; `None` where it accepts none.
fn word_in(alloc: Global, nwa: &Nwa, worker: u32) -> Result<Option<Word>, AllocError> {
    match find(alloc, nwa, worker)? {
        Found::Word(word) => Ok(Some(word)),
        Found::Empty => Ok(None),
    }
}

/// A word of the automaton that goes another way than the given one at a fork, which is taken from the automaton; `None` where there is
/// none.
fn leave_once(
    alloc: Global,
    left: &mut Nwa,
    word: &Word,
    worker: u32,
    seed: u64,
) -> Result<Option<Word>, AllocError> {
    let Some(less) = without_fork(alloc, left, word, seed)? else {
        return Ok(None);
    };
    *left = less;
    word_in(alloc, left, worker)
}

/// The word, or one that goes another way at further forks, as many as the number of the worker says, where there are so many.
fn leave_more(
    alloc: Global,
    left: &mut Nwa,
    word: Word,
    worker: u32,
    seed: u64,
) -> Result<Word, AllocError> {
    let mut word = word;
    for more in 1..worker.min(MOST_FORKS) {
        let seed = seed.wrapping_add(u64::from(more).wrapping_mul(5));
        match leave_once(alloc, left, &word, worker, seed)? {
            Some(other) => word = other,
            None => break,
        }
    }
    Ok(word)
}

/// A word of what is left of an automaton without a fork, which leaves further forks; `None` where it accepts none.
fn leave(
    alloc: Global,
    left: &mut Nwa,
    worker: u32,
    seed: u64,
) -> Result<Option<Word>, AllocError> {
    match word_in(alloc, left, worker)? {
        Some(word) => Ok(Some(leave_more(alloc, left, word, worker, seed)?)),
        None => Ok(None),
    }
}

/// A word that goes other ways than the given one, at as many forks as the number of the worker says, where there are so many; `None`
/// where there is no fork, or for worker 0. The version varies which forks.
pub(crate) fn deviating(
    alloc: Global,
    kept: &Nwa,
    word: &Word,
    round: Round,
) -> Result<Option<Word>, AllocError> {
    let Round { version, worker } = round;
    if worker == 0 {
        return Ok(None);
    }
    let seed = version.wrapping_add(u64::from(worker)).wrapping_mul(7);
    match without_fork(alloc, kept, word, seed)? {
        Some(mut left) => leave(alloc, &mut left, worker, seed),
        None => Ok(None),
    }
}
