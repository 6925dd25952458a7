//! States of the second automaton that accept whatever is accepted from states of the first. They are guessed by the letters of the
//! edges between final states of the second, and the guess is checked edge by edge.

ghost use Rattle.std.specs.Prelude.{◌≡◌, ℕ, Some, IsTrue, IfOk};
ghost use Rattle.nwa_base.specs.declared.letters.Letter.{Letter};
ghost use Rattle.nwa_base.specs.Members.{Member};
ghost use Rattle.nwa_base.specs.Automata.{IsAutomaton};
ghost use Rattle.nwa_difference.specs.Covering.{HaveCovers, HasCover, IsEnd, InsideGoesOn, CallGoesOn, BackGoesOn, cover_in};

use crate::returning::Returning;
use nwa_base::{Letter, Nwa};
use std::alloc::{AllocError, Global};
use std::collections::HashMap;

/// By letters, an edge between final states of the second automaton: the states.
pub type Sides = HashMap<Letter, (u32, u32)>;

/// For each state of the first automaton a state of the second that covers it, as far as any are known.
pub fn covers(alloc: Global, first: &Nwa, second: &Nwa) -> Result<Vec<Option<u32>>, AllocError>
    ensures { IfOk result (λ v. HaveCovers first.now second.now v.items) }
{
    let sides = sides(alloc, second)?;
    let guess = guessed(alloc, first, &sides)?;
    if are_covers(alloc, first, second, &sides, guess.as_slice())? {
        return Ok(guess);
    }
    Ok(Vec::new(alloc))
}

/// The cover of a state in the list, if there is one.
pub fn cover_of(covers: &[Option<u32>], state: u32) -> Option<u32>
    ensures { result ≡ cover_in covers.now state }
{
    match covers.get(state as usize) {
        Some(cover) => *cover,
        None => None,
    }
}

/// The end of an edge between final states by a letter, if one is known.
pub fn end_by(sides: &Sides, letter: Letter) -> Option<u32> {
    match sides.get(&letter) {
        Some(&(_, end)) => Some(end),
        None => None,
    }
}

/// Whether a state of the second automaton is a cover of a state of the first.
pub fn has_cover(first: &Nwa, second: &Nwa, covers: &[Option<u32>], state: u32, cover: u32) -> bool
    ensures { IsTrue result → HasCover first.now second.now covers.now state cover }
{
    if is_in(covers, state, cover) {
        return true;
    }
    if !is_end(first, state) {
        return false;
    }
    second.is_final(cover)
}

/// Whether a cover of a state stands in the list.
fn is_in(covers: &[Option<u32>], state: u32, cover: u32) -> bool
    ensures { IsTrue result → cover_in covers.now state ≡ Some cover }
{
    match cover_of(covers, state) {
        Some(known) => known == cover,
        None => false,
    }
}

/// Whether no edge leaves a state.
fn is_end(nwa: &Nwa, state: u32) -> bool
    ensures { IsTrue result → IsEnd nwa.now state }
{
    if !nwa.insides_leaving(state).is_empty() {
        return false;
    }
    if !nwa.calls_leaving(state).is_empty() {
        return false;
    }
    nwa.backs_leaving(state).is_empty()
}

/// Whether the covers are right.
fn are_covers(
    alloc: Global,
    first: &Nwa,
    second: &Nwa,
    sides: &Sides,
    covers: &[Option<u32>],
) -> Result<bool, AllocError>
    ensures { IfOk result (λ yes. IsTrue yes → HaveCovers first.now second.now covers.now) }
{
    if !finals_are_covered(first.finals(), second, covers) {
        return Ok(false);
    }
    if !insides_go_on(first, second, sides, covers) {
        return Ok(false);
    }
    if !calls_go_on(first, second, sides, covers) {
        return Ok(false);
    }
    backs_go_on(alloc, first, second, sides, covers)
}

/// Whether the covers of final states are final.
fn finals_are_covered(finals: &[u32], second: &Nwa, covers: &[Option<u32>]) -> bool
    ensures { IsTrue result → (q : ℕ) → Member finals.now q → (u : ℕ) → cover_in covers.now q ≡ Some u → Member second.now.finals u }
{
    for &state in finals {
        if !final_is_covered(state, second, covers) {
            return false;
        }
    }
    true
}

fn final_is_covered(state: u32, second: &Nwa, covers: &[Option<u32>]) -> bool
    ensures { IsTrue result → (u : ℕ) → cover_in covers.now state ≡ Some u → Member second.now.finals u }
{
    match cover_of(covers, state) {
        Some(cover) => second.is_final(cover),
        None => true,
    }
}

/// Whether the covers go on by inside letters.
fn insides_go_on(first: &Nwa, second: &Nwa, sides: &Sides, covers: &[Option<u32>]) -> bool
    ensures { IsTrue result → (e : ℕ × Letter × ℕ) → Member first.now.insides e → InsideGoesOn first.now second.now covers.now e }
{
    for &edge in first.insides() {
        if !inside_goes_on(first, second, sides, covers, edge) {
            return false;
        }
    }
    true
}

fn inside_goes_on(
    first: &Nwa,
    second: &Nwa,
    sides: &Sides,
    covers: &[Option<u32>],
    edge: (u32, Letter, u32),
) -> bool
    ensures { IsTrue result → InsideGoesOn first.now second.now covers.now edge }
{
    let Some(cover) = cover_of(covers, edge.0) else {
        return true;
    };
    let Some(end) = end_by(sides, edge.1) else {
        return false;
    };
    if !second.has_inside(cover, edge.1, end) {
        return false;
    }
    has_cover(first, second, covers, edge.2, end)
}

/// Whether the covers go on by calls.
fn calls_go_on(first: &Nwa, second: &Nwa, sides: &Sides, covers: &[Option<u32>]) -> bool
    ensures { IsTrue result → (e : ℕ × Letter × ℕ) → Member first.now.calls e → CallGoesOn first.now second.now covers.now e }
{
    for &edge in first.calls() {
        if !call_goes_on(first, second, sides, covers, edge) {
            return false;
        }
    }
    true
}

fn call_goes_on(
    first: &Nwa,
    second: &Nwa,
    sides: &Sides,
    covers: &[Option<u32>],
    edge: (u32, Letter, u32),
) -> bool
    ensures { IsTrue result → CallGoesOn first.now second.now covers.now edge }
{
    let Some(cover) = cover_of(covers, edge.0) else {
        return true;
    };
    let Some(end) = end_by(sides, edge.1) else {
        return false;
    };
    if !second.has_call(cover, edge.1, end) {
        return false;
    }
    has_cover(first, second, covers, edge.2, end)
}

/// Whether the covers go on by returns.
fn backs_go_on(
    alloc: Global,
    first: &Nwa,
    second: &Nwa,
    sides: &Sides,
    covers: &[Option<u32>],
) -> Result<bool, AllocError>
    ensures { IfOk result (λ yes. IsTrue yes → (e : ℕ × ℕ × Letter × ℕ) → Member first.now.backs e → BackGoesOn first.now second.now covers.now e) }
{
    let _states = second.states();
    let mut returning = Returning::new(alloc, second);
    for &edge in first.backs() {
        if !returning.goes_on(first, sides, covers, edge)? {
            return Ok(false);
        }
    }
    Ok(true)
}

/// The edges between final states of the second automaton, one for each letter.
fn sides(alloc: Global, second: &Nwa) -> Result<Sides, AllocError> {
    let mut sides = HashMap::new(alloc);
    for &state in second.finals() {
        add_sides(&mut sides, second, state)?;
    }
    Ok(sides)
}

/// Notes the edges of a state to final states, each under its letter.
fn add_sides(sides: &mut Sides, second: &Nwa, state: u32) -> Result<(), AllocError> {
    for &(_, letter, end) in second.insides_leaving(state) {
        add_side(sides, second, state, letter, end)?;
    }
    for &(_, letter, end) in second.calls_leaving(state) {
        add_side(sides, second, state, letter, end)?;
    }
    for &(_, _, letter, end) in second.backs_leaving(state) {
        add_side(sides, second, state, letter, end)?;
    }
    Ok(())
}

fn add_side(
    sides: &mut Sides,
    second: &Nwa,
    state: u32,
    letter: Letter,
    end: u32,
) -> Result<(), AllocError> {
    if second.is_final(end) {
        sides.insert(letter, (state, end))?;
    }
    Ok(())
}

/// Covers that may be wrong: the states of the edge of its letter cover those of an edge.
fn guessed(alloc: Global, first: &Nwa, sides: &Sides) -> Result<Vec<Option<u32>>, AllocError> {
    let mut guess = vec![in alloc; None; first.states() as usize]?;
    for &(state, letter, end) in first.insides() {
        guess_edge(&mut guess, sides, state, letter, end);
    }
    for &(state, letter, end) in first.calls() {
        guess_edge(&mut guess, sides, state, letter, end);
    }
    for &(state, _, letter, end) in first.backs() {
        guess_edge(&mut guess, sides, state, letter, end);
    }
    Ok(guess)
}

fn guess_edge(guess: &mut Vec<Option<u32>>, sides: &Sides, state: u32, letter: Letter, end: u32) {
    if let Some(&(cover, end_cover)) = sides.get(&letter) {
        guess_cover(guess, state, cover);
        guess_cover(guess, end, end_cover);
    }
}

fn guess_cover(guess: &mut Vec<Option<u32>>, state: u32, cover: u32) {
    if let Some(slot) = guess.get_mut(state as usize) {
        *slot = Some(cover);
    }
}
