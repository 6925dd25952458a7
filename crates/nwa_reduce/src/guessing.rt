//! Classes of states that may become one, guessed: states of one class are left alike as far as sums of marks tell. Whether they
//! are right is checked afterwards, see [`crate::folding`].

use crate::returning::Returns;
use nwa_base::{Letter, Nwa};
use std::alloc::{AllocError, Global};

/// After how many turns states are told apart by all that follows them, which takes one turn for each step else.
const TURNS: u32 = 64;

/// The classes of the states so far, and what tells the states of a class apart.
#[derive(Drop)]
struct Guess<'a> {
    nwa: &'a Nwa,
    returns: Returns,
    /// The states by their classes.
    order: Vec<Key>,
    /// The class of each state. Classes that came of one stand side by side.
    classes: Vec<u32>,
    count: u32,
    /// The sum of the marks of each state.
    sums: Vec<u64>,
    /// Whether exits are told apart by the classes of states before calls.
    precise: bool,
}

/// A class for each state. `joins` are the states before calls, each with the states in the call that returns leave.
pub fn guessed_classes(
    alloc: Global,
    nwa: &Nwa,
    joins: &[(u32, u32)],
) -> Result<Vec<u32>, AllocError> {
    let mut guess = Guess::new(alloc, nwa, joins)?;
    guess.begin();
    for turn in 0..nwa.states() {
        if turn % TURNS == TURNS - 1 {
            guess.look_far();
        }
        if !guess.goes_on()? {
            break;
        }
    }
    Ok(guess.into_classes())
}

impl<'a> Guess<'a> {
    fn new(alloc: Global, nwa: &'a Nwa, joins: &[(u32, u32)]) -> Result<Self, AllocError> {
        let states = nwa.states() as usize;
        Ok(Guess {
            nwa,
            returns: Returns::new(alloc, nwa, joins)?,
            order: states_in_order(alloc, nwa)?,
            classes: vec![in alloc; 0; states]?,
            count: 0,
            sums: vec![in alloc; 0; states]?,
            precise: false,
        })
    }

    fn into_classes(self) -> Vec<u32> {
        let Guess {
            nwa: _,
            returns: _,
            order: _,
            classes,
            count: _,
            sums: _,
            precise: _,
        } = self;
        classes
    }

    /// Tells apart final states, and states that returns leave by the first of these.
    fn begin(&mut self) {
        for &state in self.nwa.finals() {
            put(&mut self.sums, state, 1);
        }
        for &(state, _, letter, _) in self.nwa.backs() {
            lower(
                &mut self.sums,
                state,
                u64::MAX.wrapping_sub(u64::from(letter.id)),
            );
        }
        self.split();
    }

    /// Tells apart states of a class, and whether there is more to tell apart.
    fn goes_on(&mut self) -> Result<bool, AllocError> {
        let count = self.count;
        let differ = self.refine()?;
        if self.count != count {
            return Ok(true);
        }
        let again = differ && !self.precise;
        self.precise = true;
        Ok(again)
    }

    /// Tells apart states of a class by the classes to which their edges lead. Whether exits of a class return to different classes.
    fn refine(&mut self) -> Result<bool, AllocError> {
        for &(state, letter, end) in self.nwa.insides() {
            self.mark(state, 1, letter, end);
        }
        for &(state, letter, end) in self.nwa.calls() {
            self.mark(state, 2, letter, end);
        }
        let differ = self
            .returns
            .mark(self.classes.as_slice(), &mut self.sums, self.precise)?;
        self.split();
        Ok(differ)
    }

    /// Tells apart states of a class by sums over the ways from them. Those of low numbers, which stand near final states, come first, so that
    /// sums of their ends are there already.
    fn look_far(&mut self) {
        for state in 0..self.nwa.states() {
            let sum = self.far_sum(state);
            put(&mut self.sums, state, sum);
        }
        self.split();
    }

    /// The sum over the edges of a state by inside letters and calls, of the classes and the sums of their ends.
    fn far_sum(&self, state: u32) -> u64 {
        let mut sum: u64 = 0;
        for &(_, letter, end) in self.nwa.insides_leaving(state) {
            sum = sum.wrapping_add(self.far_mark(1, letter, end));
        }
        for &(_, letter, end) in self.nwa.calls_leaving(state) {
            sum = sum.wrapping_add(self.far_mark(2, letter, end));
        }
        sum
    }

    fn far_mark(&self, kind: u64, letter: Letter, end: u32) -> u64 {
        let far = sum_at(self.sums.as_slice(), end).wrapping_add(kind);
        mix(far, letter.id, at(self.classes.as_slice(), end))
    }

    fn mark(&mut self, state: u32, kind: u64, letter: Letter, end: u32) {
        let class = at(self.classes.as_slice(), end);
        add(&mut self.sums, state, mix(kind, letter.id, class));
    }

    /// Makes classes of the states that have one class and one sum, and clears the sums.
    fn split(&mut self) {
        self.read_keys();
        let mut from = 0;
        for _ in 0..self.order.len() {
            if from >= self.order.len() {
                break;
            }
            from = sort_class(&mut self.order, from);
        }
        self.write_classes();
    }

    /// Writes the class and the sum of each state beside it, and clears the sum.
    fn read_keys(&mut self) {
        for key in self.order.as_mut_slice() {
            let state = key.2;
            *key = (
                at(self.classes.as_slice(), state),
                sum_at(self.sums.as_slice(), state),
                state,
            );
            put(&mut self.sums, state, 0);
        }
    }

    /// Counts the classes in order, and writes the class of each state.
    fn write_classes(&mut self) {
        let mut last = (0, 0);
        let mut count: u32 = 0;
        for &(class, sum, state) in self.order.as_slice() {
            if count == 0 || last != (class, sum) {
                count = count.wrapping_add(1);
                last = (class, sum);
            }
            if let Some(slot) = self.classes.get_mut(state as usize) {
                *slot = count;
            }
        }
        self.count = count;
    }
}

/// A class of a state, the sum of the state's marks, and the state.
type Key = (u32, u64, u32);

/// Sorts the keys of the class that begins at a place, unless their sums are equal. The place behind them.
fn sort_class(order: &mut Vec<Key>, from: usize) -> usize {
    let (to, differ) = class_end(order.as_slice(), from);
    if differ && from <= to && to <= order.len() {
        order.as_mut_slice()[from..to].sort_unstable();
    }
    to
}

/// The place behind the keys of the class that begins at a place, and whether their sums differ.
fn class_end(order: &[Key], from: usize) -> (usize, bool) {
    let Some(&(class, sum, _)) = order.get(from) else {
        return (order.len(), false);
    };
    let mut differ = false;
    for place in from..order.len() {
        let (other, mark, _) = order[place];
        if other != class {
            return (place, differ);
        }
        if mark != sum {
            differ = true;
        }
    }
    (order.len(), differ)
}

/// The states, before they have classes.
fn states_in_order(alloc: Global, nwa: &Nwa) -> Result<Vec<Key>, AllocError> {
    let mut order = Vec::new(alloc);
    for state in 0..nwa.states() {
        order.push((0, 0, state))?;
    }
    Ok(order)
}

/// The value at a place, or 0 past the end.
pub fn at(values: &[u32], place: u32) -> u32 {
    match values.get(place as usize) {
        Some(&value) => value,
        None => 0,
    }
}

fn sum_at(values: &[u64], place: u32) -> u64 {
    match values.get(place as usize) {
        Some(&value) => value,
        None => 0,
    }
}

/// Adds to the value at a place, modulo 2^64.
pub fn add(values: &mut Vec<u64>, place: u32, more: u64) {
    if let Some(value) = values.get_mut(place as usize) {
        *value = value.wrapping_add(more);
    }
}

fn put(values: &mut Vec<u64>, place: u32, new: u64) {
    if let Some(value) = values.get_mut(place as usize) {
        *value = new;
    }
}

/// The larger of the value at a place and another.
fn lower(values: &mut Vec<u64>, place: u32, other: u64) {
    if let Some(value) = values.get_mut(place as usize) {
        if *value < other {
            *value = other;
        }
    }
}

/// A number for a mark, spread over 64 bits.
pub fn mix(kind: u64, letter: u32, class: u32) -> u64 {
    let pair = (u64::from(letter) << 32) ^ u64::from(class);
    let spread = pair
        .wrapping_add(kind.wrapping_mul(0xd6e8_feb8_6659_fd93))
        .wrapping_mul(0x9e37_79b9_7f4a_7c15);
    (spread ^ (spread >> 32)).wrapping_mul(0xbf58_476d_1ce4_e5b9) ^ (spread >> 29)
}
