//! Walks without loops. A walk that stands twice in the same situation can leave out the letters between, and a short word costs much
//! less to decide than a long one.

use crate::concrete_walks::letters::{Span, members};
use nwa_base::Letter;
use std::alloc::{AllocError, Global};
use std::collections::HashMap;

/// What numbers are mixed with.
const FACTOR: i128 = 0x2d99_787d_3c1a_6b4f_9e37_79b9_7f4a_7c15;

/// One more number mixed in. Where two situations are mixed to one number, which hardly comes, a word is proposed that may not fail, and
/// is decided like any other.
pub(crate) fn mixed(mix: i128, number: i128) -> i128 {
    mix.wrapping_add(number).wrapping_mul(FACTOR)
}

/// A walk: the situations in which it stood, at its start and behind each of its letters, and the numbers that were chosen or found
/// for each.
#[derive(Drop)]
pub(crate) struct Passed {
    /// The numbers of the situations, by what they are mixed to.
    numbers: HashMap<i128, usize>,
    /// The situation at each place of the walk.
    places: Vec<usize>,
    /// The last place of each situation.
    last: Vec<usize>,
    /// What was made for the start and for each letter, one after the other.
    pub made: Vec<i128>,
    /// Where that stands.
    parts: Vec<Span>,
}

impl Passed {
    /// No place.
    pub fn new(alloc: Global) -> Self {
        Passed {
            numbers: HashMap::new(alloc),
            places: Vec::new(alloc),
            last: Vec::new(alloc),
            made: Vec::new(alloc),
            parts: Vec::new(alloc),
        }
    }

    /// Adds the next place: what the situation there is mixed to. The numbers that were made for the start or the letter before it are there.
    pub fn add(&mut self, situation: i128) -> Result<(), AllocError> {
        let first = match self.parts.last() {
            Some(before) => before.end,
            None => 0,
        };
        self.parts.push(Span::new(first, self.made.len()))?;
        let place = self.places.len();
        if let Some(&number) = self.numbers.get(&situation) {
            if let Some(last) = self.last.get_mut(number) {
                *last = place;
            }
            return self.push(number);
        }
        let number = self.last.len();
        self.numbers.insert(situation, number)?;
        self.last.push(place)?;
        self.push(number)
    }

    /// Adds the number of the situation at the next place.
    fn push(&mut self, number: usize) -> Result<(), AllocError> {
        self.places.push(number)?;
        Ok(())
    }

    /// Leaves out the letters between equal situations, adds the numbers that were made for the start and for the others, and answers
    /// how many are left, which stand at the front.
    pub fn straighten(
        &self,
        letters: &mut [Letter],
        numbers: &mut Vec<i128>,
    ) -> Result<usize, AllocError> {
        let mut place = 0;
        self.add_made(place, numbers)?;
        for count in 0..letters.len() {
            let Some((letter, next)) = self.letter_behind(letters, place) else {
                return Ok(count);
            };
            if let Some(at) = letters.get_mut(count) {
                *at = letter;
            }
            place = next;
            self.add_made(place, numbers)?;
        }
        Ok(letters.len())
    }

    /// Adds the numbers that were made for the letter before a place.
    fn add_made(&self, place: usize, numbers: &mut Vec<i128>) -> Result<(), AllocError> {
        if let Some(part) = self.parts.get(place) {
            numbers.extend_from_slice(members(&self.made, *part))?;
        }
        Ok(())
    }

    /// The letter that leads on from the last place of the situation at a place, and the place to which it leads.
    fn letter_behind(&self, letters: &[Letter], place: usize) -> Option<(Letter, usize)> {
        let last = *self.last.get(*self.places.get(place)?)?;
        let next = last.wrapping_add(1);
        if next >= self.places.len() {
            return None;
        }
        Some((*letters.get(last)?, next))
    }
}
