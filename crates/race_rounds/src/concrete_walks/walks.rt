//! Walks along the edges of a program, and how long they may be.

ghost use Rattle.std.specs.Prelude.{IfOk, IfSome};
ghost use Rattle.nwa_base.specs.Acceptance.{Accepts};

use crate::concrete_walks::choices::Choices;
use crate::concrete_walks::edges::{Edge, Edges, Stand};
use crate::concrete_walks::loops::{Passed, mixed};
use crate::concrete_walks::numbers::Numbers;
use crate::concrete_walks::programs::Program;
use nwa_base::{Kind, Letter, Nwa, Word, accepts, word};
use std::alloc::{AllocError, Global};

/// How many letters the shortest walks may have.
const LEAST_LENGTH: u32 = 50;

/// How often that may be doubled.
const MOST_DOUBLINGS: u32 = 6;

/// How long walks may be. Of those that are cut off every second may be twice as long, every fourth four times, and so on, so that
/// walks of each length take about as many letters, and failures that lie deep are found without knowing how deep.
#[derive(Clone, Copy)]
pub(crate) struct Lengths {
    /// How many walks were cut off, and one more.
    number: u32,
}

impl Lengths {
    /// Those of the first walk.
    pub fn new() -> Self {
        Lengths { number: 1 }
    }

    /// How many letters the next walk may have.
    pub fn length(self) -> u32 {
        LEAST_LENGTH << self.number.trailing_zeros().min(MOST_DOUBLINGS)
    }

    /// One walk more was cut off.
    pub fn count_cut_off(&mut self) {
        self.number = self.number.wrapping_add(1);
    }
}

/// A walk: its letters, where it ends, the places before the calls that are open there, the last one at the end, and its numbers.
#[derive(Drop)]
pub(crate) struct Walk {
    /// Its letters, and behind them some of longer walks before.
    letters: Vec<Letter>,
    /// How many letters it has.
    count: usize,
    place: u32,
    callers: Vec<u32>,
    numbers: Numbers,
    /// Of a straight one the numbers that its start and its letters made.
    made: Vec<i128>,
}

impl Walk {
    /// A walk that has not begun.
    pub fn new(alloc: Global) -> Self {
        Walk {
            letters: Vec::new(alloc),
            count: 0,
            place: 0,
            callers: Vec::new(alloc),
            numbers: Numbers::new(alloc),
            made: Vec::new(alloc),
        }
    }

    /// Of a straight one the numbers that its start and its letters made, by the columns of the rows of its word.
    pub fn made(&self) -> &[i128] {
        self.made.as_slice()
    }

    /// Walks anew from the start for at most so many letters. Whether the walk reaches a failure. `tries` counts the letters that were
    /// tried, and the walk as one more.
    pub fn go(
        &mut self,
        program: &Program,
        choices: &mut Choices,
        length: u32,
        tries: &mut u64,
    ) -> Result<bool, AllocError> {
        *tries = tries.saturating_add(1);
        self.begin(program, choices)?;
        for _ in 0..length {
            let Some(edge) = self.next(program, choices, tries)? else {
                return Ok(false);
            };
            self.follow(edge)?;
            if edge.ends {
                return Ok(true);
            }
        }
        Ok(false)
    }

    /// Goes the same way again, as long as before, where the choices are the same, and leaves out of its letters those between equal
    /// situations. Then the numbers that it made are known.
    pub fn straighten(
        &mut self,
        alloc: Global,
        program: &Program,
        choices: &mut Choices,
    ) -> Result<(), AllocError> {
        let mut passed = Passed::new(alloc);
        self.pass(program, choices, &mut passed)
    }

    /// The same with a walk of which nothing is noted yet.
    fn pass(
        &mut self,
        program: &Program,
        choices: &mut Choices,
        passed: &mut Passed,
    ) -> Result<(), AllocError> {
        let (count, mut tries) = (self.count, 0);
        self.begin(program, choices)?;
        self.numbers
            .add_made_at_start(&program.letters, &mut passed.made)?;
        passed.add(self.situation(program))?;
        for _ in 0..count {
            let Some(edge) = self.next(program, choices, &mut tries)? else {
                break;
            };
            self.numbers
                .add_made_by(&program.letters, edge.letter.id, &mut passed.made)?;
            self.follow(edge)?;
            passed.add(self.situation(program))?;
        }
        self.made.clear();
        self.count = passed.straighten(self.letters.as_mut_slice(), &mut self.made)?;
        Ok(())
    }

    /// All by which a walk goes on, mixed: its place, those before the open calls, and the numbers.
    fn situation(&self, program: &Program) -> i128 {
        let mut mix = mixed(0, i128::from(self.place));
        for &caller in self.callers.as_slice() {
            mix = mixed(mix, i128::from(caller));
        }
        self.numbers.mixed_in(mix, program.width(self.place))
    }

    /// Begins anew at the start.
    fn begin(&mut self, program: &Program, choices: &mut Choices) -> Result<(), AllocError> {
        self.count = 0;
        self.callers.clear();
        self.place = program.start;
        self.numbers.start(&program.letters, choices)
    }

    /// Takes a letter that leads on, if one can be taken, and answers its edge: one to a failure first, else those from which one can
    /// be reached in order from a random one on.
    fn next<'a>(
        &mut self,
        program: &'a Program,
        choices: &mut Choices,
        tries: &mut u64,
    ) -> Result<Option<&'a Edge>, AllocError> {
        let Some(stand) = program.edges.stand(self.place) else {
            return Ok(None);
        };
        let backs = program.edges.backs(stand, self.callers.last());
        let ending = stand.ending.len();
        let count = stand.forward.len().saturating_add(backs.len());
        let mut number = 0;
        for turn in 0..ending.saturating_add(count) {
            let edge = if turn < ending {
                program.edges.ending(stand, turn)
            } else {
                number = number_in_turn(choices, number, count, turn == ending);
                edge_at(&program.edges, stand, backs, number)
            };
            if let Some(edge) = edge {
                if edge.leads && self.attempt(program, choices, tries, edge)? {
                    return Ok(Some(edge));
                }
            }
        }
        Ok(None)
    }

    /// Tries the letter of an edge.
    fn attempt(
        &mut self,
        program: &Program,
        choices: &mut Choices,
        tries: &mut u64,
        edge: &Edge,
    ) -> Result<bool, AllocError> {
        *tries = tries.saturating_add(1);
        self.numbers.take(&program.letters, choices, edge.letter.id)
    }

    /// Whether it has so many letters.
    pub fn has(&self, length: u32) -> bool {
        self.count >= length as usize
    }

    /// Goes on along an edge whose letter was taken.
    fn follow(&mut self, edge: &Edge) -> Result<(), AllocError> {
        match edge.letter.kind {
            Kind::Inside => {}
            Kind::Call => self.callers.push(self.place)?,
            Kind::Back => {
                let _before = self.callers.pop();
            }
        }
        self.place = edge.to;
        self.add_letter(edge.letter)
    }

    /// Puts a letter behind those of the walk.
    fn add_letter(&mut self, letter: Letter) -> Result<(), AllocError> {
        match self.letters.get_mut(self.count) {
            Some(place) => *place = letter,
            None => self.letters.push(letter)?,
        }
        self.count = self.count.saturating_add(1);
        Ok(())
    }

    /// Its word, where the automaton accepts it.
    pub fn word(&self, alloc: Global, nwa: &Nwa) -> Result<Option<Word>, AllocError>
        ensures { IfOk result (λ o. IfSome o (Accepts nwa.now)) }
    {
        let letters = self.letters.get(..self.count).unwrap_or(&[]);
        if_accepted(alloc, nwa, word(Vec::from_slice(alloc, letters)?))
    }
}

/// The word, where the automaton accepts it.
pub(crate) fn if_accepted(
    alloc: Global,
    nwa: &Nwa,
    word: Option<Word>,
) -> Result<Option<Word>, AllocError>
    ensures { IfOk result (λ o. IfSome o (Accepts nwa.now)) }
{
    match word {
        Some(word) => {
            if accepts(alloc, nwa, &word)? {
                Ok(Some(word))
            } else {
                Ok(None)
            }
        }
        None => Ok(None),
    }
}

/// The number of the edge that is tried next: a random one first, then that behind the last one, and behind the last of all the first.
fn number_in_turn(choices: &mut Choices, last: usize, count: usize, is_first: bool) -> usize {
    if is_first {
        return choices.below(count);
    }
    let next = last.wrapping_add(1);
    if next < count { next } else { 0 }
}

/// The edge with a number: first those forward, then the returns.
fn edge_at<'a>(
    edges: &'a Edges,
    stand: &Stand,
    backs: &'a [(u32, Edge)],
    number: usize,
) -> Option<&'a Edge> {
    match number.checked_sub(stand.forward.len()) {
        None => edges.forward(stand, number),
        Some(number) => match backs.get(number) {
            Some(back) => Some(&back.1),
            None => None,
        },
    }
}
