//! Kept words.

ghost use Rattle.std.specs.Prelude.{IfOk};
ghost use Rattle.nwa_emptiness.specs.Found.{IsFound};

use crate::concrete_walks::{Walker, if_accepted};
use crate::deviating::deviating;
use crate::limits::Round;
use crate::plans::moves_of;
use letter_acts::Icfg;
use nwa_base::{Nwa, Word};
use nwa_emptiness::{Found, find};
use std::alloc::{AllocError, Global};

/// What the choices of the first worker's walks go by. Any number serves; by this one they find failures early in programs with which
/// others were compared.
const FIRST_SEED: u64 = 64;

/// Proposes words to a worker: that of a walk which reached a failure, until the race has ended, since the end that it makes may be
/// refused as stale.
#[derive(Drop)]
pub struct Seeker {
    walker: Walker,
    walked: Option<Word>,
}

impl Seeker {
    /// The seeker of a worker over a program.
    pub fn new(alloc: Global, icfg: &Icfg, worker: u32) -> Result<Seeker, AllocError> {
        Ok(Seeker {
            walker: Walker::new(alloc, icfg, FIRST_SEED + u64::from(worker))?,
            walked: None,
        })
    }

    /// Numbers that may meet the rows of a word that it proposed, by their columns: those of the walk, or none.
    pub fn numbers(&self) -> &[i128] {
        self.walker.numbers()
    }

    /// The word of a walk that reached a failure, after so many more moves where there is none yet.
    fn walked(
        &mut self,
        alloc: Global,
        icfg: &Icfg,
        moves: u64,
    ) -> Result<Option<Word>, AllocError> {
        if self.walked.is_none() {
            self.walked = self.walker.slice(alloc, icfg, moves)?;
        }
        match &self.walked {
            Some(word) => Ok(Some(word.copy()?)),
            None => Ok(None),
        }
    }
}

/// A kept word: one that the seeker proposes, else one that is found, or that no word is kept. Workers with
/// different numbers look for different words.
pub fn kept_word(
    alloc: Global,
    icfg: &Icfg,
    kept: &Nwa,
    round: Round,
    seeker: &mut Seeker,
) -> Result<Found, AllocError>
    ensures { IfOk result (IsFound kept.now) }
{
    let moves = moves_of(icfg.nwa(), round);
    let walked = seeker.walked(alloc, icfg, moves)?;
    if let Some(word) = if_accepted(alloc, kept, walked)? {
        return Ok(Found::Word(word));
    }
    let word = match find(alloc, kept, round.worker)? {
        Found::Word(word) => word,
        Found::Empty => return Ok(Found::Empty),
    };
    let other = deviating(alloc, kept, &word, round)?;
    match if_accepted(alloc, kept, other)? {
        Some(other) => Ok(Found::Word(other)),
        None => Ok(Found::Word(word)),
    }
}
