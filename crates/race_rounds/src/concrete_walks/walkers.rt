ghost use Rattle.std.specs.Prelude.{◌≡◌, ◌||◌, IfOk, IfSome, Ok, None, true, false, is_some};
ghost use Rattle.nwa_base.specs.Acceptance.{Accepts};

use crate::concrete_walks::choices::Choices;
use crate::concrete_walks::programs::Program;
use crate::concrete_walks::walks::{Lengths, Walk};
use letter_acts::Icfg;
use nwa_base::Word;
use std::alloc::{AllocError, Global};
use std::marker::Model;

/// What walks over a program. Contracts see whether it has found a word.
#[derive(Drop)]
pub struct Walker {
    program: Program,
    choices: Choices,
    walk: Walk,
    lengths: Lengths,
    found: bool,
}

impl Model for Walker {
    ghost use Rattle.race_rounds.specs.ConcreteWalks.Ties.Walkers.{Walking};

    ghost Value = { Walking };

    ghost view = { λ w. record { found = w.found } };
}

impl Walker {
    /// The walker of a worker over a program. A worker's walks are the same in each run.
    pub fn new(alloc: Global, icfg: &Icfg, worker: u64) -> Result<Walker, AllocError>
        ensures { IfOk result (λ w. w.found ≡ false) }
    {
        let choices = Choices::new(alloc, icfg, worker)?;
        Ok(Walker {
            program: Program::new(alloc, icfg)?,
            choices,
            walk: Walk::new(alloc),
            lengths: Lengths::new(),
            found: false,
        })
    }

    /// Walks over the program, until a walk reaches a final state or some `moves` letters were tried, each walk counted as one more,
    /// and answers the word along which that walk went, without loops. After it has found one it walks no more.
    pub fn slice(
        &mut self,
        alloc: Global,
        icfg: &Icfg,
        moves: u64,
    ) -> Result<Option<Word>, AllocError>
        ensures accepted { IfOk result (λ o. IfSome o (Accepts icfg.now.automaton)) }
        ensures found { IfOk result (λ o. self.new.found ≡ (self.old.found || is_some o)) }
        ensures once { self.old.found ≡ true → result ≡ Ok None }
    {
        if self.found || icfg.nwa().finals().is_empty() {
            return Ok(None);
        }
        let mut tries = 0;
        for _ in 0..moves {
            if tries >= moves {
                break;
            }
            let length = self.lengths.length();
            let mark = self.choices.mark();
            let (program, choices) = (&self.program, &mut self.choices);
            if self.walk.go(program, choices, length, &mut tries)? {
                choices.go_back(mark);
                self.walk.straighten(alloc, program, choices)?;
                // the walk is one over the program from which the walker was made, so its word is tested in this one
                if let Some(word) = self.walk.word(alloc, icfg.nwa())? {
                    self.found = true;
                    return Ok(Some(word));
                }
            }
            if self.walk.has(length) {
                self.lengths.count_cut_off();
            }
        }
        Ok(None)
    }

    /// Once it has found a word, the numbers of the walk that went along it, by the columns of the word's rows.
    pub fn numbers(&self) -> &[i128] {
        self.walk.made()
    }
}
