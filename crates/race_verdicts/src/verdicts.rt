//! What is said of a race that has ended.

ghost use Rattle.std.specs.Prelude.{◌≡◌, IfOk, IsSome, Option};
ghost use Rattle.typed_tree.specs.TypingRules.TypedParts.{typed_program};
ghost use Rattle.lowered_graph.specs.Lowered.{lowered};
ghost use Rattle.race_core.specs.declared.events.Entry.{Entry};
ghost use Rattle.itp_automaton.specs.Certified.{Certificate};
ghost use Rattle.race_rounds.specs.declared.limits.Limits.{Limits};
ghost use Rattle.race_rounds.specs.Rounds.{IsRaceOf};
ghost use Rattle.race_verdicts.specs.Verdicts.{IsVerdict};

use crate::failures::failure_of;
use crate::proving::annotation_of;
use itp_automaton::Certified;
use letter_acts::Icfg;
use nwa_base::Word;
use proof_form::Annotation;
use proof_names::coarse_lines::coarse_letters;
use race_core::{Cause, End, Shared};
use std::alloc::{AllocError, Global};
use trace_replay::Failure;
use trace_replay::laws::what_fails_when_tried_replays;
use typed_tree::typing_rules::Typed;

/// What is said of a program.
#[derive(Drop)]
pub enum Verdict {
    /// No run of it fails an assertion.
    Safe {
        /// The coarse letters that the triples of the annotation name.
        coarse: Vec<u32>,
        /// It proves the program.
        annotation: Annotation,
    },
    /// A run of it fails an assertion.
    Unsafe(Failure),
    /// Nothing is known, for this cause, of the word.
    Unknown {
        /// Why.
        cause: Cause,
        /// An error word that is left.
        word: Word,
    },
}

/// What is said of the program of a race that has ended.
pub fn verdict_of(
    alloc: Global,
    program: &Typed,
    icfg: &Icfg,
    race: &Shared<Certified>,
) -> Result<Verdict, AllocError>
    requires lowered { icfg.now ≡ lowered (typed_program program.now) }
    requires race { (given : Option (Entry Certificate)) × (l : Limits) × IsRaceOf (typed_program program.now) given l race.now }
    requires ended { IsSome race.now.end }
    ensures { IfOk result (IsVerdict (typed_program program.now) race.now) }
{
    what_fails_when_tried_replays();
    let rounds = race.version();
    match race.end() {
        Some(End::Safe) => {
            let annotation = annotation_of(alloc, program, icfg, race)?;
            let coarse = coarse_letters(alloc, icfg, &annotation)?;
            Ok(Verdict::Safe { coarse, annotation })
        }
        Some(End::Unsafe { steps, choices, .. }) => {
            let failure = failure_of(alloc, program, rounds, *steps, choices)?;
            Ok(Verdict::Unsafe(failure))
        }
        Some(End::Unknown { cause, word }) => Ok(Verdict::Unknown {
            cause: *cause,
            word: word.copy()?,
        }),
        None => unreachable!(),
    }
}
