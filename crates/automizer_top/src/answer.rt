ghost use Rattle.std.specs.Prelude.{◌≡◌, [], ◌∷◌, IfOk};
ghost use Rattle.text_reports.specs.Answers.{answer_of};
ghost use Rattle.automizer_top.specs.Ties.Answers.{answered};
ghost use Rattle.automizer_top.specs.Verdicts.{verdict_status};

use boogie_types::Span;
use itp_automaton::Certified;
use race_core::Shared;
use race_verdicts::Verdict;
use std::alloc::{AllocError, Global};
use text_reports::{TextAnswer, rule_line};

/// What the program answers, before it is written.
#[derive(Drop)]
pub(crate) enum Answer {
    /// The words are faulty.
    Usage,
    /// What is answered to a text, whatever words ask for it.
    OnText(TextAnswer),
    /// The specification or the invariant there is free, where each procedure is to be verified by itself.
    Free(Span),
    /// The text of a ranking that was found.
    Ranking(Vec<u8>),
    /// There is no linear rank of the loop, and the stem and one turn are not refuted.
    NoRanking,
    /// A number of the search for a ranking does not fit.
    NoNumber,
    /// The text of a verdict, with the race that it is of.
    Decided {
        text: Vec<u8>,
        verdict: Verdict,
        race: Shared<Certified>,
    },
    /// The text of the verdicts on parts, each of which is safe, with the races that they are of.
    PartsDecided {
        text: Vec<u8>,
        races: Vec<Shared<Certified>>,
    },
    /// The text of the verdict on a part, with its race and those of the parts before it.
    PartDecided {
        text: Vec<u8>,
        verdict: Verdict,
        races: Vec<Shared<Certified>>,
    },
}

impl Answer {
    /// The bytes that are written, and the races of verdicts.
    pub fn output(self, alloc: Global) -> Result<(Vec<u8>, Vec<Shared<Certified>>), AllocError>
        ensures text { IfOk result (λ output. output.0.items ≡ (answered self).bytes) }
        ensures races { IfOk result (λ output. output.1.items ≡ (answered self).races) }
    {
        let line = match self {
            Answer::Usage => String::from_str(
                alloc,
                "usage: automizer MODE PROGRAM [SECOND] [--entry NAME] [--rounds N] [--workers N] [--depth N] [--modular] [--reuse OLD]\n",
            ),
            Answer::OnText(answer) => return on_text(alloc, answer),
            Answer::Free(at) => rule_line(alloc, "Free", at),
            Answer::Ranking(text) => return Ok((text, Vec::new(alloc))),
            Answer::NoRanking => String::from_str(alloc, "unknown ranking\n"),
            Answer::NoNumber => String::from_str(alloc, "unknown number\n"),
            Answer::Decided {
                text,
                verdict,
                race,
            } => {
                drop(verdict);
                return with_race(alloc, text, race);
            }
            Answer::PartsDecided { text, races } => return Ok((text, races)),
            Answer::PartDecided {
                text,
                verdict,
                races,
            } => {
                drop(verdict);
                return Ok((text, races));
            }
        };
        Ok((line?.into_bytes(), Vec::new(alloc)))
    }

    /// The status of the program.
    pub fn status(&self) -> u8
        ensures { result ≡ (answered self.now).status }
    {
        match self {
            Answer::Usage => 4,
            Answer::OnText(answer) => answer.status(),
            Answer::Free(_) => 3,
            Answer::Ranking(_) | Answer::PartsDecided { .. } => 0,
            Answer::NoRanking | Answer::NoNumber => 2,
            Answer::Decided { verdict, .. } => verdict_status(verdict),
            Answer::PartDecided { verdict, .. } => verdict_status(verdict),
        }
    }
}

/// The bytes of what is answered to a text, and no race.
fn on_text(
    alloc: Global,
    answer: TextAnswer,
) -> Result<(Vec<u8>, Vec<Shared<Certified>>), AllocError>
    ensures text { IfOk result (λ output. output.0.items ≡ (answer_of answer).bytes) }
    ensures races { IfOk result (λ output. output.1.items ≡ []) }
{
    Ok((answer.text(alloc)?, Vec::new(alloc)))
}

/// These bytes, and this race alone.
fn with_race(
    alloc: Global,
    text: Vec<u8>,
    race: Shared<Certified>,
) -> Result<(Vec<u8>, Vec<Shared<Certified>>), AllocError>
    ensures text { IfOk result (λ output. output.0.items ≡ text.items) }
    ensures races { IfOk result (λ output. output.1.items ≡ race ∷ []) }
{
    let mut races = Vec::new(alloc);
    races.push(race)?;
    Ok((text, races))
}

/// The status of a verdict.
pub(crate) fn verdict_status(verdict: &Verdict) -> u8
    ensures { result ≡ verdict_status verdict.now }
{
    match verdict {
        Verdict::Safe { .. } => 0,
        Verdict::Unsafe(_) => 1,
        Verdict::Unknown { .. } => 2,
    }
}
