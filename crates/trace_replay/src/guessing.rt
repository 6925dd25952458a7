//! Runs that make their choices as they go.

ghost use Rattle.std.specs.Prelude.{◌≡◌, true, ◌≤◌, ◌++◌, length, drop, IfOk};
ghost use Rattle.std.specs.List.{AllByRecursion};
ghost use Rattle.math_facts.specs.Fits.{Fits};
ghost use Rattle.typed_tree.specs.TypingRules.TypedParts.{typed_program};
ghost use Rattle.trace_replay.specs.FailureText.{numbers};
ghost use Rattle.trace_replay.specs.Guesses.{IsGuessed};

use crate::failure::Trail;
use crate::replaying::{Turn, one_step};
use boogie_run::{Choice, Need, needs, start};
use std::alloc::{AllocError, Global};
use typed_tree::typing_rules::Typed;

/// The number that a run takes at a place of its choices in place of the current one.
#[derive(Clone, Copy)]
pub(crate) enum Other {
    Number(i128),
    /// The product of two of the choices before, counted back from the last one.
    Product(usize, usize),
}

/// Which choices a run makes: truth values and ways as told, so that it keeps to the way of its word as long as it can, and whole numbers as in the current
/// choices, but for some places.
#[derive(Clone, Copy)]
pub(crate) struct Guess<'a> {
    pub(crate) told: &'a [Choice],
    pub(crate) current: &'a [Choice],
    pub(crate) changed: &'a [(usize, Other)],
}

/// The number of the choice at a place, 0 past the end.
fn number_at(choices: &[Choice], place: usize) -> i128 {
    match choices.get(place) {
        Some(choice) => choice.0,
        None => 0,
    }
}

/// The number of the current choice at a place, the told one behind the last.
pub(crate) fn current_at(told: &[Choice], current: &[Choice], place: usize) -> i128 {
    if place < current.len() {
        number_at(current, place)
    } else {
        number_at(told, place)
    }
}

/// The number of a choice counted back from the last one, that of the first where there are not so many.
fn number_before(chosen: &[Choice], back: usize) -> i128 {
    number_at(chosen, chosen.len().saturating_sub(back).saturating_sub(1))
}

/// The number, where it is one below the limit, else 0.
fn below(number: i128, limit: usize) -> i128 {
    if 0 <= number && number < limit as i128 {
        number
    } else {
        0
    }
}

/// The choice of a number, 0 where it does not fit.
fn fitting(number: i128) -> Choice
    ensures { Fits result.0 }
{
    Choice(if number == i128::MIN { 0 } else { number })
}

impl Guess<'_> {
    /// The number for the next choice of a whole number.
    fn whole(&self, chosen: &[Choice]) -> i128 {
        let place = chosen.len();
        for (changed, other) in self.changed {
            if *changed == place {
                return match other {
                    Other::Number(number) => *number,
                    Other::Product(first, second) => {
                        number_before(chosen, *first)
                            .checked_mul(number_before(chosen, *second))
                            .unwrap_or(0)
                    }
                };
            }
        }
        current_at(self.told, self.current, place)
    }

    /// The number for the next choice, if one is needed.
    fn number(&self, need: Need, chosen: &[Choice]) -> Option<i128> {
        match need {
            Need::Nothing => None,
            Need::Whole => Some(self.whole(chosen)),
            Need::Truth => Some(below(number_at(self.told, chosen.len()), 2)),
            Need::Below(ways) => Some(below(number_at(self.told, chosen.len()), ways)),
        }
    }
}

/// Adds the choice of a number behind those that are made, if there is one.
fn add(choices: &mut Vec<Choice>, number: Option<i128>) -> Result<(), AllocError>
    requires { AllByRecursion Fits (numbers choices.old.items) }
    ensures longer { length choices.old.items ≤ length choices.new.items }
    ensures behind { numbers choices.new.items ≡ numbers choices.old.items ++ numbers (drop (length choices.old.items) choices.new.items) }
    ensures fit { AllByRecursion Fits (numbers choices.new.items) }
{
    if let Some(number) = number {
        choices.push(fitting(number))?;
    }
    Ok(())
}

/// What came of a run: the steps that it made, the choices that it took, and whether it failed an assertion with the last step.
#[derive(Drop)]
pub(crate) struct Attempt {
    pub(crate) trail: Trail,
    pub(crate) fails: bool,
}

/// The run that makes the choices of a guess, for at most so many steps.
pub(crate) fn try_guess(
    alloc: Global,
    program: &Typed,
    guess: Guess<'_>,
    steps: u64,
) -> Result<Attempt, AllocError>
    ensures guessed { IfOk result (λ a. a.fails ≡ true → IsGuessed (typed_program program.now) a.trail.steps (numbers a.trail.choices.items)) }
    ensures fit { IfOk result (λ a. AllByRecursion Fits (numbers a.trail.choices.items)) }
{
    let mut config = start(alloc, program)?;
    let mut choices = Vec::new(alloc);
    for made in 0..steps {
        let number = guess.number(needs(program, &config), &choices);
        let before = choices.len();
        add(&mut choices, number)?;
        match one_step(program, &mut config, &choices[before..])? {
            Turn::GoesOn(rest) if rest.is_empty() => {}
            Turn::Fails(_) => {
                return Ok(Attempt {
                    trail: Trail {
                        steps: made + 1,
                        choices,
                    },
                    fails: true,
                });
            }
            _ => {
                return Ok(Attempt {
                    trail: Trail {
                        steps: made,
                        choices,
                    },
                    fails: false,
                });
            }
        }
    }
    Ok(Attempt {
        trail: Trail { steps, choices },
        fails: false,
    })
}
