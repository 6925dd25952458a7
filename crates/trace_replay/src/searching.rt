//! The search for other choices: one run after another, each with some choices that another run had not.

ghost use Rattle.std.specs.Prelude.{◌≡◌, true, IfOk, IfSome};
ghost use Rattle.std.specs.List.{AllByRecursion};
ghost use Rattle.math_facts.specs.Fits.{Fits};
ghost use Rattle.typed_tree.specs.TypingRules.TypedParts.{typed_program};
ghost use Rattle.trace_replay.specs.FailureText.{numbers};
ghost use Rattle.trace_replay.specs.Guesses.{IsGuessed};

use crate::failure::Trail;
use crate::guessing::{Attempt, Guess, Other, current_at, try_guess};
use crate::suggesting::suggested;
use boogie_run::Choice;
use math_facts::random_numbers::Random;
use std::alloc::{AllocError, Global};
use typed_tree::typing_rules::Typed;

/// How many steps all runs of a search make together at most; its last run may be cut off.
const ALL_STEPS: u64 = 16_384;

/// How many runs a search makes at most, behind the first ones.
const RUNS: u32 = 2_048;

/// By so many steps a run may be longer than the told one, since a loop may have more rounds.
const MORE_STEPS: u64 = 64;

/// How many of the numbers are tried for all whole numbers at once.
const FILLS: usize = 8;

/// One in so many runs starts again from the told choices, as they are or without zeros.
const STARTS: usize = 32;

/// How many steps one run may make, and all runs that are left.
#[derive(Drop)]
struct Budget {
    one: u64,
    all: u64,
}

/// Makes one run, and takes its steps off the budget; its start counts as one.
fn spend(
    alloc: Global,
    program: &Typed,
    guess: Guess<'_>,
    budget: &mut Budget,
) -> Result<Attempt, AllocError>
    ensures guessed { IfOk result (λ a. a.fails ≡ true → IsGuessed (typed_program program.now) a.trail.steps (numbers a.trail.choices.items)) }
    ensures fit { IfOk result (λ a. AllByRecursion Fits (numbers a.trail.choices.items)) }
{
    let attempt = try_guess(alloc, program, guess, budget.one.min(budget.all))?;
    budget.all = budget
        .all
        .saturating_sub(attempt.trail.steps.saturating_add(1));
    Ok(attempt)
}

/// As many choices of one number.
fn all_of(alloc: Global, number: i128, count: usize) -> Result<Vec<Choice>, AllocError> {
    let mut choices = Vec::with_capacity(alloc, count)?;
    for _ in 0..count {
        choices.push(Choice(number))?;
    }
    Ok(choices)
}

/// The choices with 1 in place of 0, since whatever is multiplied by 0 is 0.
fn without_zeros(alloc: Global, choices: &[Choice]) -> Result<Vec<Choice>, AllocError> {
    let mut others = Vec::with_capacity(alloc, choices.len())?;
    for choice in choices {
        let number = if choice.0 == 0 { 1 } else { choice.0 };
        others.push(Choice(number))?;
    }
    Ok(others)
}

/// A number beside this one.
fn beside(number: i128, random: &mut Random) -> i128 {
    let distance = 1 + random.below(4) as i128;
    let moved = if random.below(2) == 0 {
        number.checked_add(distance)
    } else {
        number.checked_sub(distance)
    };
    moved.unwrap_or(number)
}

/// What to take in place of the current number: one of those that are suggested, a number beside it, or a product of choices before, as the result of a call of which nothing is
/// known but that it is such a product.
fn other(suggestions: &[i128], current: i128, random: &mut Random) -> Other {
    match random.below(12) {
        0..=4 => {
            let number = suggestions.get(random.below(suggestions.len()));
            Other::Number(number.copied().unwrap_or(0))
        }
        5..=9 => Other::Number(beside(current, random)),
        _ => Other::Product(random.below(4), random.below(4)),
    }
}

/// What to take at one to four places.
fn changes(
    alloc: Global,
    told: &[Choice],
    current: &[Choice],
    suggestions: &[i128],
    random: &mut Random,
) -> Result<Vec<(usize, Other)>, AllocError> {
    let mut changed = Vec::new(alloc);
    let count = 1 + random.below(2) + random.below(3);
    for _ in 0..count {
        let place = random.below(told.len());
        let number = current_at(told, current, place);
        changed.push((place, other(suggestions, number, random)))?;
    }
    Ok(changed)
}

/// Runs that take one number for all whole numbers.
fn filled(
    alloc: Global,
    program: &Typed,
    told: &[Choice],
    suggestions: &[i128],
    budget: &mut Budget,
) -> Result<Option<Trail>, AllocError>
    ensures guessed { IfOk result (λ found. IfSome found (λ trail. IsGuessed (typed_program program.now) trail.steps (numbers trail.choices.items))) }
    ensures fit { IfOk result (λ found. IfSome found (λ trail. AllByRecursion Fits (numbers trail.choices.items))) }
{
    for number in suggestions.iter().take(FILLS) {
        let current = all_of(alloc, *number, told.len())?;
        let guess = Guess {
            told,
            current: &current,
            changed: &[],
        };
        let attempt = spend(alloc, program, guess, budget)?;
        if attempt.fails {
            return Ok(Some(attempt.trail));
        }
    }
    Ok(None)
}

/// Runs each of which changes some choices of one before that came as far as the told run, so that what the word asks of them stays met.
fn walked(
    alloc: Global,
    program: &Typed,
    told: &[Choice],
    suggestions: &[i128],
    reached: u64,
    budget: &mut Budget,
) -> Result<Option<Trail>, AllocError>
    ensures guessed { IfOk result (λ found. IfSome found (λ trail. IsGuessed (typed_program program.now) trail.steps (numbers trail.choices.items))) }
    ensures fit { IfOk result (λ found. IfSome found (λ trail. AllByRecursion Fits (numbers trail.choices.items))) }
{
    let mut random = Random::new(0);
    let mut current = Vec::new(alloc);
    for _ in 0..RUNS {
        if budget.all == 0 {
            return Ok(None);
        }
        match random.below(2 * STARTS) {
            0 => current = Vec::new(alloc),
            1 => current = without_zeros(alloc, told)?,
            _ => {}
        }
        let changed = changes(alloc, told, &current, suggestions, &mut random)?;
        let guess = Guess {
            told,
            current: &current,
            changed: &changed,
        };
        let attempt = spend(alloc, program, guess, budget)?;
        if attempt.fails {
            return Ok(Some(attempt.trail));
        }
        if attempt.trail.steps >= reached {
            current = attempt.trail.choices;
        }
    }
    Ok(None)
}

/// Tries other choices than those that are told, which a point tells, in runs of about so many steps: a search that is the same each time.
pub(crate) fn guessed(
    alloc: Global,
    program: &Typed,
    told: &[Choice],
    steps: u64,
    candidates: &[i128],
    point: &[i128],
) -> Result<Option<Trail>, AllocError>
    ensures guessed { IfOk result (λ found. IfSome found (λ trail. IsGuessed (typed_program program.now) trail.steps (numbers trail.choices.items))) }
    ensures fit { IfOk result (λ found. IfSome found (λ trail. AllByRecursion Fits (numbers trail.choices.items))) }
{
    let mut budget = Budget {
        one: steps.saturating_add(MORE_STEPS),
        all: ALL_STEPS,
    };
    let guess = Guess {
        told,
        current: told,
        changed: &[],
    };
    let first = spend(alloc, program, guess, &mut budget)?;
    if first.fails {
        return Ok(Some(first.trail));
    }
    let suggestions = suggested(alloc, candidates, point)?;
    if let Some(trail) = filled(alloc, program, told, &suggestions, &mut budget)? {
        return Ok(Some(trail));
    }
    walked(
        alloc,
        program,
        told,
        &suggestions,
        first.trail.steps,
        &mut budget,
    )
}
