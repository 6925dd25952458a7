//! From a whole point of a word's rows to an end.

ghost use Rattle.std.specs.Prelude.{◌≡◌, ℕ, ℤ, map, IfOk, IfSome, IsTrue};
ghost use Rattle.std.specs.List.{AllByRecursion};
ghost use Rattle.math_facts.specs.Fits.{Fits};
ghost use Rattle.lin_rows.specs.Rows.{Holds};
ghost use Rattle.nwa_base.specs.Acceptance.{Accepts};
ghost use Rattle.letter_acts.specs.Feasible.{IsFeasible};
ghost use Rattle.letter_acts.specs.Invariant.{alphabet_of};
ghost use Rattle.typed_tree.specs.TypingRules.TypedParts.{typed_program};
ghost use Rattle.lowered_graph.specs.Lowered.{lowered};
ghost use Rattle.path_decide.specs.Decided.{IsWholePoint};
ghost use Rattle.path_rows.specs.Paths.{IsPathOf};
ghost use Rattle.lin_rows.specs.Points.{point_of};
ghost use Rattle.trace_replay.specs.FailureText.{numbers};
ghost use Rattle.race_rounds.specs.Ends.{CauseMeets, SaysOfWord};

use crate::candidates::candidates;
use crate::limits::Limits;
use crate::products::is_by_products;
use boogie_run::Choice;
use letter_acts::Icfg;
use lin_rows::{Row, all_hold};
use nwa_base::Word;
use path_rows::PathSystem;
use race_core::{Cause, End};
use std::alloc::{AllocError, Global};
use trace_replay::laws::fronts_fail_alone;
use trace_replay::{ReplayCause, ReplayFault, choices_of, other_choices_of};
use typed_tree::typing_rules::Typed;

/// The numbers of choices.
fn numbers_of(alloc: Global, choices: &[Choice]) -> Result<Vec<i128>, AllocError>
    ensures { IfOk result (λ v. v.items ≡ numbers choices.now) }
{
    let mut values = Vec::with_capacity(alloc, choices.len())?;
    for choice in choices {
        values.push(choice.0)?;
    }
    Ok(values)
}

/// Why nothing is known of a word, by why the choices that are told of it fail no assertion: but for a value that does not fit, for the
/// word's products.
fn cause_of(fault: ReplayCause) -> Cause
    ensures number { fault ≡ ReplayCause.Number → result ≡ Cause.Number }
    ensures product { fault ≡ ReplayCause.Product → result ≡ Cause.Product }
{
    match fault {
        ReplayCause::Number => Cause::Number,
        _ => Cause::Product,
    }
}

/// The end of a word where the choices that a whole point tells fail no assertion: a run that fails with others, where the word's products leave that open and
/// some are found, or why nothing is known.
fn unless_others_fail(
    alloc: Global,
    program: &Typed,
    icfg: &Icfg,
    limits: Limits,
    word: Word,
    point: &[i128],
    rows: &[Row],
    cause: Cause,
) -> Result<End, AllocError>
    requires lowered { icfg.now ≡ lowered (typed_program program.now) }
    requires accepted { Accepts icfg.now.automaton word }
    requires feasible { IsFeasible (alphabet_of icfg.now) word }
    requires whole { IsWholePoint icfg.now limits.depth word point.now }
    requires cause { (n : ℕ) → CauseMeets (typed_program program.now) limits n cause word }
    ensures { (n : ℕ) → IfOk result (SaysOfWord (typed_program program.now) limits n word) }
{
    // Contracts alone speak of them.
    let _limits = limits;
    if !is_by_products(cause) {
        return Ok(End::Unknown { cause, word });
    }
    let numbers = candidates(alloc, rows)?;
    match other_choices_of(alloc, program, icfg, &word, point, &numbers)? {
        Some(other) => Ok(End::Unsafe {
            word,
            steps: other.steps,
            choices: numbers_of(alloc, &other.choices)?,
        }),
        None => Ok(End::Unknown { cause, word }),
    }
}

/// The end that a whole point of the rows of a word makes: a run that fails with the choices that it tells, or with others where the word has coarse letters; or
/// that the run with its choices meets a value that does not fit, or that it ends otherwise.
pub(crate) fn failing(
    alloc: Global,
    program: &Typed,
    icfg: &Icfg,
    limits: Limits,
    word: Word,
    point: &[i128],
    rows: &[Row],
) -> Result<End, AllocError>
    requires lowered { icfg.now ≡ lowered (typed_program program.now) }
    requires accepted { Accepts icfg.now.automaton word }
    requires feasible { IsFeasible (alphabet_of icfg.now) word }
    requires whole { IsWholePoint icfg.now limits.depth word point.now }
    ensures { (n : ℕ) → IfOk result (SaysOfWord (typed_program program.now) limits n word) }
{
    fronts_fail_alone();
    match choices_of(alloc, program, icfg, &word, point) {
        Ok(trail) => Ok(End::Unsafe {
            word,
            steps: trail.steps,
            choices: numbers_of(alloc, &trail.choices)?,
        }),
        Err(ReplayFault::At { cause, .. }) => unless_others_fail(
            alloc,
            program,
            icfg,
            limits,
            word,
            point,
            rows,
            cause_of(cause),
        ),
        Err(ReplayFault::Memory) => Err(AllocError),
    }
}

/// Whether the numbers fit: whether none is the least of 128 bits, whose opposite has more.
fn all_fit(numbers: &[i128]) -> bool
    ensures { IsTrue result → AllByRecursion Fits numbers.now }
{
    for number in numbers {
        if *number == i128::MIN {
            return false;
        }
    }
    true
}

/// Whether the numbers are one for each column of the path, and are seen to meet its rows.
fn are_met(path: &PathSystem, numbers: &[i128]) -> bool
    ensures meets { IsTrue result → AllByRecursion (Holds (point_of numbers.now)) path.now.rows }
    ensures fit { IsTrue result → AllByRecursion Fits numbers.now }
{
    if path.column_at().len() != numbers.len() || !all_fit(numbers) {
        return false;
    }
    all_hold(&path.system().rows, numbers)
}

/// An end of a word, where these numbers are seen to meet its rows and a run with the choices that they tell fails an assertion. Else nothing is said.
pub(crate) fn failing_with(
    alloc: Global,
    program: &Typed,
    icfg: &Icfg,
    limits: Limits,
    word: &Word,
    path: &PathSystem,
    numbers: &[i128],
) -> Result<Option<End>, AllocError>
    requires lowered { icfg.now ≡ lowered (typed_program program.now) }
    requires accepted { Accepts icfg.now.automaton word.now }
    requires path { IsPathOf icfg.now path.now }
    requires word { path.now.word ≡ word.now }
    requires exact { (point : ℕ → ℤ) → AllByRecursion (Holds point) path.now.rows → IsFeasible (alphabet_of icfg.now) word.now }
    ensures { (n : ℕ) → IfOk result (λ o. IfSome o (SaysOfWord (typed_program program.now) limits n word.now)) }
{
    // Contracts alone speak of them.
    let _limits = limits;
    if !are_met(path, numbers) {
        return Ok(None);
    }
    fronts_fail_alone();
    match choices_of(alloc, program, icfg, word, numbers) {
        Ok(found) => Ok(Some(End::Unsafe {
            word: word.copy()?,
            steps: found.steps,
            choices: numbers_of(alloc, &found.choices)?,
        })),
        Err(ReplayFault::At { .. }) => Ok(None),
        Err(ReplayFault::Memory) => Err(AllocError),
    }
}
