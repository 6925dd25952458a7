//! From a whole solution of a word's rows to a run of the program.

ghost use Rattle.std.specs.Prelude.{◌≡◌, ℕ, IfOk, IfErr, IfSome, length};
ghost use Rattle.std.specs.List.{AllByRecursion};
ghost use Rattle.math_facts.specs.Fits.{Fits};
ghost use Rattle.lin_rows.specs.Rows.{Holds};
ghost use Rattle.lin_rows.specs.Points.{point_of};
ghost use Rattle.typed_tree.specs.TypingRules.TypedParts.{typed_program};
ghost use Rattle.nwa_base.specs.Acceptance.{Accepts};
ghost use Rattle.nwa_base.specs.Runs.{IsAcceptingRun};
ghost use Rattle.lowered_graph.specs.Lowered.{lowered};
ghost use Rattle.path_rows.specs.Paths.{path_of};
ghost use Rattle.trace_replay.specs.ToldChoices.Telling.{ChoicesFit};
ghost use Rattle.trace_replay.specs.FailureText.{numbers};
ghost use Rattle.trace_replay.specs.Replays.{choices_among};
ghost use Rattle.trace_replay.specs.ReplayAnswers.{IsTriedFault};
ghost use Rattle.trace_replay.specs.ToldRuns.{ToldFails, IsToldFault};
ghost use Rattle.trace_replay.specs.Tried.{TriedFails};
ghost use Rattle.trace_replay.specs.Guesses.{IsGuessed};

use crate::causes::ReplayFault;
use crate::failure::Trail;
use crate::path_traces::laws::solutions_are_traces;
use crate::searching::guessed;
use crate::told_choices::told_choices;
use crate::trying::tried;
use boogie_run::Choice;
use letter_acts::Icfg;
use lowered_graph::lowered_choices::laws::choices_of_traces;
use nwa_base::{Word, run_of};
use std::alloc::{AllocError, Global};
use typed_tree::typing_rules::Typed;

/// A run of the automaton over a word that it accepts.
fn accepting_run(alloc: Global, icfg: &Icfg, word: &Word) -> Result<Vec<u32>, AllocError>
    requires { Accepts icfg.now.automaton word.now }
    ensures { IfOk result (λ run. IsAcceptingRun icfg.now.automaton word.now run.items) }
{
    match run_of(alloc, icfg.nwa(), word)? {
        Some(run) => Ok(run),
        None => unreachable!(),
    }
}

/// The choices among what steps take.
fn chosen(alloc: Global, taken: &[Option<i128>]) -> Result<Vec<Choice>, AllocError>
    ensures value { IfOk result (λ v. numbers v.items ≡ choices_among taken.now) }
    ensures fit { ChoicesFit taken.now → IfOk result (λ v. AllByRecursion Fits (numbers v.items)) }
{
    let mut choices = Vec::new(alloc);
    for step in taken {
        if let Some(value) = step {
            choices.push(Choice(*value))?;
        }
    }
    Ok(choices)
}

/// The trail of the run that takes the choices among these, up to an assertion that fails, in as many steps.
fn trail_of(alloc: Global, program: &Typed, taken: &[Option<i128>]) -> Result<Trail, ReplayFault>
    requires { ChoicesFit taken.now }
    ensures trail { IfOk result (λ trail. (i : ℕ) × TriedFails (typed_program program.now) (length taken.now) (choices_among taken.now) trail.steps (numbers trail.choices.items) i) }
    ensures fit { IfOk result (λ trail. AllByRecursion Fits (numbers trail.choices.items)) }
    ensures fault { IfErr result (IsTriedFault (typed_program program.now) (length taken.now) (choices_among taken.now)) }
{
    let mut choices = chosen(alloc, taken)?;
    let failing = tried(alloc, program, taken.len() as u64, &choices)?;
    choices.truncate(failing.used);
    Ok(Trail {
        steps: failing.steps,
        choices,
    })
}

/// The choices of a run of the program that fails, from a whole point that meets the rows of a word which the automaton of the program accepts. It takes
/// one accepting run of the automaton over the word, and runs the program on the choices that the two tell. The fault is `Number` where that run meets a value
/// that does not fit, and `Product` where it ends otherwise than by a failure, which it does on words with coarse letters alone.
pub fn choices_of(
    alloc: Global,
    program: &Typed,
    icfg: &Icfg,
    word: &Word,
    point: &[i128],
) -> Result<Trail, ReplayFault>
    requires lowered { icfg.now ≡ lowered (typed_program program.now) }
    requires accepted { Accepts icfg.now.automaton word.now }
    requires solves { AllByRecursion (Holds (point_of point.now)) (path_of icfg.now word.now).rows }
    requires fits { AllByRecursion Fits point.now }

    // the trail is the front of a told run up to an assertion that fails, all of it where no letter is coarse; it replays, and its choices fit
    ensures told { IfOk result (λ trail. ToldFails (typed_program program.now) (point_of point.now) word.now trail.steps (numbers trail.choices.items)) }
    ensures fit { IfOk result (λ trail. AllByRecursion Fits (numbers trail.choices.items)) }

    // the fault is how a told run ends otherwise, and in which step
    ensures fault { IfErr result (IsToldFault (typed_program program.now) (point_of point.now) word.now) }
{
    choices_of_traces();
    solutions_are_traces();
    let _globals = program.globals();
    let _states = icfg.nwa().states();
    let run = accepting_run(alloc, icfg, word)?;
    let taken = told_choices(alloc, program, icfg, word, &run, point)?;
    trail_of(alloc, program, &taken)
}

/// The choices of a run of the program that fails, other ones than those that a whole point of a word's rows tells, where a search finds some: it tries these
/// numbers and others in their place, some thousand steps in all. `None` says nothing of the program.
pub fn other_choices_of(
    alloc: Global,
    program: &Typed,
    icfg: &Icfg,
    word: &Word,
    point: &[i128],
    candidates: &[i128],
) -> Result<Option<Trail>, AllocError>
    requires lowered { icfg.now ≡ lowered (typed_program program.now) }
    requires accepted { Accepts icfg.now.automaton word.now }
    requires fits { AllByRecursion Fits point.now }

    // the run that takes these choices fails with its last step, and its choices fit
    ensures guessed { IfOk result (λ found. IfSome found (λ trail. IsGuessed (typed_program program.now) trail.steps (numbers trail.choices.items))) }
    ensures fit { IfOk result (λ found. IfSome found (λ trail. AllByRecursion Fits (numbers trail.choices.items))) }
{
    let run = accepting_run(alloc, icfg, word)?;
    let taken = told_choices(alloc, program, icfg, word, &run, point)?;
    let told = chosen(alloc, &taken)?;
    guessed(alloc, program, &told, taken.len() as u64, candidates, point)
}
