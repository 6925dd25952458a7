//! Laws of the texts of failures, and of replays.
ghost use Rattle.std.specs.Prelude.{◌≡◌, ◌≢◌, ℕ, ℤ, List, Option, length};
ghost use Rattle.trace_replay.specs.FailureText.{PlainFailure, IsInBounds, failure_text};
ghost use Rattle.trace_replay.specs.FailureFaults.{IsFirstFault};
ghost use Rattle.typed_tree.specs.TypedTree.{TypedProgram};
ghost use Rattle.boogie_run.specs.Steps.{Failed, start};
ghost use Rattle.boogie_run.specs.Runs.{run};
ghost use Rattle.boogie_run.specs.RunRules.Runs.{Fails};
ghost use Rattle.trace_replay.specs.declared.causes.ReplayCause.{ReplayCause};
ghost use Rattle.trace_replay.specs.Replays.{StepsFit, Replays};
ghost use Rattle.trace_replay.specs.ReplayCauses.{StopsAt};
ghost use Rattle.trace_replay.specs.Tried.{TriedFails, TriedEnd, IsTriedEnd};
ghost use Rattle.trace_replay.specs.Guesses.{FailsWith};

use boogie_run::run_rules::laws::machine_follows_rules;

/// Failures with one text are one.
pub fn failure_texts_are_one_to_one()
    ensures { (f g : PlainFailure) → IsInBounds f → IsInBounds g → failure_text f ≡ failure_text g → f ≡ g }
{}

/// A text has at most one first line that cannot stand there.
pub fn one_first_fault()
    ensures { (text : List ℕ) (m n : ℕ) → IsFirstFault text m → IsFirstFault text n → m ≡ n }
{}

/// A text with a line that cannot stand there is the text of no failure.
pub fn faulty_texts_are_no_failures()
    ensures { (text : List ℕ) (line : ℕ) (f : PlainFailure) → IsFirstFault text line → IsInBounds f → text ≢ failure_text f }
{}

/// A run replays for one assertion at most.
pub fn one_assertion_replays()
    ensures { (t : TypedProgram) (n : ℕ) (choices : List ℤ) (i j : ℕ) → Replays t n choices i → Replays t n choices j → i ≡ j }
{}

/// A run that replays has no step at which it stops for a cause.
pub fn what_replays_does_not_stop()
    ensures { (t : TypedProgram) (n : ℕ) (choices : List ℤ) (i step : ℕ) (cause : ReplayCause) → Replays t n choices i → StopsAt t n choices step cause → ⊥ }
{}

/// A run that does not replay stops at one step, for one cause.
pub fn one_cause()
    ensures { (t : TypedProgram) (n : ℕ) (choices : List ℤ) (k l : ℕ) (a b : ReplayCause) → StopsAt t n choices k a → StopsAt t n choices l b → (k ≡ l) × (a ≡ b) }
{}

/// What replays is a run that fails, so the program is not safe.
pub fn what_replays_fails()
    ensures { (t : TypedProgram) (n : ℕ) (choices : List ℤ) (i : ℕ) → Replays t n choices i → Fails t i }
{
    machine_follows_rules();
}

/// A run that fails replays by its choices, where each value on the way fits.
pub fn failing_runs_replay()
    ensures { (t : TypedProgram) (steps : List (Option ℤ)) (i : ℕ) → run t (start t) steps ≡ Failed i → StepsFit t (start t) steps → (choices : List ℤ) × Replays t (length steps) choices i }
{}

/// The run that takes given choices, in at most so many steps, fails an assertion, or meets a value that does not fit, or ends otherwise.
pub fn tried_ends()
    ensures { (t : TypedProgram) (n : ℕ) (choices : List ℤ) → (e : TriedEnd) × IsTriedEnd t n choices e }
{}

/// It has one of these three ends alone, and in one step.
pub fn one_tried_end()
    ensures { (t : TypedProgram) (n : ℕ) (choices : List ℤ) (e f : TriedEnd) → IsTriedEnd t n choices e → IsTriedEnd t n choices f → e ≡ f }
{}

/// Where it fails, the choices that it used replay.
pub fn what_fails_when_tried_replays()
    ensures { (t : TypedProgram) (n : ℕ) (choices : List ℤ) (steps : ℕ) (used : List ℤ) (i : ℕ) → TriedFails t n choices steps used i → Replays t steps used i }
{}

/// Where it fails, the choices that it used make a run of their own fail the same assertion with the same step.
pub fn fronts_fail_alone()
    ensures { (t : TypedProgram) (n : ℕ) (choices : List ℤ) (steps : ℕ) (used : List ℤ) (i : ℕ) → TriedFails t n choices steps used i → FailsWith t steps used i }
{}
