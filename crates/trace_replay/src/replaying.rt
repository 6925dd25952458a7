//! Replays runs.
ghost use Rattle.std.specs.Prelude.{◌≡◌, ◌⊎◌, ℕ, Ok, Err, IfOk, IfErr, MatchResult};
ghost use Rattle.typed_tree.specs.TypingRules.TypedParts.{typed_program};
ghost use Rattle.boogie_run.specs.RunView.{config_of, FitsProgram};
ghost use Rattle.boogie_run.specs.StepView.{need_view, choice_view};
ghost use Rattle.trace_replay.specs.FailureText.{numbers};
ghost use Rattle.trace_replay.specs.NextChoices.{next_choice};
ghost use Rattle.trace_replay.specs.Replays.{Replays, IsReplayed};
ghost use Rattle.trace_replay.specs.ReplayCauses.{StopsAt};
ghost use Rattle.trace_replay.specs.declared.causes.ReplayCause.{ReplayCause};
ghost use Rattle.trace_replay.specs.declared.causes.ReplayFault.TheVariants.{At, Memory};
ghost use Rattle.trace_replay.specs.ReplayAnswers.{IsStopOf, TurnsTo};

use crate::causes::{ReplayCause, ReplayFault};
use crate::failure::Trail;
use boogie_run::{AssertId, Choice, Config, Moved, Need, RunFault, needs, start, step};
use std::alloc::{AllocError, Global};
use typed_tree::typing_rules::Typed;

/// Runs the program on the choices, in order: the assertion that fails after at most that many steps, with all choices used.
pub fn replay(alloc: Global, program: &Typed, trail: &Trail) -> Result<AssertId, ReplayFault>
    ensures found { IfOk result (IsReplayed (typed_program program.now) trail.now.steps (numbers trail.now.choices.items)) }
    ensures stopped { IfErr result (IsStopOf (typed_program program.now) trail.now.steps (numbers trail.now.choices.items)) }

    // a run that replays is found to, and one that stops is found to stop there, unless memory runs out
    ensures replays { (i : ℕ) → Replays (typed_program program.now) trail.now.steps (numbers trail.now.choices.items) i → MatchResult result (λ id. id.number ≡ i) (λ e. e ≡ Memory) }
    ensures stops { (k : ℕ) (cause : ReplayCause) → StopsAt (typed_program program.now) trail.now.steps (numbers trail.now.choices.items) k cause → (result ≡ Err (At k cause)) ⊎ (result ≡ Err Memory) }
{
    let mut config = start(alloc, program)?;
    let mut left = trail.choices.as_slice();
    for made in 0..trail.steps {
        match one_step(program, &mut config, left)? {
            Turn::GoesOn(rest) => left = rest,
            Turn::Fails(id) => return Ok(id),
            Turn::FailsEarly(_) => {
                return Err(ReplayFault::At {
                    step: made + 1,
                    cause: ReplayCause::BadChoice,
                });
            }
            Turn::Stops(cause) => {
                return Err(ReplayFault::At {
                    step: made + 1,
                    cause,
                });
            }
        }
    }
    Err(ReplayFault::At {
        step: trail.steps,
        cause: ReplayCause::Short,
    })
}

/// What one step makes of a run that takes given choices.
#[derive(Clone, Copy)]
pub enum Turn<'a> {
    /// It goes on; these choices are left.
    GoesOn(&'a [Choice]),
    /// An assertion fails, and no choice is left.
    Fails(AssertId),
    /// An assertion fails, and these choices are left.
    FailsEarly(&'a [Choice]),
    /// It ends otherwise.
    Stops(ReplayCause),
}

/// Makes one step, with the next of the choices that are left, where it takes one.
pub fn one_step<'a>(
    program: &Typed,
    config: &mut Config<'_>,
    left: &'a [Choice],
) -> Result<Turn<'a>, AllocError>
    requires { FitsProgram program.now config.old }
    ensures turns { IfOk result (TurnsTo (typed_program program.now) (config_of config.old) (numbers left.now) (config_of config.new)) }
    ensures fits { FitsProgram program.now config.new }
{
    let (choice, rest) = next_choice(needs(program, config), left);
    Ok(match step(program, config, choice) {
        Ok(Moved::Went) => Turn::GoesOn(rest),
        Ok(Moved::Failed(id)) if rest.is_empty() => Turn::Fails(id),
        Ok(Moved::Failed(_)) => Turn::FailsEarly(rest),
        Ok(Moved::Blocked) => Turn::Stops(ReplayCause::Blocked),
        Ok(Moved::Ended) => Turn::Stops(ReplayCause::Ended),
        Err(RunFault::NeedsChoice) => Turn::Stops(ReplayCause::Short),
        Err(RunFault::BadChoice) => Turn::Stops(ReplayCause::BadChoice),
        Err(RunFault::Number) => Turn::Stops(ReplayCause::Number),
        Err(RunFault::Memory) => return Err(AllocError),
    })
}

/// The choice that a step takes, if it needs one, and those behind it.
fn next_choice(need: Need, choices: &[Choice]) -> (Option<Choice>, &[Choice])
    ensures choice { choice_view result.0 ≡ (next_choice (need_view need) (numbers choices.now)).0 }
    ensures rest { numbers result.1.now ≡ (next_choice (need_view need) (numbers choices.now)).1 }
{
    if need == Need::Nothing {
        return (None, choices);
    }
    match choices.split_first() {
        Some((first, rest)) => (Some(*first), rest),
        None => (None, choices),
    }
}
