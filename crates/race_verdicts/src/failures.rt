//! Values that replay.

ghost use Rattle.std.specs.Prelude.{◌≡◌, ℕ, IfOk};
ghost use Rattle.std.specs.List.{AllByRecursion};
ghost use Rattle.math_facts.specs.Fits.{Fits};
ghost use Rattle.typed_tree.specs.TypingRules.TypedParts.{typed_program};
ghost use Rattle.trace_replay.specs.FailureText.{numbers};
ghost use Rattle.trace_replay.specs.Replays.{Replays, IsReplayed};
ghost use Rattle.race_verdicts.specs.Verdicts.{IsFailureBy};

use boogie_run::Choice;
use std::alloc::{AllocError, Global};
use trace_replay::{Failure, ReplayFault, Trail, replay};
use typed_tree::typing_rules::Typed;

/// The values as choices.
fn choices_from(alloc: Global, values: &[i128]) -> Result<Vec<Choice>, AllocError>
    ensures { IfOk result (λ v. numbers v.items ≡ values.now) }
{
    let mut choices = Vec::with_capacity(alloc, values.len())?;
    for value in values {
        choices.push(Choice(*value))?;
    }
    Ok(choices)
}

/// The failure to which these values lead within so many steps, found after so many rounds.
pub(crate) fn failure_of(
    alloc: Global,
    program: &Typed,
    rounds: u64,
    steps: u64,
    values: &[i128],
) -> Result<Failure, AllocError>
    requires replays { (i : ℕ) × Replays (typed_program program.now) steps values.now i }
    requires fit { AllByRecursion Fits values.now }
    ensures { IfOk result (IsFailureBy (typed_program program.now) rounds steps values.now) }
{
    let choices = choices_from(alloc, values)?;
    let trail = Trail { steps, choices };
    match replay(alloc, program, &trail) {
        Ok(id) => Ok(Failure { rounds, id, trail }),
        Err(ReplayFault::Memory) => Err(AllocError),
        Err(ReplayFault::At { .. }) => unreachable!(),
    }
}
