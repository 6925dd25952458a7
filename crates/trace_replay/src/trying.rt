//! How the run ends that takes given choices.

ghost use Rattle.std.specs.Prelude.{◌≡◌, IfOk, IfErr};
ghost use Rattle.typed_tree.specs.TypingRules.TypedParts.{typed_program};
ghost use Rattle.trace_replay.specs.FailureText.{numbers};
ghost use Rattle.trace_replay.specs.ReplayAnswers.{FailsBy, IsTriedFault, told_cause};

use crate::causes::{ReplayCause, ReplayFault};
use crate::replaying::{Turn, one_step};
use boogie_run::{Choice, start};
use std::alloc::Global;
use typed_tree::typing_rules::Typed;

/// How a run fails: after how many steps, and how many choices it used.
#[derive(Clone, Copy)]
pub(crate) struct Failing {
    pub(crate) steps: u64,
    pub(crate) used: usize,
}

/// Runs the program on the choices, in order, for at most so many steps, up to an assertion that fails; choices may be left then.
pub(crate) fn tried(
    alloc: Global,
    program: &Typed,
    steps: u64,
    choices: &[Choice],
) -> Result<Failing, ReplayFault>
    ensures fails { IfOk result (λ f. FailsBy (typed_program program.now) steps (numbers choices.now) f.steps f.used) }
    ensures fault { IfErr result (IsTriedFault (typed_program program.now) steps (numbers choices.now)) }
{
    let mut config = start(alloc, program)?;
    let mut left = choices;
    for made in 0..steps {
        match one_step(program, &mut config, left)? {
            Turn::GoesOn(rest) => left = rest,
            Turn::Fails(_) => {
                return Ok(Failing {
                    steps: made + 1,
                    used: choices.len(),
                });
            }
            Turn::FailsEarly(rest) => {
                return Ok(Failing {
                    steps: made + 1,
                    used: choices.len() - rest.len(),
                });
            }
            Turn::Stops(cause) => {
                return Err(ReplayFault::At {
                    step: made + 1,
                    cause: told_cause(cause),
                });
            }
        }
    }
    Err(ReplayFault::At {
        step: steps,
        cause: ReplayCause::Product,
    })
}

/// Why the choices that are told of a word do not fail: but for a number that does not fit, for the word's products.
fn told_cause(cause: ReplayCause) -> ReplayCause
    ensures { result ≡ told_cause cause }
{
    match cause {
        ReplayCause::Number => ReplayCause::Number,
        _ => ReplayCause::Product,
    }
}
