//! The lines of steps and backs.

ghost use Rattle.std.specs.Prelude.{IfOk};
ghost use Rattle.proof_names.specs.ProofSpell.Spelled.{SpellsStep};

use crate::NamedStep;
use crate::proof_spell::numerals::{index, move_numerals};
use proof_form::StepLine;
use std::alloc::{AllocError, Global};

/// The line of a step or a back.
pub(crate) fn step_line(alloc: Global, step: NamedStep) -> Result<StepLine, AllocError>
    ensures { IfOk result (λ line. SpellsStep line step) }
{
    match step {
        NamedStep::Step { from, letter, to } => {
            let (from, letter, to) = move_numerals(alloc, from, letter, to)?;
            Ok(StepLine::Step { from, letter, to })
        }
        NamedStep::Back {
            exit,
            call,
            letter,
            to,
        } => {
            let exit = index(alloc, exit)?;
            let (call, letter, to) = move_numerals(alloc, call, letter, to)?;
            Ok(StepLine::Back {
                exit,
                call,
                letter,
                to,
            })
        }
    }
}
