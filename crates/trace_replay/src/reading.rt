//! Reads the texts of failures.
ghost use Rattle.std.specs.Prelude.{◌≡◌, ◌++◌, ℕ, IfOk, IfErr, MatchResult};
ghost use Rattle.std.specs.List.{concat};
ghost use Rattle.trace_replay.specs.declared.failure.FailureFault.TheVariants.{Memory};
ghost use Rattle.trace_replay.specs.FailureText.{PlainFailure, IsInBounds, failure_text, plain};
ghost use Rattle.trace_replay.specs.FailureFaults.{IsFaultOf};
ghost use Rattle.trace_replay.specs.Ties.Pieces.{IsHead, head_lines, ReadsValues};

use crate::failure::{Failure, FailureFault, Trail};
use crate::pieces::{assertion, numbered, value};
use boogie_run::{AssertId, Choice};
use std::alloc::Global;

/// Reads the text of a failure.
pub fn read_failure(alloc: Global, text: &[u8]) -> Result<Failure, FailureFault>
    // what is read is what the text spells
    ensures found { IfOk result (λ f. IsInBounds (plain f) × (text.now ≡ failure_text (plain f))) }

    // the text of a failure is read, unless memory runs out
    ensures whole { (f : PlainFailure) → IsInBounds f → text.now ≡ failure_text f → MatchResult result (λ g. plain g ≡ f) (λ e. e ≡ Memory) }

    // the line is the first that cannot stand there
    ensures fault { IfErr result (IsFaultOf text.now) }
{
    let (head, rest) = head_of(text)?;
    let choices = choices_of(alloc, rest, head.values)?;
    Ok(Failure {
        rounds: head.rounds,
        id: head.id,
        trail: Trail {
            steps: head.steps,
            choices,
        },
    })
}

/// What the lines before the values tell.
#[derive(Clone, Copy)]
struct Head {
    rounds: u64,
    id: AssertId,
    steps: u64,
    values: u64,
}

/// Reads the lines before the values.
fn head_of(text: &[u8]) -> Result<(Head, &[u8]), FailureFault>
    ensures found { IfOk result (λ r. IsHead r.0 × (text.now ≡ concat (head_lines r.0) ++ r.1.now)) }
    ensures fault { IfErr result (IsFaultOf text.now) }
{
    let Some(rest) = text.strip_prefix(b"unsafe\n") else {
        return Err(FailureFault::Syntax { line: 1 });
    };
    let Some((rounds, rest)) = numbered(rest, b"rounds ") else {
        return Err(FailureFault::Syntax { line: 2 });
    };
    let Some((id, rest)) = assertion(rest) else {
        return Err(FailureFault::Syntax { line: 3 });
    };
    let Some((steps, rest)) = numbered(rest, b"steps ") else {
        return Err(FailureFault::Syntax { line: 4 });
    };
    let Some((values, rest)) = numbered(rest, b"values ") else {
        return Err(FailureFault::Syntax { line: 5 });
    };
    let head = Head {
        rounds,
        id,
        steps,
        values,
    };
    Ok((head, rest))
}

/// Reads this many values, the first on line 6, up to the end of the text.
fn choices_of(alloc: Global, text: &[u8], count: u64) -> Result<Vec<Choice>, FailureFault>
    ensures { ReadsValues count text.now result }
{
    let mut choices = Vec::new(alloc);
    let mut rest = text;
    for i in 0..count {
        let Some((choice, next)) = value(rest) else {
            return Err(FailureFault::Syntax { line: i + 6 });
        };
        choices.push(choice)?;
        rest = next;
    }
    if !rest.is_empty() {
        return Err(FailureFault::Syntax { line: count + 6 });
    }
    Ok(choices)
}
