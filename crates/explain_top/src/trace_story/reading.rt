//! Reads the texts of traces.

ghost use Rattle.std.specs.Prelude.{◌≡◌, ◌≢◌, ◌++◌, [], ℕ, ◌^◌, ◌<◌, codes, IfOk, IfErr, MatchOption, MatchResult};
ghost use Rattle.std.specs.Fmt.{decimal};
ghost use Rattle.race_core.specs.declared.ends.Cause.{Cause};
ghost use Rattle.race_verdicts.specs.Texts.{cause_name};
ghost use Rattle.rank_lasso.specs.LassoText.{AreShort, letters_line};
ghost use Rattle.rank_lasso.specs.Lines.{line_text, Lacks};
ghost use Rattle.explain_top.specs.declared.trace_story.traces.TraceFault.TheVariants.{Memory};
ghost use Rattle.explain_top.specs.TraceStory.TraceText.{PlainTrace, IsInBounds, trace_text, plain};
ghost use Rattle.explain_top.specs.TraceStory.Ties.TraceLines.{cause_word, cause_kind, rounds_kind, letters_kind};
ghost use Rattle.explain_top.specs.TraceStory.TraceFaults.{IsTraceFault};

use crate::trace_story::traces::{Trace, TraceFault};
use boogie_tree::names::all_digits;
use race_core::Cause;
use rank_lasso::{letters_of, line_at};
use std::alloc::{AllocError, Global};
use trace_replay::number_of;

/// Reads the text of a trace of which nothing is known: `unknown` and the cause, `rounds` and their number, `trace` and the numbers of its letters.
///
/// # Errors
///
/// `Syntax` with the first line that cannot stand where it stands, or that is missing; `Memory` where memory ran out.
pub fn read_trace(alloc: Global, text: &[u8]) -> Result<Trace, TraceFault>
    // what is read is what the text spells
    ensures found { IfOk result (λ u. IsInBounds (plain u) × (text.now ≡ trace_text (plain u))) }

    // the text of a trace is read, unless memory runs out
    ensures whole { (u : PlainTrace) → IsInBounds u → text.now ≡ trace_text u → MatchResult result (λ v. plain v ≡ u) (λ e. e ≡ Memory) }

    // the line is the first that cannot stand there
    ensures fault { IfErr result (IsTraceFault text.now) }
{
    let Some((cause, rest)) = cause_line(text) else {
        return Err(TraceFault::Syntax { line: 1 });
    };
    let Some((rounds, rest)) = rounds_line(rest) else {
        return Err(TraceFault::Syntax { line: 2 });
    };
    let Some((letters, rest)) = trace_line(alloc, rest)? else {
        return Err(TraceFault::Syntax { line: 3 });
    };
    if !rest.is_empty() {
        return Err(TraceFault::Syntax { line: 4 });
    }
    Ok(Trace {
        cause,
        rounds,
        letters,
    })
}

/// The cause of that name.
fn cause_of(name: &[u8]) -> Option<Cause>
    ensures { MatchOption result ((c : Cause) → name.now ≢ cause_name c) (λ c. name.now ≡ cause_name c) }
{
    match name {
        b"rounds" => Some(Cause::Rounds),
        b"whole" => Some(Cause::Whole),
        b"number" => Some(Cause::Number),
        b"product" => Some(Cause::Product),
        _ => None,
    }
}

/// The line of the cause, and what stands behind it.
fn cause_line(text: &[u8]) -> Option<(Cause, &[u8])>
    ensures { MatchOption result ((c : Cause) → Lacks (cause_kind c) text.now) (λ r. text.now ≡ line_text (cause_word r.0) [] ++ r.1.now) }
{
    let (content, rest) = line_at(text, b"unknown ")?;
    Some((cause_of(content)?, rest))
}

/// The number that the bytes are.
fn long_number(word: &[u8]) -> Option<u64>
    ensures { MatchOption result ((n : ℕ) → n < 2 ^ 64 → word.now ≢ decimal n) (λ n. (n < 2 ^ 64) × (word.now ≡ decimal n)) }
{
    if !all_digits(word) {
        return None;
    }
    u64::try_from(number_of(word)?).ok()
}

/// The line of the rounds, and what stands behind it.
fn rounds_line(text: &[u8]) -> Option<(u64, &[u8])>
    ensures { MatchOption result (Lacks rounds_kind text.now) (λ r. (r.0 < 2 ^ 64) × (text.now ≡ line_text (codes "rounds ") (decimal r.0) ++ r.1.now)) }
{
    let (content, rest) = line_at(text, b"rounds ")?;
    Some((long_number(content)?, rest))
}

/// The line of the letters, and what stands behind it.
fn trace_line(alloc: Global, text: &[u8]) -> Result<Option<(Vec<u32>, &[u8])>, AllocError>
    ensures { IfOk result (λ o. MatchOption o (Lacks letters_kind text.now) (λ r. AreShort r.0.items × (text.now ≡ letters_line (codes "trace") r.0.items ++ r.1.now))) }
{
    let Some((content, rest)) = line_at(text, b"trace") else {
        return Ok(None);
    };
    let Some(letters) = letters_of(alloc, content)? else {
        return Ok(None);
    };
    Ok(Some((letters, rest)))
}
