//! The text of an annotation: the header, and then the lines that are counted.

ghost use Rattle.std.specs.Prelude.{◌≡◌, ◌<◌, ◌^◌, ℕ, List, IfOk, IfErr, IsTrue};
ghost use Rattle.proof_form.specs.Annotations.{Content, is_annotation, AreShort, safe_text};
ghost use Rattle.proof_form.specs.TextOutcomes.{TakesLine, TakesRounds, ReadsLetter, TakesCoarse, TakesFront, ReadsCoarse, ReadsForm, ReadsText, IsAnswer, IsSyntaxAt};

use crate::annotations::Annotation;
use crate::drafts::Draft;
use crate::fault::ProofFault;
use crate::reading::text_at;
use crate::refusal::Refusal;
use crate::text_lines::{first_line, number_of};
use crate::text_reading::items_of;
use std::alloc::{AllocError, Global};

/// What stands behind the first line, if that is this one.
fn behind_line<'a>(text: &'a [u8], line: &[u8]) -> Option<&'a [u8]>
    ensures { TakesLine line.now text.now result }
{
    let Some((bytes, behind)) = first_line(text) else {
        return None;
    };
    if bytes == line { Some(behind) } else { None }
}

/// The rounds that the first line says, and what stands behind it.
fn behind_rounds(alloc: Global, text: &[u8]) -> Result<(u64, &[u8]), Refusal>
    ensures { TakesRounds text.now result }
{
    let Some((bytes, behind)) = first_line(text) else {
        return Err(Refusal::Form);
    };
    let Some(digits) = text_at(bytes, b"rounds ") else {
        return Err(Refusal::Form);
    };
    Ok((number_of(alloc, digits)?, behind))
}

/// The number of 32 bits that the bytes write in its one way.
fn letter_of(alloc: Global, bytes: &[u8]) -> Result<Option<u32>, AllocError>
    ensures { IfOk result (ReadsLetter bytes.now) }
{
    match number_of(alloc, bytes) {
        Ok(number) => Ok(u32::try_from(number).ok()),
        Err(Refusal::Form) => Ok(None),
        Err(Refusal::Memory) => Err(AllocError),
    }
}

/// The coarse letter that the first line tells, and what stands behind it.
fn behind_coarse(alloc: Global, text: &[u8]) -> Result<Option<(u32, &[u8])>, AllocError>
    ensures { IfOk result (TakesCoarse text.now) }
{
    let Some((bytes, behind)) = first_line(text) else {
        return Ok(None);
    };
    let Some(digits) = text_at(bytes, b"coarse ") else {
        return Ok(None);
    };
    match letter_of(alloc, digits)? {
        Some(letter) => Ok(Some((letter, behind))),
        None => Ok(None),
    }
}

/// The coarse letters that the first lines tell, and what stands behind all of these lines.
fn coarse_front(alloc: Global, text: &[u8]) -> Result<(Vec<u32>, &[u8]), AllocError>
    ensures { IfOk result (λ x. TakesFront text.now x.0.items x.1.now) }
{
    let mut letters = Vec::new(alloc);
    let mut rest = text;
    while let Some((letter, behind)) = behind_coarse(alloc, rest)? {
        letters.push(letter)?;
        rest = behind;
    }
    Ok((letters, rest))
}

/// Reads what stands behind `annotation 2`.
fn behind_form(alloc: Global, text: &[u8]) -> Result<(Vec<u32>, Draft), ProofFault>
    ensures { ReadsCoarse text.now result }
{
    let (coarse, rest) = coarse_front(alloc, text)?;
    if coarse.is_empty() {
        return Err(ProofFault::Syntax { line: 4 });
    }
    let first = coarse.len() as u64 + 4;
    let draft = items_of(alloc, rest, first)?;
    Ok((coarse, draft))
}

/// Reads what stands behind the line of the rounds.
fn form_of(alloc: Global, text: &[u8]) -> Result<(Vec<u32>, Draft), ProofFault>
    ensures { ReadsForm text.now result }
{
    if let Some(rest) = behind_line(text, b"annotation 1") {
        let draft = items_of(alloc, rest, 4)?;
        return Ok((Vec::new(alloc), draft));
    }
    let Some(rest) = behind_line(text, b"annotation 2") else {
        return Err(ProofFault::Syntax { line: 3 });
    };
    behind_form(alloc, rest)
}

/// Reads the whole text.
fn read(alloc: Global, text: &[u8]) -> Result<(u64, Vec<u32>, Draft), ProofFault>
    ensures { ReadsText text.now result }
{
    let Some(rest) = behind_line(text, b"safe") else {
        return Err(ProofFault::Syntax { line: 1 });
    };
    let (rounds, rest) = match behind_rounds(alloc, rest) {
        Ok(found) => found,
        Err(Refusal::Form) => return Err(ProofFault::Syntax { line: 2 }),
        Err(Refusal::Memory) => return Err(ProofFault::Memory),
    };
    let (coarse, draft) = form_of(alloc, rest)?;
    Ok((rounds, coarse, draft))
}

/// Reads the text of an annotation: the rounds and the coarse letters that it tells, and the annotation.
pub fn read_safe(alloc: Global, text: &[u8]) -> Result<(u64, Vec<u32>, Annotation), ProofFault>
    // What is read is spelled so.
    ensures found { IfOk result (λ x. text.now ≡ safe_text x.0 x.1.items x.2) }
    ensures valid { IfOk result (λ x. IsTrue (is_annotation x.2)) }
    ensures short { IfOk result (λ x. AreShort x.1.items) }
    // What is spelled so is read, unless memory runs out.
    ensures only { (rounds : ℕ) (coarse : List ℕ) (a : Content) → rounds < 2 ^ 64 → AreShort coarse → IsTrue (is_annotation a) →
        text.now ≡ safe_text rounds coarse a → IsAnswer rounds coarse a result }
    // The first line that cannot stand where it does.
    ensures syntax { IfErr result (IsSyntaxAt text.now) }
{
    let (rounds, coarse, draft) = read(alloc, text)?;
    Ok((rounds, coarse, Annotation::of_draft(draft)))
}
