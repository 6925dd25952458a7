//! Whether the members of a list differ. Numbers that ascend are read once, other numbers are compared pair by pair. Texts
//! are put into a map, and compared pair by pair only where there is no memory for it.

ghost use Rattle.std.specs.Prelude.{◌≡◌, ◌↔◌, IsTrue, IfOk, map};
ghost use Rattle.nwa_base.specs.Members.{Member};
ghost use Rattle.letter_acts.specs.Invariant.{AreDistinct};

use boogie_tree::Text;
use std::alloc::{AllocError, Global};
use std::collections::BTreeMap;

/// Whether the number is one of the list.
fn has_number(numbers: &[u32], number: u32) -> bool
    ensures { IsTrue result ↔ Member numbers.now number }
{
    numbers.iter().any(|member| *member == number)
}

/// Whether each number is above the one before it.
pub(super) fn ascend(numbers: &[u32]) -> bool
    ensures { IsTrue result → AreDistinct numbers.now }
{
    for i in 1..numbers.len() {
        if numbers[i - 1] >= numbers[i] {
            return false;
        }
    }
    true
}

/// Whether the numbers differ, compared pair by pair.
fn pairs_differ(numbers: &[u32]) -> bool
    ensures { IsTrue result ↔ AreDistinct numbers.now }
{
    for i in 0..numbers.len() {
        if has_number(&numbers[i + 1..], numbers[i]) {
            return false;
        }
    }
    true
}

/// Whether the numbers differ.
pub(super) fn numbers_differ(numbers: &[u32]) -> bool
    ensures { IsTrue result ↔ AreDistinct numbers.now }
{
    ascend(numbers) || pairs_differ(numbers)
}

/// Whether the text is one of the list.
fn has_text(texts: &[Text], text: &Text) -> bool
    ensures { IsTrue result ↔ Member texts.now text.now }
{
    texts.iter().any(|member| member.bytes() == text.bytes())
}

/// Whether the texts differ, compared pair by pair.
fn text_pairs_differ(texts: &[Text]) -> bool
    ensures { IsTrue result ↔ AreDistinct texts.now }
{
    for i in 0..texts.len() {
        if has_text(&texts[i + 1..], &texts[i]) {
            return false;
        }
    }
    true
}

/// Whether the slices differ, as a map of them finds.
pub(super) fn slices_differ(alloc: Global, slices: &[&[u8]]) -> Result<bool, AllocError>
    ensures { IfOk result (λ differ. IsTrue differ ↔ AreDistinct (map (λ b. b.now) slices.now)) }
{
    let mut found = BTreeMap::new(alloc);
    for slice in slices {
        if found.insert(*slice, true)?.is_some() {
            return Ok(false);
        }
    }
    Ok(true)
}

/// Whether the texts differ, as a map of them finds.
fn mapped_texts_differ(alloc: Global, texts: &[Text]) -> Result<bool, AllocError>
    ensures { IfOk result (λ differ. IsTrue differ ↔ AreDistinct texts.now) }
{
    let mut slices = Vec::with_capacity(alloc, texts.len())?;
    for text in texts {
        slices.push(text.bytes())?;
    }
    slices_differ(alloc, &slices)
}

/// Whether the texts differ.
pub(super) fn texts_differ(alloc: Global, texts: &[Text]) -> bool
    ensures { IsTrue result ↔ AreDistinct texts.now }
{
    match mapped_texts_differ(alloc, texts) {
        Ok(differ) => differ,
        Err(AllocError) => text_pairs_differ(texts),
    }
}
