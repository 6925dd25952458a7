//! The predicates that follow over a letter.

ghost use Rattle.std.specs.Prelude.{◌≡◌, ℕ, [], ◌∷◌, IfOk, if◌then◌else◌};
ghost use Rattle.std.specs.List.{flat_map};
ghost use Rattle.nwa_base.specs.Members.{Member, SameMembers};
ghost use Rattle.nwa_base.specs.Edges.{ends, back_ends};
ghost use Rattle.proof_names.specs.Outlines.{OutlineNode};
ghost use Rattle.proof_names.specs.ProofSpell.Drafts.{AscendFrom};
ghost use Rattle.proof_check.specs.Steps.{IsOf};
ghost use Rattle.proof_build.specs.ProofUnwind.Exploring.{BackFollows, AreFollowing, IsChosen};

use nwa_base::{Letter, Nwa};
use std::alloc::{AllocError, Global};

/// True, and the predicates of a node.
fn sources(alloc: Global, preds: &[u32]) -> Result<Vec<u32>, AllocError>
    ensures { IfOk result (λ v. v.items ≡ 0 ∷ preds.now) }
{
    let mut sources = Vec::new(alloc);
    sources.push(0)?;
    sources.extend_from_slice(preds)?;
    Ok(sources)
}

/// Where edges by the letter lead from the source: call edges, or inside edges.
fn ends_from(union: &Nwa, is_call: bool, source: u32, letter: Letter) -> &[u32]
    ensures { result.now ≡ ends source letter (if is_call then union.now.calls else union.now.insides) }
{
    if is_call {
        union.call_ends(source, letter)
    } else {
        union.inside_ends(source, letter)
    }
}

/// Where edges by the letter lead from the sources.
fn letter_ends(
    alloc: Global,
    union: &Nwa,
    is_call: bool,
    sources: &[u32],
    letter: Letter,
) -> Result<Vec<u32>, AllocError>
    ensures { IfOk result (λ v. v.items ≡ flat_map (λ q. ends q letter (if is_call then union.now.calls else union.now.insides)) sources.now) }
{
    let mut targets = Vec::new(alloc);
    for source in sources {
        targets.extend_from_slice(ends_from(union, is_call, *source, letter))?;
    }
    Ok(targets)
}

/// Where return edges by the letter lead from the exit, with one of the callers before the call.
fn exit_ends(
    alloc: Global,
    union: &Nwa,
    exit: u32,
    callers: &[u32],
    letter: Letter,
) -> Result<Vec<u32>, AllocError>
    ensures { IfOk result (λ v. v.items ≡ flat_map (λ p. back_ends exit p letter union.now.backs) callers.now) }
{
    let mut targets = Vec::new(alloc);
    for caller in callers {
        targets.extend_from_slice(union.back_ends(exit, *caller, letter))?;
    }
    Ok(targets)
}

/// Where return edges by the letter lead from one of the exits, with one of the callers before the call.
fn return_ends(
    alloc: Global,
    union: &Nwa,
    exits: &[u32],
    callers: &[u32],
    letter: Letter,
) -> Result<Vec<u32>, AllocError>
    ensures { IfOk result (λ v. v.items ≡ flat_map (λ q. flat_map (λ p. back_ends q p letter union.now.backs) callers.now) exits.now) }
{
    let mut targets = Vec::new(alloc);
    for exit in exits {
        let ends = exit_ends(alloc, union, *exit, callers, letter)?;
        targets.extend_from_slice(&ends)?;
    }
    Ok(targets)
}

/// The numbers in order, each once.
fn in_order(mut numbers: Vec<u32>) -> Vec<u32>
    ensures same { SameMembers numbers.items result.items }
    ensures ascend { AscendFrom 0 result.items }
{
    numbers.sort_unstable();
    numbers.dedup();
    numbers
}

/// The numbers in order, without true; false alone where it is among them.
fn chosen(alloc: Global, numbers: Vec<u32>) -> Result<Vec<u32>, AllocError>
    ensures { IfOk result (λ v. IsChosen numbers.items v.items) }
{
    if numbers.contains(&1) {
        let mut falsum = Vec::new(alloc);
        falsum.push(1)?;
        return Ok(falsum);
    }
    let numbers = in_order(numbers);
    match numbers.as_slice() {
        [0, others @ ..] => Vec::from_slice(alloc, others),
        all => Vec::from_slice(alloc, all),
    }
}

/// The predicates that follow over a call letter or an inside letter.
pub(crate) fn follow(
    alloc: Global,
    union: &Nwa,
    is_call: bool,
    preds: &[u32],
    letter: Letter,
) -> Result<Vec<u32>, AllocError>
    ensures { IfOk result (λ v. (x : OutlineNode) → x.preds ≡ preds.now → AreFollowing (λ r. (q : ℕ) × Member (if is_call then union.now.calls else union.now.insides) (q, letter, r) × IsOf q x) v.items) }
{
    let sources = sources(alloc, preds)?;
    let targets = letter_ends(alloc, union, is_call, &sources, letter)?;
    chosen(alloc, targets)
}

/// The predicates that follow over a return letter, from those of an exit and those of the node before the call.
pub(crate) fn follow_back(
    alloc: Global,
    union: &Nwa,
    exit: &[u32],
    before: &[u32],
    letter: Letter,
) -> Result<Vec<u32>, AllocError>
    ensures { IfOk result (λ v. (x c : OutlineNode) → x.preds ≡ exit.now → c.preds ≡ before.now → AreFollowing (BackFollows union.now letter x c) v.items) }
{
    let exits = sources(alloc, exit)?;
    let callers = sources(alloc, before)?;
    let targets = return_ends(alloc, union, &exits, &callers, letter)?;
    chosen(alloc, targets)
}
