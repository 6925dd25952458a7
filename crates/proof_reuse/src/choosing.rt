//! Which sources and targets are tried by a letter, by their numbers.

ghost use Rattle.std.specs.Prelude.{◌≡◌, [], ◌∷◌, map, IfOk, OnOk};
ghost use Rattle.std.specs.List.{flat_map};
ghost use Rattle.nwa_base.specs.Members.{SameMembers};
ghost use Rattle.proof_reuse.specs.Ties.Choices as spec;

use crate::limits::bounded;
use crate::sets::{add_pair, add_pairs, add_three, add_threes};
use indexmap::IndexSet;
use std::alloc::{AllocError, Global};
use triple_rows::Scoped;

/// Whether the number is that of true, of false, or of a predicate of the procedure.
fn is_in(preds: &[Scoped], proc: u32, number: usize) -> bool
    ensures { result ≡ spec.is_in preds.now proc number }
{
    if number < 2 {
        return true;
    }
    match preds.get(number - 2) {
        Some(scoped) => scoped.proc == proc,
        None => false,
    }
}

/// The numbers of the predicates of a procedure.
fn numbers_in(alloc: Global, preds: &[Scoped], proc: u32) -> Result<Vec<usize>, AllocError>
    ensures { IfOk result (λ v. v.items ≡ spec.numbers_in preds.now proc) }
{
    let mut numbers = Vec::new(alloc);
    for (place, scoped) in preds.iter().enumerate() {
        if scoped.proc == proc {
            numbers.push(place + 2)?;
        }
    }
    Ok(numbers)
}

/// The source, and where it is true the others of its procedure.
fn sources(alloc: Global, here: &[usize], source: usize) -> Result<Vec<usize>, AllocError>
    ensures { IfOk result (λ v. v.items ≡ spec.sources here.now source) }
{
    let mut found = Vec::new(alloc);
    found.push(source)?;
    if source == 0 {
        found.extend_from_slice(here)?;
    }
    Ok(found)
}

/// The pair with each of the sources that its source stands for.
fn pair_sources(
    alloc: Global,
    here: &[usize],
    pair: (usize, usize),
) -> Result<Vec<(usize, usize)>, AllocError>
    ensures { IfOk result (λ v. v.items ≡ spec.pair_sources here.now pair) }
{
    let found = sources(alloc, here, pair.0)?;
    found.iter().map(|source| (*source, pair.1)).collect(alloc)
}

/// True to true and false to false.
fn kept_pairs(alloc: Global) -> Result<IndexSet<(usize, usize)>, AllocError>
    ensures { IfOk result (λ s. SameMembers s.keys ((0, 0) ∷ (1, 1) ∷ [])) }
{
    let mut pairs = IndexSet::new(alloc);
    add_pair(&mut pairs, (0, 0))?;
    add_pair(&mut pairs, (1, 1))?;
    Ok(pairs)
}

/// Whether the source is of the one procedure and the target of the other.
fn pair_fits(preds: &[Scoped], from: u32, to: u32, pair: (usize, usize)) -> bool
    ensures { result ≡ spec.pair_fits preds.now from to pair }
{
    is_in(preds, from, pair.0) && is_in(preds, to, pair.1)
}

/// Adds what the pairs that fit give, with the predicates of the source's procedure.
fn add_pair_choices(
    alloc: Global,
    preds: &[Scoped],
    pairs: &[(usize, usize)],
    from: u32,
    to: u32,
    here: &[usize],
    choices: &mut IndexSet<(usize, usize)>,
) -> Result<(), AllocError>
    requires here { here.now ≡ spec.numbers_in preds.now from }
    requires kept { SameMembers choices.old.keys ((0, 0) ∷ (1, 1) ∷ []) }
    ensures { OnOk result (SameMembers choices.new.keys (spec.pair_choices preds.now pairs.now from to)) }
{
    for pair in pairs {
        if pair_fits(preds, from, to, *pair) {
            let more = pair_sources(alloc, here, *pair)?;
            add_pairs(choices, more)?;
        }
    }
    Ok(())
}

/// What is tried with a source in one procedure and a target in another: true to true, false to false, and the pairs.
pub(crate) fn pair_choices(
    alloc: Global,
    preds: &[Scoped],
    pairs: &[(usize, usize)],
    from: u32,
    to: u32,
) -> Result<IndexSet<(usize, usize)>, AllocError>
    ensures { IfOk result (λ s. SameMembers s.keys (spec.pair_choices preds.now pairs.now from to)) }
{
    let here = numbers_in(alloc, preds, from)?;
    bounded(pairs.len().saturating_mul(here.len().saturating_add(1)))?;
    let mut choices = kept_pairs(alloc)?;
    add_pair_choices(alloc, preds, pairs, from, to, &here, &mut choices)?;
    Ok(choices)
}

/// The numbers, each with true.
fn begun(alloc: Global, numbers: &[usize]) -> Result<Vec<(usize, usize)>, AllocError>
    ensures { IfOk result (λ v. v.items ≡ map (λ k. (k, 0)) numbers.now) }
{
    numbers.iter().map(|number| (*number, 0)).collect(alloc)
}

/// What is tried by a call: the same, and each predicate before it with true behind it, since what is known before a call is
/// kept until the return.
pub(crate) fn call_pair_choices(
    alloc: Global,
    preds: &[Scoped],
    pairs: &[(usize, usize)],
    caller: u32,
    callee: u32,
) -> Result<IndexSet<(usize, usize)>, AllocError>
    ensures { IfOk result (λ s. SameMembers s.keys (spec.call_pair_choices preds.now pairs.now caller callee)) }
{
    let here = numbers_in(alloc, preds, caller)?;
    let more = begun(alloc, &here)?;
    let mut choices = pair_choices(alloc, preds, pairs, caller, callee)?;
    add_pairs(&mut choices, more)?;
    Ok(choices)
}

/// The source at the exit and the target, with each of the sources before the call.
fn with_befores(
    alloc: Global,
    befores: &[usize],
    exit: usize,
    to: usize,
) -> Result<Vec<(usize, usize, usize)>, AllocError>
    ensures { IfOk result (λ v. v.items ≡ map (λ b. (exit, b, to)) befores.now) }
{
    befores
        .iter()
        .map(|before| (exit, *before, to))
        .collect(alloc)
}

/// Each of the sources at the exit and the target, with each of the sources before the call.
fn with_exits(
    alloc: Global,
    exits: Vec<usize>,
    befores: &[usize],
    to: usize,
) -> Result<Vec<(usize, usize, usize)>, AllocError>
    ensures { IfOk result (λ v. v.items ≡ flat_map (λ x. map (λ b. (x, b, to)) befores.now) exits.items) }
{
    let mut found = Vec::new(alloc);
    for exit in exits {
        let mut more = with_befores(alloc, befores, exit, to)?;
        found.append(&mut more)?;
    }
    Ok(found)
}

/// The three with each of the sources that its sources stand for.
fn three_sources(
    alloc: Global,
    exits: &[usize],
    befores: &[usize],
    three: (usize, usize, usize),
) -> Result<Vec<(usize, usize, usize)>, AllocError>
    ensures { IfOk result (λ v. v.items ≡ spec.three_sources exits.now befores.now three) }
{
    let at_exit = sources(alloc, exits, three.0)?;
    let before = sources(alloc, befores, three.1)?;
    with_exits(alloc, at_exit, &before, three.2)
}

/// True to true; false at the exit or before the call, and true at the other, to false.
fn kept_threes(alloc: Global) -> Result<IndexSet<(usize, usize, usize)>, AllocError>
    ensures { IfOk result (λ s. SameMembers s.keys ((0, 0, 0) ∷ (1, 0, 1) ∷ (0, 1, 1) ∷ [])) }
{
    let mut threes = IndexSet::new(alloc);
    add_three(&mut threes, (0, 0, 0))?;
    add_three(&mut threes, (1, 0, 1))?;
    add_three(&mut threes, (0, 1, 1))?;
    Ok(threes)
}

/// Whether the number at the exit is of the callee, and those before the call and after the return are of the caller.
fn three_fits(preds: &[Scoped], callee: u32, caller: u32, three: (usize, usize, usize)) -> bool
    ensures { result ≡ spec.three_fits preds.now callee caller three }
{
    is_in(preds, callee, three.0) && is_in(preds, caller, three.1) && is_in(preds, caller, three.2)
}

/// Adds what the threes that fit give, with the predicates of the callee and of the caller.
fn add_three_choices(
    alloc: Global,
    preds: &[Scoped],
    threes: &[(usize, usize, usize)],
    callee: u32,
    caller: u32,
    exits: &[usize],
    befores: &[usize],
    choices: &mut IndexSet<(usize, usize, usize)>,
) -> Result<(), AllocError>
    requires exits { exits.now ≡ spec.numbers_in preds.now callee }
    requires befores { befores.now ≡ spec.numbers_in preds.now caller }
    requires kept { SameMembers choices.old.keys ((0, 0, 0) ∷ (1, 0, 1) ∷ (0, 1, 1) ∷ []) }
    ensures { OnOk result (SameMembers choices.new.keys (spec.three_choices preds.now threes.now callee caller)) }
{
    for three in threes {
        if three_fits(preds, callee, caller, *three) {
            let more = three_sources(alloc, exits, befores, *three)?;
            add_threes(choices, more)?;
        }
    }
    Ok(())
}

/// What is tried by a return.
pub(crate) fn three_choices(
    alloc: Global,
    preds: &[Scoped],
    threes: &[(usize, usize, usize)],
    callee: u32,
    caller: u32,
) -> Result<IndexSet<(usize, usize, usize)>, AllocError>
    ensures { IfOk result (λ s. SameMembers s.keys (spec.three_choices preds.now threes.now callee caller)) }
{
    let exits = numbers_in(alloc, preds, callee)?;
    let befores = numbers_in(alloc, preds, caller)?;
    let sources = exits
        .len()
        .saturating_add(1)
        .saturating_mul(befores.len().saturating_add(1));
    bounded(threes.len().saturating_mul(sources))?;
    let mut choices = kept_threes(alloc)?;
    add_three_choices(
        alloc,
        preds,
        threes,
        callee,
        caller,
        &exits,
        &befores,
        &mut choices,
    )?;
    Ok(choices)
}
