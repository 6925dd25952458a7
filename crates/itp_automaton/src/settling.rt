//! Triples over the states, tried until all are settled: proved, or not refuted without cuts.

ghost use Rattle.std.specs.Prelude.{◌≡◌, ◌<◌, ◌++◌, ℕ, Ok, IfOk, OnOk, length, map};
ghost use Rattle.std.specs.List.{AllByRecursion, AllZip, flat_map};
ghost use Rattle.letter_acts.specs.Invariant.{alphabet_of};
ghost use Rattle.triple_rows.specs.declared.triples.Scoped.{Scoped};
ghost use Rattle.triple_rows.specs.Systems.{PlainSystem};
ghost use Rattle.hoare_check.specs.Halves.{IsSourceHalf, MayBeHalf};
ghost use Rattle.itp_automaton.specs.Settling.{IsWithin, triple_from, state_at, AgreesTo, AreSources, IsStateIn, Adds, IsTarget, AreTargets, SettlesTriple, SettlesTargets, SettlesSources, SettledBelow, AreAllBelow, IsFoundBy};

use crate::assembling::is_false;
use crate::counting::count_triples;
use crate::listing::{by_letter, is_listed, places_of};
use crate::sources::{Source, sources_of, states_in};
use hoare_check::{
    Half, Points, refuted_at_once, source_half, target_half, tried_alone, tried_with,
};
use letter_acts::Icfg;
use rayon::prelude::*;
use std::alloc::{AllocError, Global};
use std::thread::Threads;
use triple_rows::{Proof, Scoped, Triple};

/// How many triples a thread tries, about, at least: fewer are tried in one.
const LEAST: usize = 512;

/// A target of the triples by a letter.
#[derive(Drop)]
pub(crate) struct Target {
    /// Which of the targets it is.
    pub(crate) number: usize,
    /// The number of the state.
    pub(crate) state: usize,
    /// What the letter, the denied target and the bounds say.
    pub(crate) half: Option<Half>,
}

/// The triple from a source by a letter to a target.
fn triple_from(
    states: &[Scoped],
    source: Source,
    letter: u32,
    after: &Scoped,
) -> Result<Triple, AllocError>
    requires { IsWithin (length states.now) source }
    ensures { IfOk result (λ t. t ≡ triple_from states.now source letter after.now) }
{
    let to = after.copy()?;
    match source {
        Source::Inside(q) => {
            let from = states[q].copy()?;
            Ok(Triple::Inside { from, letter, to })
        }
        Source::Call(q) => {
            let from = states[q].copy()?;
            Ok(Triple::Call { from, letter, to })
        }
        Source::Back(q, p) => {
            let exit = states[q].copy()?;
            let before = states[p].copy()?;
            Ok(Triple::Back {
                exit,
                before,
                letter,
                to,
            })
        }
    }
}

/// The state as a target of the triples by a letter from a source.
fn target_at(
    alloc: Global,
    icfg: &Icfg,
    states: &[Scoped],
    letter: u32,
    proc: u32,
    source: Source,
    q: usize,
    number: usize,
    points: &mut Points,
) -> Result<Target, AllocError>
    requires within { IsWithin (length states.now) source }
    requires agrees { AgreesTo (alphabet_of icfg.now) states.now letter proc source }
    requires state { IsStateIn (alphabet_of icfg.now) states.now proc q }
    ensures state { IfOk result (λ t. t.state ≡ q) }
    ensures target { IfOk result (IsTarget (alphabet_of icfg.now) states.now letter proc source) }
{
    // Contracts alone speak of it.
    let _proc = proc;
    let triple = triple_from(states, source, letter, &states[q])?;
    let made = target_half(alloc, icfg, &triple)?;
    let half = tried_alone(alloc, made, points)?;
    Ok(Target {
        number,
        state: q,
        half,
    })
}

/// The targets of the triples by a letter from a source: the states in the scope of a procedure.
fn targets_of(
    alloc: Global,
    icfg: &Icfg,
    states: &[Scoped],
    letter: u32,
    proc: u32,
    source: Source,
    points: &mut Points,
) -> Result<Vec<Target>, AllocError>
    requires within { IsWithin (length states.now) source }
    requires agrees { AgreesTo (alphabet_of icfg.now) states.now letter proc source }
    ensures { IfOk result (λ targets. AreTargets (alphabet_of icfg.now) states.now letter proc source targets.items) }
{
    let found = states_in(alloc, icfg, states, proc)?;
    let mut targets = Vec::with_capacity(alloc, found.len())?;
    for q in &found {
        let number = targets.len();
        let target = target_at(
            alloc, icfg, states, letter, proc, source, *q, number, points,
        )?;
        targets.push(target)?;
    }
    Ok(targets)
}

/// The target that is false.
fn falsum_of<'a>(states: &[Scoped], targets: &'a [Target]) -> Option<&'a Target> {
    targets.iter().find(|target| matches!(states.get(target.state), Some(state) if is_false(state)))
}

/// The half of a source, with what is found of it and the target that is false.
fn with_falsum(
    alloc: Global,
    half: Option<Half>,
    falsum: Option<&Target>,
    points: &mut Points,
) -> Result<Option<Half>, AllocError>
    ensures { IfOk result (λ found. (n : ℕ) (p : PlainSystem) → MayBeHalf n p half → MayBeHalf n p found) }
{
    points.begin_source();
    match falsum {
        Some(target) => tried_with(alloc, half, target.half.as_ref(), target.number, points),
        None => Ok(half),
    }
}

/// What the source of triples by a letter says, whatever their target: it is made of the triple to a state among the targets.
fn source_at(
    alloc: Global,
    icfg: &Icfg,
    states: &[Scoped],
    letter: u32,
    proc: u32,
    source: Source,
    sample: usize,
    falsum: Option<&Target>,
    points: &mut Points,
) -> Result<Option<Half>, AllocError>
    requires within { IsWithin (length states.now) source }
    requires agrees { AgreesTo (alphabet_of icfg.now) states.now letter proc source }
    requires state { IsStateIn (alphabet_of icfg.now) states.now proc sample }
    ensures { IfOk result (λ half. (after : Scoped) → IsSourceHalf (alphabet_of icfg.now) (triple_from states.now source letter after) half) }
{
    // Contracts alone speak of it.
    let _proc = proc;
    let triple = triple_from(states, source, letter, &states[sample])?;
    let made = source_half(alloc, icfg, &triple)?;
    with_falsum(alloc, made, falsum, points)
}

/// Settles the triple from a source, whose half this is, by a letter to a target: adds its proof, unless it is known, where Decide
/// refutes it without cuts.
fn settle_pair(
    alloc: Global,
    icfg: &Icfg,
    states: &[Scoped],
    letter: u32,
    proc: u32,
    source: Source,
    half: &Option<Half>,
    target: &Target,
    known: &[Proof],
    places: &[usize],
    points: &mut Points,
    found: &mut Vec<Proof>,
) -> Result<(), AllocError>
    requires within { IsWithin (length states.now) source }
    requires agrees { AgreesTo (alphabet_of icfg.now) states.now letter proc source }
    requires half { (after : Scoped) → IsSourceHalf (alphabet_of icfg.now) (triple_from states.now source letter after) half.now }
    requires target { IsTarget (alphabet_of icfg.now) states.now letter proc source target.now }
    ensures adds { OnOk result (Adds (alphabet_of icfg.now) states.now found.old.items found.new.items) }
    ensures settled { OnOk result (SettlesTriple (alphabet_of icfg.now) (known.now ++ found.new.items) (triple_from states.now source letter (state_at states.now target.now.state))) }
{
    // Contracts alone speak of these.
    let (_icfg, _proc) = (icfg, proc);
    let after = &states[target.state];
    if is_listed(known, places, states, source, letter, after) {
        return Ok(());
    }
    match refuted_at_once(alloc, half, &target.half, target.number, points)? {
        Some(refutation) => {
            let triple = triple_from(states, source, letter, after)?;
            found.push(Proof::new(triple, refutation))?;
            Ok(())
        }
        None => Ok(()),
    }
}

/// Settles the triples from a source by a letter to the targets.
fn settle_source(
    alloc: Global,
    icfg: &Icfg,
    states: &[Scoped],
    letter: u32,
    proc: u32,
    source: Source,
    half: &Option<Half>,
    targets: &[Target],
    known: &[Proof],
    places: &[usize],
    points: &mut Points,
    found: &mut Vec<Proof>,
) -> Result<(), AllocError>
    requires within { IsWithin (length states.now) source }
    requires agrees { AgreesTo (alphabet_of icfg.now) states.now letter proc source }
    requires half { (after : Scoped) → IsSourceHalf (alphabet_of icfg.now) (triple_from states.now source letter after) half.now }
    requires targets { AllByRecursion (IsTarget (alphabet_of icfg.now) states.now letter proc source) targets.now }
    ensures adds { OnOk result (Adds (alphabet_of icfg.now) states.now found.old.items found.new.items) }
    ensures settled { OnOk result (SettlesTargets (alphabet_of icfg.now) states.now letter (known.now ++ found.new.items) targets.now source) }
{
    for target in targets {
        settle_pair(
            alloc, icfg, states, letter, proc, source, half, target, known, places, points, found,
        )?;
    }
    Ok(())
}

/// Settles the triples from the sources by a letter to the targets.
fn settle_sources(
    alloc: Global,
    icfg: &Icfg,
    states: &[Scoped],
    letter: u32,
    proc: u32,
    sources: &[Source],
    targets: &[Target],
    known: &[Proof],
    places: &[usize],
    points: &mut Points,
) -> Result<Vec<Proof>, AllocError>
    requires within { AllByRecursion (IsWithin (length states.now)) sources.now }
    requires agree { AllByRecursion (AgreesTo (alphabet_of icfg.now) states.now letter proc) sources.now }
    requires targets { AllByRecursion (λ s. AllByRecursion (IsTarget (alphabet_of icfg.now) states.now letter proc s) targets.now) sources.now }
    ensures { IfOk result (λ found. SettlesSources (alphabet_of icfg.now) states.now letter known.now targets.now sources.now found.items) }
{
    if targets.is_empty() {
        return Ok(Vec::new(alloc));
    }
    let mut found = Vec::new(alloc);
    let sample = targets[0].state;
    let falsum = falsum_of(states, targets);
    for source in sources {
        let half = source_at(
            alloc, icfg, states, letter, proc, *source, sample, falsum, points,
        )?;
        settle_source(
            alloc, icfg, states, letter, proc, *source, &half, targets, known, places, points,
            &mut found,
        )?;
    }
    Ok(found)
}

/// The proofs that are found of the triples over the states by a letter with these sources, beside those that are known.
fn settle_triples(
    alloc: Global,
    icfg: &Icfg,
    states: &[Scoped],
    letter: u32,
    proc: u32,
    sources: &[Source],
    known: &[Proof],
    places: &[usize],
) -> Result<Vec<Proof>, AllocError>
    requires { AreSources (alphabet_of icfg.now) states.now letter proc sources.now }
    ensures { IfOk result (λ found. IsFoundBy (alphabet_of icfg.now) states.now known.now letter found.items) }
{
    if sources.is_empty() {
        return Ok(Vec::new(alloc));
    }
    // They are targets from each source.
    let mut points = Points::new(alloc);
    let targets = targets_of(alloc, icfg, states, letter, proc, sources[0], &mut points)?;
    settle_sources(
        alloc,
        icfg,
        states,
        letter,
        proc,
        sources,
        &targets,
        known,
        places,
        &mut points,
    )
}

/// The proofs that are found of the triples over the states by a letter, beside those that are known.
fn settle_letter(
    alloc: Global,
    icfg: &Icfg,
    states: &[Scoped],
    letter: u32,
    known: &[Proof],
    places: &[usize],
) -> Result<Vec<Proof>, AllocError>
    requires { letter < length icfg.now.acts }
    ensures { IfOk result (λ found. IsFoundBy (alphabet_of icfg.now) states.now known.now letter found.items) }
{
    let sources = sources_of(alloc, icfg, states, letter)?;
    settle_triples(
        alloc,
        icfg,
        states,
        letter,
        sources.proc,
        &sources.list,
        known,
        places,
    )
}

/// The numbers below a count.
fn letters_below(alloc: Global, count: u32) -> Result<Vec<u32>, AllocError>
    ensures { IfOk result (λ letters. AreAllBelow count letters.items) }
{
    let mut letters = Vec::with_capacity(alloc, count as usize)?;
    for letter in 0..count {
        letters.push(letter)?;
    }
    Ok(letters)
}

/// Settles the triples over the states by all letters: these proofs and those that are found. Letters are settled in several
/// threads, where there are many triples.
pub(crate) fn settle_all<R: Threads + Sync>(
    rt: &R,
    alloc: Global,
    icfg: &Icfg,
    states: &[Scoped],
    proofs: Vec<Proof>,
) -> Result<Vec<Proof>, AllocError>
    ensures adds { IfOk result (λ all. Adds (alphabet_of icfg.now) states.now proofs.items all.items) }
    ensures settled { IfOk result (λ all. SettledBelow (alphabet_of icfg.now) states.now all.items (length icfg.now.acts)) }
{
    let Ok(count) = u32::try_from(icfg.acts().len()) else {
        return Err(AllocError);
    };
    let letters = letters_below(alloc, count)?;
    let places = by_letter(alloc, count, &proofs)?;
    let found = settle_letters(rt, alloc, icfg, states, letters, &proofs, &places)?;
    with_found(proofs, found)
}

/// How many of so many letters a thread settles, at least, where there are so many triples.
fn least_letters(letters: usize, triples: usize) -> usize {
    (letters.saturating_mul(LEAST) / triples.max(1)).saturating_add(1)
}

/// The proofs that are found by each of the letters, which are settled in several threads.
fn settle_letters<R: Threads + Sync>(
    rt: &R,
    alloc: Global,
    icfg: &Icfg,
    states: &[Scoped],
    letters: Vec<u32>,
    known: &[Proof],
    places: &Vec<Vec<usize>>,
) -> Result<Vec<Vec<Proof>>, AllocError>
    requires { AllByRecursion (λ l. l < length icfg.now.acts) letters.items }
    ensures { IfOk result (λ found. AllZip (λ l more. IsFoundBy (alphabet_of icfg.now) states.now known.now l more.items) letters.items found.items) }
{
    let least = least_letters(letters.len(), count_triples(alloc, icfg, states)?);
    let tried = letters
        .into_par_iter()
        .with_min_len(least)
        .map(
            |letter: u32| -> Result<Vec<Proof>, AllocError>
                requires { letter < length icfg.now.acts }
                ensures { IfOk result (λ found. IsFoundBy (alphabet_of icfg.entry.now) states.entry.now known.entry.now letter found.items) }
            {
                settle_letter(
                    alloc,
                    icfg,
                    states,
                    letter,
                    known,
                    places_of(places, letter),
                )
            },
        )
        .collect::<Vec<_>>(rt, alloc)?;
    gathered(alloc, tried)
}

/// All that was found, or want of memory where one of the answers is that.
fn gathered(
    alloc: Global,
    tried: Vec<Result<Vec<Proof>, AllocError>>,
) -> Result<Vec<Vec<Proof>>, AllocError>
    ensures { IfOk result (λ found. map Ok found.items ≡ tried.items) }
{
    let mut found = Vec::with_capacity(alloc, tried.len())?;
    for answer in tried {
        found.push(answer?)?;
    }
    Ok(found)
}

/// The proofs with those that were found behind them.
fn with_found(mut proofs: Vec<Proof>, found: Vec<Vec<Proof>>) -> Result<Vec<Proof>, AllocError>
    ensures { IfOk result (λ all. all.items ≡ proofs.items ++ flat_map (λ more. more.items) found.items) }
{
    for mut more in found {
        proofs.append(&mut more)?;
    }
    Ok(proofs)
}
