//! Proofs of triples.

ghost use Rattle.std.specs.Prelude.{◌≡◌, ◌++◌, IfOk, MatchOption, OnOk, Ok, map};
ghost use Rattle.std.specs.List.{AllByRecursion, AllZip, flat_map};
ghost use Rattle.letter_acts.specs.Invariant.{alphabet_of};
ghost use Rattle.int_decide.specs.Worth.{IsTreeOf};
ghost use Rattle.triple_rows.specs.Systems.{PlainFits, IsSystem};
ghost use Rattle.triple_rows.specs.Triples.{Agrees, IsRefuted, system_of};
ghost use Rattle.hoare_check.specs.Decided.{MayProve, RefutesUncut};

use crate::counting::columns_of;
use crate::false_rows::leaf_of_false_row;
use crate::meeting::is_met_by_one;
use farkas_check::Refutation;
use int_decide::{Uncut, decide_uncut, measure};
use letter_acts::Icfg;
use lin_rows::{RowFault, System};
use rayon::prelude::*;
use std::alloc::{AllocError, Global};
use std::thread::Threads;
use triple_rows::{Proof, Triple, systems_of};

/// How many pieces many triples are split into, at least.
const PIECES: usize = 8;

/// How many triples a piece has, at least: those of a piece are tried one after another, each at the points found before.
const LEAST: usize = 512;

/// The proof of a triple whose kind and scopes agree with its letter, by Decide without cuts. `None` only where Decide does not
/// refute the triple's system so within the numbers that fit.
pub fn prove(alloc: Global, icfg: &Icfg, triple: Triple) -> Result<Option<Proof>, AllocError>
    requires { Agrees (alphabet_of icfg.now) triple }
    ensures { IfOk result (MayProve (alphabet_of icfg.now) triple) }
{
    let mut points = Vec::new(alloc);
    prove_at(alloc, icfg, triple, &mut points)
}

/// What `prove` may answer. Its system is not decided where one of the points meets it; a point that Decide finds is added.
fn prove_at(
    alloc: Global,
    icfg: &Icfg,
    triple: Triple,
    points: &mut Vec<Vec<i128>>,
) -> Result<Option<Proof>, AllocError>
    requires { Agrees (alphabet_of icfg.now) triple }
    ensures { IfOk result (MayProve (alphabet_of icfg.now) triple) }
{
    match refuted_at(alloc, icfg, &triple, points)? {
        // what was checked against the triple's system is not checked again
        Some(refutation) => Ok(Some(Proof::new(triple, refutation))),
        None => Ok(None),
    }
}

/// A refutation of the triple's system without cuts. `None` only where Decide does not refute it so within the numbers that fit.
fn refuted_at(
    alloc: Global,
    icfg: &Icfg,
    triple: &Triple,
    points: &mut Vec<Vec<i128>>,
) -> Result<Option<Refutation>, AllocError>
    requires { Agrees (alphabet_of icfg.now) triple.now }
    ensures { IfOk result (λ found. MatchOption found
        (RefutesUncut (alphabet_of icfg.now) triple.now → ⊥)
        (λ nodes. IsRefuted (alphabet_of icfg.now) triple.now nodes × IsTreeOf 0 nodes)) }
{
    let system = match systems_of(alloc, icfg, triple) {
        Ok(system) => system,
        Err(RowFault::Past) => return Ok(None),
        Err(RowFault::Memory) => return Err(AllocError),
    };
    decided_at(alloc, icfg, triple, &system, points)
}

/// The same of a triple whose system this is.
fn decided_at(
    alloc: Global,
    icfg: &Icfg,
    triple: &Triple,
    system: &System,
    points: &mut Vec<Vec<i128>>,
) -> Result<Option<Refutation>, AllocError>
    requires fits { PlainFits (system_of (alphabet_of icfg.now) triple.now) }
    requires system { IsSystem (system_of (alphabet_of icfg.now) triple.now) system.now }
    ensures { IfOk result (λ found. MatchOption found
        (RefutesUncut (alphabet_of icfg.now) triple.now → ⊥)
        (λ nodes. IsRefuted (alphabet_of icfg.now) triple.now nodes × IsTreeOf 0 nodes)) }
{
    if let Some(refutation) = leaf_of_false_row(alloc, system)? {
        return Ok(Some(refutation));
    }
    tried_at(alloc, icfg, triple, system, points)
}

/// The same, where no row says by itself that the triple is valid.
fn tried_at(
    alloc: Global,
    icfg: &Icfg,
    triple: &Triple,
    system: &System,
    points: &mut Vec<Vec<i128>>,
) -> Result<Option<Refutation>, AllocError>
    requires fits { PlainFits (system_of (alphabet_of icfg.now) triple.now) }
    requires system { IsSystem (system_of (alphabet_of icfg.now) triple.now) system.now }
    ensures { IfOk result (λ found. MatchOption found
        (RefutesUncut (alphabet_of icfg.now) triple.now → ⊥)
        (λ nodes. IsRefuted (alphabet_of icfg.now) triple.now nodes × IsTreeOf 0 nodes)) }
{
    let Some(columns) = columns_of(icfg, triple) else {
        return Err(AllocError);
    };
    // A system of 2^32 rows is not decided.
    let Some(_) = measure(system, columns) else {
        return Err(AllocError);
    };
    if is_met_by_one(system, points) {
        return Ok(None);
    }
    match decide_uncut(alloc, system, columns)? {
        Uncut::Refuted(refutation) => Ok(Some(refutation)),
        Uncut::Met(point) => {
            points.push(point)?;
            Ok(None)
        }
        Uncut::Unrefuted => Ok(None),
    }
}

/// The number of a triple's letter.
fn letter_in(triple: &Triple) -> u32 {
    match triple {
        Triple::Inside { letter, .. } | Triple::Call { letter, .. } | Triple::Back { letter, .. } =>
            *letter,
    }
}

/// What `prove` may answer for each of the triples, in order. Each is tried at the points found for those before by its letter.
fn prove_each(
    alloc: Global,
    icfg: &Icfg,
    triples: Vec<Triple>,
) -> Result<Vec<Option<Proof>>, AllocError>
    requires { AllByRecursion (Agrees (alphabet_of icfg.now)) triples.items }
    ensures { IfOk result (λ proofs. AllZip (MayProve (alphabet_of icfg.now)) triples.items proofs.items) }
{
    let mut proofs = Vec::with_capacity(alloc, triples.len())?;
    let mut points = Vec::new(alloc);
    let mut last = None;
    for triple in triples {
        let letter = Some(letter_in(&triple));
        if letter != last {
            points.clear();
            last = letter;
        }
        let answer = prove_at(alloc, icfg, triple, &mut points)?;
        proofs.push(answer)?;
    }
    Ok(proofs)
}

/// The triples in pieces, in order.
fn pieces_of(alloc: Global, triples: Vec<Triple>) -> Result<Vec<Vec<Triple>>, AllocError>
    ensures { IfOk result (λ pieces. flat_map (λ piece. piece.items) pieces.items ≡ triples.items) }
{
    let size = (triples.len() / PIECES).max(LEAST);
    let mut pieces = Vec::new(alloc);
    let mut piece = Vec::new(alloc);
    for triple in triples {
        piece.push(triple)?;
        if piece.len() >= size {
            pieces.push(piece)?;
            piece = Vec::new(alloc);
        }
    }
    pieces.push(piece)?;
    Ok(pieces)
}

/// What `prove` may answer for each of the triples, in order. They are tried in several threads.
pub fn prove_all<R: Threads + Sync>(
    rt: &R,
    alloc: Global,
    icfg: &Icfg,
    triples: Vec<Triple>,
) -> Result<Vec<Option<Proof>>, AllocError>
    requires { AllByRecursion (Agrees (alphabet_of icfg.now)) triples.items }
    ensures { IfOk result (λ proofs. AllZip (MayProve (alphabet_of icfg.now)) triples.items proofs.items) }
{
    let pieces = pieces_of(alloc, triples)?;
    let answers = prove_pieces(rt, alloc, icfg, pieces)?;
    joined(alloc, answers)
}

/// What `prove` may answer for each of the triples in the pieces, which are tried in several threads.
fn prove_pieces<R: Threads + Sync>(
    rt: &R,
    alloc: Global,
    icfg: &Icfg,
    pieces: Vec<Vec<Triple>>,
) -> Result<Vec<Vec<Option<Proof>>>, AllocError>
    requires { AllByRecursion (λ piece. AllByRecursion (Agrees (alphabet_of icfg.now)) piece.items) pieces.items }
    ensures { IfOk result (λ answers. AllZip (λ piece proofs. AllZip (MayProve (alphabet_of icfg.now)) piece.items proofs.items) pieces.items answers.items) }
{
    let tried = pieces
        .into_par_iter()
        .with_min_len(1)
        .map(
            |piece: Vec<Triple>| -> Result<Vec<Option<Proof>>, AllocError>
                requires { AllByRecursion (Agrees (alphabet_of icfg.now)) piece.items }
                ensures { IfOk result (λ proofs. AllZip (MayProve (alphabet_of icfg.entry.now)) piece.items proofs.items) }
            { prove_each(alloc, icfg, piece) },
        )
        .collect::<Vec<_>>(rt, alloc)?;
    gathered(alloc, tried)
}

/// All answers, or want of memory where one of them is that.
fn gathered(
    alloc: Global,
    tried: Vec<Result<Vec<Option<Proof>>, AllocError>>,
) -> Result<Vec<Vec<Option<Proof>>>, AllocError>
    ensures { IfOk result (λ answers. map Ok answers.items ≡ tried.items) }
{
    let mut answers = Vec::with_capacity(alloc, tried.len())?;
    for answer in tried {
        answers.push(answer?)?;
    }
    Ok(answers)
}

/// The answers of all pieces, in order.
fn joined(alloc: Global, answers: Vec<Vec<Option<Proof>>>) -> Result<Vec<Option<Proof>>, AllocError>
    ensures { IfOk result (λ proofs. proofs.items ≡ flat_map (λ piece. piece.items) answers.items) }
{
    let mut proofs = Vec::new(alloc);
    for piece in answers {
        add_all(piece, &mut proofs)?;
    }
    Ok(proofs)
}

/// Adds the answers of a piece.
fn add_all(piece: Vec<Option<Proof>>, proofs: &mut Vec<Option<Proof>>) -> Result<(), AllocError>
    ensures { OnOk result (proofs.new.items ≡ proofs.old.items ++ piece.items) }
{
    for answer in piece {
        proofs.push(answer)?;
    }
    Ok(())
}
