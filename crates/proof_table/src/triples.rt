//! Triples, their systems and their proofs.

ghost use Rattle.std.specs.Prelude.{IfOk, IfSome};
ghost use Rattle.letter_acts.specs.Invariant.{alphabet_of};
ghost use Rattle.triple_rows.specs.Triples.{Agrees};
ghost use Rattle.hoare_check.specs.Decided.{IsProofFor};

use crate::predicates::scoped_of;
use crate::refutations::refutation;
use crate::rows::{put, put_line, put_nothing, put_number, show_row};
use farkas_check::Refutation;
use hoare_check::prove;
use letter_acts::Icfg;
use lin_rows::{Row, RowFault, System};
use std::alloc::{AllocError, Global};
use table_reading::{number, parted};
use triple_rows::{Proof, Scoped, Triple, agrees, proof, systems_of};

/// Two predicates.
#[derive(Drop)]
struct Ends {
    from: Scoped,
    to: Scoped,
}

/// Two predicates with a bar between them.
fn two_ends(alloc: Global, text: &str) -> Option<Ends> {
    let (from, to) = parted(text, " | ");
    let from = scoped_of(alloc, from)?;
    match scoped_of(alloc, to) {
        Some(to) => Some(Ends { from, to }),
        None => None,
    }
}

/// The triple of an inside letter, or of a call.
fn forward(kind: &str, letter: u32, ends: Ends) -> Triple {
    let Ends { from, to } = ends;
    if kind == "inside" {
        Triple::Inside { from, letter, to }
    } else {
        Triple::Call { from, letter, to }
    }
}

/// The triple of a return: the predicate at the exit, the one before the call, and what holds at the end.
fn back(exit: Scoped, letter: u32, ends: Ends) -> Triple {
    Triple::Back {
        exit,
        before: ends.from,
        letter,
        to: ends.to,
    }
}

fn read_forward(alloc: Global, kind: &str, letter: u32, said: &str) -> Option<Triple> {
    match two_ends(alloc, said) {
        Some(ends) => Some(forward(kind, letter, ends)),
        None => None,
    }
}

fn read_back(alloc: Global, letter: u32, said: &str) -> Option<Triple> {
    let (exit, rest) = parted(said, " | ");
    let exit = scoped_of(alloc, exit)?;
    match two_ends(alloc, rest) {
        Some(ends) => Some(back(exit, letter, ends)),
        None => None,
    }
}

/// A triple: the kind and number of its letter and its predicates, with bars between them.
pub(crate) fn triple_of(alloc: Global, text: &str) -> Option<Triple> {
    let (head, said) = parted(text, " | ");
    let (kind, letter) = parted(head, " ");
    match kind {
        "back" => read_back(alloc, number(letter), said),
        _ => read_forward(alloc, kind, number(letter), said),
    }
}

/// Prints rows behind a word, a line each.
fn show_rows(rt: &HostRuntime, word: &str, rows: &[Row]) {
    for row in rows {
        put(rt, word);
        show_row(rt, row);
    }
}

/// Prints the members of a group, which have no groups themselves.
fn show_group(rt: &HostRuntime, members: &[System]) {
    put_line(rt, "one of");
    for member in members {
        show_rows(rt, "- ", &member.rows);
        put_number(rt, "- groups ", member.groups.len() as u64, "\n");
    }
}

/// Prints a system: its rows, and its groups.
fn show_made(rt: &HostRuntime, system: &System) {
    show_rows(rt, "", &system.rows);
    for members in &system.groups {
        show_group(rt, members);
    }
}

/// Prints the system of a triple, or that a number of it does not fit.
fn show_agreeing(rt: &HostRuntime, graph: &Icfg, triple: &Triple)
    requires { Agrees (alphabet_of graph.now) triple.now }
{
    match systems_of(rt.alloc(), graph, triple) {
        Ok(system) => show_made(rt, &system),
        Err(RowFault::Past) => put_line(rt, "past"),
        Err(RowFault::Memory) => put_nothing(rt),
    }
}

/// Prints the system of a triple that agrees with its letter.
pub(crate) fn show_system(rt: &HostRuntime, graph: &Icfg, triple: &Triple) {
    if agrees(graph, triple) {
        show_agreeing(rt, graph, triple);
    } else {
        put_line(rt, "does not agree");
    }
}

/// Prints whether a triple agrees with its letter.
pub(crate) fn show_agreement(rt: &HostRuntime, graph: &Icfg, triple: &Triple) {
    let answer = if agrees(graph, triple) {
        "agrees"
    } else {
        "does not agree"
    };
    put_line(rt, answer);
}

/// The proof of the triple by the refutation, if it is one.
fn proof_by(
    alloc: Global,
    graph: &Icfg,
    triple: Triple,
    tree: Refutation,
) -> Result<Option<Proof>, AllocError> {
    if agrees(graph, &triple) {
        proof(alloc, graph, triple, tree)
    } else {
        Ok(None)
    }
}

/// The number of a triple's letter.
fn letter_in(triple: &Triple) -> u32 {
    match triple {
        Triple::Inside { letter, .. } | Triple::Call { letter, .. } | Triple::Back { letter, .. } =>
            *letter,
    }
}

fn show_proved(rt: &HostRuntime, proof: &Proof) {
    put_number(
        rt,
        "proved of letter ",
        u64::from(letter_in(proof.triple())),
        "",
    );
    put_number(
        rt,
        " by ",
        proof.refutation().nodes().len() as u64,
        " nodes\n",
    );
}

/// Prints a proof, if there is one.
fn show_found(rt: &HostRuntime, found: &Result<Option<Proof>, AllocError>) {
    match found {
        Ok(Some(proof)) => show_proved(rt, proof),
        Ok(None) => put_line(rt, "not proved"),
        Err(_) => put_nothing(rt),
    }
}

/// Prints whether the refutation with these nodes proves the triple.
pub(crate) fn show_proof(rt: &HostRuntime, graph: &Icfg, triple: Triple, parts: &str) {
    match refutation(rt.alloc(), parts) {
        Some(tree) => show_found(rt, &proof_by(rt.alloc(), graph, triple, tree)),
        None => put_nothing(rt),
    }
}

/// The proof of a triple that Decide finds, where the triple agrees.
pub(crate) fn proof_of(
    alloc: Global,
    graph: &Icfg,
    triple: Triple,
) -> Result<Option<Proof>, AllocError>
    ensures { IfOk result (λ o. IfSome o (IsProofFor (alphabet_of graph.now))) }
{
    if agrees(graph, &triple) {
        prove(alloc, graph, triple)
    } else {
        Ok(None)
    }
}

/// Prints whether Decide proves the triple.
pub(crate) fn show_proving(rt: &HostRuntime, graph: &Icfg, triple: Triple) {
    show_found(rt, &proof_of(rt.alloc(), graph, triple));
}
