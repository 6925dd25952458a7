//! Automata of predicates.

ghost use Rattle.std.specs.Prelude.{IfOk};
ghost use Rattle.std.specs.List.{AllByRecursion};
ghost use Rattle.letter_acts.specs.Invariant.{alphabet_of};
ghost use Rattle.hoare_check.specs.Decided.{IsProofFor};

use crate::predicates::scoped_lines;
use crate::rows::{put_line, put_nothing, put_number};
use crate::triples::proof_of;
use crate::words::{letter, word_of};
use itp_automaton::{Certified, certified, saturate};
use letter_acts::Icfg;
use nwa_base::{Letter, Nwa, Word, accepts};
use std::alloc::{AllocError, Global};
use std::thread::Threads;
use table_reading::{number, numbers, parted};
use triple_rows::{Proof, Scoped, Triple};

/// A type that threads may share.
fn shared<T: Send + Sync>(_value: &T) {}

/// The saturated automaton over the predicates.
fn saturated<R: Threads + Sync>(
    threads: &R,
    alloc: Global,
    graph: &Icfg,
    parts: &str,
) -> Option<Certified> {
    let preds = scoped_lines(alloc, parts)?;
    saturate(threads, alloc, graph, preds, Vec::new(alloc)).ok()
}

/// Whether an edge by the letter leads from a state to a state, or from a state at an exit and one before the call to a state.
fn has_edge(nwa: &Nwa, by: Letter, states: &[u32]) -> bool {
    match states {
        [from, to] => nwa.has_inside(*from, by, *to),
        [exit, before, to] => nwa.has_back(*exit, *before, by, *to),
        _ => false,
    }
}

fn show_whether_edge(rt: &HostRuntime, has_edge: bool) {
    put_line(rt, if has_edge { "an edge" } else { "no edge" });
}

/// Prints whether there is an edge by the letter.
pub(crate) fn show_edge_by(rt: &HostRuntime, nwa: &Nwa, by: Letter, states: &str) {
    match numbers(rt.alloc(), states) {
        Ok(states) => show_whether_edge(rt, has_edge(nwa, by, &states)),
        Err(_) => put_nothing(rt),
    }
}

/// Prints whether the saturated automaton has an edge by a letter, whose number stands before its states and a bar.
pub(crate) fn show_edge<R: Threads + Sync>(
    threads: &R,
    rt: &HostRuntime,
    graph: &Icfg,
    parts: &str,
    said: &str,
) {
    let (by, states) = parted(said, " | ");
    match saturated(threads, rt.alloc(), graph, parts) {
        Some(made) => {
            shared(&made);
            show_edge_by(rt, made.nwa(), letter(graph.acts(), number(by)), states);
        }
        None => put_nothing(rt),
    }
}

/// Prints whether the automaton accepts the word.
pub(crate) fn show_accepted_by(rt: &HostRuntime, nwa: &Nwa, word: &Word) {
    match accepts(rt.alloc(), nwa, word) {
        Ok(true) => put_line(rt, "accepted"),
        Ok(false) => put_line(rt, "not accepted"),
        Err(_) => put_nothing(rt),
    }
}

fn show_accepted_word(rt: &HostRuntime, graph: &Icfg, nwa: &Nwa, said: &str) {
    match word_of(rt.alloc(), graph.acts(), said) {
        Some(word) => show_accepted_by(rt, nwa, &word),
        None => put_nothing(rt),
    }
}

/// Prints whether the saturated automaton accepts the word of these letters.
pub(crate) fn show_accepted<R: Threads + Sync>(
    threads: &R,
    rt: &HostRuntime,
    graph: &Icfg,
    parts: &str,
    said: &str,
) {
    match saturated(threads, rt.alloc(), graph, parts) {
        Some(made) => show_accepted_word(rt, graph, made.nwa(), said),
        None => put_nothing(rt),
    }
}

/// The proof of the triple alone, or none where it is not proved.
fn proofs_of(alloc: Global, graph: &Icfg, triple: Triple) -> Result<Vec<Proof>, AllocError>
    ensures { IfOk result (λ v. AllByRecursion (IsProofFor (alphabet_of graph.now)) v.items) }
{
    match proof_of(alloc, graph, triple)? {
        Some(proof) => Ok(vec![in alloc; proof]?),
        None => Ok(Vec::new(alloc)),
    }
}

/// Prints how many proofs and edges an automaton has.
fn show_counts(rt: &HostRuntime, made: &Certified) {
    put_number(rt, "proofs ", made.proofs().len() as u64, "");
    put_number(rt, " edges ", made.nwa().insides().len() as u64, "\n");
}

/// Prints that of the automaton of the predicates and the proofs.
fn show_made(rt: &HostRuntime, graph: &Icfg, preds: Vec<Scoped>, proofs: Vec<Proof>)
    requires { AllByRecursion (IsProofFor (alphabet_of graph.now)) proofs.items }
{
    match &certified(rt.alloc(), graph, preds, proofs) {
        Ok(Some(made)) => show_counts(rt, made),
        Ok(None) => put_line(rt, "a predicate is not listed"),
        Err(_) => put_nothing(rt),
    }
}

/// Prints that of the automaton of the predicates and the triple's proof, which is its one edge.
fn show_over(rt: &HostRuntime, graph: &Icfg, preds: Vec<Scoped>, triple: Triple) {
    match proofs_of(rt.alloc(), graph, triple) {
        Ok(proofs) => show_made(rt, graph, preds, proofs),
        Err(_) => put_nothing(rt),
    }
}

/// Prints that of the automaton of the predicates and the triple's proof.
pub(crate) fn show_certified(rt: &HostRuntime, graph: &Icfg, parts: &str, triple: Triple) {
    match scoped_lines(rt.alloc(), parts) {
        Some(preds) => show_over(rt, graph, preds, triple),
        None => put_nothing(rt),
    }
}
