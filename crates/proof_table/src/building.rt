//! The automata that are built of the predicates along words.

ghost use Rattle.path_rows.specs.Paths.{IsPathOf};
ghost use Rattle.nested_itp.specs.NestedPredicates.Interpolants.{RefutesRows, HasCutsUpTo};
ghost use Rattle.itp_automaton.specs.Words.{AreAlong};

use crate::automata::{show_accepted_by, show_edge_by};
use crate::finding::DEPTH;
use crate::refutations::{has_few_cuts, is_refuted};
use crate::rows::{put_line, put_nothing};
use crate::words::letter;
use farkas_check::Refutation;
use int_decide::{Answer, DecideFault};
use itp_automaton::build;
use letter_acts::Icfg;
use nested_itp::{Interpolants, interpolants};
use nwa_base::{Nwa, Word};
use path_decide::plain_path;
use path_rows::PathSystem;
use std::thread::Threads;
use table_reading::{number, parted};

/// Prints whether the automaton accepts the word, and whether it has the edges that the parts name, a line each.
fn show_automaton(rt: &HostRuntime, graph: &Icfg, made: &Nwa, word: &Word, parts: &str) {
    show_accepted_by(rt, made, word);
    for line in parts.lines() {
        let (by, states) = parted(line, " | ");
        show_edge_by(rt, made, letter(graph.acts(), number(by)), states);
    }
}

/// Prints that of the automaton of the predicates.
fn show_along<R: Threads + Sync>(
    threads: &R,
    rt: &HostRuntime,
    graph: &Icfg,
    path: &PathSystem,
    parts: &str,
    found: &Interpolants,
)
    requires path { IsPathOf graph.now path.now }
    requires along { AreAlong graph.now path.now.word found.now.preds found.now.proofs }
{
    match build(threads, rt.alloc(), graph, path.word(), found) {
        Ok(made) => show_automaton(rt, graph, made.nwa(), path.word(), parts),
        Err(_) => put_nothing(rt),
    }
}

/// Prints that of the automaton of the predicates under a refutation.
fn show_under<R: Threads + Sync>(
    threads: &R,
    rt: &HostRuntime,
    graph: &Icfg,
    path: &PathSystem,
    parts: &str,
    proof: &Refutation,
)
    requires path { IsPathOf graph.now path.now }
    requires refuted { RefutesRows proof.now path.now.rows }
    requires few { HasCutsUpTo 64 proof.now }
{
    match interpolants(rt.alloc(), graph, path, proof) {
        Ok(found) => show_along(threads, rt, graph, path, parts, &found),
        Err(_) => put_nothing(rt),
    }
}

/// Prints that of the automaton of the predicates under a tree, which is to refute the rows.
fn show_of_tree<R: Threads + Sync>(
    threads: &R,
    rt: &HostRuntime,
    graph: &Icfg,
    path: &PathSystem,
    parts: &str,
    proof: &Refutation,
)
    requires { IsPathOf graph.now path.now }
{
    if !has_few_cuts(proof) || !is_refuted(rt.alloc(), path, proof).unwrap_or(false) {
        return put_line(rt, "not refuted");
    }
    show_under(threads, rt, graph, path, parts, proof);
}

/// Prints that of the automaton of the predicates under Decide's own refutation.
pub(crate) fn show_built<R: Threads + Sync>(
    threads: &R,
    rt: &HostRuntime,
    graph: &Icfg,
    path: &PathSystem,
    parts: &str,
)
    requires { IsPathOf graph.now path.now }
{
    match &plain_path(rt.alloc(), path, DEPTH) {
        Ok(Answer::Refuted(proof)) => show_of_tree(threads, rt, graph, path, parts, proof),
        Err(DecideFault::Memory) => put_nothing(rt),
        _ => put_line(rt, "not refuted"),
    }
}
