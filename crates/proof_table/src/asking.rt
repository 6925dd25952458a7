//! Questions, and who answers them.

ghost use Rattle.path_rows.specs.Paths.{IsPathOf};

use crate::annotations::{show_annotation, show_cuts, show_line};
use crate::automata::{show_accepted, show_certified, show_edge};
use crate::building::show_built;
use crate::coarse::show_coarse;
use crate::failures::show_failure;
use crate::finding::show_finding;
use crate::given::Given;
use crate::graphs::graph_of;
use crate::interpolating::show_interpolants;
use crate::lists::show_lists;
use crate::predicates::{show_holding, show_predicate};
use crate::replays::show_replay;
use crate::rows::{put_line, put_nothing};
use crate::stepping::show_steps;
use crate::texts::push_repeated;
use crate::triples::{show_agreement, show_proof, show_proving, show_system, triple_of};
use crate::words::{path_of, show_path};
use letter_acts::Icfg;
use path_rows::PathSystem;
use std::thread::Threads;
use triple_rows::Triple;

/// Answers what is asked of the rows of a word.
fn answer_path<R: Threads + Sync>(
    threads: &R,
    rt: &HostRuntime,
    graph: &Icfg,
    parts: &str,
    asked: &str,
    path: &PathSystem,
)
    requires { IsPathOf graph.now path.now }
{
    match asked {
        "rows" => show_path(rt, path),
        "finding" => show_finding(rt, graph, path),
        "interpolants" => show_interpolants(rt, graph, path, parts),
        "built" => show_built(threads, rt, graph, path, parts),
        _ => show_steps(rt, graph, path),
    }
}

/// Answers what is asked of the rows of a word, whose letters are said.
fn answer_word<R: Threads + Sync>(
    threads: &R,
    rt: &HostRuntime,
    graph: &Icfg,
    parts: &str,
    asked: &str,
    said: &str,
) {
    match path_of(rt.alloc(), graph, said) {
        Some(path) => answer_path(threads, rt, graph, parts, asked, &path),
        None => put_nothing(rt),
    }
}

/// Answers what is asked of a triple.
fn answer_of_triple(rt: &HostRuntime, graph: &Icfg, parts: &str, asked: &str, triple: Triple) {
    match asked {
        "system" => show_system(rt, graph, &triple),
        "agrees" => show_agreement(rt, graph, &triple),
        "proof" => show_proof(rt, graph, triple, parts),
        "prove" => show_proving(rt, graph, triple),
        _ => show_certified(rt, graph, parts, triple),
    }
}

/// Answers what is asked of the triple that is said.
fn answer_triple(rt: &HostRuntime, graph: &Icfg, parts: &str, asked: &str, said: &str) {
    match triple_of(rt.alloc(), said) {
        Some(triple) => answer_of_triple(rt, graph, parts, asked, triple),
        None => put_nothing(rt),
    }
}

/// Answers what is asked of a graph.
fn answer_of<R: Threads + Sync>(
    threads: &R,
    rt: &HostRuntime,
    graph: &Icfg,
    parts: &str,
    asked: &str,
    said: &str,
) {
    match asked {
        "coarse" => show_coarse(rt, graph, parts),
        "edge" => show_edge(threads, rt, graph, parts, said),
        "accepts" => show_accepted(threads, rt, graph, parts, said),
        "rows" | "finding" | "interpolants" | "built" | "steps" => {
            answer_word(threads, rt, graph, parts, asked, said)
        }
        _ => answer_triple(rt, graph, parts, asked, said),
    }
}

/// Answers what is asked of the graph that is given.
fn answer_graph<R: Threads + Sync>(
    threads: &R,
    rt: &HostRuntime,
    given: &Given,
    asked: &str,
    said: &str,
) {
    match graph_of(rt.alloc(), &given.text) {
        Some(graph) => answer_of(threads, rt, &graph, &given.parts, asked, said),
        None => put_nothing(rt),
    }
}

/// Answers a question.
fn answer<R: Threads + Sync>(threads: &R, rt: &HostRuntime, given: &Given, question: &str) {
    let (asked, said) = question.split_once(' ').unwrap_or((question, ""));
    match asked {
        "predicate" => show_predicate(rt, said),
        "holds" => show_holding(rt, said),
        "annotation" => show_annotation(rt, &given.text, said),
        "line" => show_line(rt, &given.text, said),
        "cuts" => show_cuts(rt, said),
        "lists" => show_lists(rt, said),
        "failure" => show_failure(rt, said),
        "replay" => show_replay(rt, &given.text, said),
        _ => answer_graph(threads, rt, given, asked, said),
    }
}

/// Answers a question in which parts are repeated.
fn answer_repeated<R: Threads + Sync>(
    threads: &R,
    rt: &HostRuntime,
    given: &Given,
    question: &str,
) {
    let mut whole = String::new(rt.alloc());
    match push_repeated(&mut whole, question) {
        Ok(()) => answer(threads, rt, given, &whole),
        Err(_) => put_nothing(rt),
    }
}

/// Reads a line; a question is answered.
pub(crate) fn read_line<R: Threads + Sync>(
    threads: &R,
    rt: &HostRuntime,
    given: &mut Given,
    line: &str,
) {
    if line.starts_with('#') {
        put_line(rt, line);
    } else if let Some(question) = line.strip_prefix("? ") {
        put_line(rt, line);
        given.asked = true;
        answer_repeated(threads, rt, given, question);
    } else if given.push(line).is_err() {
        put_nothing(rt);
    }
}
