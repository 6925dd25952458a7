//! What Decide finds of words, and the predicates under its own refutations.

ghost use Rattle.path_rows.specs.Paths.{IsPathOf};

use crate::interpolating::show_refuted;
use crate::rows::{put, put_line, put_nothing, put_value};
use int_decide::{Answer, DecideFault};
use letter_acts::Icfg;
use path_decide::plain_path;
use path_rows::PathSystem;

/// How many cuts a branch of Decide's refutations may have.
pub(crate) const DEPTH: u32 = 8;

/// Prints the values of a point, a number for each column.
fn show_point(rt: &HostRuntime, values: &[i128]) {
    put(rt, "point");
    for value in values {
        put_value(rt, " ", *value, "");
    }
    put(rt, "\n");
}

/// Prints the predicates of the word under Decide's own refutation, its point, or why it has neither.
pub(crate) fn show_finding(rt: &HostRuntime, graph: &Icfg, path: &PathSystem)
    requires { IsPathOf graph.now path.now }
{
    match &plain_path(rt.alloc(), path, DEPTH) {
        Ok(Answer::Refuted(proof)) => show_refuted(rt, graph, path, proof),
        Ok(Answer::Whole(values)) => show_point(rt, values),
        Err(DecideFault::Gap) => put_line(rt, "gap"),
        Err(DecideFault::Past) => put_line(rt, "past"),
        Err(DecideFault::Memory) => put_nothing(rt),
    }
}
