//! The predicates along words.

ghost use Rattle.path_rows.specs.Paths.{IsPathOf};
ghost use Rattle.nested_itp.specs.NestedPredicates.Interpolants.{RefutesRows, HasCutsUpTo};

use crate::refutations::{has_few_cuts, is_refuted, refutation};
use crate::rows::{put, put_line, put_nothing, put_number, put_value, show_bound};
use boogie_tree::{Column, VarInfo};
use farkas_check::Refutation;
use letter_acts::Icfg;
use lin_rows::Row;
use nested_itp::{ItpFault, interpolants};
use path_rows::PathSystem;
use triple_rows::{PredNode, Scoped};

/// Prints the name of a column, which has `old` before it where it is that of an old value.
fn show_column(rt: &HostRuntime, column: Option<&(Column, VarInfo)>) {
    if let Some((kind, info)) = column {
        if matches!(kind, Column::Old(_)) {
            put(rt, "old ");
        }
        put(rt, str::from_utf8(info.name.bytes()).unwrap_or("?"));
    }
}

fn show_atom(rt: &HostRuntime, columns: &[(Column, VarInfo)], row: &Row) {
    for (column, coefficient) in row.terms() {
        put_value(rt, "", *coefficient, "*");
        show_column(rt, columns.get(*column as usize));
        put(rt, " ");
    }
    show_bound(rt, row);
}

/// Prints nodes, each before a semicolon.
fn show_nodes(rt: &HostRuntime, columns: &[(Column, VarInfo)], nodes: &[PredNode]) {
    for node in nodes {
        match node {
            PredNode::Truth(value) => put(rt, if *value { "true" } else { "false" }),
            PredNode::Atom(row) => show_atom(rt, columns, row),
            PredNode::And(parts) => put_number(rt, "and ", u64::from(*parts), ""),
            PredNode::Or(parts) => put_number(rt, "or ", u64::from(*parts), ""),
        }
        put(rt, ";");
    }
    put(rt, "\n");
}

/// Prints the nodes of a predicate, each before a semicolon.
fn show_scoped(rt: &HostRuntime, graph: &Icfg, scoped: &Scoped) {
    match graph.frames().get(scoped.proc as usize) {
        Some(frame) => show_nodes(rt, &frame.columns, scoped.pred.nodes()),
        None => put_nothing(rt),
    }
}

/// Prints the predicates, a line each.
fn show_all(rt: &HostRuntime, graph: &Icfg, preds: &[Scoped]) {
    for scoped in preds {
        show_scoped(rt, graph, scoped);
    }
}

/// Prints the predicates under a refutation.
fn show_under(rt: &HostRuntime, graph: &Icfg, path: &PathSystem, proof: &Refutation)
    requires path { IsPathOf graph.now path.now }
    requires refuted { RefutesRows proof.now path.now.rows }
    requires few { HasCutsUpTo 64 proof.now }
{
    match interpolants(rt.alloc(), graph, path, proof) {
        Ok(found) => show_all(rt, graph, found.preds()),
        Err(ItpFault::Past) => put_line(rt, "past"),
        Err(ItpFault::Memory) => put_nothing(rt),
    }
}

/// Prints the predicates of the positions of the word, a line each, or that a number does not fit.
pub(crate) fn show_refuted(rt: &HostRuntime, graph: &Icfg, path: &PathSystem, proof: &Refutation)
    requires { IsPathOf graph.now path.now }
{
    if !has_few_cuts(proof) {
        return put_line(rt, "many cuts");
    }
    if !is_refuted(rt.alloc(), path, proof).unwrap_or(false) {
        return put_line(rt, "not refuted");
    }
    show_under(rt, graph, path, proof);
}

/// Prints those under the refutation with these nodes.
pub(crate) fn show_interpolants(rt: &HostRuntime, graph: &Icfg, path: &PathSystem, parts: &str)
    requires { IsPathOf graph.now path.now }
{
    match refutation(rt.alloc(), parts) {
        Some(proof) => show_refuted(rt, graph, path, &proof),
        None => put_nothing(rt),
    }
}
