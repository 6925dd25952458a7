//! Predicates, as texts.

use crate::reading::row_of;
use crate::rows::{put_line, put_nothing, put_number};
use lin_rows::RowFault;
use std::alloc::Global;
use table_reading::{keep, number, parted, values};
use triple_rows::{Pred, PredNode, Scoped, is_over, pred, pred_holds};

/// A node: `true`, `false`, `and 2`, `or 2`, or a row.
fn node_of(alloc: Global, text: &str) -> Result<PredNode, RowFault> {
    if text == "true" || text == "false" {
        Ok(PredNode::Truth(text == "true"))
    } else if let Some(parts) = text.strip_prefix("and ") {
        Ok(PredNode::And(number(parts)))
    } else if let Some(parts) = text.strip_prefix("or ") {
        Ok(PredNode::Or(number(parts)))
    } else {
        Ok(PredNode::Atom(row_of(alloc, text)?))
    }
}

fn push_nodes(alloc: Global, nodes: &mut Vec<PredNode>, text: &str) -> Result<(), RowFault> {
    for said in text.split(';') {
        if !said.is_empty() {
            keep(nodes, node_of(alloc, said)?)?;
        }
    }
    Ok(())
}

/// The predicate with these nodes, which have semicolons behind them.
fn pred_of(alloc: Global, text: &str) -> Option<Pred> {
    let mut nodes = Vec::new(alloc);
    match push_nodes(alloc, &mut nodes, text) {
        Ok(()) => pred(nodes),
        Err(_) => None,
    }
}

/// The predicate of a procedure, `0 true`.
pub(crate) fn scoped_of(alloc: Global, text: &str) -> Option<Scoped> {
    let (proc, nodes) = parted(text, " ");
    let pred = pred_of(alloc, nodes)?;
    Some(Scoped {
        proc: number(proc),
        pred,
    })
}

fn push_scoped(alloc: Global, preds: &mut Vec<Scoped>, text: &str) -> Option<()> {
    for line in text.lines() {
        preds.push(scoped_of(alloc, line)?).ok()?;
    }
    Some(())
}

/// The predicates of procedures, each on a line.
pub(crate) fn scoped_lines(alloc: Global, text: &str) -> Option<Vec<Scoped>> {
    let mut preds = Vec::new(alloc);
    push_scoped(alloc, &mut preds, text)?;
    Some(preds)
}

/// Prints how many nodes a copy of the predicate has.
fn show_copy(rt: &HostRuntime, pred: &Pred) {
    match pred.copy() {
        Ok(copied) => {
            put_number(
                rt,
                "a predicate of ",
                copied.nodes().len() as u64,
                " nodes\n",
            );
        }
        Err(_) => put_nothing(rt),
    }
}

/// Prints whether the nodes are a predicate.
pub(crate) fn show_predicate(rt: &HostRuntime, said: &str) {
    match pred_of(rt.alloc(), said) {
        Some(pred) => show_copy(rt, &pred),
        None => put_line(rt, "no predicate"),
    }
}

/// Whether the predicate holds of the values, as a word.
fn holding(pred: &Pred, values: &[i128]) -> &'static str {
    if !is_over(pred, values.len()) {
        return "not over so many columns";
    }
    match pred_holds(pred, values) {
        Ok(true) => "holds",
        Ok(false) => "does not hold",
        Err(_) => "past",
    }
}

/// Prints whether the predicate holds of the values.
fn show_holding_of(rt: &HostRuntime, pred: &Pred, said: &str) {
    match values(rt.alloc(), said) {
        Ok(values) => put_line(rt, holding(pred, &values)),
        Err(_) => put_nothing(rt),
    }
}

/// Prints whether a predicate holds of values, which stand before it and a bar.
pub(crate) fn show_holding(rt: &HostRuntime, said: &str) {
    let (values, nodes) = parted(said, "| ");
    match pred_of(rt.alloc(), nodes) {
        Some(pred) => show_holding_of(rt, &pred, values),
        None => put_nothing(rt),
    }
}
