//! The predicates that lines name.

ghost use Rattle.std.specs.Prelude.{◌≡◌, map, IsTrue, IfOk};
ghost use Rattle.std.specs.List.{list_all};
ghost use Rattle.std.specs.Option.{option_map};
ghost use Rattle.proof_form.specs.Lines as lines;
ghost use Rattle.proof_form.specs.Predicates as form;
ghost use Rattle.proof_names.specs.Options.{all_some};
ghost use Rattle.proof_names.specs.Predicates as spec;

use crate::columns::{column_named, procedure_named};
use crate::numbers::number_in;
use boogie_tree::{Column, Text, VarInfo};
use letter_acts::Icfg;
use lin_rows::{Row, RowFault, RowKind, row};
use proof_form::{Numeral, PNode, PredLine};
use std::alloc::{AllocError, Global};
use triple_rows::{PredNode, Scoped, pred};

/// A column with its coefficient.
fn term_named(frame: &[(Column, VarInfo)], term: &(Numeral, Text)) -> Option<(u32, i128)>
    ensures { result ≡ spec.term_named frame.now term.now }
{
    Some((column_named(frame, term.1.bytes())?, number_in(&term.0)?))
}

/// The terms of an atom, if all are named.
pub fn terms_named(
    alloc: Global,
    frame: &[(Column, VarInfo)],
    terms: &[(Numeral, Text)],
) -> Result<Option<Vec<(u32, i128)>>, AllocError>
    ensures { IfOk result (λ o. option_map (λ v. v.items) o ≡ all_some (map (spec.term_named frame.now) terms.now)) }
{
    let mut named = Vec::with_capacity(alloc, terms.len())?;
    for term in terms {
        match term_named(frame, term) {
            Some(term) => named.push(term)?,
            None => return Ok(None),
        }
    }
    Ok(Some(named))
}

/// Whether each column stands before the next in the frame.
fn ascend(terms: &[(u32, i128)]) -> bool
    ensures { result ≡ spec.terms_ascend terms.now }
{
    for i in 1..terms.len() {
        if terms[i - 1].0 >= terms[i].0 {
            return false;
        }
    }
    true
}

/// The inequality that an atom names.
fn row_named(
    alloc: Global,
    frame: &[(Column, VarInfo)],
    bound: &Numeral,
    terms: &[(Numeral, Text)],
) -> Result<Option<Row>, AllocError>
    requires { IsTrue (list_all form.is_term terms.now) }
    ensures { IfOk result (λ o. o ≡ spec.row_named frame.now bound.now terms.now) }
{
    let Some(bound) = number_in(bound) else {
        return Ok(None);
    };
    let Some(terms) = terms_named(alloc, frame, terms)? else {
        return Ok(None);
    };
    if !ascend(&terms) {
        return Ok(None);
    }
    match row(alloc, &terms, RowKind::Le, bound) {
        Ok(row) => Ok(Some(row)),
        Err(RowFault::Past) => Ok(None),
        Err(RowFault::Memory) => Err(AllocError),
    }
}

fn node_named(
    alloc: Global,
    frame: &[(Column, VarInfo)],
    node: &PNode,
) -> Result<Option<PredNode>, AllocError>
    requires { IsTrue (form.is_predicate_node (form.plain_predicate_node node.now)) }
    ensures { IfOk result (λ o. o ≡ spec.node_named frame.now (form.plain_predicate_node node.now)) }
{
    match node {
        PNode::Atom { bound, terms } => match row_named(alloc, frame, bound, terms)? {
            Some(row) => Ok(Some(PredNode::Atom(row))),
            None => Ok(None),
        },
        PNode::And(parts) => Ok(Some(PredNode::And(*parts))),
        PNode::Or(parts) => Ok(Some(PredNode::Or(*parts))),
    }
}

/// The nodes over the columns of a frame, if all are named.
fn nodes_named(
    alloc: Global,
    frame: &[(Column, VarInfo)],
    nodes: &[PNode],
) -> Result<Option<Vec<PredNode>>, AllocError>
    requires { IsTrue (list_all (λ n. form.is_predicate_node (form.plain_predicate_node n)) nodes.now) }
    ensures { IfOk result (λ o. option_map (λ v. v.items) o ≡ all_some (map (λ n. spec.node_named frame.now (form.plain_predicate_node n)) nodes.now)) }
{
    let mut named = Vec::with_capacity(alloc, nodes.len())?;
    for node in nodes {
        match node_named(alloc, frame, node)? {
            Some(node) => named.push(node)?,
            None => return Ok(None),
        }
    }
    Ok(Some(named))
}

/// The predicate that a line names.
pub fn pred_named(alloc: Global, icfg: &Icfg, line: &PredLine) -> Result<Option<Scoped>, AllocError>
    requires { IsTrue (lines.is_pred (lines.pred line.now)) }
    ensures { IfOk result (λ o. o ≡ spec.pred_named icfg.now (lines.pred line.now)) }
{
    let Some(proc) = procedure_named(icfg, line.proc.bytes()) else {
        return Ok(None);
    };
    let Some(nodes) = nodes_named(alloc, icfg.columns(proc), &line.nodes)? else {
        return Ok(None);
    };
    match pred(nodes) {
        Some(pred) => Ok(Some(Scoped { proc, pred })),
        None => Ok(None),
    }
}
