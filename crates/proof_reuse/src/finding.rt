//! The predicates of lines, found by the names of procedures and columns.

ghost use Rattle.std.specs.Prelude.{◌≡◌, map, IsTrue, IfOk};
ghost use Rattle.std.specs.List.{list_all, AllByRecursion};
ghost use Rattle.std.specs.Option.{option_map};
ghost use Rattle.math_facts.specs.Fits.{Fits};
ghost use Rattle.lin_rows.specs.Rows.{IsCoefficient};
ghost use Rattle.proof_form.specs.Lines as lines;
ghost use Rattle.proof_form.specs.Predicates as form;
ghost use Rattle.proof_names.specs.Options.{all_some};
ghost use Rattle.proof_reuse.specs.Found as spec;
ghost use Rattle.proof_reuse.specs.Found.{in_order, row_of_terms};

use boogie_tree::{Column, Text, VarInfo};
use letter_acts::Icfg;
use lin_rows::{Row, RowFault, RowKind, row};
use proof_form::{Numeral, PNode, PredLine};
use proof_names::{number_in, procedure_named, terms_named};
use std::alloc::{AllocError, Global};
use triple_rows::{PredNode, Scoped, pred};

/// The inequality of terms and a bound, `None` where two terms are of one column.
fn row_of(alloc: Global, terms: &[(u32, i128)], bound: i128) -> Result<Option<Row>, AllocError>
    requires terms { AllByRecursion IsCoefficient terms.now }
    requires bound { Fits bound }
    ensures { IfOk result (λ o. o ≡ option_map (λ ts. row_of_terms (ts, bound)) (in_order terms.now)) }
{
    let found = match row(alloc, terms, RowKind::Le, bound) {
        Ok(row) => row,
        Err(RowFault::Past) => return Ok(None),
        Err(RowFault::Memory) => return Err(AllocError),
    };
    // terms of one column are added up, so that fewer are left
    if found.terms().len() != terms.len() {
        return Ok(None);
    }
    Ok(Some(found))
}

/// The inequality of an atom, where its columns are found and all numbers fit.
fn row_found(
    alloc: Global,
    frame: &[(Column, VarInfo)],
    bound: &Numeral,
    terms: &[(Numeral, Text)],
) -> Result<Option<Row>, AllocError>
    requires { IsTrue (list_all form.is_term terms.now) }
    ensures { IfOk result (λ o. o ≡ spec.row_found frame.now bound.now terms.now) }
{
    let Some(bound) = number_in(bound) else {
        return Ok(None);
    };
    let Some(terms) = terms_named(alloc, frame, terms)? else {
        return Ok(None);
    };
    row_of(alloc, &terms, bound)
}

fn node_found(
    alloc: Global,
    frame: &[(Column, VarInfo)],
    node: &PNode,
) -> Result<Option<PredNode>, AllocError>
    requires { IsTrue (form.is_predicate_node (form.plain_predicate_node node.now)) }
    ensures { IfOk result (λ o. o ≡ spec.node_found frame.now (form.plain_predicate_node node.now)) }
{
    match node {
        PNode::Atom { bound, terms } => match row_found(alloc, frame, bound, terms)? {
            Some(row) => Ok(Some(PredNode::Atom(row))),
            None => Ok(None),
        },
        PNode::And(parts) => Ok(Some(PredNode::And(*parts))),
        PNode::Or(parts) => Ok(Some(PredNode::Or(*parts))),
    }
}

/// The nodes over the columns of a frame, if all are found.
fn nodes_found(
    alloc: Global,
    frame: &[(Column, VarInfo)],
    nodes: &[PNode],
) -> Result<Option<Vec<PredNode>>, AllocError>
    requires { IsTrue (list_all (λ n. form.is_predicate_node (form.plain_predicate_node n)) nodes.now) }
    ensures { IfOk result (λ o. option_map (λ v. v.items) o ≡ all_some (map (λ n. spec.node_found frame.now (form.plain_predicate_node n)) nodes.now)) }
{
    let mut found = Vec::new(alloc);
    for spelled in nodes {
        let Some(node) = node_found(alloc, frame, spelled)? else {
            return Ok(None);
        };
        found.push(node)?;
    }
    Ok(Some(found))
}

/// The predicate of a line, where its procedure is found with a body, and its columns, and all numbers fit.
pub(crate) fn pred_found(
    alloc: Global,
    icfg: &Icfg,
    line: &PredLine,
) -> Result<Option<Scoped>, AllocError>
    requires { IsTrue (lines.is_pred (lines.pred line.now)) }
    ensures { IfOk result (λ o. o ≡ spec.pred_found icfg.now (lines.pred line.now)) }
{
    let Some(proc) = procedure_named(icfg, line.proc.bytes()) else {
        return Ok(None);
    };
    let Some(nodes) = nodes_found(alloc, icfg.columns(proc), &line.nodes)? else {
        return Ok(None);
    };
    match pred(nodes) {
        Some(pred) => Ok(Some(Scoped { proc, pred })),
        None => Ok(None),
    }
}
