//! Annotations that are made of lists.

use crate::rows::{put, put_line, put_nothing, put_number};
use boogie_tree::Text;
use proof_form::{
    Annotation, NodeLine, Numeral, PNode, PredLine, RNode, StepLine, TripleLine, annotation,
    write_safe,
};
use std::alloc::{AllocError, Global};
use table_reading::{keep, number, parted};

/// The lists of an annotation.
#[derive(Drop)]
struct Lists {
    preds: Vec<PredLine>,
    triples: Vec<TripleLine>,
    nodes: Vec<NodeLine>,
    steps: Vec<StepLine>,
}

fn text_of(alloc: Global, text: &str) -> Result<Text, AllocError> {
    Ok(Text::new(Vec::from_slice(alloc, text.as_bytes())?))
}

fn numeral(alloc: Global, digits: &str) -> Result<Numeral, AllocError> {
    Ok(Numeral {
        negative: false,
        digits: text_of(alloc, digits)?,
    })
}

/// A coefficient and its column.
fn term(alloc: Global, coefficient: &str, column: &str) -> Result<(Numeral, Text), AllocError> {
    let coefficient = numeral(alloc, coefficient)?;
    match text_of(alloc, column) {
        Ok(column) => Ok((coefficient, column)),
        Err(fault) => Err(fault),
    }
}

/// Adds a coefficient and its column to an atom.
fn push_term(nodes: &mut Vec<PNode>, coefficient: &str, column: &str) -> Result<(), AllocError> {
    let alloc = *nodes.allocator();
    match nodes.last_mut() {
        Some(PNode::Atom { terms, .. }) => keep(terms, term(alloc, coefficient, column)?),
        _ => Ok(()),
    }
}

/// Adds the atom that says that the column times the coefficient is 0 or less.
fn push_atom(nodes: &mut Vec<PNode>, coefficient: &str, column: &str) -> Result<(), AllocError> {
    let alloc = *nodes.allocator();
    let bound = numeral(alloc, "0")?;
    let terms = Vec::new(alloc);
    keep(nodes, PNode::Atom { bound, terms })?;
    push_term(nodes, coefficient, column)
}

/// Adds `and` of two, and so many atoms.
fn push_nodes(
    nodes: &mut Vec<PNode>,
    coefficient: &str,
    column: &str,
    atoms: u32,
) -> Result<(), AllocError> {
    keep(nodes, PNode::And(2))?;
    for _turn in 0..atoms {
        push_atom(nodes, coefficient, column)?;
    }
    Ok(())
}

fn push_pred(
    preds: &mut Vec<PredLine>,
    coefficient: &str,
    column: &str,
    atoms: u32,
) -> Result<(), AllocError> {
    let alloc = *preds.allocator();
    let proc = text_of(alloc, "p")?;
    let nodes = Vec::new(alloc);
    keep(preds, PredLine { proc, nodes })?;
    match preds.last_mut() {
        Some(pred) => push_nodes(&mut pred.nodes, coefficient, column, atoms),
        None => Ok(()),
    }
}

/// Two numerals.
#[derive(Drop)]
struct Ends {
    from: Numeral,
    to: Numeral,
}

fn two_ends(alloc: Global, from: &str, to: &str) -> Result<Ends, AllocError> {
    let from = numeral(alloc, from)?;
    match numeral(alloc, to) {
        Ok(to) => Ok(Ends { from, to }),
        Err(fault) => Err(fault),
    }
}

/// A step by a letter.
fn step(alloc: Global, letter: &str, to: &str) -> Result<StepLine, AllocError> {
    let letter = numeral(alloc, letter)?;
    match two_ends(alloc, "0", to) {
        Ok(Ends { from, to }) => Ok(StepLine::Step { from, letter, to }),
        Err(fault) => Err(fault),
    }
}

fn push_step(steps: &mut Vec<StepLine>) -> Result<(), AllocError> {
    let alloc = *steps.allocator();
    keep(steps, step(alloc, "5", "0")?)
}

/// An inside triple, without a proof.
fn triple(alloc: Global, letter: &str) -> Result<TripleLine, AllocError> {
    let letter = numeral(alloc, letter)?;
    match two_ends(alloc, "0", "2") {
        Ok(Ends { from, to }) => Ok(TripleLine::Inside {
            from,
            letter,
            to,
            proof: Vec::new(alloc),
        }),
        Err(fault) => Err(fault),
    }
}

fn push_triple(triples: &mut Vec<TripleLine>) -> Result<(), AllocError> {
    let alloc = *triples.allocator();
    keep(triples, triple(alloc, "3")?)?;
    match triples.last_mut() {
        Some(TripleLine::Inside { proof, .. }) => keep(proof, RNode::Cases(0)),
        _ => Ok(()),
    }
}

fn push_node(nodes: &mut Vec<NodeLine>) -> Result<(), AllocError> {
    let alloc = *nodes.allocator();
    let Ends { from, to } = two_ends(alloc, "4", "0")?;
    let preds = Vec::new(alloc);
    keep(
        nodes,
        NodeLine {
            place: from,
            entry: to,
            preds,
        },
    )
}

/// Fills the lists: a predicate that joins two of so many atoms, with this coefficient and column, and one line of each other kind.
fn fill(lists: &mut Lists, coefficient: &str, column: &str, atoms: u32) -> Result<(), AllocError> {
    push_pred(&mut lists.preds, coefficient, column, atoms)?;
    push_triple(&mut lists.triples)?;
    push_node(&mut lists.nodes)?;
    push_step(&mut lists.steps)
}

fn empty_lists(alloc: Global) -> Lists {
    Lists {
        preds: Vec::new(alloc),
        triples: Vec::new(alloc),
        nodes: Vec::new(alloc),
        steps: Vec::new(alloc),
    }
}

fn made(lists: Lists) -> Result<Option<Annotation>, AllocError> {
    annotation(lists.preds, lists.triples, lists.nodes, lists.steps)
}

fn show_written(rt: &HostRuntime, made: &Annotation) {
    match write_safe(rt.alloc(), 3, &[], made) {
        Ok(written) => put(rt, str::from_utf8(&written).unwrap_or("?")),
        Err(_) => put_nothing(rt),
    }
}

/// Prints an annotation, and how many predicates, triples, nodes and steps it has.
fn show_made(rt: &HostRuntime, made: &Annotation) {
    show_written(rt, made);
    put_number(rt, "predicates ", made.preds().len() as u64, "");
    put_number(rt, " triples ", made.triples().len() as u64, "");
    put_number(rt, " nodes ", made.nodes().len() as u64, "");
    put_number(rt, " steps ", made.steps().len() as u64, "\n");
}

fn show_found(rt: &HostRuntime, found: &Result<Option<Annotation>, AllocError>) {
    match found {
        Ok(Some(annotation)) => show_made(rt, annotation),
        Ok(None) => put_line(rt, "no annotation"),
        Err(_) => put_nothing(rt),
    }
}

/// Prints the annotation of the lists whose coefficient, column and number of atoms are said, if they are one's.
pub(crate) fn show_lists(rt: &HostRuntime, said: &str) {
    let (coefficient, rest) = parted(said, " ");
    let (column, atoms) = parted(rest, " ");
    let mut lists = empty_lists(rt.alloc());
    match fill(&mut lists, coefficient, column, number(atoms)) {
        Ok(()) => show_found(rt, &made(lists)),
        Err(_) => put_nothing(rt),
    }
}
