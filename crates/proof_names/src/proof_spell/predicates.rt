//! The lines of predicates.

ghost use Rattle.std.specs.Prelude.{◌≡◌, length, slice_get, IfOk, IsTrue, Some};
ghost use Rattle.std.specs.List.{AllByRecursion};
ghost use Rattle.triple_rows.specs.Predicates.{IsAtom};
ghost use Rattle.math_facts.specs.Terms.{IsBelow};
ghost use Rattle.proof_form.specs.Predicates as form;
ghost use Rattle.proof_form.specs.Lines as lines;
ghost use Rattle.proof_names.specs.Columns.{is_some_entry};
ghost use Rattle.proof_names.specs.ProofSpell.Correspond.{Correspond};
ghost use Rattle.proof_names.specs.ProofSpell.Drafts.{MayBeNamed};
ghost use Rattle.proof_names.specs.ProofSpell.Nodes.{IsReadable, IsTermWithin, SpellsTerm, IsNodeWithin, SpellsNode};
ghost use Rattle.proof_names.specs.ProofSpell.Spelled.{SpellsPred};

use crate::proof_spell::columns::column_text;
use crate::proof_spell::numerals::integer;
use boogie_tree::{Column, Text, VarInfo};
use letter_acts::Icfg;
use lin_rows::{Col, Row};
use proof_form::{Numeral, PNode, PredLine};
use std::alloc::{AllocError, Global};
use triple_rows::{PredNode, Scoped};

/// A term of an atom, its column by name.
fn term_line(
    alloc: Global,
    frame: &[(Column, VarInfo)],
    term: (Col, i128),
) -> Result<(Numeral, Text), AllocError>
    requires readable { IsReadable frame.now }
    requires within { IsTermWithin (length frame.now) term }
    ensures { IfOk result (λ t. SpellsTerm frame.now t term) }
{
    let coefficient = integer(alloc, term.1)?;
    let column = column_text(alloc, &frame[term.0 as usize])?;
    Ok((coefficient, column))
}

/// The terms of an atom.
fn term_lines(
    alloc: Global,
    frame: &[(Column, VarInfo)],
    terms: &[(Col, i128)],
) -> Result<Vec<(Numeral, Text)>, AllocError>
    requires readable { IsReadable frame.now }
    requires within { AllByRecursion (IsTermWithin (length frame.now)) terms.now }
    ensures { IfOk result (λ v. Correspond (SpellsTerm frame.now) v.items terms.now) }
{
    let mut lines = Vec::with_capacity(alloc, terms.len())?;
    for term in terms {
        lines.push(term_line(alloc, frame, *term)?)?;
    }
    Ok(lines)
}

/// An atom.
fn atom_line(alloc: Global, frame: &[(Column, VarInfo)], row: &Row) -> Result<PNode, AllocError>
    requires readable { IsReadable frame.now }
    requires atom { IsAtom row.now }
    requires within { IsBelow (length frame.now) row.now.terms }
    ensures { IfOk result (λ n. SpellsNode frame.now (form.plain_predicate_node n) (PredNode.Atom row.now)) }
{
    let terms = term_lines(alloc, frame, row.terms())?;
    let bound = integer(alloc, row.bound())?;
    Ok(PNode::Atom { bound, terms })
}

/// A node of a predicate.
fn node_line(
    alloc: Global,
    frame: &[(Column, VarInfo)],
    node: &PredNode,
) -> Result<PNode, AllocError>
    requires readable { IsReadable frame.now }
    requires within { IsNodeWithin (length frame.now) node.now }
    ensures { IfOk result (λ n. SpellsNode frame.now (form.plain_predicate_node n) node.now) }
{
    match node {
        PredNode::Truth(_) => unreachable!(),
        PredNode::Atom(row) => atom_line(alloc, frame, row),
        PredNode::And(parts) => Ok(PNode::And(*parts)),
        PredNode::Or(parts) => Ok(PNode::Or(*parts)),
    }
}

/// The nodes of a predicate.
fn node_lines(
    alloc: Global,
    frame: &[(Column, VarInfo)],
    nodes: &[PredNode],
) -> Result<Vec<PNode>, AllocError>
    requires readable { IsReadable frame.now }
    requires within { AllByRecursion (IsNodeWithin (length frame.now)) nodes.now }
    ensures { IfOk result (λ v. Correspond (λ n. SpellsNode frame.now (form.plain_predicate_node n)) v.items nodes.now) }
{
    let mut lines = Vec::with_capacity(alloc, nodes.len())?;
    for node in nodes {
        lines.push(node_line(alloc, frame, node)?)?;
    }
    Ok(lines)
}

/// The name of a procedure.
fn name_of(icfg: &Icfg, proc: u32) -> Result<Text, AllocError>
    requires { IsTrue (is_some_entry (slice_get icfg.now.entries proc)) }
    ensures { IfOk result (λ n. slice_get icfg.now.names proc ≡ Some n) }
{
    icfg.names()[proc as usize].copy()
}

/// The line of a predicate.
pub(crate) fn pred_line(alloc: Global, icfg: &Icfg, scoped: &Scoped) -> Result<PredLine, AllocError>
    requires { MayBeNamed icfg.now scoped.now }
    ensures { IfOk result (λ line. SpellsPred icfg.now (lines.pred line) scoped.now) }
{
    let proc = name_of(icfg, scoped.proc)?;
    let nodes = node_lines(alloc, icfg.columns(scoped.proc), scoped.pred.nodes())?;
    Ok(PredLine { proc, nodes })
}
