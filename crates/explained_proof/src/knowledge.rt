//! What an annotation knows at the places of a graph.

ghost use Rattle.std.specs.Prelude.{◌≡◌, ℕ, IsTrue, IfOk, OnOk, map, slice_get};
ghost use Rattle.std.specs.HashMap.{get};
ghost use Rattle.nwa_base.specs.Groups.{grouped};
ghost use Rattle.proof_form.specs.Lines as lines;
ghost use Rattle.proof_names.specs.Items.{pred_at};
ghost use Rattle.proof_names.specs.Outlines.{node};
ghost use Rattle.proof_names.specs.Predicates as naming;
ghost use Rattle.explained_proof.specs.FactExpressions.Facts.{gathered};
ghost use Rattle.explained_proof.specs.FactExpressions.Views as seen;
ghost use Rattle.explained_proof.specs.Known as spec;
ghost use Rattle.explained_proof.specs.Ties.Views as view;

use crate::fact_expressions::Conjunction;
use crate::tightening::Tightened;
use letter_acts::Icfg;
use nwa_base::Groups;
use proof_form::{Annotation, PredLine};
use proof_names::{NamedNode, pred_named};
use std::alloc::{AllocError, Global};

/// The number of the predicate false.
const FALSE: usize = 1;

/// The first number of a line of predicates.
const FIRST_LINE: usize = 2;

/// What an annotation knows: its predicates and its nodes, those that stand at a place in frames that were entered at one of them, and those at which
/// frames are entered there.
#[derive(Drop)]
pub(crate) struct Knowledge<'a> {
    predicates: Vec<Option<Tightened>>,
    nodes: &'a [NamedNode],
    standing: Groups<(u64, usize), usize>,
    entered: Groups<u64, usize>,
}

/// The predicate of a line, tightened; none where the line names none.
fn predicate_of(
    alloc: Global,
    icfg: &Icfg,
    line: &PredLine,
) -> Result<Option<Tightened>, AllocError>
    requires { IsTrue (lines.is_pred (lines.pred line.now)) }
    ensures { IfOk result (λ o. view.tightened o ≡ spec.formula_in (naming.pred_named icfg.now (lines.pred line.now))) }
{
    match pred_named(alloc, icfg, line)? {
        Some(scoped) => Ok(Some(Tightened::of(alloc, &scoped.pred)?)),
        None => Ok(None),
    }
}

/// The predicates of an annotation.
fn predicates_of(
    alloc: Global,
    icfg: &Icfg,
    annotation: &Annotation,
) -> Result<Vec<Option<Tightened>>, AllocError>
    ensures { IfOk result (λ list. (k : ℕ) → view.line_said (slice_get list.items k) ≡ spec.formula_in (pred_at icfg.now annotation.now k)) }
{
    let lines = annotation.preds();
    let mut list = Vec::with_capacity(alloc, lines.len())?;
    for line in lines {
        list.push(predicate_of(alloc, icfg, line)?)?;
    }
    Ok(list)
}

/// Whether false is known at a node, so that no run comes there.
fn is_false(named: &NamedNode) -> bool
    ensures { result ≡ spec.is_false (node named.now) }
{
    named.preds.contains(&FALSE)
}

/// The nodes by their place and the entry node of their frame, but for those where false is known.
fn standing_of(
    alloc: Global,
    nodes: &[NamedNode],
) -> Result<Groups<(u64, usize), usize>, AllocError>
    ensures { IfOk result (λ g. (place entry : ℕ) → grouped (get ⟦<(u64, usize) as PartialEq>⟧.eq g.by_key (place, entry)) ≡
        spec.nodes_from 0 (spec.is_standing_at place entry) (map node nodes.now)) }
{
    let mut groups = Groups::new(alloc);
    for (number, named) in nodes.iter().enumerate() {
        if is_false(named) {
            continue;
        }
        groups.add((u64::from(named.place), named.entry), number)?;
    }
    Ok(groups)
}

/// The entry nodes by their place, but for those where false is known.
fn entered_of(alloc: Global, nodes: &[NamedNode]) -> Result<Groups<u64, usize>, AllocError>
    ensures { IfOk result (λ g. (place : ℕ) → grouped (get ⟦<u64 as PartialEq>⟧.eq g.by_key place) ≡
        spec.nodes_from 0 (spec.is_entered_at place) (map node nodes.now)) }
{
    let mut groups = Groups::new(alloc);
    for (number, named) in nodes.iter().enumerate() {
        if named.entry != number {
            continue;
        }
        if is_false(named) {
            continue;
        }
        groups.add(u64::from(named.place), number)?;
    }
    Ok(groups)
}

impl<'a> Knowledge<'a> {
    /// What an annotation knows, the nodes of which are these.
    pub(crate) fn of(
        alloc: Global,
        icfg: &Icfg,
        annotation: &Annotation,
        nodes: &'a [NamedNode],
    ) -> Result<Knowledge<'a>, AllocError>
        ensures { IfOk result (λ k. view.known k ≡ spec.known_of icfg.now annotation.now (map node nodes.now)) }
    {
        let predicates = predicates_of(alloc, icfg, annotation)?;
        let standing = standing_of(alloc, nodes)?;
        let entered = entered_of(alloc, nodes)?;
        Ok(Knowledge {
            predicates,
            nodes,
            standing,
            entered,
        })
    }

    /// The entry nodes at a place.
    pub(crate) fn entered(&self, place: u64) -> &[usize]
        ensures { result.now ≡ (view.known self.now).entered place }
    {
        self.entered.of(&place)
    }

    /// The nodes at a place in frames that were entered at that node.
    pub(crate) fn standing_at(&self, place: u64, entry: usize) -> &[usize]
        ensures { result.now ≡ (view.known self.now).standing place entry }
    {
        self.standing.of(&(place, entry))
    }

    /// The numbers of the predicates of a node.
    pub(crate) fn preds(&self, number: usize) -> &[usize]
        ensures { result.now ≡ (view.known self.now).preds number }
    {
        match self.nodes.get(number) {
            Some(named) => &named.preds,
            None => &[],
        }
    }

    /// Adds the predicate of a line; a line that names none is true.
    fn add_line<'b>(&'b self, line: usize, facts: &mut Conjunction<'b>) -> Result<(), AllocError>
        ensures { OnOk result (seen.facts facts.new ≡ gathered (view.line_said (slice_get self.now.predicates.items line)) (seen.facts facts.old)) }
    {
        match self.predicates.get(line) {
            Some(Some(tightened)) => facts.add(tightened.tree()),
            _ => Ok(()),
        }
    }

    /// Adds the predicate of that number.
    pub(crate) fn add_predicate<'b>(
        &'b self,
        number: usize,
        facts: &mut Conjunction<'b>,
    ) -> Result<(), AllocError>
        ensures { OnOk result (seen.facts facts.new ≡ gathered ((view.known self.now).predicate number) (seen.facts facts.old)) }
    {
        if number < FIRST_LINE {
            if number == FALSE {
                facts.deny();
            }
            return Ok(());
        }
        self.add_line(number - FIRST_LINE, facts)
    }
}
