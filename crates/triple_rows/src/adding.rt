//! Adding to a draft that a predicate holds, or that it does not. Recursion is as deep as `And` and `Or` are nested.

ghost use Rattle.std.specs.Prelude.{◌≡◌, ◌<◌, ◌≤◌, Err, IfOk, OnOk, length, take, slice_index};
ghost use Rattle.std.specs.List.{AllByRecursion};
ghost use Rattle.letter_acts.specs.Invariant.{AreDistinct};
ghost use Rattle.triple_rows.specs.Predicates.{IsOver, HasInequalities, SpellsPredicate, bundled, formulas, formula_of};
ghost use Rattle.triple_rows.specs.Reading.{AreComplete, IsRest};
ghost use Rattle.triple_rows.specs.Systems.{PlainFits, MembersFit, one_of};
ghost use Rattle.triple_rows.specs.Ties.Drafts.{Adds, stated, all_stated, members_stated};

use crate::drafts::Draft;
use crate::predicates::{Pred, PredNode};
use crate::rows::{never, stated_row};
use lin_rows::RowFault;
use std::alloc::Global;

/// Adds that the predicate holds, or that it does not, with its columns renamed.
pub(crate) fn add_pred(
    alloc: Global,
    pred: &Pred,
    columns: &[u32],
    deny: bool,
    draft: &mut Draft,
) -> Result<(), RowFault>
    requires over { IsOver (length columns.now) (formula_of pred.now) }
    requires differ { AreDistinct columns.now }
    ensures spelled { SpellsPredicate pred.now }
    ensures adds { OnOk result (Adds (stated deny (slice_index columns.now) (formula_of pred.now)) draft.old draft.new) }
    ensures fits { OnOk result (PlainFits (stated deny (slice_index columns.now) (formula_of pred.now))) }
    ensures past { result ≡ Err RowFault.Past → PlainFits (stated deny (slice_index columns.now) (formula_of pred.now)) → ⊥ }
{
    let _rest = add_tree(alloc, pred.nodes(), columns, deny, draft)?;
    Ok(())
}

/// Adds that the tree in front holds, or that it does not, and answers the nodes behind it.
#[cycle(adding)]
fn add_tree<'a>(
    alloc: Global,
    nodes: &'a [PredNode],
    columns: &[u32],
    deny: bool,
    draft: &mut Draft,
) -> Result<&'a [PredNode], RowFault>
    requires some { 0 < length (formulas nodes.now) }
    requires complete { AreComplete nodes.now }
    requires over { AllByRecursion (IsOver (length columns.now)) (formulas nodes.now) }
    requires inequalities { AllByRecursion HasInequalities (formulas nodes.now) }
    requires differ { AreDistinct columns.now }
    ensures adds { OnOk result (Adds (stated deny (slice_index columns.now) (formula_of nodes.now)) draft.old draft.new) }
    ensures rest { IfOk result (λ r. IsRest 1 nodes.now r.now) }
    ensures fits { OnOk result (PlainFits (stated deny (slice_index columns.now) (formula_of nodes.now))) }
    ensures past { result ≡ Err RowFault.Past → PlainFits (stated deny (slice_index columns.now) (formula_of nodes.now)) → ⊥ }
{
    let Some((first, rest)) = nodes.split_first() else {
        unreachable!()
    };
    match first {
        PredNode::Truth(value) => {
            if *value == deny {
                draft.rows.push(never(alloc)?)?;
            }
            Ok(rest)
        }
        PredNode::Atom(row) => {
            draft.rows.push(stated_row(alloc, row, columns, deny)?)?;
            Ok(rest)
        }
        PredNode::And(parts) => {
            if deny {
                add_group(alloc, rest, *parts, columns, deny, draft)
            } else {
                add_parts(alloc, rest, *parts, columns, deny, draft)
            }
        }
        PredNode::Or(parts) => {
            if deny {
                add_parts(alloc, rest, *parts, columns, deny, draft)
            } else {
                add_group(alloc, rest, *parts, columns, deny, draft)
            }
        }
    }
}

/// Adds each of so many trees in front, and answers the nodes behind them.
#[cycle(adding)]
fn add_parts<'a>(
    alloc: Global,
    nodes: &'a [PredNode],
    count: u32,
    columns: &[u32],
    deny: bool,
    draft: &mut Draft,
) -> Result<&'a [PredNode], RowFault>
    requires enough { count ≤ length (formulas nodes.now) }
    requires complete { AreComplete nodes.now }
    requires over { AllByRecursion (IsOver (length columns.now)) (formulas nodes.now) }
    requires inequalities { AllByRecursion HasInequalities (formulas nodes.now) }
    requires differ { AreDistinct columns.now }
    ensures adds { OnOk result (Adds (all_stated deny (slice_index columns.now) (bundled (take count (formulas nodes.now)))) draft.old draft.new) }
    ensures rest { IfOk result (λ r. IsRest count nodes.now r.now) }
    ensures fits { OnOk result (PlainFits (all_stated deny (slice_index columns.now) (bundled (take count (formulas nodes.now))))) }
    ensures past { result ≡ Err RowFault.Past → PlainFits (all_stated deny (slice_index columns.now) (bundled (take count (formulas nodes.now)))) → ⊥ }
{
    let mut rest = nodes;
    for _i in 0..count {
        rest = add_tree(alloc, rest, columns, deny, draft)?;
    }
    Ok(rest)
}

/// Adds a group with a member for each of so many trees in front, and answers the nodes behind them.
#[cycle(adding)]
fn add_group<'a>(
    alloc: Global,
    nodes: &'a [PredNode],
    count: u32,
    columns: &[u32],
    deny: bool,
    draft: &mut Draft,
) -> Result<&'a [PredNode], RowFault>
    requires enough { count ≤ length (formulas nodes.now) }
    requires complete { AreComplete nodes.now }
    requires over { AllByRecursion (IsOver (length columns.now)) (formulas nodes.now) }
    requires inequalities { AllByRecursion HasInequalities (formulas nodes.now) }
    requires differ { AreDistinct columns.now }
    ensures adds { OnOk result (Adds (one_of (members_stated deny (slice_index columns.now) (bundled (take count (formulas nodes.now))))) draft.old draft.new) }
    ensures rest { IfOk result (λ r. IsRest count nodes.now r.now) }
    ensures fits { OnOk result (MembersFit (members_stated deny (slice_index columns.now) (bundled (take count (formulas nodes.now))))) }
    ensures past { result ≡ Err RowFault.Past → MembersFit (members_stated deny (slice_index columns.now) (bundled (take count (formulas nodes.now)))) → ⊥ }
{
    let mut members = Vec::new(alloc);
    let mut rest = nodes;
    for _i in 0..count {
        let mut member = Draft::new(alloc);
        rest = add_tree(alloc, rest, columns, deny, &mut member)?;
        members.push(member.finish())?;
    }
    draft.groups.push(members)?;
    Ok(rest)
}
