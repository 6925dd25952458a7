//! How large the predicates under a refutation are.

ghost use Rattle.std.specs.Prelude.{◌≤◌};
ghost use Rattle.path_rows.specs.Paths.{IsPathOf};
ghost use Rattle.path_decide.specs.Decided.{IsRowsRefutation};

use farkas_check::Refutation;
use letter_acts::Icfg;
use lin_rows::{Row, RowKind};
use nested_itp::nested_predicates::{ItpFault, prefix_predicates};
use path_rows::PathSystem;
use std::alloc::{AllocError, Global};
use std::collections::HashSet;
use triple_rows::{PredNode, Scoped};

/// How many bits a number has, without its sign.
fn bits(number: i128) -> u64 {
    u64::from(128u32.saturating_sub(number.unsigned_abs().leading_zeros()))
}

/// How many terms a row has, and bits its numbers.
fn row_size(row: &Row) -> u64 {
    let mut size = bits(row.bound());
    for (_, coefficient) in row.terms() {
        size = size.saturating_add(1).saturating_add(bits(*coefficient));
    }
    size
}

/// The sizes of the rows of a predicate.
fn predicate_size(nodes: &[PredNode]) -> u64 {
    let mut size = 0u64;
    for node in nodes {
        if let PredNode::Atom(row) = node {
            size = size.saturating_add(row_size(row));
        }
    }
    size
}

/// Adds numbers that no other row has.
fn spell_row(spelled: &mut Vec<i128>, row: &Row) -> Result<(), AllocError> {
    let kind = match row.kind() {
        RowKind::Eq => 4,
        RowKind::Le => 5,
    };
    spelled.push(kind)?;
    spelled.push(row.terms().len() as i128)?;
    spelled.push(row.bound())?;
    for (column, coefficient) in row.terms() {
        spelled.push(i128::from(*column))?;
        spelled.push(*coefficient)?;
    }
    Ok(())
}

/// Adds numbers that no other node has.
fn spell_node(spelled: &mut Vec<i128>, node: &PredNode) -> Result<(), AllocError> {
    match node {
        PredNode::Truth(value) => spelled.push(i128::from(*value))?,
        PredNode::Atom(row) => spell_row(spelled, row)?,
        PredNode::And(parts) => {
            spelled.push(2)?;
            spelled.push(i128::from(*parts))?;
        }
        PredNode::Or(parts) => {
            spelled.push(3)?;
            spelled.push(i128::from(*parts))?;
        }
    }
    Ok(())
}

/// Numbers that no other predicate has.
fn spelled(alloc: Global, predicate: &Scoped) -> Result<Vec<i128>, AllocError> {
    let mut numbers = Vec::new(alloc);
    numbers.push(i128::from(predicate.proc))?;
    for node in predicate.pred.nodes() {
        spell_node(&mut numbers, node)?;
    }
    Ok(numbers)
}

/// The sizes of predicates, each counted once.
fn total_size(alloc: Global, predicates: &[Scoped]) -> Result<u64, AllocError> {
    let mut seen = HashSet::new(alloc);
    let mut total = 0u64;
    for predicate in predicates {
        if seen.insert(spelled(alloc, predicate)?)? {
            total = total.saturating_add(predicate_size(predicate.pred.nodes()));
        }
    }
    Ok(total)
}

/// How many terms the rows of the prefix predicates under a refutation have, and bits their numbers, each predicate counted once. It is
/// more than any other where a number of them does not fit.
pub(crate) fn size_under(
    alloc: Global,
    icfg: &Icfg,
    path: &PathSystem,
    refutation: &Refutation,
    depth: u32,
) -> Result<u64, AllocError>
    requires path { IsPathOf icfg.now path.now }
    requires refutation { IsRowsRefutation depth path.now.rows refutation.now }
    requires depth { depth ≤ 64 }
{
    // Contracts alone speak of it.
    let _depth = depth;
    match prefix_predicates(alloc, icfg, path, refutation) {
        Ok(predicates) => total_size(alloc, &predicates),
        Err(ItpFault::Past) => Ok(u64::MAX),
        Err(ItpFault::Memory) => Err(AllocError),
    }
}
