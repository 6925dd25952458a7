//! Which trees stand in front of a list of nodes. Recursion is as deep as `And` and `Or` may be nested.

ghost use Rattle.std.specs.Prelude.{◌≡◌, ◌↔◌, IsTrue, MatchOption};
ghost use Rattle.triple_rows.specs.Predicates.{IsAtom};
ghost use Rattle.triple_rows.specs.Reading.{IsAfterTree, AreAfterParts, HasNoTree, HasNoParts};

use crate::predicates::PredNode;
use lin_rows::{Row, RowKind};

/// The nodes behind the tree that stands in front, `None` where none stands there that is nested at most so deep.
#[cycle(trees)]
pub(crate) fn after_tree(nodes: &[PredNode], depth: u32) -> Option<&[PredNode]>
    ensures { MatchOption result (HasNoTree depth nodes.now) (λ rest. IsAfterTree depth nodes.now rest.now) }
{
    let (first, rest) = nodes.split_first()?;
    match first {
        PredNode::Truth(_) => None,
        PredNode::Atom(row) => { if is_atom(row) { Some(rest) } else { None } }
        PredNode::And(parts) => after_parts(rest, *parts, depth),
        PredNode::Or(parts) => after_parts(rest, *parts, depth),
    }
}

/// The nodes behind so many trees in front, the parts of a node that is nested at most so deep, `None` where they do not
/// stand there.
#[cycle(trees)]
fn after_parts(nodes: &[PredNode], count: u32, depth: u32) -> Option<&[PredNode]>
    ensures { MatchOption result (HasNoParts count depth nodes.now) (λ rest. AreAfterParts count depth nodes.now rest.now) }
{
    if count < 2 || depth == 0 {
        return None;
    }
    let mut left = nodes;
    for _i in 0..count {
        left = after_tree(left, depth - 1)?;
    }
    Some(left)
}

/// Whether the row is an inequality with a term.
fn is_atom(row: &Row) -> bool
    ensures { IsTrue result ↔ IsAtom row.now }
{
    row.kind() == RowKind::Le && !row.terms().is_empty()
}
