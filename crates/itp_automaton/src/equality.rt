//! Whether predicates are equal, and triples of given ones.

ghost use Rattle.std.specs.Prelude.{◌≡◌, ◌↔◌, IsTrue};
ghost use Rattle.triple_rows.specs.Predicates.{SpellsPredicate};
ghost use Rattle.triple_rows.specs.declared.triples.Triple.TheVariants as triples;

use hoare_check::is_same_row;
use triple_rows::{PredNode, Scoped, Triple};

/// Whether the predicates are equal, with their procedures.
pub(crate) fn is_same(a: &Scoped, b: &Scoped) -> bool
    ensures same { IsTrue result ↔ (a.now ≡ b.now) }
    ensures spelled { IsTrue result → SpellsPredicate b.now.pred }
{
    a.proc == b.proc && same_nodes(a.pred.nodes(), b.pred.nodes())
}

fn same_nodes(a: &[PredNode], b: &[PredNode]) -> bool
    ensures { IsTrue result ↔ (a.now ≡ b.now) }
{
    if a.len() != b.len() {
        return false;
    }
    for (i, node) in a.iter().enumerate() {
        if !same_node(node, &b[i]) {
            return false;
        }
    }
    true
}

fn same_node(a: &PredNode, b: &PredNode) -> bool
    ensures { IsTrue result ↔ (a.now ≡ b.now) }
{
    match (a, b) {
        (PredNode::Truth(x), PredNode::Truth(y)) => *x == *y,
        (PredNode::Atom(x), PredNode::Atom(y)) => is_same_row(x, y),
        (PredNode::And(x), PredNode::And(y)) | (PredNode::Or(x), PredNode::Or(y)) => *x == *y,
        _ => false,
    }
}

/// Whether this is the inside triple.
pub(crate) fn is_inside(triple: &Triple, before: &Scoped, number: u32, after: &Scoped) -> bool
    ensures { IsTrue result → triples.Inside before.now number after.now ≡ triple.now }
{
    match triple {
        Triple::Inside { from, letter, to } => *letter == number
            && is_same(before, from)
            && is_same(after, to),
        Triple::Call { .. } | Triple::Back { .. } => false,
    }
}

/// Whether this is the call triple.
pub(crate) fn is_call(triple: &Triple, source: &Scoped, id: u32, target: &Scoped) -> bool
    ensures { IsTrue result → triples.Call source.now id target.now ≡ triple.now }
{
    match triple {
        Triple::Call { from, letter, to } => *letter == id
            && is_same(source, from)
            && is_same(target, to),
        Triple::Inside { .. } | Triple::Back { .. } => false,
    }
}

/// Whether this is the return triple.
pub(crate) fn is_back(
    triple: &Triple,
    left: &Scoped,
    caller: &Scoped,
    number: u32,
    after: &Scoped,
) -> bool
    ensures { IsTrue result → triples.Back left.now caller.now number after.now ≡ triple.now }
{
    match triple {
        Triple::Back {
            exit,
            before,
            letter,
            to,
        } => *letter == number
            && is_same(left, exit)
            && is_same(caller, before)
            && is_same(after, to),
        Triple::Inside { .. } | Triple::Call { .. } => false,
    }
}
