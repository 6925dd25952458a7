//! The checks of the nodes by themselves: a start, and false at errors.

ghost use Rattle.std.specs.Prelude.{◌≡◌, ◌↔◌, [], map, IsTrue};
ghost use Rattle.nwa_base.specs.Members.{Member};
ghost use Rattle.proof_names.specs.Outlines.{node};
ghost use Rattle.proof_check.specs.Proves.{IsStart, HasStartIn, ErrorIsFalse};
ghost use Rattle.proof_check.specs.Ties.Firsts.{IsFirstOf};

use nwa_base::Nwa;
use proof_names::NamedNode;

/// Whether it is an entry node at place 0 without predicates.
fn is_start(number: usize, one: &NamedNode) -> bool
    ensures { IsTrue result ↔ IsStart number (node one.now) }
{
    one.entry == number && one.place == 0 && one.preds.is_empty()
}

/// Whether some entry node at place 0 has no predicate.
pub fn has_start(nodes: &[NamedNode]) -> bool
    ensures { IsTrue result ↔ HasStartIn (map node nodes.now) }
{
    for n in 0..nodes.len() {
        if is_start(n, &nodes[n]) {
            return true;
        }
    }
    false
}

/// Whether the node has false, if it is at an error place.
fn error_is_false(nwa: &Nwa, one: &NamedNode) -> bool
    ensures { IsTrue result ↔ ErrorIsFalse nwa.now (node one.now) }
{
    !nwa.is_final(one.place) || one.preds.contains(&1)
}

/// The first node at an error place that lacks false.
pub fn first_open_error(nwa: &Nwa, nodes: &[NamedNode]) -> Option<usize>
    ensures { IsFirstOf (λ n x. ErrorIsFalse nwa.now x) (map node nodes.now) result }
{
    for n in 0..nodes.len() {
        if !error_is_false(nwa, &nodes[n]) {
            return Some(n);
        }
    }
    None
}
