//! Where a triple's refutation stops on its way along the word's tree.

ghost use Rattle.std.specs.Prelude.{◌≡◌, ◌≤◌, ℕ, ◌+◌, ◌&&◌, not, nat_eq, List, IfOk, OnErr, map, reverse};
ghost use Rattle.farkas_check.specs.Nodes.{PlainNode};
ghost use Rattle.nested_itp.specs.NestedRefutations.Refutations as refutations;
ghost use Rattle.nested_itp.specs.NestedRefutations.Refutations.{View, stops_at, taken_at};
ghost use Rattle.nested_itp.specs.TripleWalks.Spots.{node_in, is_counted_in};
ghost use Rattle.nested_itp.specs.TripleWalks.Claims.{asked_of};
ghost use Rattle.nested_itp.specs.TripleWalks.Stops.{taken_of, IsPlace, IsStop, counted_by, teller, way_asked, way_told};

use crate::triple_walks::claims::{Asked, Claim};
use crate::triple_walks::exposing::part_of;
use crate::triple_walks::trees::Tree;
use std::alloc::AllocError;

/// A node of the word's tree, and how many cuts stand above it.
#[derive(Clone, Copy)]
pub(crate) struct Spot {
    pub(crate) node: usize,
    pub(crate) depth: usize,
}

/// A member that is taken of a group, which is a claim's at a cut.
#[derive(Clone, Copy)]
pub(crate) struct Taken {
    pub(crate) claim: usize,
    pub(crate) node: usize,
    pub(crate) second: bool,
}

/// Where the refutation cannot go on alone.
#[derive(Clone, Copy)]
pub(crate) enum Stop {
    /// At a leaf with this number.
    Leaf(usize),
    /// At a cut of its own.
    Cut(Spot),
    /// At a group of which no member was taken.
    Group(Spot),
}

/// Where the refutation goes on at a cut.
#[derive(Clone, Copy)]
enum Way {
    /// At the part that begins there.
    Part(usize),
    /// Not beyond a cut of its own.
    Own,
    /// Not beyond a group of which no member was taken.
    NoMember,
}

impl Spot {
    /// A part of the cut that stands here. No memory holds as many cuts where their number does not fit.
    pub(crate) fn part(self, node: usize) -> Result<Spot, AllocError>
        ensures node { IfOk result (λ p. p.node ≡ node) }
        ensures depth { IfOk result (λ p. p.depth ≡ self.depth + 1) }
        ensures refused { OnErr result (usize.MAX ≤ self.depth) }
    {
        match self.depth.checked_add(1) {
            Some(depth) => Ok(Spot { node, depth }),
            None => Err(AllocError),
        }
    }
}

impl Taken {
    /// Whether it is of the group of a claim at a cut.
    fn is_of(self, claim: usize, node: usize) -> bool
        ensures { result ≡ (nat_eq self.claim claim && nat_eq self.node node) }
    {
        self.claim == claim && self.node == node
    }
}

/// Where the refutation of a triple of which this is said stops from a node on, where these members were taken, the last one last.
pub(crate) fn stop_from(
    tree: &Tree,
    claims: &[Claim],
    returns: bool,
    taken: &[Taken],
    from: Spot,
) -> Result<Stop, AllocError>
    ensures { IfOk result (λ p. (v : View) (nodes : List PlainNode) (rows : ℕ) (s : refutations.TreeSpot) → v.returns ≡ returns → IsPlace v.columns nodes tree.now v.claims claims.now rows s from → IsStop v.columns nodes tree.now v.claims claims.now rows (stops_at v (reverse (map taken_of taken.now)) s) p) }
{
    let mut spot = from;
    for _i in 0..u64::MAX {
        let Some(sides) = tree.sides(spot.node) else {
            return Ok(Stop::Leaf(spot.node));
        };
        match way_at(tree, claims, returns, taken, spot.node, sides) {
            Way::Part(part) => spot = spot.part(part)?,
            Way::Own => return Ok(Stop::Cut(spot)),
            Way::NoMember => return Ok(Stop::Group(spot)),
        }
    }
    Err(AllocError)
}

/// Where the refutation goes on at a cut, whose parts begin there.
fn way_at(
    tree: &Tree,
    claims: &[Claim],
    returns: bool,
    taken: &[Taken],
    node: usize,
    sides: (usize, usize),
) -> Way
    ensures { result ≡ way_told tree.now claims.now (reverse (map taken_of taken.now)) (teller returns 0 (counted_by tree.now node claims.now)) node sides }
{
    match teller(tree, claims, returns, node) {
        None => Way::Own,
        Some(number) => match claims.get(number) {
            None => Way::Own,
            Some(claim) => way_asked(
                claim.asked(tree, node, sides),
                taken_at(taken, number, node),
                sides,
            ),
        },
    }
}

/// The number of the claim that tells which part of a cut is followed, of these claims, the target last; `None` where the cut is
/// one of the triple's own.
fn teller(tree: &Tree, claims: &[Claim], returns: bool, node: usize) -> Option<usize>
    ensures { result ≡ teller returns 0 (counted_by tree.now node claims.now) }
{
    let count = claims.len();
    if count == 0 {
        return None;
    }
    let target = count - 1;
    for i in 0..target {
        if is_told(tree, &claims[i], returns, node) {
            return Some(i);
        }
    }
    if tree.is_counted(node, claims[target].position) {
        None
    } else {
        Some(target)
    }
}

/// Whether a source tells which part of a cut is followed.
fn is_told(tree: &Tree, source: &Claim, returns: bool, node: usize) -> bool
    ensures { result ≡ (not returns && is_counted_in (node_in tree.now node source.now.position)) }
{
    if returns {
        false
    } else {
        tree.is_counted(node, source.position)
    }
}

/// Where it goes on where this is asked, and this member of the group is taken, if one is.
fn way_asked(asked: Asked, member: Option<bool>, sides: (usize, usize)) -> Way
    ensures { result ≡ way_asked (asked_of asked) member sides }
{
    match asked {
        Asked::OnePart(second) => Way::Part(part_of(sides, second)),
        Asked::BothParts => Way::Part(sides.0),
        Asked::SomePart => match member {
            Some(second) => Way::Part(part_of(sides, second)),
            None => Way::NoMember,
        },
    }
}

/// The member that was taken of the group of a claim at a cut. Few groups are open at a time, since each doubles the refutation.
fn taken_at(taken: &[Taken], claim: usize, node: usize) -> Option<bool>
    ensures { result ≡ taken_at claim node (reverse (map taken_of taken.now)) }
{
    for i in 0..taken.len() {
        let at = taken[taken.len() - 1 - i];
        if at.is_of(claim, node) {
            return Some(at.second);
        }
    }
    None
}
