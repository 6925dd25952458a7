//! What a triple's system says of its predicates: that the sources hold and the target does not.

ghost use Rattle.std.specs.Prelude.{◌≡◌, ℕ, List, None, Some, IfOk, drop, reverse, slice_get};
ghost use Rattle.farkas_check.specs.Trees as trees;
ghost use Rattle.farkas_check.specs.Nodes.{PlainNode};
ghost use Rattle.nested_itp.specs.NestedPredicates.Positions.{Position};
ghost use Rattle.nested_itp.specs.NestedPredicates.Sums.{Branch};
ghost use Rattle.nested_itp.specs.NestedRefutations.Refutations as refutations;
ghost use Rattle.nested_itp.specs.TripleWalks.Spots.{IsTree, node_in};
ghost use Rattle.nested_itp.specs.TripleWalks.Claims.{IsClaim, lefts_of, decided, first_left, left_here, behind_here, left_in, behind_in, left_of, is_refuted, asked_of, asked_in};

use crate::triple_walks::trees::Tree;
use std::alloc::{AllocError, Global};
use triple_rows::PredNode;

/// A predicate of a triple, that holds or that does not.
#[derive(Drop)]
pub(crate) struct Claim {
    /// Its position.
    pub(crate) position: usize,
    /// It is the target.
    denied: bool,
    /// By node what is left of the predicate where truth values are simplified away, if it is one itself.
    left: Vec<Option<bool>>,
}

/// What a claim asks at a cut.
#[derive(Clone, Copy)]
pub(crate) enum Asked {
    /// This part alone, the second or the first.
    OnePart(bool),
    /// Both parts.
    BothParts,
    /// One of them, which is a group.
    SomePart,
}

impl Claim {
    /// The claim of a position.
    pub(crate) fn of(
        alloc: Global,
        tree: &Tree,
        position: usize,
        denied: bool,
    ) -> Result<Claim, AllocError>
        ensures { IfOk result (λ x. (columns : List ℕ) (qs : List Position) (b : Branch) (t : trees.Tree) (nodes : List PlainNode) (c : refutations.Claim) → IsTree columns qs b t nodes tree.now → slice_get qs position ≡ Some c.position → denied ≡ c.is_denied → IsClaim columns qs b t c x) }
    {
        let left = lefts(alloc, tree, position)?;
        Ok(Claim {
            position,
            denied,
            left,
        })
    }

    /// What is left of the predicate at a node, if it is a truth value.
    pub(crate) fn left(&self, node: usize) -> Option<bool>
        ensures { result ≡ left_of self.now node }
    {
        match self.left.get(node) {
            Some(left) => *left,
            None => None,
        }
    }

    /// Whether the claim is false at the root: a source is, or the target is true.
    pub(crate) fn is_false(&self) -> bool
        ensures { result ≡ is_refuted self.now.denied (left_of self.now 0) }
    {
        match self.left(0) {
            Some(value) => is_same(value, self.denied),
            None => false,
        }
    }

    /// What the claim asks at a cut, whose parts begin there.
    pub(crate) fn asked(&self, tree: &Tree, node: usize, sides: (usize, usize)) -> Asked
        ensures { asked_of result ≡ asked_in tree.now self.now node sides }
    {
        let first = self.left(sides.0);
        let second = self.left(sides.1);
        let counted = tree.is_counted(node, self.position);
        if is_same(counted, self.denied) {
            each_asked(first, second)
        } else {
            some_asked(!self.denied, first, second)
        }
    }
}

ghost use Rattle.nested_itp.specs.NestedPredicates.Simplifying.{is_same};
ghost use Rattle.nested_itp.specs.NestedRefutations.Refutations.{each_asked, some_asked};

/// Where both parts are asked, and truth values are simplified away.
fn each_asked(first: Option<bool>, second: Option<bool>) -> Asked
    ensures { asked_of result ≡ each_asked first second }
{
    match first {
        Some(_) => Asked::OnePart(true),
        None => match second {
            Some(_) => Asked::OnePart(false),
            None => Asked::BothParts,
        },
    }
}

/// Where one of them is, which may be this truth value.
fn some_asked(wanted: bool, first: Option<bool>, second: Option<bool>) -> Asked
    ensures { asked_of result ≡ some_asked wanted first second }
{
    match first {
        Some(value) => Asked::OnePart(!is_same(value, wanted)),
        None => match second {
            Some(value) => Asked::OnePart(is_same(value, wanted)),
            None => Asked::SomePart,
        },
    }
}

/// Whether both truth values are the same.
fn is_same(first: bool, second: bool) -> bool
    ensures { result ≡ is_same first second }
{
    if first { second } else { !second }
}

/// What is left of the predicate of a position at each node of the word's tree.
fn lefts(alloc: Global, tree: &Tree, position: usize) -> Result<Vec<Option<bool>>, AllocError>
    ensures { IfOk result (λ v. (columns : List ℕ) (qs : List Position) (b : Branch) (t : trees.Tree) (nodes : List PlainNode) (c : refutations.Claim) → IsTree columns qs b t nodes tree.now → slice_get qs position ≡ Some c.position → v.items ≡ lefts_of columns c b t) }
{
    let count = tree.len();
    let mut lefts = Vec::with_capacity(alloc, count)?;
    let mut roots = Vec::new(alloc);
    for i in 0..count {
        let left = left_at(tree, count - 1 - i, position, &mut roots);
        lefts.push(left)?;
        roots.push(left)?;
    }
    Ok(turned(lefts))
}

/// What is left of a node at a position, whose parts are taken from the trees behind it.
fn left_at(tree: &Tree, node: usize, position: usize, roots: &mut Vec<Option<bool>>) -> Option<bool>
    ensures value { result ≡ left_in (node_in tree.now node position) (reverse roots.old.items) }
    ensures roots { reverse roots.new.items ≡ behind_in (node_in tree.now node position) (reverse roots.old.items) }
{
    match tree.at(node, position) {
        Some(found) => left_here(found, roots),
        None => None,
    }
}

/// What is left of a node, whose parts are taken from the trees behind it.
fn left_here(node: &PredNode, roots: &mut Vec<Option<bool>>) -> Option<bool>
    ensures value { result ≡ left_here node.now (reverse roots.old.items) }
    ensures roots { reverse roots.new.items ≡ behind_here node.now (reverse roots.old.items) }
{
    match node {
        PredNode::Truth(value) => Some(*value),
        PredNode::Atom(_) => None,
        PredNode::And(_) => joined(false, roots),
        PredNode::Or(_) => joined(true, roots),
    }
}

/// What is left of the next two trees at a cut, which is counted or not.
fn joined(counted: bool, roots: &mut Vec<Option<bool>>) -> Option<bool>
    ensures value { result ≡ decided counted (first_left (reverse roots.old.items)) (first_left (drop 1 (reverse roots.old.items))) }
    ensures roots { reverse roots.new.items ≡ drop 2 (reverse roots.old.items) }
{
    let first = next_left(roots);
    let second = next_left(roots);
    decided(counted, first, second)
}

/// What is left of two parts at a cut, which is counted or not.
fn decided(counted: bool, first: Option<bool>, second: Option<bool>) -> Option<bool>
    ensures { result ≡ decided counted first second }
{
    match first {
        Some(value) => {
            if is_same(value, counted) {
                Some(counted)
            } else {
                second
            }
        }
        None => decided_second(counted, second),
    }
}

/// That where the first part is no truth value.
fn decided_second(counted: bool, second: Option<bool>) -> Option<bool>
    ensures { result ≡ decided counted None second }
{
    match second {
        Some(value) => {
            if is_same(value, counted) {
                Some(counted)
            } else {
                None
            }
        }
        None => None,
    }
}

/// Takes what is left of the next tree away, which stands last.
fn next_left(roots: &mut Vec<Option<bool>>) -> Option<bool>
    ensures value { result ≡ first_left (reverse roots.old.items) }
    ensures roots { reverse roots.new.items ≡ drop 1 (reverse roots.old.items) }
{
    match roots.pop() {
        Some(left) => left,
        None => None,
    }
}

/// The last one first.
fn turned(lefts: Vec<Option<bool>>) -> Vec<Option<bool>>
    ensures { result.items ≡ reverse lefts.items }
{
    let mut turned = lefts;
    turned.as_mut_slice().reverse();
    turned
}
