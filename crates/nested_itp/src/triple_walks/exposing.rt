//! The rows and groups that a claim gives.

ghost use Rattle.std.specs.Prelude.{◌≡◌, ◌++◌, ℕ, List, IfOk, OnOk, reverse};
ghost use Rattle.nested_itp.specs.NestedRefutations.Refutations as refutations;
ghost use Rattle.nested_itp.specs.NestedRefutations.Refutations.{TreeSpot, side_of};
ghost use Rattle.nested_itp.specs.TripleWalks.Spots.{sides_in};
ghost use Rattle.nested_itp.specs.TripleWalks.Claims.{asked_of, asked_in};
ghost use Rattle.nested_itp.specs.TripleWalks.Ties.Exposing.{found_of, with_found, found_at_cut, parts_at_cut, found_open, parts_open, found_at, parts_at};
ghost use Rattle.nested_itp.specs.TripleWalks.Telling.{Tells, IsExposed};

use crate::triple_walks::claims::{Asked, Claim};
use crate::triple_walks::trees::Tree;
use std::alloc::{AllocError, Global};

/// What a claim gives: the leaves whose atoms are rows, and the cuts that are groups, by their numbers.
#[derive(Drop)]
pub(crate) struct Exposed {
    pub(crate) leaves: Vec<usize>,
    pub(crate) groups: Vec<usize>,
}

/// What a claim gives at a node.
pub(crate) fn exposed_at(
    alloc: Global,
    tree: &Tree,
    claim: &Claim,
    node: usize,
) -> Result<Exposed, AllocError>
    ensures { IfOk result (λ e. (columns : List ℕ) (c : refutations.Claim) (s : TreeSpot) → node ≡ s.node → Tells columns tree.now s c claim.now → IsExposed (refutations.exposed columns c s.node s.branch s.tree) e) }
{
    let mut found = Exposed {
        leaves: Vec::new(alloc),
        groups: Vec::new(alloc),
    };
    let mut left = Vec::new(alloc);
    left.push(node)?;
    for _i in 0..u64::MAX {
        let Some(at) = left.pop() else {
            return Ok(found);
        };
        found.expose(tree, claim, at, &mut left)?;
    }
    Err(AllocError)
}

impl Exposed {
    /// Adds what a claim gives at a node; parts that are asked are left to be added, the next one last.
    fn expose(
        &mut self,
        tree: &Tree,
        claim: &Claim,
        node: usize,
        left: &mut Vec<usize>,
    ) -> Result<(), AllocError>
        ensures found { OnOk result (found_of self.new ≡ with_found (found_of self.old) (found_at tree.now claim.now node)) }
        ensures left { OnOk result (left.new.items ≡ left.old.items ++ reverse (parts_at tree.now claim.now node)) }
    {
        match claim.left(node) {
            Some(_) => Ok(()),
            None => self.expose_open(tree, claim, node, left),
        }
    }

    /// The same where something is left of the predicate.
    fn expose_open(
        &mut self,
        tree: &Tree,
        claim: &Claim,
        node: usize,
        left: &mut Vec<usize>,
    ) -> Result<(), AllocError>
        ensures found { OnOk result (found_of self.new ≡ with_found (found_of self.old) (found_open (sides_in tree.now node) (asked_in tree.now claim.now node) node)) }
        ensures left { OnOk result (left.new.items ≡ left.old.items ++ reverse (parts_open (sides_in tree.now node) (asked_in tree.now claim.now node))) }
    {
        match tree.sides(node) {
            Some(sides) => self.expose_cut(claim.asked(tree, node, sides), node, sides, left),
            None => {
                self.leaves.push(node)?;
                Ok(())
            }
        }
    }

    /// The same at a cut, whose parts begin there.
    fn expose_cut(
        &mut self,
        asked: Asked,
        node: usize,
        sides: (usize, usize),
        left: &mut Vec<usize>,
    ) -> Result<(), AllocError>
        ensures found { OnOk result (found_of self.new ≡ with_found (found_of self.old) (found_at_cut (asked_of asked) node)) }
        ensures left { OnOk result (left.new.items ≡ left.old.items ++ reverse (parts_at_cut (asked_of asked) sides)) }
    {
        match asked {
            Asked::OnePart(second) => {
                left.push(part_of(sides, second))?;
                Ok(())
            }
            Asked::BothParts => {
                left.push(sides.1)?;
                left.push(sides.0)?;
                Ok(())
            }
            Asked::SomePart => {
                self.groups.push(node)?;
                Ok(())
            }
        }
    }
}

/// The first part of a cut, or the second.
pub(crate) fn part_of(sides: (usize, usize), second: bool) -> usize
    ensures { result ≡ side_of second sides.0 sides.1 }
{
    if second { sides.1 } else { sides.0 }
}
