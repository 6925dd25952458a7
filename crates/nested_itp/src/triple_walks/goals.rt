//! The goal at hand on the walk of a triple: what each of its rows is, the groups, and the members that were taken.

ghost use Rattle.std.specs.Prelude.{◌≡◌, [], ◌∷◌, IfOk, OnOk, MatchOption, None, Some, slice_get, if◌then◌else◌};
ghost use Rattle.nested_itp.specs.NestedRefutations.Refutations.{spare, atom_at};
ghost use Rattle.nested_itp.specs.TripleWalks.Stops.{taken_of};
ghost use Rattle.nested_itp.specs.TripleWalks.Goals.{role_of, group_of, plain_goal, with_roles, with_groups, with_exposed, with_taken, without_first, mark_of, gone_back};

use crate::triple_steps::Tie;
use crate::triple_walks::exposing::Exposed;
use crate::triple_walks::stops::Taken;
use std::alloc::{AllocError, Global};

/// What the multiplier of a row is at a leaf.
#[derive(Clone, Copy)]
pub(crate) enum Role {
    /// No leaf uses the row.
    Spare,
    /// It is the atom of a claim at the leaf with this number: the greatest common divisor of its coefficients there, else 0.
    Atom { claim: usize, leaf: usize },
    /// That of this row of the branch.
    Word(usize),
    /// It ties two frames.
    Tied(Tie),
}

/// A group that is not opened: a claim's, at the cut with this number.
#[derive(Clone, Copy)]
pub(crate) struct Group {
    pub(crate) claim: usize,
    pub(crate) node: usize,
}

impl Group {
    ghost use Rattle.std.specs.Prelude.{◌≡◌};

    /// A member of it.
    pub(crate) fn member(self, second: bool) -> Taken
        ensures { result ≡ record { claim = self.claim; node = self.node; second = second } }
    {
        Taken {
            claim: self.claim,
            node: self.node,
            second,
        }
    }
}

/// How much there was of a goal.
#[derive(Clone, Copy)]
pub(crate) struct Mark {
    roles: usize,
    groups: usize,
    first: usize,
    taken: usize,
}

/// The goal at hand.
#[derive(Drop)]
pub(crate) struct Goal {
    pub(crate) roles: Vec<Role>,
    /// The groups, of which those from `first` on are not opened.
    groups: Vec<Group>,
    first: usize,
    /// The members that were taken, the last one last.
    pub(crate) taken: Vec<Taken>,
}

impl Goal {
    /// One with no row and no group.
    pub(crate) fn new(alloc: Global) -> Goal
        ensures { plain_goal result ≡ record { roles = []; groups = []; first = 0; taken = [] } }
    {
        Goal {
            roles: Vec::new(alloc),
            groups: Vec::new(alloc),
            first: 0,
            taken: Vec::new(alloc),
        }
    }

    /// Adds a row.
    pub(crate) fn add(&mut self, role: Role) -> Result<(), AllocError>
        ensures { OnOk result (plain_goal self.new ≡ with_roles (role_of role ∷ []) (plain_goal self.old)) }
    {
        self.roles.push(role)?;
        Ok(())
    }

    /// Adds what the claim with a number gives; rows of a claim that is not followed are used by no leaf.
    pub(crate) fn give(
        &mut self,
        claim: usize,
        is_used: bool,
        exposed: &Exposed,
    ) -> Result<(), AllocError>
        ensures { OnOk result (plain_goal self.new ≡ with_exposed claim is_used exposed.now.leaves.items exposed.now.groups.items (plain_goal self.old)) }
    {
        for i in 0..exposed.leaves.len() {
            let leaf = exposed.leaves[i];
            self.add(atom_role(is_used, claim, leaf))?;
        }
        for i in 0..exposed.groups.len() {
            let node = exposed.groups[i];
            self.add_group(Group { claim, node })?;
        }
        Ok(())
    }

    /// Adds a group.
    fn add_group(&mut self, group: Group) -> Result<(), AllocError>
        ensures { OnOk result (plain_goal self.new ≡ with_groups (group_of group ∷ []) (plain_goal self.old)) }
    {
        self.groups.push(group)?;
        Ok(())
    }

    /// Takes the first group away that is not opened.
    pub(crate) fn take_group(&mut self) -> Option<Group>
        ensures group { MatchOption result (slice_get (plain_goal self.old).groups (plain_goal self.old).first ≡ None) (λ g. slice_get (plain_goal self.old).groups (plain_goal self.old).first ≡ Some (group_of g)) }
        ensures rest { plain_goal self.new ≡ without_first (slice_get (plain_goal self.old).groups (plain_goal self.old).first) (plain_goal self.old) }
    {
        if self.first >= self.groups.len() {
            return None;
        }
        let group = self.groups[self.first];
        self.first += 1;
        Some(group)
    }

    /// A member of a group is taken.
    pub(crate) fn take(&mut self, member: Taken) -> Result<(), AllocError>
        ensures { OnOk result (plain_goal self.new ≡ with_taken (taken_of member) (plain_goal self.old)) }
    {
        self.taken.push(member)?;
        Ok(())
    }

    /// How much there is.
    pub(crate) fn mark(&self) -> Mark
        ensures { result ≡ mark_of (plain_goal self.now) }
    {
        Mark {
            roles: self.roles.len(),
            groups: self.groups.len(),
            first: self.first,
            taken: self.taken.len(),
        }
    }

    /// Goes back to what there was.
    pub(crate) fn go_back(&mut self, mark: Mark)
        ensures { plain_goal self.new ≡ gone_back mark (plain_goal self.old) }
    {
        self.roles.truncate(mark.roles);
        self.groups.truncate(mark.groups);
        self.first = mark.first;
        self.taken.truncate(mark.taken);
    }
}

/// What the row is of a claim's atom at a leaf.
fn atom_role(is_used: bool, claim: usize, leaf: usize) -> Role
    ensures { role_of result ≡ (if is_used then atom_at claim leaf else spare) }
{
    if is_used {
        Role::Atom { claim, leaf }
    } else {
        Role::Spare
    }
}
