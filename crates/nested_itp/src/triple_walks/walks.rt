//! The walk along a word's tree that puts down the refutation of a triple: through its own cuts, and by cases through its groups.

ghost use Rattle.std.specs.Prelude.{◌≡◌, ◌+◌, ◌++◌, ◌∷◌, [], ℕ, List, None, Some, IfOk, OnOk, MatchOption, slice_get};
ghost use Rattle.std.specs.List.{AllByRecursion};
ghost use Rattle.farkas_check.specs.Nodes.{plain_nodes};
ghost use Rattle.nested_itp.specs.NestedRefutations.Refutations.{View, Gathered, stops_at};
ghost use Rattle.nested_itp.specs.NestedRefutations.Refutations as refutations;
ghost use Rattle.nested_itp.specs.NestedRefutations.Walked.{AreWalkedFrom};
ghost use Rattle.nested_itp.specs.NestedRefutations.Waiting.{GroupsWait};
ghost use Rattle.nested_itp.specs.TripleWalks.Goals.{plain_goal, mark_of};
ghost use Rattle.nested_itp.specs.TripleWalks.Leaves.{Ascends};
ghost use Rattle.nested_itp.specs.TripleWalks.Putting.{IsPlaced};
ghost use Rattle.nested_itp.specs.declared.triple_walks.stops.Stop.TheVariants as stopped;
ghost use Rattle.nested_itp.specs.declared.triple_walks.walks.Guide as guides;
ghost use Rattle.nested_itp.specs.TripleWalks.Ties.Walking.{parts_in, cut_in, IsLed, IsThere, StopsThere, IsAtHand, Keeps, IsBegun, TakesMember, HasCome, IsComing, ComesNext};

use crate::triple_steps::Columns;
use crate::triple_walks::claims::Claim;
use crate::triple_walks::exposing::{exposed_at, part_of};
use crate::triple_walks::goals::{Goal, Mark, Role};
use crate::triple_walks::leaves::leaf;
use crate::triple_walks::stops::{Spot, Stop, Taken, stop_from};
use crate::triple_walks::trees::Tree;
use farkas_check::Node;
use lin_rows::Col;
use std::alloc::{AllocError, Global};

/// What a walk is led by: the word's refutation, what the system says of the predicates, the target last, whether only the target
/// is followed, where the word's columns stand, and how many rows the word has.
#[derive(Clone, Copy)]
pub(crate) struct Guide<'a> {
    pub(crate) nodes: &'a [Node],
    pub(crate) tree: &'a Tree,
    pub(crate) claims: &'a [Claim],
    pub(crate) returns: bool,
    pub(crate) columns: &'a Columns,
    pub(crate) rows: usize,
}

/// What a part that waits begins with.
#[derive(Clone, Copy)]
enum Begin {
    /// Nothing.
    Root,
    /// The row of a side of an own cut, which has this number on the branch.
    Side(usize),
    /// A member of a group.
    Member(Taken),
}

/// A part that waits: where it goes on, and how much of the goal was there when it was left.
#[derive(Clone, Copy)]
struct Waiting {
    spot: Spot,
    begin: Begin,
    mark: Mark,
}

/// The walk of one triple.
#[derive(Drop)]
struct Walk {
    goal: Goal,
    /// The parts that wait, the next one last.
    waiting: Vec<Waiting>,
    nodes: Vec<Node>,
}

/// The nodes that are put down from a goal on, which is that of a refutation at the root of the word's tree.
pub(crate) fn run(alloc: Global, guide: &Guide, goal: Goal) -> Result<Vec<Node>, AllocError>
    requires placed { AllByRecursion (IsPlaced guide.now.columns.now) (plain_nodes guide.now.nodes.now) }
    requires ascend { AllByRecursion Ascends (plain_nodes guide.now.nodes.now) }
    ensures { IfOk result (λ f. (v : View) (h : Gathered) (s : refutations.TreeSpot) → IsLed v guide.now → IsAtHand v guide.now h (plain_goal goal) → IsThere v guide.now s (record { node = 0; depth = 0 }) → GroupsWait v h (stops_at v h.taken s) → AreWalkedFrom v h (stops_at v h.taken s) (plain_nodes f.items)) }
{
    let mut walk = Walk {
        goal,
        waiting: Vec::new(alloc),
        nodes: Vec::new(alloc),
    };
    walk.wait(Spot { node: 0, depth: 0 }, Begin::Root)?;
    for _i in 0..u64::MAX {
        let Some(next) = walk.waiting.pop() else {
            return Ok(walk.nodes);
        };
        walk.go_on(alloc, guide, next)?;
    }
    Err(AllocError)
}

/// Goes on with a part: its row, or its member.
fn begin_with(alloc: Global, guide: &Guide, goal: &mut Goal, begin: Begin) -> Result<(), AllocError>
    ensures keeps { OnOk result (Keeps (plain_goal goal.old) (plain_goal goal.new)) }
    ensures goal { OnOk result ((v : View) (g h : Gathered) → IsLed v guide.now → IsAtHand v guide.now g (plain_goal goal.old) → IsBegun v guide.now begin g h → IsAtHand v guide.now h (plain_goal goal.new)) }
{
    match begin {
        Begin::Root => Ok(()),
        Begin::Side(row) => goal.add(Role::Word(row)),
        Begin::Member(member) => choose(alloc, guide, goal, member),
    }
}

/// Takes a member of a group.
fn choose(alloc: Global, guide: &Guide, goal: &mut Goal, member: Taken) -> Result<(), AllocError>
    ensures keeps { OnOk result (Keeps (plain_goal goal.old) (plain_goal goal.new)) }
    ensures goal { OnOk result ((v : View) (g h : Gathered) → IsLed v guide.now → IsAtHand v guide.now g (plain_goal goal.old) → TakesMember v guide.now member g h → IsAtHand v guide.now h (plain_goal goal.new)) }
{
    goal.take(member)?;
    let Some(claim) = claim_at(guide.claims, member.claim) else {
        return Ok(());
    };
    let Some(sides) = guide.tree.sides(member.node) else {
        return Ok(());
    };
    let given = exposed_at(alloc, guide.tree, claim, part_of(sides, member.second))?;
    goal.give(member.claim, guide.is_used(member.claim), &given)
}

/// The claim with a number, if there is one.
pub(crate) fn claim_at(claims: &[Claim], number: usize) -> Option<&Claim>
    ensures { MatchOption result (slice_get claims.now number ≡ None) (λ c. slice_get claims.now number ≡ Some c.now) }
{
    claims.get(number)
}

/// The parts of the leaf with a number, if one has it.
fn parts_at(nodes: &[Node], node: usize) -> Option<&[(u32, i128)]>
    ensures { MatchOption result (parts_in (slice_get (plain_nodes nodes.now) node) ≡ None) (λ p. parts_in (slice_get (plain_nodes nodes.now) node) ≡ Some p.now) }
{
    match nodes.get(node) {
        Some(Node::Leaf(parts)) => Some(parts),
        _ => None,
    }
}

/// The column and the number of the cut with a number, if one has it.
fn cut_at(nodes: &[Node], node: usize) -> Option<(Col, i128)>
    ensures { result ≡ cut_in (slice_get (plain_nodes nodes.now) node) }
{
    match nodes.get(node) {
        Some(Node::Cut { col, k }) => Some((*col, *k)),
        _ => None,
    }
}

impl Guide<'_> {
    ghost use Rattle.std.specs.Prelude.{◌≡◌, ◌+◌, ◌&&◌, not, nat_eq, IfOk};

    /// Whether the claim with a number is followed.
    pub(crate) fn is_used(&self, claim: usize) -> bool
        ensures { result ≡ not (self.now.returns && nat_eq claim 0) }
    {
        !(self.returns && claim == 0)
    }

    /// The number on the branch of the row of a cut with so many cuts above it. No memory holds as many where it does not fit.
    fn row(&self, depth: usize) -> Result<usize, AllocError>
        ensures { IfOk result (λ r. r ≡ self.now.rows + depth) }
    {
        match self.rows.checked_add(depth) {
            Some(row) => Ok(row),
            None => Err(AllocError),
        }
    }
}

impl Walk {
    /// Goes on with a part that waited.
    fn go_on(&mut self, alloc: Global, guide: &Guide, next: Waiting) -> Result<(), AllocError>
        requires placed { AllByRecursion (IsPlaced guide.now.columns.now) (plain_nodes guide.now.nodes.now) }
        requires ascend { AllByRecursion Ascends (plain_nodes guide.now.nodes.now) }
        ensures { OnOk result ((v : View) (first : Gathered) (from : refutations.Stop) → IsLed v guide.now → ComesNext v guide.now first from next self.old → HasCome v guide.now first from self.new) }
    {
        self.goal.go_back(next.mark);
        begin_with(alloc, guide, &mut self.goal, next.begin)?;
        self.put_down(alloc, guide, next.spot)
    }

    /// Puts down the next node from a spot on; its parts wait.
    fn put_down(&mut self, alloc: Global, guide: &Guide, spot: Spot) -> Result<(), AllocError>
        requires placed { AllByRecursion (IsPlaced guide.now.columns.now) (plain_nodes guide.now.nodes.now) }
        requires ascend { AllByRecursion Ascends (plain_nodes guide.now.nodes.now) }
        ensures { OnOk result ((v : View) (first h : Gathered) (from : refutations.Stop) (s : refutations.TreeSpot) → IsLed v guide.now → IsThere v guide.now s spot → IsComing v guide.now first from h (stops_at v h.taken s) self.old → HasCome v guide.now first from self.new) }
    {
        match stop_from(
            guide.tree,
            guide.claims,
            guide.returns,
            self.goal.taken.as_slice(),
            spot,
        )? {
            Stop::Leaf(node) => self.put_leaf(alloc, guide, node),
            Stop::Cut(place) => self.put_cut(guide, place),
            Stop::Group(place) => self.open_group(place),
        }
    }

    /// Puts down a leaf.
    fn put_leaf(&mut self, alloc: Global, guide: &Guide, node: usize) -> Result<(), AllocError>
        requires ascend { AllByRecursion Ascends (plain_nodes guide.now.nodes.now) }
        ensures { OnOk result ((v : View) (first h : Gathered) (from stop : refutations.Stop) → IsLed v guide.now → StopsThere v guide.now stop (stopped.Leaf node) → IsComing v guide.now first from h stop self.old → HasCome v guide.now first from self.new) }
    {
        let Some(parts) = parts_at(guide.nodes, node) else {
            return Ok(());
        };
        let found = leaf(
            alloc,
            guide.tree,
            guide.claims,
            self.goal.roles.as_slice(),
            node,
            parts,
        )?;
        self.nodes.push(Node::Leaf(found))?;
        Ok(())
    }

    /// Puts down an own cut.
    fn put_cut(&mut self, guide: &Guide, place: Spot) -> Result<(), AllocError>
        requires placed { AllByRecursion (IsPlaced guide.now.columns.now) (plain_nodes guide.now.nodes.now) }
        ensures { OnOk result ((v : View) (first h : Gathered) (from stop : refutations.Stop) → IsLed v guide.now → StopsThere v guide.now stop (stopped.Cut place) → IsComing v guide.now first from h stop self.old → HasCome v guide.now first from self.new) }
    {
        let Some((col, k)) = cut_at(guide.nodes, place.node) else {
            return Ok(());
        };
        let Some(sides) = guide.tree.sides(place.node) else {
            return Ok(());
        };
        let col = guide.columns.place(col);
        self.nodes.push(Node::Cut { col, k })?;
        let row = guide.row(place.depth)?;
        self.wait(place.part(sides.1)?, Begin::Side(row))?;
        self.wait(place.part(sides.0)?, Begin::Side(row))?;
        Ok(())
    }

    /// Opens the first group.
    fn open_group(&mut self, place: Spot) -> Result<(), AllocError>
        ensures { OnOk result ((v : View) (x : guides.Guide) (first h : Gathered) (from stop : refutations.Stop) → IsLed v x → StopsThere v x stop (stopped.Group place) → IsComing v x first from h stop self.old → HasCome v x first from self.new) }
    {
        let Some(group) = self.goal.take_group() else {
            return Ok(());
        };
        self.nodes.push(Node::Cases(2))?;
        self.wait(place, Begin::Member(group.member(true)))?;
        self.wait(place, Begin::Member(group.member(false)))?;
        Ok(())
    }

    /// A part that waits, from here on.
    fn wait(&mut self, spot: Spot, begin: Begin) -> Result<(), AllocError>
        ensures goal { OnOk result (self.new.goal ≡ self.old.goal) }
        ensures nodes { OnOk result (self.new.nodes ≡ self.old.nodes) }
        ensures waiting { OnOk result (self.new.waiting.items ≡ self.old.waiting.items ++ record { spot = spot; begin = begin; mark = mark_of (plain_goal self.old.goal) } ∷ []) }
    {
        let mark = self.goal.mark();
        self.waiting.push(Waiting { spot, begin, mark })?;
        Ok(())
    }
}
