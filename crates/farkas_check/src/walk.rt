//! The walk along a prefix list: the goal at hand, and the goals that wait.

ghost use Rattle.std.specs.Prelude.{◌≡◌, ◌≤◌, ◌∷◌, [], ◌++◌, ◌↔◌, IfOk, OnOk, OnErr, IsSome, IfSome, MatchBool, MatchOption, length, map};
ghost use Rattle.math_facts.specs.Fits.{Fits};
ghost use Rattle.lin_rows.specs.Negating.{below_opposite};
ghost use Rattle.lin_rows.specs.Tightening.{tightened};
ghost use Rattle.lin_rows.specs.Systems.{rows_of, groups_of, members_of};
ghost use Rattle.farkas_check.specs.Nodes.{plain};
ghost use Rattle.farkas_check.specs.Refutes.{at_most, above, goal_of};

use crate::leaves::contradicts;
use crate::refutations::Node;
use lin_rows::{Col, Row, RowFault, RowKind, System, negate, row, tighten};
use std::alloc::{AllocError, Global};
use std::marker::Model;
use std::slice;

/// A cut `column <= k`, for which `k` and `-k-1` fit.
#[derive(Drop)]
pub(crate) struct Cut {
    column: Col,
    k: i128,
}

impl Model for Cut {
    ghost use Rattle.std.specs.Prelude.{ℕ, ℤ};
    ghost use Rattle.math_facts.specs.Fits.{Fits};
    ghost use Rattle.lin_rows.specs.Negating.{below_opposite};

    ghost Value = { ℕ × ℤ };

    ghost view = { λ a. (a.column, a.k) };

    ghost invariant = { λ a. Fits a.k × Fits (below_opposite a.k) };
}

impl Cut {
    /// The cut, where its numbers fit.
    fn new(column: Col, k: i128) -> Option<Self>
        ensures fits { IsSome result ↔ (Fits k × Fits (below_opposite k)) }
        ensures value { IfSome result (λ c. c ≡ (column, k)) }
    {
        if k == i128::MIN || k == i128::MAX {
            None
        } else {
            Some(Cut { column, k })
        }
    }

    /// The row `column <= k`.
    fn at_most(&self, alloc: Global) -> Result<Row, AllocError>
        ensures value { IfOk result (λ r. r ≡ at_most self.now.0 self.now.1) }
        ensures fits { Fits (below_opposite self.now.1) }
    {
        match row(alloc, &[(self.column, 1)], RowKind::Le, self.k) {
            Ok(row) => Ok(row),
            Err(RowFault::Memory) => Err(AllocError),
            Err(RowFault::Past) => unreachable!(),
        }
    }

    /// The row `-column <= -k-1`.
    fn above(&self, alloc: Global) -> Result<Row, AllocError>
        ensures { IfOk result (λ r. r ≡ above self.now.0 self.now.1) }
    {
        match negate(alloc, &self.at_most(alloc)?) {
            Ok(row) => Ok(row),
            Err(RowFault::Memory) => Err(AllocError),
            Err(RowFault::Past) => unreachable!(),
        }
    }
}

/// What is left of a node.
#[derive(Drop)]
pub(crate) enum Rest<'a> {
    /// Both sides of a cut.
    BothSides(Cut),
    /// The side of a cut on which the column is above k.
    Above(Cut),
    /// Members of a group.
    Members(&'a [System]),
}

/// A node that waits: what is left of it, and how much of the rows and groups that are held belongs to its goal.
#[derive(Drop)]
pub(crate) struct Frame<'a> {
    rest: Rest<'a>,
    rows_len: usize,
    groups_len: usize,
    first: usize,
}

/// The goals of a system, one by one: what a tree of cuts and cases has to refute. One goal is at hand, others wait. A goal
/// that is taken up may be opened, by its first group or by a cut, and then goals that it comes down to wait in its place.
// The nodes that wait stand in `frames`, the newest last. The groups from `first` on are still to be taken. What a waiting
// node adds stands behind what it began with, so going back only cuts off.
#[derive(Drop)]
pub struct Walk<'a> {
    alloc: Global,
    rows: Vec<Row>,
    groups: Vec<&'a [System]>,
    first: usize,
    frames: Vec<Frame<'a>>,
}

impl<'a> Walk<'a> {
    ghost use Rattle.farkas_check.specs.Walks.{goals_of, goal_of_lengths, waiting_of_lengths, frame_at, HoldsSame, HasSameGoals, HoldsNothing, goal_at_hand, goals_left, goals_with, OpensGroup, HasNoGroup, LeavesGoals, LeavesNone};
    ghost use Rattle.farkas_check.specs.Nodes.{cut, cases};
    ghost use Rattle.farkas_check.specs.Refutes.{with_row, goal_with_member};

    /// A walk for which one goal waits, that of the system.
    pub fn new(alloc: Global, system: &'a System) -> Result<Self, AllocError>
        ensures { IfOk result (λ w. goals_left w ≡ goal_of system.now ∷ []) }
    {
        let mut walk = Walk {
            alloc,
            rows: Vec::new(alloc),
            groups: Vec::new(alloc),
            first: 0,
            frames: Vec::new(alloc),
        };
        walk.wait(Rest::Members(slice::from_ref(system)))?;
        Ok(walk)
    }

    /// Keeps what is left of the node whose goal is at hand.
    fn wait(&mut self, rest: Rest<'a>) -> Result<(), AllocError>
        ensures waits { OnOk result
            (goals_left self.new ≡ goals_of rest.entry (goal_at_hand self.old) ++ goals_left self.old) }
        ensures frames { OnOk result
            (self.new.frames.items ≡ self.old.frames.items ++ frame_at self.old rest.entry ∷ []) }
        ensures same_goal { HoldsSame self.old self.new }
        ensures kept { OnErr result (self.new.frames.items ≡ self.old.frames.items) }
    {
        self.frames.push(Frame {
            rest,
            rows_len: self.rows.len(),
            groups_len: self.groups.len(),
            first: self.first,
        })?;
        Ok(())
    }

    /// Meets the next goal with a node. False where no goal waits, or the node refutes nothing.
    pub(crate) fn step(&mut self, node: &Node) -> Result<bool, AllocError>
        ensures { IfOk result (λ yes. MatchBool yes
            (LeavesGoals (plain node.now) (goals_left self.old) (goals_left self.new))
            (LeavesNone (plain node.now) (goals_left self.old))) }
    {
        if self.take_goal()? {
            self.meet(node)
        } else {
            Ok(false)
        }
    }

    /// Takes up the next goal. False where none waits. After want of memory no goal is at hand, and none waits.
    pub fn take_goal(&mut self) -> Result<bool, AllocError>
        ensures takes { IfOk result (λ more. MatchBool more
            (goals_left self.old ≡ goal_at_hand self.new ∷ goals_left self.new)
            (goals_left self.old ≡ [])) }
        ensures lost { OnErr result (HoldsNothing self.new) }
    {
        match self.next_goal() {
            Ok(more) => Ok(more),
            Err(error) => {
                self.forget();
                Err(error)
            }
        }
    }

    /// Lets go all that is held.
    fn forget(&mut self)
        ensures { HoldsNothing self.new }
    {
        self.rows.clear();
        self.groups.clear();
        self.first = 0;
        self.frames.clear();
    }

    /// Goes back to the next goal that waits. False where none waits.
    fn next_goal(&mut self) -> Result<bool, AllocError>
        ensures { IfOk result (λ more. MatchBool more
            (goals_left self.old ≡ goal_at_hand self.new ∷ goals_left self.new)
            (goals_left self.old ≡ [])) }
    {
        while let Some(frame) = self.frames.pop() {
            if self.resume(frame)? {
                return Ok(true);
            }
        }
        Ok(false)
    }

    /// The rows of the goal at hand, tightened.
    pub fn rows(&self) -> &[Row]
        ensures { result.now ≡ (goal_at_hand self.now).rows }
    {
        self.rows.as_slice()
    }

    /// Takes the first group of the goal at hand away: a goal for each of its members waits, in order, before those that
    /// waited. Says how many members there are. `None` where no group is left, and then nothing changes, as after want of
    /// memory.
    pub fn open_group(&mut self) -> Result<Option<usize>, AllocError>
        ensures opens { IfOk result (λ o. MatchOption o
            (HasNoGroup (goal_at_hand self.old) (goals_left self.old) (goal_at_hand self.new) (goals_left self.new))
            (λ n. OpensGroup (goal_at_hand self.old) (goals_left self.old) n (goals_left self.new))) }
        ensures kept { OnErr result (HasSameGoals self.old self.new) }
    {
        if self.first >= self.groups.len() {
            return Ok(None);
        }
        let members = self.groups[self.first];
        self.first += 1;
        match self.wait(Rest::Members(members)) {
            Ok(()) => Ok(Some(members.len())),
            Err(error) => {
                self.first -= 1;
                Err(error)
            }
        }
    }

    /// Cuts the goal at hand: a goal with `column <= k` waits, then one with `-column <= -k-1`, before those that waited.
    /// After want of memory nothing changes.
    pub fn open_cut(&mut self, column: Col, k: i128) -> Result<(), AllocError>
        requires fits { Fits k }
        requires opposite_fits { Fits (below_opposite k) }
        ensures cuts { OnOk result
            (goals_left self.new ≡ with_row (goal_at_hand self.old) (at_most column k)
            ∷ with_row (goal_at_hand self.old) (above column k) ∷ goals_left self.old) }
        ensures kept { OnErr result (HasSameGoals self.old self.new) }
    {
        let Some(sides) = Cut::new(column, k) else {
            unreachable!();
        };
        self.wait(Rest::BothSides(sides))
    }

    /// Goes back to the goal of a frame, and takes up what is left of its node. False where nothing is left.
    fn resume(&mut self, frame: Frame<'a>) -> Result<bool, AllocError>
        ensures { IfOk result (λ more. MatchBool more
            (goals_with self.old frame.entry ≡ goal_at_hand self.new ∷ goals_left self.new)
            ((goals_with self.old frame.entry ≡ goals_left self.new)
            × (self.new.frames.items ≡ self.old.frames.items))) }
    {
        self.go_back(frame.rows_len, frame.groups_len, frame.first);
        match frame.rest {
            Rest::BothSides(cut) => {
                let row = cut.at_most(self.alloc)?;
                self.take_row(Rest::Above(cut), row)?;
            }
            Rest::Above(cut) => {
                let row = cut.above(self.alloc)?;
                // no member: nothing is left of a cut after its second side
                self.take_row(Rest::Members(&[]), row)?;
            }
            Rest::Members([]) => return Ok(false),
            Rest::Members([member, others @ ..]) => {
                self.take_member(Rest::Members(others), member)?;
            }
        }
        Ok(true)
    }

    /// Cuts off what was held after a frame was kept.
    fn go_back(&mut self, rows_len: usize, groups_len: usize, first: usize)
        ensures goal { goal_at_hand self.new ≡ goal_of_lengths self.old rows_len groups_len first }
        ensures left { goals_left self.new ≡ waiting_of_lengths self.old rows_len groups_len }
        ensures frames { self.new.frames.items ≡ self.old.frames.items }
        ensures within { self.new.first ≤ length self.new.groups.items }
    {
        self.rows.truncate(rows_len);
        self.groups.truncate(groups_len);
        // a frame's `first` is within its groups, so it is the lesser of the two
        self.first = first.min(self.groups.len());
    }

    /// Keeps what is left, and adds a row to the goal at hand.
    fn take_row(&mut self, rest: Rest<'a>, row: Row) -> Result<(), AllocError>
        ensures goal { OnOk result (goal_at_hand self.new ≡ with_row (goal_at_hand self.old) row) }
        ensures left { OnOk result
            (goals_left self.new ≡ goals_of rest.entry (goal_at_hand self.old) ++ goals_left self.old) }
    {
        self.wait(rest)?;
        self.rows.push(row)?;
        Ok(())
    }

    /// Keeps what is left, and adds a member to the goal at hand.
    fn take_member(&mut self, rest: Rest<'a>, member: &'a System) -> Result<(), AllocError>
        requires { self.old.first ≤ length self.old.groups.items }
        ensures goal { OnOk result (goal_at_hand self.new ≡ goal_with_member (goal_at_hand self.old) member.now) }
        ensures left { OnOk result
            (goals_left self.new ≡ goals_of rest.entry (goal_at_hand self.old) ++ goals_left self.old) }
    {
        self.wait(rest)?;
        self.rows.reserve(member.rows.len())?;
        push_tightened(self.alloc, &mut self.rows, &member.rows)?;
        push_groups(&mut self.groups, &member.groups)?;
        Ok(())
    }

    /// Meets the goal at hand with a node. False where the node refutes nothing.
    fn meet(&mut self, node: &Node) -> Result<bool, AllocError>
        ensures { IfOk result (λ yes. MatchBool yes
            (LeavesGoals (plain node.now) (goal_at_hand self.old ∷ goals_left self.old) (goals_left self.new))
            (LeavesNone (plain node.now) (goal_at_hand self.old ∷ goals_left self.old))) }
    {
        match node {
            Node::Leaf(parts) => contradicts(self.alloc, &self.rows, parts),
            Node::Cut { col, k } => self.cut(*col, *k),
            Node::Cases(members) => self.cases(*members),
        }
    }

    /// Meets the goal at hand with a cut. False where k or -k-1 does not fit.
    fn cut(&mut self, column: Col, k: i128) -> Result<bool, AllocError>
        ensures { IfOk result (λ yes. MatchBool yes
            (LeavesGoals (cut column k) (goal_at_hand self.old ∷ goals_left self.old) (goals_left self.new))
            (LeavesNone (cut column k) (goal_at_hand self.old ∷ goals_left self.old))) }
    {
        let Some(cut) = Cut::new(column, k) else {
            return Ok(false);
        };
        self.wait(Rest::BothSides(cut))?;
        Ok(true)
    }

    /// Meets the goal at hand with cases. False where no group is left, or the first has another number of members.
    fn cases(&mut self, members: u32) -> Result<bool, AllocError>
        ensures { IfOk result (λ yes. MatchBool yes
            (LeavesGoals (cases members) (goal_at_hand self.old ∷ goals_left self.old) (goals_left self.new))
            (LeavesNone (cases members) (goal_at_hand self.old ∷ goals_left self.old))) }
    {
        if self.first >= self.groups.len() {
            return Ok(false);
        }
        let group = self.groups[self.first];
        if group.len() != members as usize {
            return Ok(false);
        }
        self.first += 1;
        self.wait(Rest::Members(group))?;
        Ok(true)
    }
}

/// Adds the tightened rows at the end.
fn push_tightened(alloc: Global, rows: &mut Vec<Row>, more: &Vec<Row>) -> Result<(), AllocError>
    ensures { OnOk result (rows.new.items ≡ rows.old.items ++ map tightened more.now.items) }
{
    for row in more {
        rows.push(tighten(alloc, row)?)?;
    }
    Ok(())
}

/// Adds the groups at the end.
fn push_groups<'a>(
    groups: &mut Vec<&'a [System]>,
    more: &'a Vec<Vec<System>>,
) -> Result<(), AllocError>
    ensures { OnOk result
        (map (λ g. g.now) groups.new.items ≡ map (λ g. g.now) groups.old.items ++ members_of more.now.items) }
{
    for group in more {
        groups.push(group.as_slice())?;
    }
    Ok(())
}
