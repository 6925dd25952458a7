//! The search through cuts and cases: what is at hand, and what waits.

ghost use Rattle.std.specs.Prelude.{◌≡◌, ◌<◌, ◌^◌, ◌++◌, ◌∷◌, [], IfOk, OnOk, suc, false, MatchBool, MatchOption, length, map, replicate};
ghost use Rattle.lin_rows.specs.Negating.{below_opposite};
ghost use Rattle.lin_rows.specs.Rows.{RowsBelow};
ghost use Rattle.lin_rows.specs.Tightening.{tightened};
ghost use Rattle.math_facts.specs.Fits.{Fits};
ghost use Rattle.farkas_check.specs.Refutes.{goal_of};
ghost use Rattle.farkas_check.specs.Walks.{goal_at_hand};
ghost use Rattle.fm_elim.specs.Answers.{Exactly};
ghost use Rattle.int_decide.specs.Ties.Searching.{Task, Standing, goal_extent, StepFits, IsWholePoint, IsMet};

use crate::picking::picked_outcome;
use crate::values::{first_broken, numerators};
use farkas_check::{Node, Walk};
use fm_elim::{Elim, ElimFault, eliminate};
use frac::Frac;
use lin_rows::{Col, System};
use std::alloc::{AllocError, Global};

/// What a step comes to.
#[derive(Drop)]
pub(crate) enum Step {
    /// The goal is decided, or comes down to others.
    Gone,
    /// A whole point is found.
    Met(Vec<i128>),
    /// Nothing is found out.
    Lost,
}

/// The goals that are still to be decided, with the cuts that are left for each, and what was found of those before them.
#[derive(Drop)]
pub(crate) struct Search<'a> {
    walk: Walk<'a>,
    lefts: Vec<u32>,
    /// The nodes so far, each before the trees below it.
    pub(crate) nodes: Vec<Node>,
    /// Whether a goal was neither refuted nor met.
    pub(crate) gap: bool,
}

impl<'a> Search<'a> {
    ghost use Rattle.int_decide.specs.Ties.Searching.{standing_of, IsPaired, Opens, OpensNone, Takes, TakesNone, Breaks, Goes};
    ghost use Rattle.int_decide.specs.Ties.Searching.{after_broken};
    ghost use Rattle.int_decide.specs.Ties.Alike.{Steps};

    /// The search with one goal, that of the system.
    pub(crate) fn new(alloc: Global, system: &'a System, depth: u32) -> Result<Self, AllocError>
        ensures stands { IfOk result (λ s. standing_of s ≡
            record { gap = false; nodes = []; tasks = record { left = depth; goal = goal_of system.now } ∷ [] }) }
        ensures paired { IfOk result (λ s. IsPaired s) }
    {
        let lefts = Vec::from_slice(alloc, &[depth])?;
        Ok(Search {
            walk: Walk::new(alloc, system)?,
            lefts,
            nodes: Vec::new(alloc),
            gap: false,
        })
    }

    /// Takes up the next goal, and says how many cuts are left for it. `None` where no goal is left.
    pub(crate) fn next(&mut self) -> Result<Option<u32>, AllocError>
        requires { IsPaired self.old }
        ensures { IfOk result (λ o. MatchOption o
            (TakesNone self.old self.new)
            (λ left. Takes self.old (record { left = left; goal = goal_at_hand self.new.walk }) self.new)) }
    {
        let Some(left) = self.lefts.pop() else {
            return Ok(None);
        };
        if !self.walk.take_goal()? {
            unreachable!();
        }
        Ok(Some(left))
    }

    /// Decides the goal at hand, for which that many cuts are left, by one step: its first group is opened, or its rows are
    /// refuted, or met by a whole point, or cut. The values of a whole point are the answer.
    pub(crate) fn meet(
        &mut self,
        alloc: Global,
        columns: u32,
        left: u32,
    ) -> Result<Option<Vec<i128>>, ElimFault>
        requires paired { IsPaired self.old }
        requires below { RowsBelow columns (goal_at_hand self.old.walk).rows }
        requires numbered { goal_extent (goal_at_hand self.old.walk) < 2 ^ 32 }
        ensures { Exactly result (λ o. MatchOption o
            (Goes columns (record { left = left; goal = goal_at_hand self.old.walk }) self.old self.new)
            (λ numbers. IsMet columns (goal_at_hand self.old.walk) numbers.items))
            (StepFits columns (goal_at_hand self.old.walk)) }
    {
        if self.open_cases(left)? {
            return Ok(None);
        }
        match eliminate(alloc, self.walk.rows(), columns)? {
            Elim::Refuted(parts) => {
                self.nodes.push(Node::Leaf(parts))?;
                Ok(None)
            }
            Elim::Point(values) => Ok(self.meet_point(alloc, &values, left)?),
        }
    }

    /// Decides the goal at hand as `meet` does, by an outcome that stands in for that of the elimination, where one is found.
    pub(crate) fn meet_picked(
        &mut self,
        alloc: Global,
        columns: u32,
        left: u32,
    ) -> Result<Step, AllocError>
        requires paired { IsPaired self.old }
        requires below { RowsBelow columns (goal_at_hand self.old.walk).rows }
        requires tight { map tightened (goal_at_hand self.old.walk).rows ≡ (goal_at_hand self.old.walk).rows }
        requires numbered { goal_extent (goal_at_hand self.old.walk) < 2 ^ 32 }
        ensures { IfOk result
            (Steps columns (record { left = left; goal = goal_at_hand self.old.walk }) self.old self.new) }
    {
        if self.open_cases(left)? {
            return Ok(Step::Gone);
        }
        match picked_outcome(alloc, self.walk.rows(), columns)? {
            None => Ok(Step::Lost),
            Some(Elim::Refuted(parts)) => {
                self.nodes.push(Node::Leaf(parts))?;
                Ok(Step::Gone)
            }
            Some(Elim::Point(values)) => match self.meet_point(alloc, &values, left)? {
                Some(numbers) => Ok(Step::Met(numbers)),
                None => Ok(Step::Gone),
            },
        }
    }

    /// Opens the first group of the goal at hand. False where there is none.
    fn open_cases(&mut self, left: u32) -> Result<bool, AllocError>
        requires paired { IsPaired self.old }
        requires numbered { goal_extent (goal_at_hand self.old.walk) < 2 ^ 32 }
        ensures { IfOk result (λ yes. MatchBool yes
            (Opens (record { left = left; goal = goal_at_hand self.old.walk }) self.old self.new)
            (OpensNone (record { left = left; goal = goal_at_hand self.old.walk }) (goal_at_hand self.new.walk) self.old self.new)) }
    {
        let Some(members) = self.walk.open_group()? else {
            return Ok(false);
        };
        self.nodes.push(Node::Cases(members as u32))?;
        push_copies(&mut self.lefts, left, members)?;
        Ok(true)
    }

    /// Decides the goal at hand, whose rows have no group beside them and are met by a point with these values.
    fn meet_point(
        &mut self,
        alloc: Global,
        values: &[Frac],
        left: u32,
    ) -> Result<Option<Vec<i128>>, AllocError>
        requires paired { IsPaired self.old }
        requires numbered { length values.now < 2 ^ 32 }
        ensures { IfOk result (λ o. MatchOption o
            (Breaks (record { left = left; goal = goal_at_hand self.old.walk }) values.now self.old self.new)
            (λ numbers. IsWholePoint values.now numbers.items)) }
    {
        let Some((column, k)) = first_broken(values) else {
            return Ok(Some(numerators(alloc, values)?));
        };
        if left == 0 {
            self.gap = true;
        } else {
            self.cut(column, k, left - 1)?;
        }
        Ok(None)
    }

    /// Cuts the goal at hand. So many cuts are left for each side.
    fn cut(&mut self, column: Col, k: i128, left: u32) -> Result<(), AllocError>
        requires paired { IsPaired self.old }
        requires fits { Fits k }
        requires opposite_fits { Fits (below_opposite k) }
        ensures stands { OnOk result (standing_of self.new ≡
            after_broken (suc left) (goal_at_hand self.old.walk) (standing_of self.old) column k) }
        ensures paired { OnOk result (IsPaired self.new) }
    {
        self.nodes.push(Node::Cut { col: column, k })?;
        self.walk.open_cut(column, k)?;
        self.lefts.push(left)?;
        self.lefts.push(left)?;
        Ok(())
    }
}

/// Adds a number at the end, so many times.
pub(crate) fn push_copies(
    numbers: &mut Vec<u32>,
    number: u32,
    times: usize,
) -> Result<(), AllocError>
    ensures { OnOk result (numbers.new.items ≡ numbers.old.items ++ replicate times number) }
{
    for _time in 0..times {
        numbers.push(number)?;
    }
    Ok(())
}
