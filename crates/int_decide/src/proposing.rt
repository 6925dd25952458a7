//! Refutations from proposals, which are checked before they are taken.

ghost use Rattle.std.specs.Prelude.{IfOk, IfSome};
ghost use Rattle.int_decide.specs.Answers.{RefutesWithin};

use crate::accepting::accepted;
use crate::search::push_copies;
use crate::values::first_broken;
use farkas_check::{Node, Refutation, Walk};
use frac::Frac;
use lin_rows::{Row, System};
use simplex_rows::{Found, try_solve};
use std::alloc::{AllocError, Global};

/// How many goals are looked at before the search is given up.
pub(crate) const MOST_GOALS: u32 = 16_384;

/// How many pivots the simplex may make for each row and each column.
const PIVOTS: u32 = 10;

/// A refutation of the system, with at most `depth` cuts on a branch, where the simplex proposes one.
pub fn proposed(
    alloc: Global,
    system: &System,
    columns: u32,
    depth: u32,
) -> Result<Option<Refutation>, AllocError>
    ensures { IfOk result (λ o. IfSome o (RefutesWithin depth system.now)) }
{
    match proposed_nodes(alloc, system, columns, depth)? {
        Some(nodes) => accepted(alloc, system, depth, nodes),
        None => Ok(None),
    }
}

/// How many pivots the simplex may make.
pub fn pivots_for(rows: &[Row], columns: u32) -> Option<u32> {
    let count = u32::try_from(rows.len()).ok()?;
    Some(count.saturating_add(columns).saturating_mul(PIVOTS))
}

/// The nodes of what is to be a refutation.
fn proposed_nodes(
    alloc: Global,
    system: &System,
    columns: u32,
    depth: u32,
) -> Result<Option<Vec<Node>>, AllocError> {
    let mut proposal = Proposal::new(alloc, system, depth)?;
    if proposal.meet_all(alloc, columns)? {
        Ok(Some(proposal.nodes))
    } else {
        Ok(None)
    }
}

/// The goals that are still to be refuted, with the cuts that are left for each, and the nodes of what was refuted before them.
#[derive(Drop)]
struct Proposal<'a> {
    walk: Walk<'a>,
    lefts: Vec<u32>,
    nodes: Vec<Node>,
}

impl<'a> Proposal<'a> {
    /// The goal of the system.
    fn new(alloc: Global, system: &'a System, depth: u32) -> Result<Self, AllocError> {
        let lefts = Vec::from_slice(alloc, &[depth])?;
        Ok(Proposal {
            walk: Walk::new(alloc, system)?,
            lefts,
            nodes: Vec::new(alloc),
        })
    }

    /// Meets all goals with nodes. False where none is found for one, or there are too many goals.
    fn meet_all(&mut self, alloc: Global, columns: u32) -> Result<bool, AllocError> {
        for _goal in 0..MOST_GOALS {
            let Some(left) = self.lefts.pop() else {
                return Ok(true);
            };
            if !self.walk.take_goal()? || !self.meet(alloc, columns, left)? {
                return Ok(false);
            }
        }
        Ok(false)
    }

    /// Meets the goal at hand with a node. False where none is found.
    fn meet(&mut self, alloc: Global, columns: u32, left: u32) -> Result<bool, AllocError> {
        match self.walk.open_group()? {
            Some(members) => self.open_cases(members, left),
            None => self.meet_rows(alloc, columns, left),
        }
    }

    /// Meets the goal at hand, whose first group has so many members, with cases. False where they are too many.
    fn open_cases(&mut self, members: usize, left: u32) -> Result<bool, AllocError> {
        let Ok(count) = u32::try_from(members) else {
            return Ok(false);
        };
        self.nodes.push(Node::Cases(count))?;
        push_copies(&mut self.lefts, left, members)?;
        Ok(true)
    }

    /// Meets the goal at hand, which has no group, with a leaf or a cut. False where none is found.
    fn meet_rows(&mut self, alloc: Global, columns: u32, left: u32) -> Result<bool, AllocError> {
        let rows = self.walk.rows();
        let Some(pivots) = pivots_for(rows, columns) else {
            return Ok(false);
        };
        match try_solve(alloc, rows, columns, pivots)? {
            None => Ok(false),
            Some(Found::Refuted(parts)) => {
                self.nodes.push(Node::Leaf(parts))?;
                Ok(true)
            }
            Some(Found::Point(values)) => self.cut(&values, left),
        }
    }

    /// Cuts the goal at hand at the first of the values that is not whole. False where all are whole, or no cut is left.
    fn cut(&mut self, values: &[Frac], left: u32) -> Result<bool, AllocError> {
        if left == 0 || u32::try_from(values.len()).is_err() {
            return Ok(false);
        }
        let Some((column, k)) = first_broken(values) else {
            return Ok(false);
        };
        self.walk.open_cut(column, k)?;
        self.nodes.push(Node::Cut { col: column, k })?;
        self.lefts.push(left - 1)?;
        self.lefts.push(left - 1)?;
        Ok(true)
    }
}
