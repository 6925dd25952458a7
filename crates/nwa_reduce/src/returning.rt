//! Where returns lead, by the states before the calls.

use crate::guessing::{add, at, mix};
use nwa_base::{Letter, Nwa};
use std::alloc::{AllocError, Global};

/// A state before a call, a state in the call that returns leave, and the places of their return edges.
#[derive(Clone, Copy)]
struct Join {
    before: u32,
    exit: u32,
    from: usize,
    to: usize,
}

/// A class of exits, the first class to which their returns lead, the sum of their marks, and an exit.
type Outcome = (u32, u32, u64, u32);

/// An exit, the place of its outcome, and a state before a call or its class.
type Mark = (u32, u32, u32);

/// The return edges, by the states before the calls.
#[derive(Drop)]
pub struct Returns {
    alloc: Global,
    joins: Vec<Join>,
    ends: Vec<(Letter, u32)>,
}

impl Returns {
    /// The return edges between the states of each pair.
    pub fn new(alloc: Global, nwa: &Nwa, pairs: &[(u32, u32)]) -> Result<Self, AllocError> {
        let mut order = Vec::from_slice(alloc, pairs)?;
        order.sort_unstable();
        order.dedup();
        let mut joins = Vec::new(alloc);
        let mut ends = Vec::new(alloc);
        for &(before, exit) in order.as_slice() {
            let from = ends.len();
            for &(_, _, letter, end) in nwa.backs_between(exit, before) {
                ends.push((letter, end))?;
            }
            joins.push(Join {
                before,
                exit,
                from,
                to: ends.len(),
            })?;
        }
        Ok(Returns { alloc, joins, ends })
    }

    /// Adds to the sums of states before calls where returns lead from exits of each class, and to those of exits that stand in one class but
    /// do not return alike at one state before the call; with `precise`, also by the class of that state. Whether there are such exits.
    pub fn mark(
        &self,
        classes: &[u32],
        sums: &mut Vec<u64>,
        precise: bool,
    ) -> Result<bool, AllocError> {
        let mut marks = Vec::new(self.alloc);
        let mut outcomes = Vec::new(self.alloc);
        let mut before = 0;
        for &join in self.joins.as_slice() {
            if join.before != before {
                mark_outcomes(&mut outcomes, before, sums, &mut marks)?;
                before = join.before;
            }
            outcomes.push(self.outcome(classes, join))?;
        }
        mark_outcomes(&mut outcomes, before, sums, &mut marks)?;
        let any = !marks.is_empty();
        add_marks(marks, classes, sums, precise);
        Ok(any)
    }

    /// Where the returns of an exit lead.
    fn outcome(&self, classes: &[u32], join: Join) -> Outcome {
        let mut sum: u64 = 0;
        let mut first = u32::MAX;
        for place in join.from..join.to {
            if let Some(&(letter, end)) = self.ends.get(place) {
                let class = at(classes, end);
                sum = sum.wrapping_add(mix(3, letter.id, class));
                if class < first {
                    first = class;
                }
            }
        }
        (at(classes, join.exit), first, sum, join.exit)
    }
}

/// Marks a state before a call by the outcomes of the exits, which are left empty, and notes each exit whose outcome is not the first among
/// those of its class, with the place of its outcome.
fn mark_outcomes(
    outcomes: &mut Vec<Outcome>,
    before: u32,
    sums: &mut Vec<u64>,
    marks: &mut Vec<Mark>,
) -> Result<(), AllocError> {
    outcomes.sort_unstable();
    let mut last = (0, 0, 0);
    let mut place: u32 = 0;
    for &(class, first, sum, exit) in outcomes.as_slice() {
        if last != (class, first, sum) {
            place = if last.0 == class {
                place.wrapping_add(1)
            } else {
                0
            };
            last = (class, first, sum);
            add(sums, before, mix(sum, class, 4));
        }
        if place != 0 {
            marks.push((exit, place, before))?;
        }
    }
    outcomes.clear();
    Ok(())
}

/// Adds the marks to the sums of their exits, each once.
fn add_marks(mut marks: Vec<Mark>, classes: &[u32], sums: &mut Vec<u64>, precise: bool) {
    for mark in marks.as_mut_slice() {
        mark.2 = if precise { at(classes, mark.2) } else { 0 };
    }
    marks.sort_unstable();
    marks.dedup();
    for &(exit, place, class) in marks.as_slice() {
        add(sums, exit, mix(5, place, class));
    }
}
