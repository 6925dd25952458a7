//! Points at which the triples by one letter are tried, and what is remembered of them.

ghost use Rattle.std.specs.Prelude.{IsTrue};
ghost use Rattle.hoare_check.specs.Halves.{IsMetInBoth};

use crate::guessing::{guessed_down, guessed_up};
use crate::meeting::is_met;
use lin_rows::System;
use std::alloc::{AllocError, Global};

/// Whole points, with a value for each column. That a point is seen to meet a half is remembered, and is seen again before it counts.
#[derive(Drop)]
pub struct Points {
    list: Vec<Vec<i128>>,
    /// Which of the points, in order, meet the source at hand.
    at_source: Vec<bool>,
    /// The same of each target, by its number.
    at_targets: Vec<Vec<bool>>,
}

impl Points {
    ghost use Rattle.std.specs.Prelude.{ℕ, ℤ, IfOk, IsTrue};
    ghost use Rattle.lin_rows.specs.Systems.{Meets};
    ghost use Rattle.hoare_check.specs.Halves.{IsMetInBoth};

    /// No points.
    pub fn new(alloc: Global) -> Self {
        Points {
            list: Vec::new(alloc),
            at_source: Vec::new(alloc),
            at_targets: Vec::new(alloc),
        }
    }

    /// From now on another source is at hand.
    pub fn begin_source(&mut self) {
        self.at_source.clear();
    }

    /// Adds a point.
    pub(crate) fn add(&mut self, point: Vec<i128>) -> Result<(), AllocError> {
        self.list.push(point)?;
        Ok(())
    }

    /// The points.
    pub(crate) fn list(&self) -> &[Vec<i128>] {
        self.list.as_slice()
    }

    /// Adds a point that is seen to meet the system, if one is guessed; whether one is.
    pub(crate) fn guess(
        &mut self,
        alloc: Global,
        system: &System,
        columns: u32,
    ) -> Result<bool, AllocError>
        ensures { IfOk result (λ yes. IsTrue yes → (point : ℕ → ℤ) × Meets point system.now) }
    {
        let up = guessed_up(alloc, &system.rows, columns)?;
        if self.is_right(system, up)? {
            return Ok(true);
        }
        let down = guessed_down(alloc, &system.rows, columns)?;
        self.is_right(system, down)
    }

    /// Adds a point, if it is seen to meet the system; whether it is.
    fn is_right(&mut self, system: &System, point: Vec<i128>) -> Result<bool, AllocError>
        ensures { IfOk result (λ yes. IsTrue yes → (point : ℕ → ℤ) × Meets point system.now) }
    {
        if !is_met(system, &point) {
            return Ok(false);
        }
        self.add(point)?;
        Ok(true)
    }

    /// Whether one of the points is seen to meet the source at hand and the target with this number.
    pub(crate) fn refuse(
        &mut self,
        source: &System,
        target: &System,
        number: usize,
    ) -> Result<bool, AllocError>
        ensures { IfOk result (λ yes. IsTrue yes → IsMetInBoth source.now target.now) }
    {
        mark(&mut self.at_source, source, &self.list)?;
        self.mark_target(target, number)?;
        match self.last_of_both(number) {
            Some(place) => Ok(is_met_in_both(source, target, &self.list, place)),
            None => Ok(false),
        }
    }

    /// Marks which of the points meet the target with this number.
    fn mark_target(&mut self, target: &System, number: usize) -> Result<(), AllocError> {
        let alloc = *self.list.allocator();
        for _missing in self.at_targets.len()..number.saturating_add(1) {
            self.at_targets.push(Vec::new(alloc))?;
        }
        match self.at_targets.get_mut(number) {
            Some(marks) => mark(marks, target, &self.list),
            None => Ok(()),
        }
    }

    /// The place of the last point that is marked at the source and at the target with this number.
    fn last_of_both(&self, number: usize) -> Option<usize> {
        let others = self.at_targets.get(number)?;
        for place in (0..self.at_source.len()).rev() {
            if is_marked(&self.at_source, place) && is_marked(others, place) {
                return Some(place);
            }
        }
        None
    }
}

/// Whether a place is marked.
fn is_marked(marks: &[bool], place: usize) -> bool {
    matches!(marks.get(place), Some(true))
}

/// Whether the point at a place is seen to meet both systems.
fn is_met_in_both(first: &System, second: &System, points: &[Vec<i128>], place: usize) -> bool
    ensures { IsTrue result → IsMetInBoth first.now second.now }
{
    match points.get(place) {
        Some(point) => is_met(first, point) && is_met(second, point),
        None => false,
    }
}

/// Marks which of the points meet the system; the first ones are marked.
fn mark(marks: &mut Vec<bool>, system: &System, points: &[Vec<i128>]) -> Result<(), AllocError> {
    for place in marks.len()..points.len() {
        marks.push(is_met(system, &points[place]))?;
    }
    Ok(())
}
