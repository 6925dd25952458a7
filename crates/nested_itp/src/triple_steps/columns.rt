//! Where the columns of a word stand in the system of a letter's triple.

ghost use Rattle.std.specs.Prelude.{◌≡◌, ◌++◌, ◌+◌, ◌<◌, ◌^◌, IfOk, OnOk, map};
ghost use Rattle.letter_acts.specs.Frames.{places};
ghost use Rattle.letter_acts.specs.FrameRows.Rows.{columns_from};
ghost use Rattle.nested_itp.specs.TripleSteps.Ties.Classes.{is_of};

use crate::triple_steps::classes::{Class, places};
use boogie_tree::{Column, VarInfo};
use lin_rows::Col;
use std::alloc::{AllocError, Global};

/// Where the columns of a word stand in the system of a letter's triple.
#[derive(Drop)]
pub struct Columns {
    /// Where those of the start stand, in order.
    pub at: usize,
    /// How many the word made before the letter, of a return before its call.
    pub first: usize,
    /// Where those stand that the letter made, in order.
    pub made: Vec<Col>,
}

impl Columns {
    ghost use Rattle.std.specs.Prelude.{◌≡◌};
    ghost use Rattle.nested_itp.specs.TripleSteps.Steps.{column_place, FitColumns};

    /// Those of a word with so many columns. No memory is left where a number does not fit.
    pub(crate) fn of(
        at: usize,
        first: usize,
        made: Vec<Col>,
        total: usize,
    ) -> Result<Columns, AllocError>
        ensures at { IfOk result (λ c. c.at ≡ at) }
        ensures first { IfOk result (λ c. c.first ≡ first) }
        ensures made { IfOk result (λ c. c.made.items ≡ made.items) }
        ensures fit { IfOk result (FitColumns total) }
    {
        let _end = column_at(at, total)?;
        Ok(Columns { at, first, made })
    }

    /// The column in the system of a column of the word.
    pub fn place(&self, column: Col) -> Col
        requires { column_place self.now column < 2 ^ 32 }
        ensures { result ≡ column_place self.now column }
    {
        let column = column as usize;
        if column >= self.first {
            if let Some(place) = self.made.get(column - self.first) {
                return *place;
            }
        }
        (self.at + column) as u32
    }
}

/// The sum. No memory holds as many rows or columns where it does not fit.
pub(crate) fn sum(a: usize, b: usize) -> Result<usize, AllocError>
    ensures { IfOk result (λ n. n ≡ a + b) }
{
    match a.checked_add(b) {
        Some(n) => Ok(n),
        None => Err(AllocError),
    }
}

/// A count as the number of a column. No system has a column whose number does not fit.
pub(crate) fn narrowed(count: usize) -> Result<Col, AllocError>
    ensures value { IfOk result (λ c. c ≡ count) }
    ensures small { OnOk result (count < 2 ^ 32) }
{
    if count <= u32::MAX as usize {
        Ok(count as u32)
    } else {
        Err(AllocError)
    }
}

/// The column that stands so many behind another.
fn column_at(first: usize, count: usize) -> Result<Col, AllocError>
    ensures value { IfOk result (λ c. c ≡ first + count) }
    ensures small { OnOk result (first + count < 2 ^ 32) }
{
    narrowed(sum(first, count)?)
}

/// Adds so many columns in order, from one on.
pub(crate) fn add_columns(made: &mut Vec<Col>, first: usize, count: usize) -> Result<(), AllocError>
    ensures { OnOk result (made.new.items ≡ made.old.items ++ columns_from first count) }
{
    for i in 0..count {
        made.push(column_at(first, i)?)?;
    }
    Ok(())
}

/// Adds the columns of a class of a frame, where the frame's columns stand from one on.
pub(crate) fn add_places(
    alloc: Global,
    made: &mut Vec<Col>,
    at: usize,
    frame: &[(Column, VarInfo)],
    class: Class,
) -> Result<(), AllocError>
    ensures { OnOk result (made.new.items ≡ made.old.items ++ map (λ c. at + c) (places (is_of class) 0 frame.now)) }
{
    let places = places(alloc, frame, class)?;
    for i in 0..places.len() {
        made.push(column_at(at, places[i] as usize)?)?;
    }
    Ok(())
}
