//! Running sums of a leaf's rows.

ghost use Rattle.std.specs.Prelude.{◌≡◌, ℕ, pos, ◌*ℤ◌, IfOk, OnOk, length};
ghost use Rattle.std.specs.List.{AllByRecursion};

use crate::nested_predicates::wide::Wide;
use lin_rows::{Col, Row};
use std::alloc::{AllocError, Global};

/// What the rows so far add up to.
#[derive(Drop)]
pub(crate) struct Running {
    /// The number of each version that stands in a frame.
    pub(crate) columns: Vec<Wide>,
    /// That of the bounds.
    pub(crate) bound: Wide,
    /// How many numbers were added.
    pub(crate) count: u64,
}

/// No memory holds as many terms.
const MOST_TERMS: u64 = 576460752303423488;

impl Running {
    ghost use Rattle.math_facts.specs.Fits.{Fits};
    ghost use Rattle.nested_itp.specs.NestedPredicates.Wides.{value_of};
    ghost use Rattle.nested_itp.specs.NestedPredicates.Runnings.{value_at, AreCounted, AddsTerm, AddsTerms, AddsBound, AddsRow, ProductsFit, PartsFit, AddsParts};

    /// What no row adds up to, over so many versions.
    pub(crate) fn start(alloc: Global, width: usize) -> Result<Self, AllocError>
        ensures width { IfOk result (λ r. length r.columns.items ≡ width) }
        ensures columns { IfOk result (λ r. (v : ℕ) → value_at r.columns.items v ≡ pos 0) }
        ensures bound { IfOk result (λ r. value_of r.bound ≡ pos 0) }
        ensures counted { IfOk result AreCounted }
    {
        let mut columns = Vec::with_capacity(alloc, width)?;
        for _v in 0..width {
            columns.push(Wide::zero())?;
        }
        Ok(Running {
            columns,
            bound: Wide::zero(),
            count: 0,
        })
    }

    /// Adds a number at a version. One that stands in no frame is left out.
    fn add_term(&mut self, column: Col, number: i128) -> Result<(), AllocError>
        requires counted { AreCounted self.old }
        ensures { OnOk result (AddsTerm column number self.old self.new) }
    {
        if self.count >= MOST_TERMS {
            return Err(AllocError);
        }
        if column as usize >= self.columns.len() {
            self.count += 1;
            return Ok(());
        }
        let old = self.columns[column as usize];
        self.columns[column as usize] = old.plus(number);
        self.count += 1;
        Ok(())
    }

    /// Adds a row so many times.
    fn add_row(&mut self, row: &Row, times: i128) -> Result<(), AllocError>
        requires counted { AreCounted self.old }
        requires fit { ProductsFit row.now times }
        ensures { OnOk result (AddsRow row.now times self.old self.new) }
    {
        self.add_terms(row.terms(), times)?;
        self.add_bound(times * row.bound())
    }

    /// Adds a number to that of the bounds.
    fn add_bound(&mut self, number: i128) -> Result<(), AllocError>
        requires counted { AreCounted self.old }
        ensures { OnOk result (AddsBound number self.old self.new) }
    {
        if self.count >= MOST_TERMS {
            return Err(AllocError);
        }
        self.bound = self.bound.plus(number);
        self.count += 1;
        Ok(())
    }

    /// Adds terms so many times.
    fn add_terms(&mut self, terms: &[(Col, i128)], times: i128) -> Result<(), AllocError>
        requires counted { AreCounted self.old }
        requires fit { AllByRecursion (λ t. Fits (times *ℤ t.1)) terms.now }
        ensures { OnOk result (AddsTerms terms.now times self.old self.new) }
    {
        for i in 0..terms.len() {
            let (column, coefficient) = terms[i];
            self.add_term(column, times * coefficient)?;
        }
        Ok(())
    }

    /// Adds the rows of parts of a leaf.
    pub(crate) fn add_parts(
        &mut self,
        rows: &[Row],
        parts: &[(u32, i128)],
    ) -> Result<(), AllocError>
        requires counted { AreCounted self.old }
        requires fit { PartsFit rows.now parts.now }
        ensures { OnOk result (AddsParts rows.now parts.now self.old self.new) }
    {
        for i in 0..parts.len() {
            let (number, times) = parts[i];
            self.add_row(&rows[number as usize], times)?;
        }
        Ok(())
    }
}
