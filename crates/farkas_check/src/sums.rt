//! The sum of a leaf's parts, kept by column and added up where it stands.

ghost use Rattle.std.specs.Prelude.{◌≡◌, ◌↔◌, ℕ, ℤ, pos, IsTrue, IfOk, OnOk, MatchBool};
ghost use Rattle.math_facts.specs.Fits.{Fits};
ghost use Rattle.math_facts.specs.Terms.{with_value};
ghost use Rattle.lin_rows.specs.Rows.{AscendsFrom};
ghost use Rattle.farkas_check.specs.Ties.Leaves.{columns_of, TermsFit, AddsTerms, RowFits, AddsRow, IsContradiction};

use lin_rows::{Col, Row, plus_times};
use std::alloc::{AllocError, Global};
use std::collections::HashMap;
use std::marker::Model;

/// The sum of rows, each taken a number of times. Columns whose number is 0 are not kept.
#[derive(Drop)]
pub(crate) struct Sum {
    columns: HashMap<Col, i128>,
    bound: i128,
}

impl Model for Sum {
    ghost use Rattle.farkas_check.specs.Ties.Leaves.{PartSum, AreKept};

    ghost Value = { PartSum };

    ghost view = { λ s. record { kept = s.columns.entries; bound = s.bound } };

    ghost invariant = { λ s. AreKept s.columns.entries };
}

impl Sum {
    /// The sum of no rows.
    pub(crate) fn new(alloc: Global) -> Self
        ensures columns { (c : ℕ) → columns_of result c ≡ pos 0 }
        ensures bound { result.bound ≡ pos 0 }
    {
        Sum {
            columns: HashMap::new(alloc),
            bound: 0,
        }
    }

    /// The number of a column.
    fn at(&self, column: Col) -> i128
        ensures value { result ≡ columns_of self.now column }
        ensures all_fit { (c : ℕ) → Fits (columns_of self.now c) }
    {
        match self.columns.get(&column) {
            Some(number) => *number,
            None => 0,
        }
    }

    /// Changes the number of a column.
    fn put(&mut self, column: Col, number: i128) -> Result<(), AllocError>
        requires { Fits number }
        ensures columns { OnOk result ((c : ℕ) → columns_of self.new c ≡ with_value (columns_of self.old) column number c) }
        ensures bound { self.new.bound ≡ self.old.bound }
    {
        if number == 0 {
            let _ = self.columns.remove(&column);
        } else {
            let _ = self.columns.insert(column, number)?;
        }
        Ok(())
    }

    /// Adds `m` times the terms. False where a number would not fit.
    fn add_terms(&mut self, m: i128, terms: &[(Col, i128)]) -> Result<bool, AllocError>
        requires ascends { AscendsFrom 0 terms.now }
        requires fits { (c : ℕ) → Fits (columns_of self.old c) }
        ensures columns { IfOk result (λ yes. MatchBool yes
            (AddsTerms (columns_of self.old) m terms.now (columns_of self.new))
            (TermsFit (columns_of self.old) m terms.now → ⊥)) }
        ensures bound { self.new.bound ≡ self.old.bound }
    {
        for (column, coefficient) in terms {
            let Some(number) = plus_times(self.at(*column), m, *coefficient) else {
                return Ok(false);
            };
            self.put(*column, number)?;
        }
        Ok(true)
    }

    /// Adds `m` times the row. False where a number would not fit.
    pub(crate) fn add(&mut self, m: i128, row: &Row) -> Result<bool, AllocError>
        ensures { IfOk result (λ yes. MatchBool yes
            (AddsRow self.old m row.now self.new)
            (RowFits self.old m row.now → ⊥)) }
    {
        let Some(bound) = plus_times(self.bound, m, row.bound()) else {
            return Ok(false);
        };
        let added = self.add_terms(m, row.terms())?;
        self.bound = bound;
        Ok(added)
    }

    /// Whether the sum says `0 = c` or `0 <= c` with `c < 0`.
    pub(crate) fn is_contradiction(&self) -> bool
        ensures { IsTrue result ↔ IsContradiction self.now }
    {
        self.columns.is_empty() && self.bound < 0
    }
}
