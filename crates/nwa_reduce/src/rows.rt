//! Values in rows that are found by their numbers.

ghost use Rattle.std.specs.Prelude.{◌≡◌, ℕ, [], ◌∷◌, ◌++◌, ◌<◌, nat_eq, length, OnOk, if◌then◌else◌};
ghost use Rattle.nwa_reduce.specs.Ties.Rows.{row_of};

use std::alloc::{AllocError, Global};

/// Values in rows, each row found by its number. Contracts see the list of values of each row.
#[derive(Drop)]
pub struct Rows<V: Drop> {
    alloc: Global,
    rows: Vec<Vec<V>>,
}

impl<V: Drop> Rows<V> {
    /// No values.
    pub fn new(alloc: Global) -> Self
        ensures { (q : ℕ) → row_of result.rows.items q ≡ [] }
    {
        Rows {
            alloc,
            rows: Vec::new(alloc),
        }
    }

    /// The values of a row, in the order in which they were added.
    pub fn of(&self, row: u32) -> &[V]
        ensures { result.now ≡ row_of self.now.rows.items row }
    {
        match self.rows.get(row as usize) {
            Some(values) => values.as_slice(),
            None => &[],
        }
    }

    /// Adds a value at the end of a row. The memory is that of the rows up to this number.
    pub fn add(&mut self, row: u32, value: V) -> Result<(), AllocError>
        ensures { OnOk result ((q : ℕ) → row_of self.new.rows.items q ≡ (if nat_eq row q then row_of self.old.rows.items q ++ value ∷ [] else row_of self.old.rows.items q)) }
    {
        self.reach(row as usize)?;
        self.put(row as usize, value)
    }

    /// Makes rows up to a number.
    fn reach(&mut self, row: usize) -> Result<(), AllocError>
        ensures { OnOk result (row < length self.new.rows.items × ((q : ℕ) → row_of self.new.rows.items q ≡ row_of self.old.rows.items q)) }
    {
        while self.rows.len() <= row {
            self.rows.push(Vec::new(self.alloc))?;
        }
        Ok(())
    }

    /// Adds a value at the end of a row that there is.
    fn put(&mut self, row: usize, value: V) -> Result<(), AllocError>
        requires { row < length self.old.rows.items }
        ensures { OnOk result ((q : ℕ) → row_of self.new.rows.items q ≡ (if nat_eq row q then row_of self.old.rows.items q ++ value ∷ [] else row_of self.old.rows.items q)) }
    {
        self.rows[row].push(value)?;
        Ok(())
    }
}
