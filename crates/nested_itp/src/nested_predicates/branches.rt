//! The branches of a refutation, one after another: the rows that hold on each.

ghost use Rattle.std.specs.Prelude.{◌≡◌, ◌⊎◌, [], ◌∷◌, ◌++◌, pos, negsuc, List, IfOk, OnOk, length};
ghost use Rattle.lin_rows.specs.declared.types.RowKind.TheVariants.{Le};
ghost use Rattle.math_facts.specs.Fits.{Fits};
ghost use Rattle.lin_rows.specs.Negating.{below_opposite};
ghost use Rattle.farkas_check.specs.Refutes.{at_most, above};

use lin_rows::{Col, Row, RowFault, RowKind, row};
use std::alloc::{AllocError, Global};

/// A branch that waits: how many of the rows are its own, and the row of its cut, with its stamp, which is to be added.
#[derive(Drop)]
pub(crate) struct Waiting {
    pub(crate) depth: usize,
    pub(crate) side: Option<(Row, u64)>,
}

/// The rows of the branch at hand with their stamps, and the branches that wait, the next one last.
#[derive(Drop)]
pub(crate) struct Branches {
    pub(crate) rows: Vec<Row>,
    pub(crate) stamps: Vec<u64>,
    pub(crate) waiting: Vec<Waiting>,
}

impl Branches {
    ghost use Rattle.nested_itp.specs.NestedPredicates.Sums.{Branch, with_cut};
    ghost use Rattle.nested_itp.specs.NestedPredicates.Tables.{entered, branch_of, HasNext, Await};

    /// The root, whose rows have these stamps.
    pub(crate) fn root(alloc: Global, rows: Vec<Row>, stamps: Vec<u64>) -> Result<Self, AllocError>
        requires { length stamps.items ≡ length rows.items }
        ensures { IfOk result (λ b. Await b (record { rows = rows.items; stamps = stamps.items } ∷ [])) }
    {
        let depth = rows.len();
        let mut waiting = Vec::new(alloc);
        waiting.push(Waiting { depth, side: None })?;
        Ok(Branches {
            rows,
            stamps,
            waiting,
        })
    }

    /// Goes on to the next branch.
    pub(crate) fn go_on(&mut self) -> Result<(), AllocError>
        requires { HasNext self.old }
        ensures { OnOk result ((b : Branch) (rest : List Branch) → Await self.old (b ∷ rest) → (branch_of self.new ≡ b) × Await self.new rest) }
    {
        let Some(next) = self.waiting.pop() else {
            unreachable!()
        };
        self.rows.truncate(next.depth);
        self.stamps.truncate(next.depth);
        self.add(next.side)
    }

    /// Adds the row of a cut with its stamp, if there is one.
    fn add(&mut self, side: Option<(Row, u64)>) -> Result<(), AllocError>
        ensures branch { OnOk result (branch_of self.new ≡ entered (branch_of self.old) side) }
        ensures waiting { self.new.waiting.items ≡ self.old.waiting.items }
    {
        if let Some((row, stamp)) = side {
            self.rows.push(row)?;
            self.stamps.push(stamp)?;
        }
        Ok(())
    }

    /// Lets both sides of a cut wait, the first one in front.
    pub(crate) fn split(
        &mut self,
        alloc: Global,
        col: Col,
        k: i128,
        stamp: u64,
    ) -> Result<(), AllocError>
        requires fits { Fits k }
        requires opposite_fits { Fits (below_opposite k) }
        ensures { OnOk result ((rest : List Branch) → Await self.old rest → (branch_of self.new ≡ branch_of self.old) × Await self.new (with_cut (branch_of self.old) stamp (at_most col k) ∷ with_cut (branch_of self.old) stamp (above col k) ∷ rest)) }
    {
        let depth = self.rows.len();
        let low = single_row(alloc, col, 1, k)?;
        let high = single_row(alloc, col, -1, -1 - k)?;
        self.waiting.push(Waiting {
            depth,
            side: Some((high, stamp)),
        })?;
        self.waiting.push(Waiting {
            depth,
            side: Some((low, stamp)),
        })?;
        Ok(())
    }
}

/// The row of one term.
fn single_row(alloc: Global, col: Col, coefficient: i128, bound: i128) -> Result<Row, AllocError>
    requires coefficient { (coefficient ≡ pos 1) ⊎ (coefficient ≡ negsuc 0) }
    requires bound { Fits bound }
    ensures value { IfOk result (λ r. r ≡ record { terms = (col, coefficient) ∷ []; kind = Le; bound = bound }) }
{
    match row(alloc, &[(col, coefficient)], RowKind::Le, bound) {
        Ok(made) => Ok(made),
        Err(RowFault::Past) => unreachable!(),
        Err(RowFault::Memory) => Err(AllocError),
    }
}
