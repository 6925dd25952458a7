ghost use Rattle.std.specs.Prelude.{◌≡◌, IfOk};

use smallvec::SmallVec;
use std::alloc::{AllocError, AllocFailed, Global};
use std::marker::Model;
use thiserror::Error;

/// The number of a column.
pub type Col = u32;

/// What a row says of its sum: at most the bound, or equal to it.
#[derive(Clone, Copy, Debug, PartialEq, Eq)]
pub enum RowKind {
    /// `a.x <= b`
    Le,
    /// `a.x = b`
    Eq,
}

/// A number would not fit: its magnitude would be above 2^127-1.
#[derive(Clone, Copy, Debug, PartialEq, Eq)]
pub struct Past;

/// Why a row was not made.
#[derive(Debug, Drop, Error)]
pub enum RowFault {
    /// A number would not fit.
    #[error("a number of the row does not fit")]
    Past,
    /// Memory ran out.
    #[error("out of memory")]
    Memory,
}

impl From<AllocError> for RowFault {
    ghost use Rattle.lin_rows.specs.declared.types.RowFault.TheVariants.{Memory};

    ghost from_gives = { λ _ e. e ≡ Memory };

    fn from(_e: AllocError) -> RowFault {
        RowFault::Memory
    }
}

impl<T: Drop> From<AllocFailed<T>> for RowFault {
    ghost use Rattle.lin_rows.specs.declared.types.RowFault.TheVariants.{Memory};

    ghost from_gives = { λ _ e. e ≡ Memory };

    fn from(_e: AllocFailed<T>) -> RowFault {
        RowFault::Memory
    }
}

/// Terms of a row, of which up to two need no allocation: most rows have no more, and rows are moved often.
pub(crate) type Terms = SmallVec<(Col, i128), 2>;

/// A copy of terms. One or two need no list that grows.
pub(crate) fn copied_terms(alloc: Global, terms: &[(Col, i128)]) -> Result<Terms, AllocError>
    ensures { IfOk result (λ copy. copy.items ≡ terms.now) }
{
    match terms {
        [one] => Ok(Terms::from_buf_and_len(alloc, [*one, *one], 1)),
        [one, other] => Ok(Terms::from_buf(alloc, [*one, *other])),
        _ => Terms::from_slice(alloc, terms),
    }
}

/// A row over whole numbers. Its terms ascend by column, no coefficient is 0, and all numbers fit.
#[derive(Drop)]
pub struct Row {
    terms: Terms,
    kind: RowKind,
    bound: i128,
}

impl Model for Row {
    ghost use Rattle.lin_rows.specs.Rows.{IsRow, LinearRow};

    ghost Value = { LinearRow };

    ghost view = { λ a. record { terms = a.terms.items; kind = a.kind; bound = a.bound } };

    ghost invariant = { λ a. IsRow (record { terms = a.terms.items; kind = a.kind; bound = a.bound }) };
}

impl Row {
    ghost use Rattle.lin_rows.specs.Rows.{IsRow};

    /// The row of terms that are in order.
    pub(crate) fn new(terms: Terms, kind: RowKind, bound: i128) -> Self
        requires { IsRow (record { terms = terms.items; kind = kind; bound = bound }) }
        ensures { result ≡ record { terms = terms.items; kind = kind; bound = bound } }
    {
        Row { terms, kind, bound }
    }

    /// The terms, a column and its coefficient each, ascending by column.
    pub fn terms(&self) -> &[(Col, i128)]
        ensures value { result.now ≡ self.now.terms }
        ensures valid { IsRow self.now }
    {
        self.terms.as_slice()
    }

    /// An equal row.
    pub fn copy(&self) -> Result<Self, AllocError>
        ensures value { IfOk result (λ r. r ≡ self.now) }
        ensures valid { IsRow self.now }
    {
        let terms = copied_terms(*self.terms.allocator(), self.terms.as_slice())?;
        Ok(Row {
            terms,
            kind: self.kind,
            bound: self.bound,
        })
    }

    /// Whether the row is an inequality or an equality.
    pub fn kind(&self) -> RowKind
        ensures { result ≡ self.now.kind }
    {
        self.kind
    }

    /// The bound of the sum.
    pub fn bound(&self) -> i128
        ensures { result ≡ self.now.bound }
    {
        self.bound
    }
}
