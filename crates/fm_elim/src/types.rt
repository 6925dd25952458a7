use frac::Frac;
use lin_rows::{Row, RowFault};
use std::alloc::{AllocError, AllocFailed, Global};
use std::marker::Model;
use thiserror::Error;

/// What the elimination finds out about rows.
#[derive(Drop)]
pub enum Elim {
    /// No rational point meets the rows: row numbers, ascending, with the multipliers of the tightened rows whose sum
    /// says `0 <= c` with `c < 0`.
    Refuted(Vec<(u32, i128)>),
    /// A rational point that meets the tightened rows, a value for each column.
    Point(Vec<Frac>),
}

/// Why an elimination was not completed.
#[derive(Debug, Drop, Error)]
pub enum ElimFault {
    /// A number that the elimination forms would not fit.
    #[error("a number of the elimination does not fit")]
    Past,
    /// Memory ran out.
    #[error("out of memory")]
    Memory,
}

impl From<RowFault> for ElimFault {
    ghost use Rattle.std.specs.Prelude.{◌≡◌};
    ghost use Rattle.fm_elim.specs.Answers.{fault_of};

    ghost from_gives = { λ f e. e ≡ fault_of f };

    fn from(f: RowFault) -> ElimFault {
        match f {
            RowFault::Past => ElimFault::Past,
            RowFault::Memory => ElimFault::Memory,
        }
    }
}

impl From<frac::Past> for ElimFault {
    ghost use Rattle.std.specs.Prelude.{◌≡◌};
    ghost use Rattle.fm_elim.specs.declared.types.ElimFault.TheVariants.{Past};

    ghost from_gives = { λ _ e. e ≡ Past };

    fn from(_p: frac::Past) -> ElimFault {
        ElimFault::Past
    }
}

impl From<AllocError> for ElimFault {
    ghost use Rattle.std.specs.Prelude.{◌≡◌};
    ghost use Rattle.fm_elim.specs.declared.types.ElimFault.TheVariants.{Memory};

    ghost from_gives = { λ _ e. e ≡ Memory };

    fn from(_e: AllocError) -> ElimFault {
        ElimFault::Memory
    }
}

impl<T: Drop> From<AllocFailed<T>> for ElimFault {
    ghost use Rattle.std.specs.Prelude.{◌≡◌};
    ghost use Rattle.fm_elim.specs.declared.types.ElimFault.TheVariants.{Memory};

    ghost from_gives = { λ _ e. e ≡ Memory };

    fn from(_e: AllocFailed<T>) -> ElimFault {
        ElimFault::Memory
    }
}

/// A row with the multipliers that make it from the tightened input rows. The multipliers are an equation over row numbers.
/// Both stand in one box, since every eliminated column moves every row, and a row is a few hundred bytes.
#[derive(Drop)]
pub(crate) struct Derived {
    parts: Box<Parts>,
}

/// The row and its multipliers.
#[derive(Drop)]
struct Parts {
    row: Row,
    by: Row,
}

impl Model for Derived {
    ghost use Rattle.std.specs.Prelude.{◌≡◌};
    ghost use Rattle.lin_rows.specs.declared.types.RowKind.TheVariants.{Eq};
    ghost use Rattle.fm_elim.specs.Derivations.{DerivedRow};

    ghost Value = { DerivedRow };

    ghost view = { λ a. record { row = a.parts.value.row; by = a.parts.value.by } };

    ghost invariant = { λ a. a.parts.value.by.kind ≡ Eq };
}

impl Derived {
    ghost use Rattle.std.specs.Prelude.{◌≡◌, IfOk};
    ghost use Rattle.lin_rows.specs.declared.types.RowKind.TheVariants.{Eq};

    /// The row with its multipliers.
    pub(crate) fn new(alloc: Global, row: Row, by: Row) -> Result<Self, AllocError>
        requires { by.kind ≡ Eq }
        ensures { IfOk result (λ r. r ≡ record { row = row; by = by }) }
    {
        let parts = Box::new(alloc, Parts { row, by })?;
        Ok(Derived { parts })
    }

    /// The row.
    pub(crate) fn row(&self) -> &Row
        ensures { result.now ≡ self.now.row }
    {
        &self.parts.row
    }

    /// Its multipliers.
    pub(crate) fn by(&self) -> &Row
        ensures value { result.now ≡ self.now.by }
        ensures valid { self.now.by.kind ≡ Eq }
    {
        &self.parts.by
    }
}

/// What an eliminated column leaves for its value.
#[derive(Drop)]
pub(crate) enum Aside {
    /// The equality that forces it.
    Forced(Derived),
    /// The lower bounds, and the upper bounds.
    Bounded(Vec<Derived>, Vec<Derived>),
}

/// The rows without an eliminated column, and what is set aside.
#[derive(Drop)]
pub(crate) struct Eliminated {
    pub(crate) rows: Vec<Derived>,
    pub(crate) aside: Aside,
}
