use std::alloc::{AllocError, AllocFailed};
use thiserror::Error;

/// A lasso: the numbers of the letters of its stem, from the start of the program, and of its loop.
#[derive(Drop)]
pub struct Lasso {
    pub stem: Vec<u32>,
    /// The letters of one turn of the loop.
    pub turn: Vec<u32>,
}

/// Why there is no lasso.
#[derive(Debug, Drop, Error)]
pub enum LassoFault {
    /// The text is not of its form, at this line first.
    #[error("line {line} cannot stand there")]
    Syntax { line: u64 },
    /// The line names what is not there.
    #[error("line {line} names what is not there")]
    BadName { line: u64 },
    /// The letters of the line lead nowhere, or not back.
    #[error("the letters of line {line} are no way")]
    BadStep { line: u64 },
    /// Memory ran out.
    #[error("out of memory")]
    Memory,
}

impl From<AllocError> for LassoFault {
    ghost use Rattle.std.specs.Prelude.{◌≡◌};
    ghost use Rattle.rank_lasso.specs.declared.lasso_ranks.lassos.LassoFault.TheVariants.{Memory};

    ghost from_gives = { λ _ e. e ≡ Memory };

    fn from(_e: AllocError) -> LassoFault {
        LassoFault::Memory
    }
}

impl<T: Drop> From<AllocFailed<T>> for LassoFault {
    ghost use Rattle.std.specs.Prelude.{◌≡◌};
    ghost use Rattle.rank_lasso.specs.declared.lasso_ranks.lassos.LassoFault.TheVariants.{Memory};

    ghost from_gives = { λ _ e. e ≡ Memory };

    fn from(_e: AllocFailed<T>) -> LassoFault {
        LassoFault::Memory
    }
}
