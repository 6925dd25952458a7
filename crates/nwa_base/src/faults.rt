ghost use Rattle.std.specs.Prelude.{◌≡◌};

use std::alloc::{AllocError, AllocFailed};
use thiserror::Error;

/// Why an automaton was not made or changed.
#[derive(Debug, Drop, Error)]
pub enum NwaFault {
    /// A state is out of range.
    #[error("a state is out of range")]
    BadState,
    /// The letter is of another kind.
    #[error("the letter is of another kind")]
    BadLetter,
    /// Memory ran out.
    #[error("out of memory")]
    Memory,
}

impl From<AllocError> for NwaFault {
    ghost use Rattle.nwa_base.specs.declared.faults.NwaFault.TheVariants.{Memory};

    ghost from_gives = { λ _ e. e ≡ Memory };

    fn from(_e: AllocError) -> NwaFault {
        NwaFault::Memory
    }
}

impl<T: Drop> From<AllocFailed<T>> for NwaFault {
    ghost use Rattle.nwa_base.specs.declared.faults.NwaFault.TheVariants.{Memory};

    ghost from_gives = { λ _ e. e ≡ Memory };

    fn from(_e: AllocFailed<T>) -> NwaFault {
        NwaFault::Memory
    }
}
