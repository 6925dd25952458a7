ghost use Rattle.std.specs.Prelude.{◌≡◌};

use std::alloc::{AllocError, AllocFailed};
use thiserror::Error;

/// Why a list of conjunctions was not made.
#[derive(Debug, Drop, Error)]
pub enum JumpFault {
    /// A list has more than 4,096 members.
    #[error("more than 4,096 paths")]
    TooWide,
    /// A number of a row does not fit.
    #[error("a number of a row does not fit")]
    TooBig,
    /// Memory ran out.
    #[error("out of memory")]
    Memory,
}

impl From<AllocError> for JumpFault {
    ghost use Rattle.cond_jumps.specs.declared.fault.JumpFault.TheVariants.{Memory};

    ghost from_gives = { λ _ e. e ≡ Memory };

    fn from(_e: AllocError) -> JumpFault {
        JumpFault::Memory
    }
}

impl<T: Drop> From<AllocFailed<T>> for JumpFault {
    ghost use Rattle.cond_jumps.specs.declared.fault.JumpFault.TheVariants.{Memory};

    ghost from_gives = { λ _ e. e ≡ Memory };

    fn from(_e: AllocFailed<T>) -> JumpFault {
        JumpFault::Memory
    }
}
