ghost use Rattle.std.specs.Prelude.{◌≡◌};

use std::alloc::{AllocError, AllocFailed};
use thiserror::Error;

/// Why a text is no annotation.
#[derive(Debug, Drop, Error)]
pub enum ProofFault {
    /// The first line that cannot stand where it does, or one more than the last where the text ends early. Lines count from 1.
    #[error("line {line}: syntax")]
    Syntax {
        /// The line's number.
        line: u64,
    },
    /// Memory ran out.
    #[error("out of memory")]
    Memory,
}

impl From<AllocError> for ProofFault {
    ghost use Rattle.proof_form.specs.declared.fault.ProofFault.TheVariants.{Memory};

    ghost from_gives = { λ _ e. e ≡ Memory };

    fn from(_e: AllocError) -> ProofFault {
        ProofFault::Memory
    }
}

impl<T: Drop> From<AllocFailed<T>> for ProofFault {
    ghost use Rattle.proof_form.specs.declared.fault.ProofFault.TheVariants.{Memory};

    ghost from_gives = { λ _ e. e ≡ Memory };

    fn from(_e: AllocFailed<T>) -> ProofFault {
        ProofFault::Memory
    }
}
