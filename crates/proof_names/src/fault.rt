ghost use Rattle.std.specs.Prelude.{◌≡◌};

use std::alloc::{AllocError, AllocFailed};
use thiserror::Error;

/// Why the lines of an annotation name nothing.
#[derive(Debug, Drop, Error)]
pub enum NameFault {
    /// The number of the first line that names what does not exist, among predicates, triples, nodes and steps, from 0.
    #[error("item {0}")]
    At(u64),
    /// Memory ran out.
    #[error("out of memory")]
    Memory,
}

impl From<AllocError> for NameFault {
    ghost use Rattle.proof_names.specs.declared.fault.NameFault.TheVariants.{Memory};

    ghost from_gives = { λ _ e. e ≡ Memory };

    fn from(_e: AllocError) -> NameFault {
        NameFault::Memory
    }
}

impl<T: Drop> From<AllocFailed<T>> for NameFault {
    ghost use Rattle.proof_names.specs.declared.fault.NameFault.TheVariants.{Memory};

    ghost from_gives = { λ _ e. e ≡ Memory };

    fn from(_e: AllocFailed<T>) -> NameFault {
        NameFault::Memory
    }
}
