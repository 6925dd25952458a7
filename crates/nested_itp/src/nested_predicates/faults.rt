ghost use Rattle.std.specs.Prelude.{◌≡◌};

use std::alloc::{AllocError, AllocFailed};
use thiserror::Error;

/// Why there are no interpolants.
#[derive(Debug, Drop, Error)]
pub enum ItpFault {
    /// A number of the prefix predicates, or of the refutations of their triples, does not fit.
    #[error("a number of the interpolants does not fit")]
    Past,
    /// Memory ran out.
    #[error("out of memory")]
    Memory,
}

impl From<AllocError> for ItpFault {
    ghost use Rattle.nested_itp.specs.declared.nested_predicates.faults.ItpFault.TheVariants.{Memory};

    ghost from_gives = { λ _ e. e ≡ Memory };

    fn from(_e: AllocError) -> ItpFault {
        ItpFault::Memory
    }
}

impl<T: Drop> From<AllocFailed<T>> for ItpFault {
    ghost use Rattle.nested_itp.specs.declared.nested_predicates.faults.ItpFault.TheVariants.{Memory};

    ghost from_gives = { λ _ e. e ≡ Memory };

    fn from(_e: AllocFailed<T>) -> ItpFault {
        ItpFault::Memory
    }
}
