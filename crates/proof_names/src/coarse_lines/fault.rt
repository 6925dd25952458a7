use std::alloc::{AllocError, AllocFailed};
use thiserror::Error;

/// Why the coarse lines of an annotation are not those that its triples ask for.
#[derive(Debug, Drop, Error)]
pub enum CoarseFault {
    /// The line at this place among the coarse lines, from 0, is wrong.
    #[error("coarse line {0}")]
    Line(usize),
    /// The letter of the triple at this place, from 0, is coarse and has no line.
    #[error("triple {0}")]
    Triple(usize),
    /// Memory ran out.
    #[error("out of memory")]
    Memory,
}

impl From<AllocError> for CoarseFault {
    ghost use Rattle.std.specs.Prelude.{◌≡◌};
    ghost use Rattle.proof_names.specs.declared.coarse_lines.fault.CoarseFault.TheVariants.{Memory};

    ghost from_gives = { λ _ e. e ≡ Memory };

    fn from(_e: AllocError) -> CoarseFault {
        CoarseFault::Memory
    }
}

impl<T: Drop> From<AllocFailed<T>> for CoarseFault {
    ghost use Rattle.std.specs.Prelude.{◌≡◌};
    ghost use Rattle.proof_names.specs.declared.coarse_lines.fault.CoarseFault.TheVariants.{Memory};

    ghost from_gives = { λ _ e. e ≡ Memory };

    fn from(_e: AllocFailed<T>) -> CoarseFault {
        CoarseFault::Memory
    }
}
