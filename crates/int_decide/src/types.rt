use farkas_check::Refutation;
use fm_elim::ElimFault;
use std::alloc::{AllocError, AllocFailed};
use thiserror::Error;

/// What is found out about a system.
#[derive(Drop)]
pub enum Answer {
    /// No whole point meets the system: the tree refutes it.
    Refuted(Refutation),
    /// A whole point that meets the system, a value for each column.
    Whole(Vec<i128>),
}

/// What is found out about refutations without cuts.
#[derive(Drop)]
pub enum Uncut {
    /// The tree, which has no cut, refutes the system.
    Refuted(Refutation),
    /// Decide refutes the system not without cuts, and this whole point meets it, a value for each column.
    Met(Vec<i128>),
    /// Decide refutes the system not without cuts.
    Unrefuted,
}

/// Why nothing was found out about a system.
#[derive(Debug, Drop, Error)]
pub enum DecideFault {
    /// A point was not whole, and no cut was left.
    #[error("no cut is left")]
    Gap,
    /// A number would not fit.
    #[error("a number of the decision does not fit")]
    Past,
    /// Memory ran out.
    #[error("out of memory")]
    Memory,
}

impl From<ElimFault> for DecideFault {
    ghost use Rattle.std.specs.Prelude.{◌≡◌};
    ghost use Rattle.int_decide.specs.Answers.{fault_of};

    ghost from_gives = { λ f e. e ≡ fault_of f };

    fn from(f: ElimFault) -> DecideFault {
        match f {
            ElimFault::Past => DecideFault::Past,
            ElimFault::Memory => DecideFault::Memory,
        }
    }
}

impl From<AllocError> for DecideFault {
    ghost use Rattle.std.specs.Prelude.{◌≡◌};
    ghost use Rattle.int_decide.specs.declared.types.DecideFault.TheVariants.{Memory};

    ghost from_gives = { λ _ e. e ≡ Memory };

    fn from(_e: AllocError) -> DecideFault {
        DecideFault::Memory
    }
}

impl<T: Drop> From<AllocFailed<T>> for DecideFault {
    ghost use Rattle.std.specs.Prelude.{◌≡◌};
    ghost use Rattle.int_decide.specs.declared.types.DecideFault.TheVariants.{Memory};

    ghost from_gives = { λ _ e. e ≡ Memory };

    fn from(_e: AllocFailed<T>) -> DecideFault {
        DecideFault::Memory
    }
}
