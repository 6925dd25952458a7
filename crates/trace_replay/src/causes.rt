ghost use Rattle.std.specs.Prelude.{◌≡◌};

use std::alloc::{AllocError, AllocFailed};
use thiserror::Error;

/// Why a run does not replay.
#[derive(Clone, Copy, Debug, PartialEq, Eq)]
pub enum ReplayCause {
    /// A condition that is assumed is false.
    Blocked,
    /// The run ended without a failure.
    Ended,
    /// A choice is needed and none is left, or all steps were made without an end.
    Short,
    /// A value does not fit.
    Number,
    /// A choice is none that the step takes, or choices are left where an assertion fails.
    BadChoice,
    /// The choices that are told of a word end a run in another way than by a failure: the word has a coarse letter. A replay never ends so.
    Product,
}

/// Why no failure was found.
#[derive(Debug, Drop, Error)]
pub enum ReplayFault {
    /// The run does not replay. Steps count from 1; where all steps were made without an end, it is their number.
    #[error("step {step}: {cause:?}")]
    At { step: u64, cause: ReplayCause },
    /// Memory ran out.
    #[error("out of memory")]
    Memory,
}

impl From<AllocError> for ReplayFault {
    ghost use Rattle.trace_replay.specs.declared.causes.ReplayFault.TheVariants.{Memory};

    ghost from_gives = { λ _ e. e ≡ Memory };

    fn from(_e: AllocError) -> ReplayFault {
        ReplayFault::Memory
    }
}

impl<T: Drop> From<AllocFailed<T>> for ReplayFault {
    ghost use Rattle.trace_replay.specs.declared.causes.ReplayFault.TheVariants.{Memory};

    ghost from_gives = { λ _ e. e ≡ Memory };

    fn from(_e: AllocFailed<T>) -> ReplayFault {
        ReplayFault::Memory
    }
}
