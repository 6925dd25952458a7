ghost use Rattle.std.specs.Prelude.{◌≡◌};

use std::alloc::{AllocError, AllocFailed};
use thiserror::Error;

/// Which check of an annotation fails.
#[derive(Clone, Copy, Debug, PartialEq, Eq)]
pub enum RejectCause {
    /// The refutation of a triple does not refute its system, or the system has a number that does not fit.
    BadTriple,
    /// No entry node at place 0 is without predicates.
    NoStart,
    /// A node at an error place lacks the predicate false.
    OpenError,
    /// A node lacks a step or a back that it has to have.
    MissingStep,
    /// A step or a back is not sound.
    BadStep,
    /// A line names what does not exist, what is of another scope or kind, or a number that does not fit.
    BadName,
}

/// Why an annotation is not accepted.
#[derive(Debug, Drop, Error)]
pub enum Reject {
    /// The first check that fails, at its first item. Items count from 0 through predicates, triples, nodes and steps; the
    /// number of all items stands for the end.
    #[error("item {item}: {cause:?}")]
    At { item: u64, cause: RejectCause },
    /// Memory ran out.
    #[error("out of memory")]
    Memory,
}

impl From<AllocError> for Reject {
    ghost use Rattle.proof_check.specs.declared.rejects.Reject.TheVariants.{Memory};

    ghost from_gives = { λ _ e. e ≡ Memory };

    fn from(_e: AllocError) -> Reject {
        Reject::Memory
    }
}

impl<T: Drop> From<AllocFailed<T>> for Reject {
    ghost use Rattle.proof_check.specs.declared.rejects.Reject.TheVariants.{Memory};

    ghost from_gives = { λ _ e. e ≡ Memory };

    fn from(_e: AllocFailed<T>) -> Reject {
        Reject::Memory
    }
}
