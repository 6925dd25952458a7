ghost use Rattle.std.specs.Prelude.{◌≡◌};

use boogie_tree::Span;
use std::alloc::{AllocError, AllocFailed};
use thiserror::Error;

/// Which typing rule a program breaks, and where.
#[derive(Debug, Drop, Error)]
pub enum TypeFault {
    /// A name that is not seen there.
    #[error("unknown name")]
    Unknown(Span),
    /// A second equal name in one set, a second implementation, or a repeated target.
    #[error("a second one of one name")]
    Twice(Span),
    /// Types, or numbers of arguments or targets, that do not agree, or an `old` where none may stand.
    #[error("types do not agree")]
    Mismatch(Span),
    /// A constant or parameter that is to be written.
    #[error("not assignable")]
    NotAssignable(Span),
    /// A global that is written without being in the list of the modified ones.
    #[error("not in the modifies list")]
    NotModified(Span),
    /// No procedure with a body has the name of the entry.
    #[error("no entry")]
    NoEntry,
    /// A divisor that is 0.
    #[error("the divisor is 0")]
    ZeroDivisor(Span),
    /// A divisor that is no literal.
    #[error("not linear")]
    NonLinear(Span),
    /// A goto or break to a place that it cannot reach.
    #[error("no such label here")]
    BadGoto(Span),
    /// A form with a number that does not fit.
    #[error("a number is too big")]
    TooBig(Span),
    /// Memory ran out.
    #[error("out of memory")]
    Memory,
}

impl From<AllocError> for TypeFault {
    ghost use Rattle.typed_tree.specs.declared.fault.TypeFault.TheVariants.{Memory};

    ghost from_gives = { λ _ e. e ≡ Memory };

    fn from(_e: AllocError) -> TypeFault {
        TypeFault::Memory
    }
}

impl<T: Drop> From<AllocFailed<T>> for TypeFault {
    ghost use Rattle.typed_tree.specs.declared.fault.TypeFault.TheVariants.{Memory};

    ghost from_gives = { λ _ e. e ≡ Memory };

    fn from(_e: AllocFailed<T>) -> TypeFault {
        TypeFault::Memory
    }
}

/// Why an affine form was not made.
#[derive(Debug, Drop, Error)]
pub enum AffineFault {
    /// A coefficient or constant of the form of a part does not fit.
    #[error("a number is too big")]
    TooBig,
    /// Memory ran out.
    #[error("out of memory")]
    Memory,
}

impl From<AllocError> for AffineFault {
    ghost use Rattle.typed_tree.specs.declared.fault.AffineFault.TheVariants.{Memory};

    ghost from_gives = { λ _ e. e ≡ Memory };

    fn from(_e: AllocError) -> AffineFault {
        AffineFault::Memory
    }
}

impl<T: Drop> From<AllocFailed<T>> for AffineFault {
    ghost use Rattle.typed_tree.specs.declared.fault.AffineFault.TheVariants.{Memory};

    ghost from_gives = { λ _ e. e ≡ Memory };

    fn from(_e: AllocFailed<T>) -> AffineFault {
        AffineFault::Memory
    }
}
