//! Why a program was not lowered.

ghost use Rattle.std.specs.Prelude.{◌≡◌};

use boogie_tree::Span;
use std::alloc::AllocError;
use thiserror::Error;

/// Why a program was not lowered.
#[derive(Debug, Drop, Error)]
pub enum LowerFault {
    /// The item there needs a list of more than 4,096 members.
    #[error("an item needs a list of more than 4,096 members")]
    TooWide(Span),
    /// A number of a row of the item there does not fit.
    #[error("a number of a row does not fit")]
    TooBig(Span),
    /// Memory ran out.
    #[error("out of memory")]
    Memory,
}

impl From<AllocError> for LowerFault {
    ghost use Rattle.icfg_lower.specs.declared.faults.LowerFault.TheVariants.{Memory};

    ghost from_gives = { λ _ e. e ≡ Memory };

    fn from(_e: AllocError) -> LowerFault {
        LowerFault::Memory
    }
}
