//! Choices, what a step takes, what it did, and why none was made.

ghost use Rattle.std.specs.Prelude.{◌≡◌};

use std::alloc::{AllocError, AllocFailed};
use thiserror::Error;

/// A chosen value: a whole number, 0 or 1 for a truth value, or the number of a way.
#[derive(Clone, Copy, Debug, PartialEq, Eq)]
pub struct Choice(pub i128);

/// What the next step takes.
#[derive(Clone, Copy, Debug, PartialEq, Eq)]
pub enum Need {
    Nothing,
    Whole,
    /// 0 or 1.
    Truth,
    /// A number below this.
    Below(usize),
}

/// An assertion: its number, counted from 1, and the line of its keyword.
#[derive(Clone, Copy, Debug, PartialEq, Eq)]
pub struct AssertId {
    pub number: u32,
    pub line: u32,
}

/// What a step did.
#[derive(Clone, Copy, Debug, PartialEq, Eq)]
pub enum Moved {
    Went,
    /// An assumed condition is false.
    Blocked,
    Failed(AssertId),
    /// The first procedure has returned.
    Ended,
}

/// Why no step was made.
#[derive(Debug, Drop, Error)]
pub enum RunFault {
    #[error("a choice is needed")]
    NeedsChoice,
    #[error("a value does not fit")]
    Number,
    #[error("the choice is none that the step takes")]
    BadChoice,
    #[error("out of memory")]
    Memory,
}

impl From<AllocError> for RunFault {
    ghost use Rattle.boogie_run.specs.declared.types.RunFault.TheVariants.{Memory};

    ghost from_gives = { λ _ e. e ≡ Memory };

    fn from(_e: AllocError) -> RunFault {
        RunFault::Memory
    }
}

impl<T: Drop> From<AllocFailed<T>> for RunFault {
    ghost use Rattle.boogie_run.specs.declared.types.RunFault.TheVariants.{Memory};

    ghost from_gives = { λ _ e. e ≡ Memory };

    fn from(_e: AllocFailed<T>) -> RunFault {
        RunFault::Memory
    }
}
