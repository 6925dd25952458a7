//! A trace of which nothing is known, and why none is read or told.

ghost use Rattle.std.specs.Prelude.{◌≡◌};

use race_core::Cause;
use std::alloc::{AllocError, AllocFailed};
use thiserror::Error;

/// What the text of an unknown program tells: the cause, after how many rounds, and the letters of the trace by their numbers.
#[derive(Debug, Drop)]
pub struct Trace {
    pub cause: Cause,
    pub rounds: u64,
    pub letters: Vec<u32>,
}

/// Why no trace was read.
#[derive(Debug, Drop, Error)]
pub enum TraceFault {
    /// The text is not in the grammar. The line, from 1, is the first that cannot stand there.
    #[error("line {line}: syntax")]
    Syntax { line: u64 },
    /// Memory ran out.
    #[error("out of memory")]
    Memory,
}

impl From<AllocError> for TraceFault {
    ghost use Rattle.explain_top.specs.declared.trace_story.traces.TraceFault.TheVariants.{Memory};

    ghost from_gives = { λ _ e. e ≡ Memory };

    fn from(_e: AllocError) -> TraceFault {
        TraceFault::Memory
    }
}

/// Why no trace was told.
#[derive(Debug, Drop, Error)]
pub enum ToldFault {
    /// The program has no letter of a number.
    #[error("the program has no such letter")]
    BadName,
    /// The letters lead to no failure.
    #[error("the letters lead to no failure")]
    BadStep,
    /// Memory ran out.
    #[error("out of memory")]
    Memory,
}

impl From<AllocError> for ToldFault {
    ghost use Rattle.explain_top.specs.declared.trace_story.traces.ToldFault.TheVariants.{Memory};

    ghost from_gives = { λ _ e. e ≡ Memory };

    fn from(_e: AllocError) -> ToldFault {
        ToldFault::Memory
    }
}

impl<T: Drop> From<AllocFailed<T>> for ToldFault {
    ghost use Rattle.explain_top.specs.declared.trace_story.traces.ToldFault.TheVariants.{Memory};

    ghost from_gives = { λ _ e. e ≡ Memory };

    fn from(_e: AllocFailed<T>) -> ToldFault {
        ToldFault::Memory
    }
}
