ghost use Rattle.std.specs.Prelude.{◌≡◌};

use boogie_run::{AssertId, Choice};
use std::alloc::{AllocError, AllocFailed};
use thiserror::Error;

/// A run in short: how many steps it has at most, and the values that it reads, in order.
#[derive(Debug, Drop)]
pub struct Trail {
    pub steps: u64,
    pub choices: Vec<Choice>,
}

/// What the text of an unsafe program tells: after how many rounds, which assertion fails, and by which run.
#[derive(Debug, Drop)]
pub struct Failure {
    pub rounds: u64,
    pub id: AssertId,
    pub trail: Trail,
}

/// Why no failure was read.
#[derive(Debug, Drop, Error)]
pub enum FailureFault {
    /// The text is not in the grammar. The line, from 1, is the first that cannot stand there.
    #[error("line {line}: syntax")]
    Syntax { line: u64 },
    /// Memory ran out.
    #[error("out of memory")]
    Memory,
}

impl From<AllocError> for FailureFault {
    ghost use Rattle.trace_replay.specs.declared.failure.FailureFault.TheVariants.{Memory};

    ghost from_gives = { λ _ e. e ≡ Memory };

    fn from(_e: AllocError) -> FailureFault {
        FailureFault::Memory
    }
}

impl<T: Drop> From<AllocFailed<T>> for FailureFault {
    ghost use Rattle.trace_replay.specs.declared.failure.FailureFault.TheVariants.{Memory};

    ghost from_gives = { λ _ e. e ≡ Memory };

    fn from(_e: AllocFailed<T>) -> FailureFault {
        FailureFault::Memory
    }
}
