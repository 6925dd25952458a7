ghost use Rattle.std.specs.Prelude.{◌≡◌};

use std::alloc::{AllocError, AllocFailed};
use thiserror::Error;

/// Why a text is no program. Lines count line feeds from 1, columns count bytes from 1.
#[derive(Debug, Drop, Error)]
pub enum Fault {
    /// What stands there can't stand there.
    #[error("line {line}, column {col}: syntax")]
    Syntax { line: u32, col: u32 },
    /// What stands there belongs to a part of Boogie that is left out.
    #[error("line {line}, column {col}: unsupported")]
    Unsupported { what: What, line: u32, col: u32 },
    /// What stands there goes past a limit.
    #[error("line {line}, column {col}: past a limit")]
    Limit { which: Which, line: u32, col: u32 },
    /// Memory ran out.
    #[error("out of memory")]
    Memory,
}

/// A limit of programs.
#[derive(Clone, Copy, Debug, PartialEq, Eq)]
pub enum Which {
    /// Literals up to 2^127-1.
    Literal,
    /// 200 open parentheses, 200 open blocks, expressions 200 deep.
    Nesting,
    /// 1,000 procedure declarations.
    Procedures,
    /// 1,000 variables in one declaration.
    Variables,
}

/// A part of Boogie that is left out.
#[derive(Clone, Copy, Debug, PartialEq, Eq)]
pub enum What {
    /// `[` and `]`
    Map,
    /// `forall`, `exists`, `lambda` and `::`
    Quantifier,
    /// `type`, `function`, `where` and `unique`
    Declaration,
    /// `<==`, `<:`, `++`, `/`, `%` and `**`
    Operator,
    /// `then`
    Conditional,
    /// `async`, `yield` and `par`
    Concurrency,
    /// `real`, and literals with a fraction or a letter behind them
    Real,
}

impl From<AllocError> for Fault {
    ghost use Rattle.boogie_parse.specs.declared.fault.Fault.TheVariants.{Memory};

    ghost from_gives = { λ _ e. e ≡ Memory };

    fn from(_e: AllocError) -> Fault {
        Fault::Memory
    }
}

impl<T: Drop> From<AllocFailed<T>> for Fault {
    ghost use Rattle.boogie_parse.specs.declared.fault.Fault.TheVariants.{Memory};

    ghost from_gives = { λ _ e. e ≡ Memory };

    fn from(_e: AllocFailed<T>) -> Fault {
        Fault::Memory
    }
}
