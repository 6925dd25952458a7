ghost use Rattle.std.specs.Prelude.{◌≡◌};
ghost use Rattle.boogie_parse.specs.Reading.Outcomes.{place_or, syntax_fault, limit_fault};

use crate::fault::{Fault, Which};
use crate::symbols::Symbol;
use boogie_tree::Span;
use std::alloc::Global;

/// What reading needs beside the symbols: memory, and the place just past the text's end.
#[derive(Clone, Copy, Drop)]
pub(crate) struct Parser {
    pub alloc: Global,
    pub end: Span,
}

impl Parser {
    /// The fault of a first symbol that can't stand there.
    pub(crate) fn refused(&self, symbols: &[Symbol]) -> Fault
        ensures { result ≡ syntax_fault (place_or self.now.end symbols.now) }
    {
        let place = match symbols {
            [first, ..] => first.span,
            [] => self.end,
        };
        Fault::Syntax {
            line: place.line,
            col: place.col,
        }
    }
}

/// The fault of going past a limit.
pub(crate) fn past_limit(which: Which, place: Span) -> Fault
    ensures { result ≡ limit_fault which place }
{
    Fault::Limit {
        which,
        line: place.line,
        col: place.col,
    }
}
