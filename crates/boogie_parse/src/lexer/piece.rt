//! What a text is cut into.

ghost use Rattle.std.specs.Prelude.{◌≡◌};
ghost use Rattle.boogie_parse.specs.Ties.PieceViews.{front, piece};
ghost use Rattle.boogie_parse.specs.Lexing.Attributes as spec;
ghost use Rattle.boogie_parse.specs.Ties.Turns.{length_of};

use crate::token::TokenKind;
use boogie_tree::Span;

/// What a piece is.
#[derive(Clone, Copy)]
pub(super) enum Shape {
    /// A token.
    Lexeme(TokenKind),
    /// A string.
    Quoted,
    /// Digits, and directly behind them a letter, an underscore, or a point and a digit.
    RealLiteral,
    /// Digits that count more than 2^127-1.
    LargeLiteral,
    /// No token begins so, or a comment or a string stays open.
    Stray,
}

/// What a text begins with, and how many bytes that has.
#[derive(Clone, Copy)]
pub(super) enum Front {
    /// A blank or a comment.
    Skipped(usize),
    Found(Shape, usize),
}

/// A piece of a text where it stands.
#[derive(Clone, Copy)]
pub(super) struct Piece<'a> {
    pub span: Span,
    pub shape: Shape,
    pub text: &'a [u8],
}

/// Whether the piece is the mark with these bytes.
pub(super) fn is_mark(candidate: &Piece<'_>, mark: &[u8]) -> bool
    ensures { result ≡ spec.is_mark mark.now (piece candidate.now) }
{
    matches!(candidate.shape, Shape::Lexeme(TokenKind::Mark)) && candidate.text == mark
}

impl Front {
    /// How many bytes it has.
    pub(super) fn len(self) -> usize
        ensures { result ≡ length_of (front self) }
    {
        match self {
            Front::Skipped(len) | Front::Found(_, len) => len,
        }
    }
}
