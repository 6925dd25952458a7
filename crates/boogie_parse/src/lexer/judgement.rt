//! What a piece outside attributes is: a token or a fault.

ghost use Rattle.std.specs.Prelude.{◌≡◌, ◌≢◌, Ok, Err, IfOk, IfErr};
ghost use Rattle.boogie_parse.specs.Lexing.Lexed as spec;
ghost use Rattle.boogie_parse.specs.Ties.PieceViews as views;
ghost use Rattle.boogie_parse.specs.Ties.Turns.{judgement};

use super::piece::{Piece, Shape};
use super::token::Token;
use crate::fault::{Fault, What, Which};
use crate::token::TokenKind;
use boogie_tree::{Span, Text};
use std::alloc::Global;

/// The tokens of parts of Boogie that are left out.
const LEFT_OUT: [(&[u8], What); 21] = [
    (b"[", What::Map),
    (b"]", What::Map),
    (b"forall", What::Quantifier),
    (b"exists", What::Quantifier),
    (b"lambda", What::Quantifier),
    (b"::", What::Quantifier),
    (b"type", What::Declaration),
    (b"function", What::Declaration),
    (b"where", What::Declaration),
    (b"unique", What::Declaration),
    (b"<==", What::Operator),
    (b"<:", What::Operator),
    (b"++", What::Operator),
    (b"/", What::Operator),
    (b"%", What::Operator),
    (b"**", What::Operator),
    (b"then", What::Conditional),
    (b"async", What::Concurrency),
    (b"yield", What::Concurrency),
    (b"par", What::Concurrency),
    (b"real", What::Real),
];

// The part that a token's text belongs to, if it is left out.
fn left_out(text: &[u8]) -> Option<What>
    ensures { result ≡ spec.beside_text text.now spec.left_out }
{
    let (_, part) = LEFT_OUT.iter().find(|row| text == row.0)?;
    Some(*part)
}

/// What can't stand here.
pub(super) fn syntax_at(here: Span) -> Fault
    ensures { result ≡ spec.syntax_at here }
{
    Fault::Syntax {
        line: here.line,
        col: here.col,
    }
}

// A token, unless its text belongs to a part that is left out.
fn supported(alloc: Global, span: Span, kind: TokenKind, text: &[u8]) -> Result<Token, Fault>
    ensures token { IfOk result (λ t. spec.supported span kind text.now (spec.beside_text text.now spec.left_out) ≡ Ok t) }
    ensures fault { IfErr result (λ f. f ≢ Fault.Memory →
        spec.supported span kind text.now (spec.beside_text text.now spec.left_out) ≡ Err f) }
{
    if let Some(what) = left_out(text) {
        return Err(Fault::Unsupported {
            what,
            line: span.line,
            col: span.col,
        });
    }
    let text = Text::new(Vec::from_slice(alloc, text)?);
    Ok(Token { span, kind, text })
}

/// What a piece outside attributes is: a token, or a fault.
pub(super) fn judged(alloc: Global, piece: &Piece<'_>) -> Result<Token, Fault>
    ensures token { IfOk result (λ t. judgement (views.piece piece.now) ≡ Ok t) }
    ensures fault { IfErr result (λ f. f ≢ Fault.Memory → judgement (views.piece piece.now) ≡ Err f) }
{
    let Span { line, col } = piece.span;
    match piece.shape {
        Shape::Lexeme(kind) => supported(alloc, piece.span, kind, piece.text),
        Shape::Quoted | Shape::Stray => Err(syntax_at(piece.span)),
        Shape::RealLiteral => Err(Fault::Unsupported {
            what: What::Real,
            line,
            col,
        }),
        Shape::LargeLiteral => Err(Fault::Limit {
            which: Which::Literal,
            line,
            col,
        }),
    }
}
