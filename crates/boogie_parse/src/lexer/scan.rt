//! The pieces of a text, with their places.

ghost use Rattle.std.specs.Prelude.{◌≡◌, ◌+◌, ◌<◌, ◌^◌, length, map, IfOk};
ghost use Rattle.boogie_parse.specs.Lexing.Places as places;
ghost use Rattle.boogie_parse.specs.Lexing.Pieces as spec;
ghost use Rattle.boogie_parse.specs.Ties.PieceViews.{piece};

use super::fronts::front_of;
use super::piece::{Front, Piece};
use boogie_tree::Span;
use std::alloc::{AllocError, Global};

// The place behind a byte that stands here.
fn behind_byte(b: u8, here: Span) -> Span
    requires line { here.line + 1 < 2 ^ 32 }
    requires column { here.col + 1 < 2 ^ 32 }
    ensures { result ≡ places.behind_byte b here }
{
    if b == b'\n' {
        Span {
            line: here.line + 1,
            col: 1,
        }
    } else {
        Span {
            line: here.line,
            col: here.col + 1,
        }
    }
}

/// The place behind bytes that begin here.
pub(crate) fn behind(bytes: &[u8], here: Span) -> Span
    requires lines { here.line + length bytes.now < 2 ^ 32 }
    requires columns { here.col + length bytes.now < 2 ^ 32 }
    ensures { result ≡ places.behind bytes.now here }
{
    let mut at = here;
    for b in bytes {
        at = behind_byte(*b, at);
    }
    at
}

/// The pieces of a text, in order.
pub(super) fn pieces(alloc: Global, text: &[u8]) -> Result<Vec<Piece<'_>>, AllocError>
    requires short { length text.now + 1 < 2 ^ 32 }
    ensures { IfOk result (λ found. map piece found.items ≡ spec.pieces text.now) }
{
    let mut found = Vec::new(alloc);
    let mut here = Span { line: 1, col: 1 };
    let mut rest = text;
    while let Some(front) = front_of(rest) {
        let (text, after) = rest.split_at(front.len());
        if let Front::Found(shape, _) = front {
            found.push(Piece {
                span: here,
                shape,
                text,
            })?;
        }
        here = behind(text, here);
        rest = after;
    }
    Ok(found)
}
