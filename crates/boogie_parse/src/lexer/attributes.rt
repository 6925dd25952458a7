//! Attributes: where they begin and end, and what may not stand inside them.

ghost use Rattle.std.specs.Prelude.{◌≡◌, ◌+◌, ◌^◌, ◌<◌, ◌≤◌, length, map, IfOk, IfSome};
ghost use Rattle.boogie_parse.specs.Lexing.Attributes as spec;
ghost use Rattle.boogie_parse.specs.Ties.PieceViews.{piece};
ghost use Rattle.boogie_parse.specs.Ties.Turns as turns;

use super::judgement::syntax_at;
use super::piece::{Piece, Shape, is_mark};
use crate::fault::Fault;
use boogie_tree::Span;

/// Whether an attribute begins with the first piece, before these.
pub(super) fn begins_attribute(first: &Piece<'_>, after: &[Piece<'_>]) -> bool
    ensures { result ≡ spec.begins_attribute (piece first.now) (map piece after.now) }
{
    match after {
        [second, ..] => is_mark(first, b"{") && is_mark(second, b":"),
        [] => false,
    }
}

// How many braces are open behind a piece, with so many more open inside an attribute before it; none where the piece
// closes the attribute.
fn open_behind(inner: usize, next: &Piece<'_>) -> Option<usize>
    requires { inner < 2 ^ 63 }
    ensures is { result ≡ turns.open_behind inner (piece next.now) }
    ensures bounds { IfSome result (λ more. more ≤ inner + 1) }
{
    if is_mark(next, b"{") {
        Some(inner + 1)
    } else if is_mark(next, b"}") {
        inner.checked_sub(1)
    } else {
        Some(inner)
    }
}

// How many pieces stand behind an open brace, up to the `}` that balances it; none where it stays open.
fn braced_length(pieces: &[Piece<'_>]) -> Option<usize>
    ensures counted { result ≡ spec.braced_length 0 (map piece pieces.now) }
    ensures within { IfSome result (λ len. len ≤ length pieces.now) }
{
    let mut inner = 0;
    for (i, next) in pieces.iter().enumerate() {
        let Some(open) = open_behind(inner, next) else {
            return Some(i + 1);
        };
        inner = open;
    }
    None
}

// The place of the first piece that may not stand inside an attribute.
fn first_stray(pieces: &[Piece<'_>]) -> Option<Span>
    ensures { result ≡ turns.first_stray (map piece pieces.now) }
{
    for next in pieces {
        if let Shape::Stray = next.shape {
            return Some(next.span);
        }
    }
    None
}

/// How many pieces stand behind the brace that opens an attribute, up to its end; else its first fault.
pub(super) fn attribute_length(here: Span, after: &[Piece<'_>]) -> Result<usize, Fault>
    ensures counted { result ≡ turns.attribute_length here (map piece after.now) }
    ensures within { IfOk result (λ len. len ≤ length after.now) }
{
    let Some(len) = braced_length(after) else {
        return Err(syntax_at(here));
    };
    match first_stray(&after[..len]) {
        Some(stray) => Err(syntax_at(stray)),
        None => Ok(len),
    }
}
