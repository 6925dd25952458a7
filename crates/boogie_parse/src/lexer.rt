//! The tokens of a text, attributes left out, or its first lexical fault.

ghost use Rattle.std.specs.Prelude.{◌≡◌, ◌≢◌, ◌+◌, ◌<◌, ◌^◌, length, map, Ok, Err, IfOk, IfErr};
ghost use Rattle.std.specs.List.{AllByRecursion};
ghost use Rattle.boogie_parse.specs.Lexing.Symbols.{LiteralFits};
ghost use Rattle.boogie_parse.specs.Lexing.Lexed.{found_in, tokens_or_fault, lexed};
ghost use Rattle.boogie_parse.specs.Ties.PieceViews.{piece};
ghost use Rattle.boogie_parse.specs.Lexing.Slices.{AreSlices};

mod attributes;
mod bytes;
mod enclosed;
mod fronts;
mod judgement;
mod piece;
mod runs;
mod scan;
mod token;

use crate::fault::Fault;
use attributes::{attribute_length, begins_attribute};
use judgement::judged;
use piece::Piece;
pub(crate) use scan::behind;
use scan::pieces;
use std::alloc::Global;
pub use token::Token;

/// The tokens of a text, in order, each with its kind, its bytes and its place; else the first lexical fault.
///
/// A token is the longest at its place. Blanks and comments separate tokens, `/*` and `*/` nest. An attribute, `{` and `:`
/// up to the `}` that balances it, is left out wherever it stands, and in it only `Syntax` is a fault. A fault of what
/// stays open, a comment, a string or an attribute, stands where that begins. `Limit` speaks of literals above 2^127-1,
/// `Unsupported` of tokens that other Boogie programs have. Takes time and memory linear in the text.
pub fn lex(alloc: Global, text: &[u8]) -> Result<Vec<Token>, Fault>
    requires short { length text.now + 1 < 2 ^ 32 }
    ensures tokens { IfOk result (λ ts. lexed text.now ≡ Ok ts.items) }
    ensures fault { IfErr result (λ f. f ≢ Fault.Memory → lexed text.now ≡ Err f) }
    ensures slices { IfOk result (λ ts. AreSlices 0 text.now ts.items) }
    ensures literals { IfOk result (λ ts. AllByRecursion LiteralFits ts.items) }
{
    let pieces = pieces(alloc, text)?;
    tokens_of(alloc, &pieces)
}

// The tokens of pieces, in order; else their first fault.
fn tokens_of(alloc: Global, pieces: &[Piece<'_>]) -> Result<Vec<Token>, Fault>
    ensures tokens { IfOk result (λ ts. tokens_or_fault (found_in 0 (map piece pieces.now)) ≡ Ok ts.items) }
    ensures fault { IfErr result (λ f. f ≢ Fault.Memory → tokens_or_fault (found_in 0 (map piece pieces.now)) ≡ Err f) }
{
    let mut found = Vec::new(alloc);
    let mut at = 0;
    while at < pieces.len() {
        let (first, after) = (&pieces[at], &pieces[at + 1..]);
        at += 1;
        if begins_attribute(first, after) {
            at += attribute_length(first.span, after)?;
            continue;
        }
        found.push(judged(alloc, first)?)?;
    }
    Ok(found)
}
