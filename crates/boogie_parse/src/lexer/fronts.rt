//! What a text begins with.

ghost use Rattle.std.specs.Prelude.{◌≡◌, ◌≤◌, length, drop, option_map};
ghost use Rattle.boogie_tree.specs.Names.{is_digit};
ghost use Rattle.boogie_parse.specs.Lexing.Tokens.{passing_length};
ghost use Rattle.boogie_parse.specs.Lexing.Pieces as spec;
ghost use Rattle.boogie_parse.specs.Ties.PieceViews.{front};
ghost use Rattle.boogie_parse.specs.Ties.Turns.{first_mark, front_of};

use super::bytes::is_blank;
use super::enclosed::{comment_length, string_length};
use super::piece::{Front, Shape};
use super::runs::{Class, makes_real, mark_at, run};
use crate::literals::literal;
use crate::token::TokenKind;
use boogie_tree::names::{is_digit, is_name_byte};

// A text that begins with a digit. A literal that is too large is no real, whatever stands behind it.
fn literal_front(text: &[u8]) -> Front
    ensures { front result ≡ spec.literal_front (passing_length is_digit text.now) text.now }
{
    let len = run(Class::Digit, text);
    let (digits, after) = text.split_at(len);
    let shape = if literal(digits).is_none() {
        Shape::LargeLiteral
    } else if makes_real(after) {
        Shape::RealLiteral
    } else {
        Shape::Lexeme(TokenKind::Literal)
    };
    Front::Found(shape, len)
}

// A text that begins with `"`, by what stands behind that. An open string takes the rest of its line.
fn string_front(after: &[u8]) -> Front
    ensures { front result ≡ spec.string_front (passing_length spec.is_in_line after.now) (spec.string_length 34 after.now) }
{
    match string_length(after) {
        Some(len) => Front::Found(Shape::Quoted, 1 + len),
        // Counted here alone, so that a line with many strings is read once.
        None => Front::Found(Shape::Stray, 1 + run(Class::Line, after)),
    }
}

// A text that begins with `/*`. An open comment takes the rest of the text.
fn comment_front(text: &[u8]) -> Front
    requires { 2 ≤ length text.now }
    ensures { front result ≡ spec.comment_front (length text.now) (spec.comment_length 0 (drop 2 text.now)) }
{
    match comment_length(&text[2..]) {
        Some(len) => Front::Skipped(2 + len),
        None => Front::Found(Shape::Stray, text.len()),
    }
}

// A text that begins with a mark or with nothing at all.
fn mark_front(text: &[u8]) -> Front
    ensures { front result ≡ first_mark text.now }
{
    match mark_at(text) {
        Some((kind, len)) => Front::Found(Shape::Lexeme(kind), len),
        None => Front::Found(Shape::Stray, 1),
    }
}

/// What the text begins with; none where it has no bytes.
pub(super) fn front_of(text: &[u8]) -> Option<Front>
    ensures { option_map front result ≡ front_of text.now }
{
    let (first, after) = text.split_first()?;
    Some(if is_blank(*first) {
        Front::Skipped(1)
    } else if is_digit(*first) {
        literal_front(text)
    } else if is_name_byte(*first) {
        Front::Found(Shape::Lexeme(TokenKind::Word), run(Class::Name, text))
    } else if *first == b'"' {
        string_front(after)
    } else if text.starts_with(b"//") {
        Front::Skipped(run(Class::Line, text))
    } else if text.starts_with(b"/*") {
        comment_front(text)
    } else {
        mark_front(text)
    })
}
