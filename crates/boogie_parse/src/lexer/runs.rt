//! Runs of bytes and marks that a text begins with.

ghost use Rattle.std.specs.Prelude.{◌≡◌, ◌≤◌, length};
ghost use Rattle.boogie_parse.specs.Lexing.Tokens.{passing_length, makes_real, mark_at};
ghost use Rattle.boogie_parse.specs.Ties.Class.{passes};

use crate::token::TokenKind;
use boogie_tree::names::{is_digit, is_letter, is_name_byte};

/// The marks, longer ones before those that they begin with.
const MARKS: [&[u8]; 31] = [
    b"<==>", b"==>", b"<==", b":=", b"==", b"!=", b"<=", b">=", b"&&", b"||", b"<:", b"++", b"**",
    b"::", b"(", b")", b"{", b"}", b"[", b"]", b",", b";", b":", b"*", b"+", b"-", b"/", b"%",
    b"!", b"<", b">",
];

/// Bytes that make up tokens in runs.
#[derive(Clone, Copy)]
pub(super) enum Class {
    Digit,
    Name,
    /// All but line feeds.
    Line,
}

impl Class {
    fn has(self, b: u8) -> bool
        ensures { result ≡ passes self b }
    {
        match self {
            Class::Digit => is_digit(b),
            Class::Name => is_name_byte(b),
            Class::Line => b != b'\n',
        }
    }
}

/// How many bytes of the class the text begins with.
pub(super) fn run(class: Class, text: &[u8]) -> usize
    ensures counted { result ≡ passing_length (passes class) text.now }
    ensures within { result ≤ length text.now }
{
    for (i, b) in text.iter().enumerate() {
        if !class.has(*b) {
            return i;
        }
    }
    text.len()
}

/// Whether what follows a run of digits makes it a real.
pub(super) fn makes_real(text: &[u8]) -> bool
    ensures { result ≡ makes_real text.now }
{
    match text {
        [b'.', b, ..] => is_digit(*b),
        [b, ..] => is_letter(*b) || *b == b'_',
        [] => false,
    }
}

pub(super) fn mark_at(text: &[u8]) -> Option<(TokenKind, usize)>
    ensures { result ≡ mark_at text.now }
{
    let mark = MARKS.iter().find(|m| text.starts_with(m))?;
    Some((TokenKind::Mark, mark.len()))
}
