//! How far comments and strings reach.

ghost use Rattle.std.specs.Prelude.{◌≡◌, ◌+◌, ◌^◌, ◌<◌, ◌≤◌, length, IfSome};
ghost use Rattle.boogie_parse.specs.Lexing.Pieces.{string_length, comment_length};
ghost use Rattle.boogie_parse.specs.Ties.Turns as turns;

/// How many bytes stand in a string that is open, up to the `"` that closes it; none where it stays open on its line.
pub(super) fn string_length(text: &[u8]) -> Option<usize>
    ensures counted { result ≡ string_length 34 text.now }
    ensures within { IfSome result (λ len. len ≤ length text.now) }
{
    let mut before = b'"';
    for (i, b) in text.iter().enumerate() {
        if *b == b'\n' {
            return None;
        }
        if *b == b'"' && before != b'\\' {
            return Some(i + 1);
        }
        before = *b;
    }
    None
}

// What two bytes do to a comment with more open inside it: how many are open behind, and how many of the bytes that
// takes; none where they close it.
fn comment_turn(inner: usize, a: u8, b: u8) -> Option<(usize, usize)>
    requires { inner < 2 ^ 63 }
    ensures is { result ≡ turns.comment_turn inner a b }
    ensures bounds { IfSome result (λ turn. (0 < turn.1) × (turn.1 ≤ 2) × (turn.0 ≤ inner + turn.1)) }
{
    if a == b'/' && b == b'*' {
        Some((inner + 1, 2))
    } else if a == b'*' && b == b'/' {
        if inner == 0 {
            None
        } else {
            Some((inner - 1, 2))
        }
    } else {
        Some((inner, 1))
    }
}

/// How many bytes stand in a comment that is open, up to the end of the `*/` that closes it; none where it stays open.
pub(super) fn comment_length(text: &[u8]) -> Option<usize>
    ensures counted { result ≡ comment_length 0 text.now }
    ensures within { IfSome result (λ len. len ≤ length text.now) }
{
    let mut inner = 0;
    let mut at = 0;
    while at + 1 < text.len() {
        let Some((open, len)) = comment_turn(inner, text[at], text[at + 1]) else {
            return Some(at + 2);
        };
        inner = open;
        at += len;
    }
    None
}
